//! The calls that a switch joined, with the records of their two legs.
ghost use Rattle.switched_call_laws.specs.JoinedCalls.JoinLaws.{CallsLaw};

/// The law of the calls that a switch joined: each has the same two records, in the books of its two lines, from its
/// making to its end and from then on. While it lasts they are the present records of its channels; when it is over
/// they stay as they are. At all times what the switch sent on one leg is, reset by reset, what it took on the other
/// (X.25 4.3.3, 4.4.3). So it is over each event of the switch, restarts among them, which write at its own ends alone,
/// and whatever is written at the other ends of its lines. The calls that a frame joins are those that the switch
/// answers; an expiry joins none, nor does a link that is set up again.
pub fn joined_call_law()
    ensures { CallsLaw }
{}
