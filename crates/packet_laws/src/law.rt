//! The law of a line between two packet layers.
ghost use Rattle.packet_laws.specs.Counts.{CountsLaw};
ghost use Rattle.packet_laws.specs.Counted.{LineCountsLaw};
ghost use Rattle.packet_laws.specs.LayerLineLaw.{LineLaw};
ghost use Rattle.packet_laws.specs.Owed.{OwedLaw};

/// The law of a line, over the definitions of the layer alone. It holds whatever is called at the two ends, whatever
/// timers expire, and however the sessions of the link begin and end. What an end takes in an epoch of a call begins
/// what the other end sent in that same epoch. What a P(R) covered was released at the other end. The epochs of the two
/// ends stay in step. No packet that arrives is a procedure error.
pub fn line_law()
    ensures { LineLaw }
{}

/// What the numbers of data transfer name, at one end and whatever its partner does. A Data packet carries the packet
/// whose place in the epoch its P(S) names. A P(R) names how many packets were released (X.25 4.4.1).
pub fn counts_law()
    ensures { CountsLaw }
{}

/// How much is owed between two ends of a line, over the definitions of the layer alone. It holds whatever is called at
/// the two ends, whatever timers expire, and however the sessions of the link begin and end. An end owes at most 2
/// restart packets. On each channel it owes at most 4 control packets: 3 in a call, 1 if it placed a call that is not
/// answered. So the limit of 4 is never passed. Of all events only an expiry of the restart timer makes an end ask for
/// a relink: only strangers owe a fifth packet.
pub fn owed_law()
    ensures { OwedLaw }
{}

/// On a line the numbers of each channel in data transfer name the counts of the present epochs of which `line_law`
/// speaks, at both ends. So nothing is still to be covered exactly if each packet of the present epoch with D = 1 is
/// covered (X.25 4.3.3, 4.4.1).
pub fn line_counts_law()
    ensures { LineCountsLaw }
{}
