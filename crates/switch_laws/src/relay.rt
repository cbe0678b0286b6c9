//! The laws of the calls that a switch joins.
ghost use Rattle.switch_laws.specs.Concern.{ConcernLaw};
ghost use Rattle.switch_laws.specs.Events.{EventLaw};
ghost use Rattle.switch_laws.specs.Isolated.{IsolationLaw};
ghost use Rattle.switch_laws.specs.RelayLaws.{JoinLaw, RelayLaw, SwitchLaw, TurnLaw};
ghost use Rattle.switch_laws.specs.Pairs.{PairLaw};
ghost use Rattle.switch_laws.specs.Sent.{SentLaw};

/// One direction of a join, over the definitions of the layer and of the switch alone. What the switch sends on the far
/// leg, with what it gathers after that, is what it takes on the near leg, item by item, and packet by packet between
/// lines of one size. A packet with D = 1 is released only when the far leg's P(R) covers all that it made due. What
/// ends a sequence of packets leaves nothing gathered. After as many moves as a leg can have waiting (`most_moves`)
/// nothing waits on the near leg that the far leg takes (X.25 4.3.3, 4.3.4).
pub fn relay_law()
    ensures { RelayLaw }
{}

/// Both directions of a join. The clause holds from the connection on, over each relay, over all that comes on a leg
/// and leaves it in data transfer, whatever was sent there, and over all that goes to its line. A reset of one leg
/// begins new epochs of both, also if both are reset at once (X.25 4.4.3).
pub fn join_law()
    ensures { JoinLaw }
{}

/// All joins of a switch, whatever its partners send and in any order. The clause of the relay holds for each of them,
/// over the relay on all lines and over all that a line brings. After the relay nothing waits on a leg that the other
/// leg takes. Both legs of a join begin and end together.
pub fn switch_law()
    ensures { SwitchLaw }
{}

/// What becomes of a call that comes in, with the causes for which it is cleared in their order, and with which calling
/// address it goes on. A channel has a call exactly while it is joined, and then the other leg has one too.
pub fn pair_law()
    ensures { PairLaw }
{}

/// Whole events of a switch, whatever octets come on its lines, also when it sets a link up again: all joins hold after
/// each of them, and nothing waits on a leg that the other leg takes.
pub fn turn_law()
    ensures { TurnLaw }
{}

/// Which joins an event has to relay: those with a leg on its line or on one whose link is set up again in it. If
/// nothing waited before that could go on, the relay on all joins is the relay on these.
pub fn concern_law()
    ensures { ConcernLaw }
{}

/// What happens on one line of a switch leaves each join of two other lines untouched, with what the switch keeps for
/// it and the channels of both legs. Else one of the two lines was set up again in the event, and a fifth packet came
/// to be owed there.
pub fn isolation_law()
    ensures { IsolationLaw }
{}

/// What waits to go out on each line after an event is the frames of the event's steps, all of them and in order. They
/// are the answer to what happened there, what is sent if the link is set up again, and what goes at the end. They are
/// nine at most, since no link is set up twice at the end of an event.
pub fn sent_law()
    ensures { SentLaw }
{}

/// A switch from its making on, whatever comes to it and in whatever order: it stays one of which the laws above speak,
/// and its legs move as its packet layers do. So the owner of a switch keeps, from event to event, what the laws ask
/// for.
pub fn switch_events_law()
    ensures { EventLaw }
{}
