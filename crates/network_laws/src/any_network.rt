//! What holds of a network with switches, and of any network that is served.
ghost use Rattle.network_laws.specs.Switched.Laws.{MadeLaw, EventLaw, SwitchEventLaw, LossLaw, PlacedTimeLaw, PromiseLaw};
ghost use Rattle.network_laws.specs.Switched.Idle.{IdleExpiryLaw};
ghost use Rattle.network_laws.specs.Switched.Laws.{FewerLaw, SwitchFewerLaw, RestLaw, DeliveredLaw};

use frame_lines::Line;

/// The law of a network of nodes with users, with a tree of switches or without one, over definitions alone. It holds
/// from the making on, whatever happens at which node, at which switch and on which line. Then:
///
/// - Each pair of the register's records matches both ways, over one line or through any number of switches.
/// - No record is in two pairs, and each that took anything is in one.
/// - A call went from switch to switch to the callee, on the lines that the routes of each switch name.
/// - A PAD's records have sent what its terminals typed.
/// - What is due comes to an end, and an expiry at a switch of a timer that does not run changes nothing.
/// - If all nodes are at rest, and each switch on all its lines, nothing is missing, through switches too.
pub fn any_network_law<L: Line>()
    ensures made { MadeLaw L.service }
    ensures event { EventLaw L.service }
    ensures switch_event { SwitchEventLaw L.service }
    ensures loss { LossLaw L.service }
    ensures time { PlacedTimeLaw L.service }
    ensures promise { PromiseLaw L.service }
    ensures fewer_due { FewerLaw L.service }
    ensures fewer_due_at_switch { SwitchFewerLaw L.service }
    ensures idle_expiry { IdleExpiryLaw L.service }
    ensures rest { RestLaw L.service }
    ensures delivered { DeliveredLaw L.service }
{}
