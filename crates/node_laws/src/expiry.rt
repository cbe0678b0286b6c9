//! That what is due at a node comes to an end.

ghost use Rattle.node_laws.specs.Expiry.{ExpiryLaw};

/// The law of the timers of a node, over definitions alone. When the timer that is due expires, fewer of the node's
/// timers are due than before, on any line: the timer is stopped, and one that is started has ticks left (X.25 2.4.8.1,
/// annex D).
pub fn expiry_law()
    ensures { ExpiryLaw }
{}
