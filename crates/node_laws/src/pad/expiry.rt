//! The law of the timers of a PAD.
ghost use Rattle.node_laws.specs.Pads.Expiry.{ExpiryLaw};

/// The law of the timers of a PAD, over definitions alone. When the timer that is due expires, fewer of the PAD's
/// timers are due than before, those of its terminals among them: it is stopped, and one that is started has ticks left
/// (X.25 2.4.8.1, annex D; X.3 3.4).
pub fn pad_expiry_law()
    ensures { ExpiryLaw }
{}
