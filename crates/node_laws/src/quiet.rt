//! That a node is quiet between two events, whatever line it is on.

ghost use Rattle.node_laws.specs.Quiet.{QuietHearingLaw, QuietExpiryLaw, QuietRelinkLaw, QuietRestartLaw, QuietCallLaw};
ghost use Rattle.node_laws.specs.Quiet.{QuietAskingLaw, QuietRefusalLaw, QuietSayingLaw, QuietTakingLaw};
ghost use Rattle.node_laws.specs.Quiet.{QuietTerminalLaw, QuietTimeLaw, QuietMakingLaw};

/// The law of a node between two events, over definitions alone. From the making on, and whatever arrives, also what no
/// node of this kind would send: each turn leaves nothing unread and less than a block held. Its notes open at most one
/// record or epoch in the book, and only if a frame arrives (X.25 3, 4; X.3).
pub fn quiet_law()
    // What comes from the line.
    ensures hears { QuietHearingLaw }
    ensures expires { QuietExpiryLaw }
    ensures relinks { QuietRelinkLaw }
    ensures restarts { QuietRestartLaw }

    // What the user of a host asks.
    ensures calls { QuietCallLaw }
    ensures asks { QuietAskingLaw }
    ensures refuses { QuietRefusalLaw }
    ensures says { QuietSayingLaw }
    ensures takes { QuietTakingLaw }

    // What happens at a terminal of a PAD, time, and the making.
    ensures terminals { QuietTerminalLaw }
    ensures elapses { QuietTimeLaw }
    ensures made { QuietMakingLaw }
{}
