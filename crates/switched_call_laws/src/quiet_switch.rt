//! That a switch is quiet between two events, whatever its lines bring, and that what is due at it comes to an end.
ghost use Rattle.switched_call_laws.specs.QuietSwitches.Quiet.{FrameQuietLaw, TimerQuietLaw, RelinkQuietLaw, RestartQuietLaw};
ghost use Rattle.switched_call_laws.specs.QuietSwitches.Quiet.{TimeQuietLaw, OutQuietLaw, MakingQuietLaw, GoneOutLaw};
ghost use Rattle.switched_call_laws.specs.QuietSwitches.Due.{SwitchFewerLaw};

/// The law of a switch between two events, over definitions alone. From the making on, and whatever arrives: once the
/// frames of an event went out, nothing of it is left at the end of any line (X.25 2.4, 3, 4).
pub fn switch_quiet_law()
    ensures frames { FrameQuietLaw }
    ensures timers { TimerQuietLaw }
    ensures relinks { RelinkQuietLaw }
    ensures restarts { RestartQuietLaw }
    ensures elapses { TimeQuietLaw }

    // The frames go out, of one line after the other.
    ensures out { OutQuietLaw }
    ensures gone { GoneOutLaw }

    // The making.
    ensures made { MakingQuietLaw }
{}

/// The law of the timers of a switch, over definitions alone. When the timer that is due on a line expires, fewer of
/// the timers of all lines are due than before: the timer is stopped, and one that is started has ticks left (X.25
/// 2.4.8.1, annex D).
pub fn switch_due_law()
    ensures { SwitchFewerLaw }
{}
