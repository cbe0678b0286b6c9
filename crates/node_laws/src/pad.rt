//! That each event of a PAD with its terminals keeps what is kept of its line and of the book of its calls, and that
//! its calls carry what its terminals typed.
mod expiry;
mod occasions;
mod own;
mod presence;
mod room;
mod sending;

ghost use Rattle.node_laws.specs.Pads.PadClauses.{KeyLaw, BreakLaw, IdleLaw, PrintLaw, LeavingLaw, ArrivalLaw};
ghost use Rattle.node_laws.specs.Pads.PadClauses.{FrameLaw, TimerLaw, RelinkLaw, RestartLaw, TimeLaw, MakingLaw};

pub use expiry::pad_expiry_law;
pub use occasions::{event_course_law, occasion_law, typed_law};
pub use own::own_text_law;
pub use presence::presence_law;
pub use room::pad_room_law;
pub use sending::pad_records_law;

/// The law of a PAD on a line, over definitions alone. From the making on, whatever comes to it and whatever happens
/// at its terminals: the book, written from the PAD's notes alone, has what its packet layer was asked and told, its
/// frames go onto the line or are lost there, and the same is kept as before (X.25 2.4, 3, 4; X.28; X.29).
pub fn pad_line_law()
    // What happens at a terminal.
    ensures keys { KeyLaw }
    ensures breaks { BreakLaw }
    ensures idle_times { IdleLaw }
    ensures prints { PrintLaw }
    ensures leavings { LeavingLaw }
    ensures arrivals { ArrivalLaw }

    // What comes from the line.
    ensures frames { FrameLaw }
    ensures timers { TimerLaw }
    ensures relinks { RelinkLaw }
    ensures restarts { RestartLaw }

    // Time, and the making.
    ensures times { TimeLaw }
    ensures made { MakingLaw }
{}
