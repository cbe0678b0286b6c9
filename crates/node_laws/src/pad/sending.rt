//! The law of what a PAD sends.
ghost use Rattle.node_laws.specs.Pads.RecordClauses.{SentLaw, KeyHolds, BreakHolds, PrintHolds, LeavingHolds, ArrivalHolds};
ghost use Rattle.node_laws.specs.Pads.RecordClauses.{FrameHolds, RelinkHolds, TimerHolds, RestartHolds, TimeHolds, DrainedHolds};
ghost use Rattle.node_laws.specs.Pads.RecordClauses.{FarHolds, MadeHolds};

/// The law of a PAD and of the book of its line, over definitions alone. It holds at the making, and after each event
/// at either end, whatever octets arrive as frames, whichever timers expire, and whatever is written at the other end
/// (X.3; X.28 3.2, 3.3; X.29 4.4). On each call of each terminal:
///
/// - The user items of all sent epochs, one after the other, are the blocks that the editing rules make of the steps of
///   that call: for each block its octets and an end.
/// - The qualified items are an answer to each message taken that asks for one, and an indication of each break that
///   asks for one.
/// - Each interrupt is that of a break or of a command.
/// - Text that is held stays over a reset, and is dropped when the call ends.
pub fn pad_records_law()
    ensures sent { SentLaw }
    ensures made { MadeHolds }

    // What happens at a terminal.
    ensures keys { KeyHolds }
    ensures breaks { BreakHolds }
    ensures prints { PrintHolds }
    ensures leavings { LeavingHolds }
    ensures arrivals { ArrivalHolds }

    // What comes from the line, and the timers of the line and of the terminals.
    ensures frames { FrameHolds }
    ensures timers { TimerHolds }
    ensures relinks { RelinkHolds }
    ensures restarts { RestartHolds }

    // Time, what is read, and the other end.
    ensures times { TimeHolds }
    ensures drained { DrainedHolds }
    ensures far { FarHolds }
{}
