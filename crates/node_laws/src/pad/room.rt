//! The law of the room that a PAD takes in the book of its line.
ghost use Rattle.node_laws.specs.Pads.Rooms.{KeyRoom, BreakRoom, PrintRoom, LeavingRoom, ArrivalRoom, IdleRoom};
ghost use Rattle.node_laws.specs.Pads.Rooms.{FrameRoom, RelinkRoom, TimerRoom};

/// How much an event of a PAD writes into the book of its line, over definitions alone, so that room for it can be made
/// before: with room for two writes and for a pair all that the PAD notes is written. An event opens one record or
/// epoch at most: by a key that dials (X.28 3.2.2), by a reset of either end, or by a frame that brings a call.
pub fn pad_room_law()
    // What happens at a terminal.
    ensures keys { KeyRoom }
    ensures breaks { BreakRoom }
    ensures prints { PrintRoom }
    ensures leavings { LeavingRoom }
    ensures arrivals { ArrivalRoom }
    ensures idle_times { IdleRoom }

    // What comes from the line, and the timers of the line and of the terminals.
    ensures frames { FrameRoom }
    ensures relinks { RelinkRoom }
    ensures timers { TimerRoom }
{}
