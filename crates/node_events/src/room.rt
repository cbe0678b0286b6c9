//! The lists of an answer, which keep their room from event to event.
ghost use Rattle.std.specs.Prelude.{◌≡◌, ◌≤◌, [], OnOk, IsOk, vec_capacity};
ghost use Rattle.node_events.specs.AnswerRoom.{IsRoomy};
ghost use Rattle.node_events.specs.Served.{IsEmpty};

use line_end::MOST_FRAMES;
use net_events::{Answer, Outcome};
use std::alloc::AllocError;
use switch_joins::MOST_LINES;
use user_nodes::MOST_NOTES;

/// An event puts no more frames than this: those of a switch on all its lines.
pub const MOST_PUTS: usize = MOST_LINES * MOST_FRAMES;

/// Empties an answer's lists, and makes room if there is too little: for the frames and notes of one event of a node,
/// and for so many octets of text.
#[inline(always)]
pub fn make_room(answer: &mut Answer, octets: usize) -> Result<(), AllocError>
    ensures empty { OnOk result (IsEmpty answer.new) }
    ensures text { OnOk result (octets ≤ vec_capacity answer.new.text) }
    ensures kept { IsRoomy answer.old → octets ≤ 3200 → IsRoomy answer.new }
    ensures ready { IsRoomy answer.old → octets ≤ 3200 → IsOk result }
{
    clear(answer);
    answer.frames.reserve(MOST_FRAMES)?;
    if answer.notes.capacity() < MOST_NOTES {
        answer.notes.reserve(MOST_NOTES)?;
    }
    if answer.text.capacity() < octets {
        answer.text.reserve(octets)?;
    }
    Ok(())
}

/// Empties an answer's lists, and makes room for so many frames, if there is less.
pub fn make_frame_room(answer: &mut Answer, frames: usize) -> Result<(), AllocError>
    ensures frames { answer.new.frames.items ≡ [] }
    ensures notes { answer.new.notes.items ≡ [] }
    ensures text { answer.new.text.items ≡ [] }
    ensures room { OnOk result (frames ≤ answer.new.frames.room) }
    ensures kept { IsRoomy answer.old → frames ≤ 576 → IsRoomy answer.new }
    ensures ready { IsRoomy answer.old → frames ≤ 576 → IsOk result }
{
    clear(answer);
    answer.frames.reserve(frames)
}

/// Makes an answer one without frames, notes and text, which takes no memory: its lists keep their room.
pub fn make_bare(answer: &mut Answer, outcome: Outcome)
    ensures frames { answer.new.frames.items ≡ [] }
    ensures notes { answer.new.notes.items ≡ [] }
    ensures text { answer.new.text.items ≡ [] }
    ensures outcome { answer.new.outcome ≡ outcome }
    ensures kept { IsRoomy answer.old → IsRoomy answer.new }
{
    clear(answer);
    answer.outcome = outcome;
}

/// Empties an answer's lists, which keep their room.
#[inline(always)]
fn clear(answer: &mut Answer)
    ensures frames { answer.new.frames.items ≡ [] }
    ensures notes { answer.new.notes.items ≡ [] }
    ensures text { answer.new.text.items ≡ [] }
    ensures kept { IsRoomy answer.old → IsRoomy answer.new }
{
    answer.frames.clear();
    answer.notes.clear();
    answer.text.clear();
}
