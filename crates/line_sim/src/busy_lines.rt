//! The lines on which frames may be in flight.
ghost use Rattle.std.specs.Prelude.{◌≡◌, ◌⊎◌, ℕ, false};
ghost use Rattle.wide_set.specs.WideSet.{has};
ghost use Rattle.line_sim.specs.InFlight.{FindNone, IsNotPutOn};

use frame_lines::{Direction, Line};
use net_events::{Answer, Event, Put};
use net_nodes::Nodes;
use wide_set::WideSet;

/// Adds the lines on which an event that was answered put frames, and takes out the line from which it took the last
/// one.
#[inline(always)]
pub(crate) fn note_frames<L: Line>(
    busy: &mut WideSet,
    nodes: &Nodes<L>,
    event: &Event,
    answer: &Answer,
)
    ensures { (line : ℕ) → has busy.new line ≡ false
        → (has busy.old line ≡ false) × IsNotPutOn line answer.now.frames.items ⊎ FindNone L.service line nodes.now }
{
    add_lines(busy, answer.frames.as_slice());
    match event {
        Event::Deliver { line, .. } | Event::Lose { line, .. } => {
            remove_if_empty(busy, nodes, *line);
        }
        _ => {}
    }
}

/// Adds the lines on which frames were put.
#[inline(always)]
fn add_lines(busy: &mut WideSet, puts: &[Put])
    ensures { (line : ℕ) → has busy.new line ≡ false → (has busy.old line ≡ false) × IsNotPutOn line puts.now }
{
    for put in puts {
        busy.insert(put.line);
    }
}

/// Takes a line out if it is certain that no frame is in flight on it.
#[inline(always)]
fn remove_if_empty<L: Line>(busy: &mut WideSet, nodes: &Nodes<L>, line: usize)
    ensures { (n : ℕ) → has busy.new n ≡ false → (has busy.old n ≡ false) ⊎ FindNone L.service n nodes.now }
{
    if nodes.finds_none(line, Direction::FromDte) && nodes.finds_none(line, Direction::FromDce) {
        busy.remove(line);
    }
}
