//! The frames that a node has to send at the end of an event.
ghost use Rattle.std.specs.Prelude.{◌≡◌, ◌≤◌, [], length};
ghost use Rattle.user_nodes.specs.Node.{drained, frames_of};
ghost use Rattle.user_nodes.specs.NodeView.{node_of};
ghost use Rattle.node_events.specs.Sends.{Sends};

use frame_lines::{Direction, Line};
use line_end::MOST_FRAMES;
use net_events::Puts;
use user_nodes::Node;

/// Puts all frames that wait at a node on its line, which is that of this number, and lists them.
#[inline(always)]
pub fn put_frames<L: Line>(
    node: &mut Node,
    number: usize,
    line: &mut L,
    direction: Direction,
    puts: &mut Puts,
)
    requires empty { puts.old.items ≡ [] }
    requires room { MOST_FRAMES ≤ puts.old.room }
    ensures node { node_of node.new ≡ drained (node_of node.old) }
    ensures puts { Sends L.service direction number (frames_of (node_of node.old)) (L.flights line.old) puts.new.items
        (L.flights line.new) }
    ensures places { puts.new.room ≡ puts.old.room }
    ensures most { length puts.new.items ≤ puts.new.room }
{
    for _ in 0..node.waiting_frames() {
        let frame = puts.add(number, direction);
        node.out(frame);
        line.put(direction, frame);
    }
}
