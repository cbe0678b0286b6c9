//! Terminals that no client has.
ghost use Rattle.service.specs.Absent.{LeavesAbsent, LeavesPad};

use crate::exchange::Exchange;
use crate::place::{Place, is_bound};
use line_sim::Line;

/// A PAD: its number in the network, how many terminals it has, and how many logical channels its line has.
#[derive(Clone, Copy)]
pub struct PadBinding {
    pub node: usize,
    pub terminals: u16,
    pub channels: u8,
}

/// Tells each PAD that nobody is at its terminals besides those of these places.
pub(crate) fn leave_absent<L: Line>(
    exchange: &mut Exchange<L>,
    pads: &[PadBinding],
    places: &[Place],
)
    ensures { LeavesAbsent L.service pads.now places.now exchange.old.net exchange.new.net }
{
    for pad in pads {
        leave_pad(exchange, *pad, places);
    }
}

fn leave_pad<L: Line>(exchange: &mut Exchange<L>, pad: PadBinding, places: &[Place])
    ensures { LeavesPad L.service pad places.now exchange.old.net exchange.new.net }
{
    for number in 0..pad.terminals {
        let place = Place {
            node: pad.node,
            number,
        };
        if is_bound(place, places) {
            continue;
        }
        exchange.leave(place);
    }
}
