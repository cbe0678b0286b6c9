//! The frames that a switch has to send at the end of an event go onto its lines, one line after the other.
ghost use Rattle.std.specs.Prelude.{◌≡◌, ◌≤◌, ◌<◌, ◌+◌, ◌++◌, true, false, length};
ghost use Rattle.frame_lines.specs.Lines.{ArePut};
ghost use Rattle.switch_lines.specs.Lines.{changed};
ghost use Rattle.net_events.specs.AtSwitch.{switch_drained, waiting_on, line_drained};
ghost use Rattle.net_events.specs.Network.{own_role};
ghost use Rattle.net_events.specs.OneLine.{direction_of};
ghost use Rattle.node_events.specs.Switching.{CanPut, LinesPut, puts_on, all_puts};

use crate::net_line::NetLine;
use crate::roles::role_of;
use crate::serving::direction_of;
use frame_lines::Line;
use line_end::MOST_FRAMES;
use net_events::{Puts, network_line};
use x25_switch::Switch;

/// Puts all frames that wait on an own line of a switch on the line of this number, in the direction of the switch's
/// role there, and lists them after those before.
fn put_switch_frames<L: Line>(
    switch: &mut Switch,
    own: usize,
    number: usize,
    line: &mut L,
    puts: &mut Puts,
)
    requires there { own < length switch.old.lines }
    requires room { length puts.old.items + MOST_FRAMES ≤ puts.old.room }
    ensures switch { switch.new ≡ record switch.old { lines = changed own line_drained switch.old.lines } }
    ensures puts { puts.new.items
        ≡ puts.old.items ++ puts_on number (direction_of (own_role switch.old own)) (waiting_on own switch.old) }
    ensures most { length puts.new.items ≤ length puts.old.items + MOST_FRAMES }
    ensures places { puts.new.room ≡ puts.old.room }
    ensures line { L.service.faithful
        → ArePut L.service (direction_of (own_role switch.old own)) (waiting_on own switch.old) (L.flights line.old)
        (L.flights line.new) }
{
    let direction = direction_of(role_of(switch, own));
    for _ in 0..switch.waiting_frames(own) {
        let frame = puts.add(number, direction);
        switch.out(own, frame);
        line.put(direction, frame);
    }
}

/// Empties the lines of a switch that restarts, puts all frames that wait there on them, line by line, and lists
/// them.
fn put_anew<L: Line>(
    switch: &mut Switch,
    own: &[usize],
    lines: &mut Vec<NetLine<L>>,
    puts: &mut Puts,
)
    requires { CanPut own.now switch.old.lines lines.old.items puts.old.items puts.old.room }
    ensures switch { switch.new ≡ switch_drained switch.old }
    ensures puts { puts.new.items ≡ all_puts own.now switch.old.lines }
    ensures lines { LinesPut L.service true own.now switch.old lines.old.items lines.new.items }
    ensures places { puts.new.room ≡ puts.old.room }
    ensures most { length puts.new.items ≤ puts.new.room }
{
    for at in 0..own.len() {
        let number = network_line(own, at);
        let net_line = &mut lines[number];
        net_line.line.empty();
        put_switch_frames(switch, at, number, &mut net_line.line, puts);
    }
}

/// Puts all frames that wait at a switch on its lines, line by line, and lists them. The lines on which none waits are
/// not looked at.
fn put_waiting<L: Line>(
    switch: &mut Switch,
    own: &[usize],
    lines: &mut Vec<NetLine<L>>,
    puts: &mut Puts,
)
    requires { CanPut own.now switch.old.lines lines.old.items puts.old.items puts.old.room }
    ensures switch { switch.new ≡ switch_drained switch.old }
    ensures puts { puts.new.items ≡ all_puts own.now switch.old.lines }
    ensures lines { LinesPut L.service false own.now switch.old lines.old.items lines.new.items }
    ensures places { puts.new.room ≡ puts.old.room }
    ensures most { length puts.new.items ≤ puts.new.room }
{
    let mut waiting = switch.with_frames();
    while let Some(at) = waiting.take_first() {
        let number = network_line(own, at);
        let net_line = &mut lines[number];
        put_switch_frames(switch, at, number, &mut net_line.line, puts);
    }
}

/// Puts all frames that wait at a switch on its lines, line by line, and lists them. If the switch restarts,
/// each line is emptied first.
pub fn put_lines<L: Line>(
    switch: &mut Switch,
    own: &[usize],
    lines: &mut Vec<NetLine<L>>,
    anew: bool,
    puts: &mut Puts,
)
    requires { CanPut own.now switch.old.lines lines.old.items puts.old.items puts.old.room }
    ensures switch { switch.new ≡ switch_drained switch.old }
    ensures puts { puts.new.items ≡ all_puts own.now switch.old.lines }
    ensures lines { LinesPut L.service anew own.now switch.old lines.old.items lines.new.items }
    ensures places { puts.new.room ≡ puts.old.room }
    ensures most { length puts.new.items ≤ puts.new.room }
{
    if anew {
        put_anew(switch, own, lines, puts);
    } else {
        put_waiting(switch, own, lines, puts);
    }
}
