//! What happens at a switch: it is called, its frames go onto its lines, and the call that it joined is handed on.
ghost use Rattle.std.specs.Prelude.{◌≡◌, ◌≤◌, length};
ghost use Rattle.std.specs.Option.{option_to_list};
ghost use Rattle.call_records.specs.RegisterView.{register_of};
ghost use Rattle.net_events.specs.AtSwitch.{HasOwnLine, switched, joins_of, all_handed};
ghost use Rattle.net_events.specs.EventView.{switch_event_of};
ghost use Rattle.net_events.specs.Network.{own_role};
ghost use Rattle.node_events.specs.Switching.{is_anew, CanPut, SwitchServed};

use crate::net_line::NetLine;
use crate::putting::put_lines;
use crate::roles::role_of;
use call_records::{ChannelEnd, Register};
use frame_lines::Line;
use net_events::{Puts, SwitchEvent, network_line};
use x25_switch::{NewJoin, Switch};

/// Calls the switch, and answers the call that it joined, if it did.
fn call_switch(switch: &mut Switch, event: &SwitchEvent<'_>) -> Option<NewJoin>
    requires { HasOwnLine (switch_event_of event.now) switch.old }
    ensures join { option_to_list result ≡ joins_of (switch_event_of event.now) switch.old }
    ensures switch { switch.new ≡ switched (switch_event_of event.now) switch.old }
{
    match event {
        SwitchEvent::Hears(own, octets) => switch.on_frame(*own, octets),
        SwitchEvent::Expires(own, timer) => {
            let _ = switch.on_timer(*own, *timer);
            None
        }
        SwitchEvent::Relinks(own) => {
            switch.relink(*own);
            None
        }
        SwitchEvent::Restarts => {
            switch.restart();
            None
        }
    }
}

/// Hands on in the register the call that a switch joined, if it did: from the far end of the channel on which it came
/// in to the switch's own end of that on which it goes on.
fn hand_on(register: &mut Register, lines: &[usize], switch: &Switch, joined: Option<NewJoin>)
    ensures { register_of register.new
        ≡ all_handed lines.now (own_role switch.now) (option_to_list joined) (register_of register.old) }
{
    if let Some(join) = joined {
        let (from, to) = (join.came_in, join.placed);
        register.hand_on(
            ChannelEnd {
                line: network_line(lines, from.line),
                role: role_of(switch, from.line).other(),
                channel: from.channel,
            },
            ChannelEnd {
                line: network_line(lines, to.line),
                role: role_of(switch, to.line),
                channel: to.channel,
            },
        );
    }
}

/// Whether the switch restarts.
fn is_anew(event: &SwitchEvent<'_>) -> bool
    ensures { result ≡ is_anew (switch_event_of event.now) }
{
    matches!(event, SwitchEvent::Restarts)
}

/// Serves an event at a switch, each of whose own lines is this line of the network, and lists the frames that it puts.
pub fn serve_switch<L: Line>(
    switch: &mut Switch,
    own: &[usize],
    lines: &mut Vec<NetLine<L>>,
    register: &mut Register,
    event: &SwitchEvent<'_>,
    puts: &mut Puts,
)
    requires has_line { HasOwnLine (switch_event_of event.now) switch.old }
    requires can_put { CanPut own.now switch.old.lines lines.old.items puts.old.items puts.old.room }
    ensures served { SwitchServed L.service (switch_event_of event.now) (record { lines = own.now; switch = switch.old })
        lines.old.items (register_of register.old) switch.new lines.new.items (register_of register.new)
        puts.new.items }
    ensures places { puts.new.room ≡ puts.old.room }
    ensures most { length puts.new.items ≤ puts.new.room }
{
    let joined = call_switch(switch, event);
    hand_on(register, own, switch, joined);
    put_lines(switch, own, lines, is_anew(event), puts);
}
