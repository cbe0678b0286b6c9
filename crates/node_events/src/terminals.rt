//! What happens at the terminals of a PAD.
ghost use Rattle.std.specs.Prelude.{◌≡◌, ◌≤◌, ◌<◌, [], length, vec_capacity};
ghost use Rattle.x25_pad.specs.Pad.{print_text};
ghost use Rattle.user_nodes.specs.Terminals.{after_terminal, text_shown};
ghost use Rattle.user_nodes.specs.declared.terminal.TerminalEvent.TheVariants as terminal_event;
ghost use Rattle.node_events.specs.Outcomes.{pad_outcome};

use arrayvec::ArrayVec;
use net_events::Outcome;
use user_nodes::TerminalEvent;
use x25_pad::{MOST_TEXT, Pad};

/// Something happens at a terminal of a PAD: gives the outcome, and adds what the terminal shows to the text.
#[inline(always)]
pub(crate) fn at_terminal(
    pad: &mut Pad,
    terminal: u8,
    event: TerminalEvent,
    text: &mut Vec<u8>,
    outcome: &mut Outcome,
)
    requires there { terminal < length pad.old.ports }
    requires empty { text.old.items ≡ [] }
    requires places { MOST_TEXT ≤ vec_capacity text.old }
    ensures pad { pad.new ≡ after_terminal terminal event pad.old }
    ensures outcome { outcome.new ≡ pad_outcome terminal event pad.old }
    ensures text { text.new.items ≡ text_shown terminal event pad.old }
    ensures kept { vec_capacity text.old ≤ vec_capacity text.new }
    ensures most { length text.new.items ≤ MOST_TEXT }
{
    match event {
        TerminalEvent::Key(octet) => *outcome = Outcome::Typed(pad.on_key(terminal, octet)),
        TerminalEvent::Break => *outcome = Outcome::Typed(pad.on_break(terminal)),
        TerminalEvent::Idle => *outcome = Outcome::Typed(pad.on_idle(terminal)),
        TerminalEvent::Print => {
            show(pad, terminal, text);
            *outcome = Outcome::Printed;
        }
        TerminalEvent::Leaves => {
            pad.on_leaving(terminal);
            *outcome = Outcome::Done;
        }
        TerminalEvent::Arrives => {
            pad.on_arriving(terminal);
            *outcome = Outcome::Done;
        }
    }
}

/// Shows what waits at a terminal.
#[inline(never)]
fn show(pad: &mut Pad, terminal: u8, text: &mut Vec<u8>)
    requires there { terminal < length pad.old.ports }
    requires empty { text.old.items ≡ [] }
    requires places { MOST_TEXT ≤ vec_capacity text.old }
    ensures pad { pad.new ≡ after_terminal terminal terminal_event.Print pad.old }
    ensures text { text.new.items ≡ print_text terminal pad.old }
    ensures kept { vec_capacity text.old ≤ vec_capacity text.new }
    ensures most { length text.new.items ≤ MOST_TEXT }
{
    let mut shown: ArrayVec<u8, MOST_TEXT> = ArrayVec::new();
    let _ = pad.print(terminal, &mut shown);
    let Ok(()) = text.extend_from_slice(shown.as_slice()) else {
        unreachable!()
    };
}
