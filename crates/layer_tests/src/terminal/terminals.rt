//! A terminal dials, and is shown that its call is connected.
use arrayvec::ArrayVec;
use pad_terminal::{CallCondition, Mode, TEXT_LIMIT, Terminal};
use std::alloc::Global;
use x3_params::{Params, Profile};

const NO_CALL: CallCondition = CallCondition {
    queue_full: false,
    reset_pending: false,
    may_interrupt: false,
};

fn dials(terminal: &mut Terminal) -> bool {
    for octet in b"2001\r" {
        let _ = terminal.on_key(*octet, NO_CALL);
    }
    let waits = terminal.mode() == Mode::CallSetUp;
    terminal.on_connected();
    waits && terminal.mode() == Mode::DataTransfer
}

fn is_shown(terminal: &mut Terminal, text: &[u8]) -> bool {
    let mut out = ArrayVec::<u8, TEXT_LIMIT>::new();
    terminal.print(&mut out);
    out.as_slice() == text
}

fn is_connected(alloc: Global) -> bool {
    let params = Params::profile(Profile::Simple, 14);
    match Terminal::new(alloc, params, false) {
        Ok(mut terminal) => {
            dials(&mut terminal) && is_shown(&mut terminal, b"2001\r\r\nCOM\r\n")
        }
        Err(_) => false,
    }
}

#[test]
fn a_terminal_dials(rt: HostRuntime) {
    assert!(rt; is_connected(rt.alloc()));
}
