//! What is typed at a PAD on a call that stands, written into the book of its line and told to its terminal.
ghost use Rattle.std.specs.Prelude.{◌≡◌, ◌≤◌, [], length, vec_capacity};

use crate::lines::{LINE, STANDING};
use call_records::{Book, Record};
use link_timers::Role;
use node_laws::pad_room_law;
use packet_codec::Numbering;
use packet_end::{EndFault, EndParams};
use packet_layer::Flow;
use std::alloc::Global;
use user_nodes::{Attachment, CallUser, MOST_NOTES, NoteKind, UserNote, write_pad_notes};
use x3_params::{Params, Profile};
use x25_pad::{Pad, PadConfig};

/// A PAD of so many terminals on a line.
pub(crate) fn new_pad(alloc: Global, line: EndParams, terminals: u8) -> Result<Pad, EndFault> {
    let config = PadConfig {
        line,
        params: Params::profile(Profile::Simple, 14),
        terminals,
    };
    Pad::new(alloc, config)
}

// A line with packets of 256 octets.
const WIDE: EndParams = EndParams {
    flow: Flow {
        window: 2,
        numbering: Numbering::Modulo8,
        size: 256,
    },
    ..LINE
};

fn is_refused(alloc: Global, line: EndParams) -> bool {
    new_pad(alloc, line, 1).err() == Some(EndFault::BadConfig)
}

#[test]
fn the_line_of_a_pad_has_packets_of_128_octets(rt: HostRuntime) {
    assert!(rt; is_refused(rt.alloc(), WIDE));
}

/// Where the PAD is attached: its line, its end of it, and its number.
const AT: Attachment = Attachment {
    line: 0,
    role: Role::Dte,
    node: 5,
};

/// A key on a call that stands: with room for two writes all that the PAD notes is written and told.
fn type_key(pad: &mut Pad, octet: u8, book: &mut Book, notes: &mut Vec<UserNote>)
    requires room { 2 ≤ book.old.room }
    requires pairs { 1 ≤ book.old.pairs }
    requires there { 1 ≤ length pad.old.ports }
    requires empty { notes.old.items ≡ [] }
    requires places { MOST_NOTES ≤ vec_capacity notes.old }
{
    pad_room_law();
    let _ = pad.on_key(0, octet);
    if pad.waiting_notes() > 0 {
        write_pad_notes(pad, AT, book, notes);
    }
}

/// Types at the first terminal, and lists what it is told at the last key. Whether there was room for all.
fn type_keys(pad: &mut Pad, octets: &[u8], book: &mut Book, notes: &mut Vec<UserNote>) -> bool {
    for octet in octets {
        notes.clear();
        if pad.terminals() == 0 || notes.capacity() < MOST_NOTES {
            return false;
        }
        match book.reserve(2) {
            Ok(()) => type_key(pad, *octet, book, notes),
            Err(_) => return false,
        }
    }
    true
}

/// Whether three keys are written, and one packet that was sent.
fn are_typed(records: &[Record]) -> bool {
    match records {
        [pad, _] => pad.steps.len() == 3 && pad.sent.last().packets.len() == 1,
        _ => false,
    }
}

/// Whether a terminal is told that its call on channel 1 was cleared by its PAD.
fn are_of_clearing(notes: &[UserNote]) -> bool {
    match notes {
        [note] => {
            note.node == AT.node
                && note.channel == 1
                && note.user == CallUser::Terminal(Some(0))
                && matches!(
                    note.kind,
                    NoteKind::Cleared {
                        cause: 0,
                        diagnostic: 0,
                    }
                )
        }
        _ => false,
    }
}

fn writes_keys(pad: &mut Pad, book: &mut Book, notes: &mut Vec<UserNote>) -> bool {
    type_keys(pad, b"HI\r", book, notes) && notes.is_empty() && are_typed(book.records())
}

fn tells_of_clearing(pad: &mut Pad, book: &mut Book, notes: &mut Vec<UserNote>) -> bool {
    type_keys(pad, b"\x10CLR\r", book, notes) && are_of_clearing(notes.as_slice())
}

/// Whether what is typed at a new PAD is written into a new book, and told.
fn is_written(alloc: Global) -> bool {
    match Book::new(alloc, 3, 4, 2, true) {
        Ok(mut book) => is_typed(alloc, &mut book),
        Err(_) => false,
    }
}

fn is_typed(alloc: Global, book: &mut Book) -> bool {
    match (
        new_pad(alloc, STANDING, 1),
        Vec::with_capacity(alloc, MOST_NOTES),
    ) {
        (Ok(mut pad), Ok(mut notes)) => {
            writes_keys(&mut pad, book, &mut notes) && tells_of_clearing(&mut pad, book, &mut notes)
        }
        _ => false,
    }
}

#[test]
fn what_a_terminal_types_is_written_and_told(rt: HostRuntime) {
    assert!(rt; is_written(rt.alloc()));
}
