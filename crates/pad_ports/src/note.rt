//! What a PAD notes of an event, in order.
ghost use Rattle.std.specs.Prelude.{◌≡◌, ◌<◌, ◌≤◌, IfOk, length, drop};
ghost use Rattle.std.specs.Prelude.{option_copied, vec_len, vec_capacity};
ghost use Rattle.pad_ports.specs.NoteView.{pad_note_of, maybe_pad_note};
ghost use Rattle.pad_ports.specs.Notes.{first_noted, noted_of, nothing_noted, without_first};

use crate::taken::{MOST_OCTETS, PadTaken};
use packet_codec::Address;
use packet_layer::{LayerNote, UserData};
use std::alloc::{AllocError, Global};
use std::marker::Model;
use x3_params::Params;

/// The most notes that the packet layer tells before an event ends: two steps of the layer give at most 32 each.
pub const TOLD_NOTES: usize = 64;

/// The most notes before an event ends: those that the packet layer told, and the answer to a call that came in.
pub const EARLY_NOTES: usize = TOLD_NOTES + 1;

/// The most notes that the packet layer tells as an event ends: one step of the layer.
const TOLD_AT_END: usize = 32;

/// Places for notes that no event fills.
const SPARE_NOTES: usize = 7;

/// Places for the notes of one event: the early ones, those that the packet layer tells at the end, and some to spare.
pub const MOST_NOTES: usize = EARLY_NOTES + TOLD_AT_END + SPARE_NOTES;

/// What happened at a PAD, with the logical channel.
#[derive(Drop)]
pub enum ChannelNote {
    /// The packet layer of the PAD told this.
    Told(LayerNote),
    /// A terminal placed a call of this address (X.28 3.2.2).
    Placed {
        channel: u8,
        address: Address,
    },
    /// The call that came in was accepted for a terminal.
    Accepted(u8),
    /// The PAD cleared the call, with cause 0 and diagnostic 0 (X.25 4.1.7).
    Cleared(u8),
    /// The PAD reset the call, with cause 0 and diagnostic 0 (X.25 4.4.3).
    Reset(u8),
    /// A key edited the text, with the values of the parameters then in force (X.3).
    Edited {
        channel: u8,
        octet: u8,
        params: Params,
    },
    /// The end of the idle time ended a block, with the values of the parameters then in force (X.3 3.4).
    Paused {
        channel: u8,
        params: Params,
    },
    /// A Data packet went into the send queue.
    Sent {
        channel: u8,
        user_data: UserData<MOST_OCTETS>,
    },
    /// An interrupt of this octet was sent.
    Interrupted {
        channel: u8,
        octet: u8,
    },
    /// A terminal took what waited first on its call: a packet, which P(R) may pass now, or an interrupt, which is
    /// confirmed.
    Took {
        channel: u8,
        taken: PadTaken,
    },
}

/// A note of a PAD, with the terminal whose call it is of. A call that comes in is no terminal's yet: the note after it
/// says for which one it was accepted, or that it was cleared.
#[derive(Drop)]
pub struct PadNote {
    pub terminal: Option<u8>,
    pub note: ChannelNote,
}

/// The notes of an event that are not yet read, in order.
#[derive(Drop)]
pub struct PadNotes {
    /// The notes of the event, with those that were read and not taken.
    notes: Vec<PadNote>,
    /// How many of these were read.
    read: usize,
}

impl Model for PadNotes {
    ghost use Rattle.pad_ports.specs.Notes.{Noted};

    ghost Value = { Noted };

    ghost use Rattle.pad_ports.specs.NoteView.{noted_in, IsNoteQueue};

    ghost view = { noted_in };

    ghost invariant = { IsNoteQueue };
}

impl PadNotes {
    /// No notes. `AllocError` comes for want of memory.
    pub fn new(alloc: Global) -> Result<Self, AllocError>
        ensures { IfOk result (λ q. q ≡ nothing_noted) }
    {
        let notes = Vec::with_capacity(alloc, MOST_NOTES)?;
        Ok(PadNotes { notes, read: 0 })
    }

    /// Drops all notes.
    pub fn clear(&mut self)
        ensures { self.new ≡ nothing_noted }
    {
        self.notes.clear();
        self.read = 0;
    }

    /// How many notes there are.
    pub fn len(&self) -> usize
        ensures count { result ≡ length self.now.notes }
        ensures named { result ≡ length self.now.terminals }
        ensures most { result ≤ MOST_NOTES }
    {
        self.notes.len() - self.read
    }

    /// Adds a note.
    #[inline(always)]
    pub fn add(&mut self, note: PadNote)
        requires { length self.old.notes < MOST_NOTES }
        ensures { self.new ≡ noted_of note.terminal (pad_note_of note.note) self.old }
    {
        if self.read > 0 {
            drop_front(&mut self.notes, self.read);
            self.read = 0;
        }
        let _ = self.notes.push(note);
    }

    /// The first note, if there is one.
    pub fn first(&self) -> Option<&PadNote>
        ensures { maybe_pad_note (option_copied result) ≡ first_noted self.now.terminals self.now.notes }
    {
        self.notes.get(self.read)
    }

    /// Drops the first note, if there is one.
    pub fn drop_first(&mut self)
        ensures { self.new ≡ without_first self.old }
    {
        if self.read < self.notes.len() {
            self.read += 1;
        }
    }

    /// Takes the first note, if there is one.
    pub fn take(&mut self) -> Option<PadNote>
        ensures value { maybe_pad_note result ≡ first_noted self.old.terminals self.old.notes }
        ensures rest { self.new ≡ without_first self.old }
    {
        if self.read == self.notes.len() {
            return None;
        }
        Some(self.notes.remove(self.read))
    }
}

/// Drops so many notes at the front of a list.
#[inline(never)]
fn drop_front(list: &mut Vec<PadNote>, count: usize)
    requires { count ≤ vec_len list.old }
    ensures items { list.new.items ≡ drop count list.old.items }
    ensures capacity { vec_capacity list.new ≡ vec_capacity list.old }
{
    for _ in 0..count {
        let _ = list.remove(0);
    }
}
