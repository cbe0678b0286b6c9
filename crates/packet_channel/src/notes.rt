//! Notes of a packet layer that are not yet read.
ghost use Rattle.std.specs.Prelude.{◌≡◌, ◌<◌, ◌≤◌, ◌++◌, [], ◌∷◌, IfOk, MatchOption, Some, None, length, drop, slice_get};

use crate::note::LayerNote;
use crate::state::MOST_CHANNELS;
use circular_buffer::HeapCircularBuffer;
use std::alloc::{AllocError, Global};
use std::marker::Model;

/// The most notes that one event of the layer gives: each of the calls closes, and one more.
const MOST_NOTES: usize = MOST_CHANNELS as usize + 1;

/// The notes of one event of the layer.
pub type Notes = NoteQueue<MOST_NOTES>;

/// The notes that are not yet read, in order. There is room for so many.
#[derive(Drop)]
pub struct NoteQueue<const PLACES: usize> {
    notes: HeapCircularBuffer<LayerNote>,
}

impl<const PLACES: usize> Model for NoteQueue<PLACES> {
    ghost use Rattle.std.specs.Prelude.{◌≡◌, List};
    ghost use Rattle.data_transfer.specs.Packets.{Note};

    ghost Value = { List Note };

    ghost use Rattle.packet_channel.specs.NoteView.{notes_of};

    ghost view = { λ n. notes_of n.notes.items };

    ghost invariant = { λ n. n.notes.capacity ≡ PLACES };
}

impl<const PLACES: usize> NoteQueue<PLACES> {
    ghost use Rattle.packet_channel.specs.NoteView.{note_of, maybe_note};

    /// No notes. `AllocError` comes for want of memory.
    pub fn new(alloc: Global) -> Result<Self, AllocError>
        ensures { IfOk result (λ n. n ≡ []) }
    {
        let notes = HeapCircularBuffer::with_capacity(alloc, PLACES)?;
        Ok(NoteQueue { notes })
    }

    /// Drops all notes.
    pub fn clear(&mut self)
        ensures { self.new ≡ [] }
    {
        self.notes.clear();
    }

    /// How many notes are not yet read.
    pub fn len(&self) -> usize
        ensures count { result ≡ length self.now }
        ensures most { result ≤ PLACES }
    {
        self.notes.len()
    }

    /// Adds a note.
    pub fn add(&mut self, note: LayerNote)
        requires { length self.old < PLACES }
        ensures { self.new ≡ self.old ++ note_of note ∷ [] }
    {
        let _ = self.notes.try_push_back(note);
    }

    /// The first note, if there is one.
    pub fn first(&self) -> Option<&LayerNote>
        ensures { MatchOption result (slice_get self.now 0 ≡ None)
            (λ note. slice_get self.now 0 ≡ Some (note_of note.now)) }
    {
        self.notes.front()
    }

    /// Takes the first note, if there is one.
    pub fn take(&mut self) -> Option<LayerNote>
        ensures value { maybe_note result ≡ slice_get self.old 0 }
        ensures rest { self.new ≡ drop 1 self.old }
    {
        self.notes.pop_front()
    }
}
