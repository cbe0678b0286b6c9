//! The notes of an event at an end of a line.
use packet_layer::NoteQueue;

/// The most notes of one event: three steps of the layer, each with at most 32.
pub const MOST_NOTES: usize = 96;

/// The notes of an event that are not yet read, in order.
pub(crate) type EventNotes = NoteQueue<MOST_NOTES>;
