//! What answers an event of a network.
use crate::puts::Puts;
use frame_codec::FrameBuf;
use frame_lines::Direction;
use packet_layer::Front;
use user_nodes::UserNote;
use x25_pad::PadAnswer;

/// What an event gave, besides frames, notes and text.
#[derive(Clone, Copy, PartialEq, Eq)]
pub enum Outcome {
    /// Whether a frame arrived.
    Delivered(bool),
    /// What a PAD did with a key, a break or the end of an idle time.
    Typed(PadAnswer),
    /// What waited at a terminal is shown.
    Printed,
    /// A host's call was placed on this logical channel.
    Called { channel: u8 },
    /// What a host took, if anything waited. Its octets are the text of the answer.
    Took(Option<Front>),
    /// Nothing besides frames and notes.
    Done,
}

/// A frame that was put on a line.
#[derive(Drop)]
pub struct Put {
    pub line: usize,
    pub direction: Direction,
    pub octets: FrameBuf,
}

/// The answer to an event: each frame that was put, in order, what users are told, what a terminal shows or the octets
/// that a host took, and the outcome.
#[derive(Drop)]
pub struct Answer {
    pub frames: Puts,
    pub notes: Vec<UserNote>,
    pub text: Vec<u8>,
    pub outcome: Outcome,
}
