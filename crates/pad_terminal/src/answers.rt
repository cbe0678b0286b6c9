//! What a terminal is told of its call, and what it wants of its PAD.

use pad_editing::Block;
use x28_commands::Selection;
use x29_messages::Message;

/// What a terminal must know of its call when it takes a key or a break.
#[derive(Clone, Copy, PartialEq, Eq)]
pub struct CallCondition {
    /// The send queue takes no packet, as is so while a reset that the PAD began is not confirmed.
    pub queue_full: bool,
    /// A reset that the PAD began is not confirmed.
    pub reset_pending: bool,
    /// An interrupt may be sent: there is a call, and no interrupt and no reset that the PAD sent is unconfirmed.
    pub may_interrupt: bool,
}

/// What a terminal asks of its PAD.
#[derive(Drop)]
pub enum TerminalRequest {
    /// A call to the selected address. The terminal is then setting up the call: if it cannot be placed the PAD says so
    /// by `on_cleared`.
    Call(Selection),
    /// The end of its call, which the terminal has left already.
    Clear,
    /// An interrupt.
    Interrupt,
    /// A reset of the call.
    Reset,
}

/// What became of a key or of the end of an idle time.
#[derive(Drop)]
pub enum InputAnswer {
    /// The input was dropped: it would have ended a block, which had no place in the send queue, or the terminal is
    /// absent.
    Dropped,
    /// The editor took the input, with the parameters in force. A block that it ended is to be sent in one Data packet.
    Edited(Option<Block>),
    /// The terminal took the input otherwise, and may ask something of the PAD.
    Taken(Option<TerminalRequest>),
}

/// What became of a break.
#[derive(Drop)]
pub enum BreakAnswer {
    /// The break was dropped: its indication had no place in the send queue, or the terminal is absent.
    Dropped,
    /// The break was taken.
    Taken(BreakRequests),
}

/// What a break asks of the PAD, in this order.
#[derive(Drop)]
pub struct BreakRequests {
    /// An interrupt or a reset.
    pub request: Option<TerminalRequest>,
    /// The indication of break, to be sent in one qualified Data packet.
    pub indication: Option<Message>,
}

/// What a PAD does in answer to a message of the far end.
#[derive(Drop)]
pub enum Reply {
    /// Nothing.
    Nothing,
    /// Sends this message in one qualified Data packet.
    Message(Message),
    /// Clears the call, which the terminal has left already.
    Clear,
}
