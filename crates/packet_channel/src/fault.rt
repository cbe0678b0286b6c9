//! Why a request on a channel is refused.

use data_transfer::KeptPacket;
use thiserror::Error;

/// Why a request on a channel was refused, in the order in which the faults are tested.
#[derive(Clone, Copy, Debug, PartialEq, Eq, Error)]
pub enum ChannelFault {
    /// There is no call for which it could be asked.
    #[error("no call")]
    NoCall,
    /// The own reset is not confirmed.
    #[error("resetting")]
    Resetting,
    /// The send queue has no place.
    #[error("send queue full")]
    QueueFull,
    /// The octets are too many, or for an interrupt none.
    #[error("too long")]
    TooLong,
    /// An interrupt is not yet confirmed.
    #[error("interrupt pending")]
    InterruptPending,
}

/// A packet in its buffer that is not taken to be sent, and why.
#[derive(Drop)]
pub struct RefusedBuf {
    pub fault: ChannelFault,
    pub packet: KeptPacket,
}
