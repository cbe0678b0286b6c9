//! Why octets are no message.
use thiserror::Error;

/// Why octets are no message.
#[derive(Clone, Copy, Debug, PartialEq, Eq, Error)]
pub enum MessageFault {
    /// There are no octets.
    #[error("the message has no octets")]
    Empty,
    /// No message has the code of the first octet.
    #[error("no message has this code")]
    UnknownCode,
    /// The octets after the code are too few, too many, or no pairs.
    #[error("the message has no such length")]
    OddLength,
}
