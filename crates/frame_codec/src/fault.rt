//! Why octets are no frame.
use thiserror::Error;

/// Why octets are no frame, in the order in which the faults are tested.
#[derive(Clone, Copy, Debug, PartialEq, Eq, Error)]
pub enum FrameFault {
    /// There are fewer than two octets.
    #[error("too short")]
    TooShort,
    /// The address octet is neither 01 nor 03.
    #[error("wrong address")]
    WrongAddress,
    /// The control octet is no frame's, or of a frame that does not go in this direction.
    #[error("unknown control octet")]
    UnknownControl,
    /// There is an information field and the frame has none, or a Frame Reject without exactly three octets.
    #[error("information not allowed")]
    InfoNotAllowed,
    /// The information field of an I frame is longer than the line admits.
    #[error("information too long")]
    InfoTooLong,
}
