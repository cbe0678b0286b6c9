//! Why a connection is ended.
use thiserror::Error;

/// Why a connection is ended, in the order in which the faults are tested (RFC 1613).
#[derive(Clone, Copy, Debug, PartialEq, Eq, Error)]
pub enum XotFault {
    /// The version is not 0.
    #[error("other version")]
    OtherVersion,
    /// A packet has fewer than 3 octets.
    #[error("packet too short")]
    TooShort,
    /// A packet has more than 1,030 octets.
    #[error("packet too long")]
    TooLong,
}
