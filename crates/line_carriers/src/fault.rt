//! Why a connection is ended.
use thiserror::Error;

/// Why a connection is ended. What differs in a hello is named in this order.
#[derive(Clone, Copy, Debug, Error)]
pub enum CarrierFault {
    /// The partner's first octets are not those of this protocol.
    #[error("other protocol")]
    OtherProtocol,
    /// The partner speaks another version of it.
    #[error("other version")]
    OtherVersion,
    /// The partner has another network file.
    #[error("other network file")]
    OtherNetwork,
    /// The partner means another line.
    #[error("other line")]
    OtherLine,
    /// The partner's end has not the other role.
    #[error("other role")]
    OtherRole,
    /// A frame is longer than any frame is.
    #[error("frame too long")]
    TooLong,
    /// An octet is no sign.
    #[error("unknown sign")]
    UnknownSign,
    /// The partner starts after it has opened.
    #[error("sign out of turn")]
    OutOfTurn,
    /// There is no room for a sign.
    #[error("no room")]
    NoRoom,
}
