//! Why octets are no packet.

use thiserror::Error;

/// Why octets are no packet of the profile, in the order in which the faults are tested.
#[derive(Clone, Copy, Debug, PartialEq, Eq, Error)]
pub enum PacketFault {
    /// There are fewer than three octets.
    #[error("a packet has at least three octets")]
    TooShort,
    /// The general format identifier is not that of the numbering.
    #[error("the general format identifier is not that of the line")]
    BadFormatId,
    /// The octets from the third on name no type, or the type does not go with the Q bit, the D bit or the channel.
    #[error("the packet type is unknown or does not fit the first two octets")]
    UnknownType,
    /// The packet has too many or too few octets for its type.
    #[error("the length does not fit the packet type")]
    BadLength,
    /// A Call has no called address, or a digit is above 9.
    #[error("an address of the call block is no address")]
    BadAddress,
    /// A Data packet has more user data than the line carries.
    #[error("the user data is too long")]
    DataTooLong,
}
