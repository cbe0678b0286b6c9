//! The types of packets, and which octets name them.

ghost use Rattle.std.specs.Prelude.{◌≡◌};
ghost use Rattle.packet_codec.specs.Reading.{admits, code_type, is_on_channel, numbered, other_type, type_of};

use crate::packet::Numbering;

/// The type of a packet (X.25 5.1). A request has the same octets as the indication that goes the other way.
#[derive(Clone, Copy, PartialEq, Eq)]
pub enum PacketType {
    /// Call Request and Incoming Call.
    CallRequest,
    /// Call Accepted and Call Connected.
    CallAccepted,
    /// Clear Request and Clear Indication.
    ClearRequest,
    /// Clear Confirmation.
    ClearConfirmation,
    /// Data.
    Data,
    /// Interrupt.
    Interrupt,
    /// Interrupt Confirmation.
    InterruptConfirmation,
    /// Receive Ready (RR).
    ReceiveReady,
    /// Receive Not Ready (RNR).
    ReceiveNotReady,
    /// Reset Request and Reset Indication.
    ResetRequest,
    /// Reset Confirmation.
    ResetConfirmation,
    /// Restart Request and Restart Indication.
    RestartRequest,
    /// Restart Confirmation.
    RestartConfirmation,
}

impl PacketType {
    /// The type that the third octet and the octets after it name, if any.
    pub(crate) fn of(numbering: Numbering, third: u8, rest: &[u8]) -> Option<PacketType>
        ensures { result ≡ type_of numbering third rest.now }
    {
        if third % 2 == 0 {
            return Some(PacketType::Data);
        }
        PacketType::of_odd(numbering, third, rest)
    }

    /// The type, if any, where bit 1 of the third octet is one.
    fn of_odd(numbering: Numbering, third: u8, rest: &[u8]) -> Option<PacketType>
        ensures { result ≡ other_type numbering third rest.now }
    {
        match numbering {
            Numbering::Modulo8 => match third % 32 {
                1 => Some(PacketType::ReceiveReady),
                5 => Some(PacketType::ReceiveNotReady),
                _ => PacketType::of_code(third),
            },
            Numbering::Modulo128 => match third {
                1 => PacketType::ReceiveReady.if_numbered(rest),
                5 => PacketType::ReceiveNotReady.if_numbered(rest),
                _ => PacketType::of_code(third),
            },
        }
    }

    /// The type, unless bit 1 of the octet after the third is one.
    fn if_numbered(self, rest: &[u8]) -> Option<PacketType>
        ensures { result ≡ numbered self rest.now }
    {
        match rest {
            [octet, ..] if octet % 2 == 1 => None,
            _ => Some(self),
        }
    }

    /// The type that has this octet to itself, if any.
    fn of_code(octet: u8) -> Option<PacketType>
        ensures { result ≡ code_type octet }
    {
        match octet {
            0x0b => Some(PacketType::CallRequest),
            0x0f => Some(PacketType::CallAccepted),
            0x13 => Some(PacketType::ClearRequest),
            0x17 => Some(PacketType::ClearConfirmation),
            0x23 => Some(PacketType::Interrupt),
            0x27 => Some(PacketType::InterruptConfirmation),
            0x1b => Some(PacketType::ResetRequest),
            0x1f => Some(PacketType::ResetConfirmation),
            0xfb => Some(PacketType::RestartRequest),
            0xff => Some(PacketType::RestartConfirmation),
            _ => None,
        }
    }

    /// Whether the Q and D bits may have these values in a packet of the type.
    pub(crate) fn admits(self, qualified: bool, delivery: bool) -> bool
        ensures { result ≡ admits self qualified delivery }
    {
        match self {
            PacketType::Data => true,
            PacketType::CallRequest => !qualified,
            _ => !(qualified || delivery),
        }
    }

    /// Whether a packet of the type may be on the logical channel.
    pub(crate) fn is_on_channel(self, channel: u16) -> bool
        ensures { result ≡ is_on_channel self channel }
    {
        match self {
            PacketType::RestartRequest | PacketType::RestartConfirmation => channel == 0,
            _ => channel != 0,
        }
    }
}
