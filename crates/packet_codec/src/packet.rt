//! Packets.

use crate::address::Address;
use arrayvec::ArrayVec;

/// The most octets of a packet that is written.
pub const MAX_PACKET: usize = 1028;

/// The most octets of user data in a Data packet that is written.
pub const MAX_USER_DATA: usize = 1024;

/// The most octets of an Interrupt.
pub const MAX_INTERRUPT: usize = 32;

/// The most octets of the facility field of a call block.
pub const MAX_FACILITIES: usize = 109;

/// The most octets of call user data.
pub const MAX_CALL_USER_DATA: usize = 16;

/// The octets of a packet that is written, in place.
pub type PacketBuf = ArrayVec<u8, MAX_PACKET>;

/// How packets are numbered (X.25 4.4.1).
#[derive(Clone, Copy, PartialEq, Eq)]
pub enum Numbering {
    /// P(S) and P(R) are counted modulo 8.
    Modulo8,
    /// P(S) and P(R) are counted modulo 128.
    Modulo128,
}

impl Numbering {
    ghost use Rattle.std.specs.Prelude.{◌≡◌};
    ghost use Rattle.packet_codec.specs.Packet.{format_id};

    /// Bits 6 and 5 of the first octet.
    pub(crate) fn format_id(self) -> u8
        ensures { result ≡ format_id self }
    {
        match self {
            Numbering::Modulo8 => 1,
            Numbering::Modulo128 => 2,
        }
    }
}

/// A packet of the packet layer: how it is numbered, its logical channel, 0 to 4,095, and what it says.
#[derive(Clone, Copy, PartialEq, Eq)]
pub struct Packet<'a> {
    /// The numbering of the line.
    pub numbering: Numbering,
    /// The logical channel: 0 for the Restart packets.
    pub channel: u16,
    /// The type, with what it carries.
    pub content: Content<'a>,
}

/// What a packet says, by its type (X.25 5).
#[derive(Clone, Copy, PartialEq, Eq)]
pub enum Content<'a> {
    /// Call Request and Incoming Call.
    CallRequest(CallData<'a>),
    /// Call Accepted and Call Connected.
    CallAccepted,
    /// Clear Request and Clear Indication.
    ClearRequest { cause: u8, diagnostic: u8 },
    /// Clear Confirmation.
    ClearConfirmation,
    /// Data.
    Data(DataPacket<'a>),
    /// Interrupt, with 1 to 32 octets of user data.
    Interrupt(&'a [u8]),
    /// Interrupt Confirmation.
    InterruptConfirmation,
    /// Receive Ready (RR), with P(R).
    ReceiveReady(u8),
    /// Receive Not Ready (RNR), with P(R).
    ReceiveNotReady(u8),
    /// Reset Request and Reset Indication.
    ResetRequest { cause: u8, diagnostic: u8 },
    /// Reset Confirmation.
    ResetConfirmation,
    /// Restart Request and Restart Indication.
    RestartRequest { cause: u8, diagnostic: u8 },
    /// Restart Confirmation.
    RestartConfirmation,
}

/// The call block of a Call Request and an Incoming Call (X.25 5.2.1).
#[derive(Clone, Copy, PartialEq, Eq)]
pub struct CallData<'a> {
    /// The address that is called.
    pub called: Address,
    /// The address that calls, if it is given.
    pub calling: Option<Address>,
    /// The facility field: at most 109 octets.
    pub facilities: &'a [u8],
    /// Call user data: at most 16 octets.
    pub user_data: &'a [u8],
}

/// A Data packet (X.25 5.3.1).
#[derive(Clone, Copy, PartialEq, Eq)]
pub struct DataPacket<'a> {
    /// The Q bit: the octets are for the PAD or its partner, and not for its user.
    pub qualified: bool,
    /// The D bit: the receiver's user confirms the packet.
    pub delivery: bool,
    /// The M bit: the message goes on in the next packet.
    pub more: bool,
    /// P(S).
    pub send: u8,
    /// P(R).
    pub receive: u8,
    /// At most as many octets as the line carries.
    pub user_data: &'a [u8],
}
