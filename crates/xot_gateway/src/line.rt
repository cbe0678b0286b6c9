//! The line of a gateway.
ghost use Rattle.std.specs.Prelude.{◌≡◌};

use packet_codec::{MAX_USER_DATA, Numbering};
use xot_codec::LineFlow;

/// What the line of a gateway carries.
#[derive(Clone, Copy)]
pub struct XotLine {
    /// The numbering of its packets.
    pub numbering: Numbering,
    /// The most octets of user data in a packet, 1,024 at most, and the window.
    pub flow: LineFlow,
}

/// The octets of the longest Call Request: a header, addresses of 15 digits, 109 octets of facilities and 16 of user
/// data.
const CALL_REQUEST: u16 = 145;

/// The octets in front of the user data of a Data packet modulo 128, which are 3 modulo 8.
const MOST_HEADER: u16 = 4;

impl XotLine {
    ghost use Rattle.xot_gateway.specs.Packets.{most_packet};

    /// The most octets of a packet on the line: 145 of a Call Request, or the packet size and 4 of a Data packet.
    pub fn most_packet(&self) -> u16
        ensures { result ≡ most_packet self.now }
    {
        (self.flow.size.min(MAX_USER_DATA as u16) + MOST_HEADER).max(CALL_REQUEST)
    }
}
