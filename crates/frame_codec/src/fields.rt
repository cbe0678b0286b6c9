//! The fields of an octet: bits are numbered from 1, the lowest, to 8.
ghost use Rattle.std.specs.Prelude.{◌≡◌, ◌+◌, ◌*◌, ◌/◌, ◌%◌, ◌<◌, ◌==◌, ◌^◌};
ghost use Rattle.frame_codec.specs.Spelling.{bit_of, address_of};
ghost use Rattle.frame_codec.specs.Reading.{has_bit};

use link_timers::Role;

/// The address octet of a frame that an end of this role sends (ISO 7776 4.2).
pub(crate) fn address_octet(from: Role, response: bool) -> u8
    ensures { result ≡ address_of from response }
{
    match (from, response) {
        (Role::Dce, false) | (Role::Dte, true) => 0x03,
        (Role::Dce, true) | (Role::Dte, false) => 0x01,
    }
}

/// The number in bits 6 to 8: N(R) of a control octet, V(R) of a report.
pub(crate) fn receive_number(octet: u8) -> u8
    ensures value { result ≡ octet / 32 }
    ensures range { result < 8 }
{
    octet >> 5
}

/// The number in bits 2 to 4: N(S) of a control octet, V(S) of a report.
pub(crate) fn send_number(octet: u8) -> u8
    ensures value { result ≡ octet / 2 % 8 }
    ensures range { result < 8 }
{
    octet >> 1 & 7
}

/// Whether the bit `number` less 1 places above the lowest is set.
pub(crate) fn is_set(octet: u8, shift: u32) -> bool
    requires { shift < 8 }
    ensures { result ≡ has_bit octet (2 ^ shift) }
{
    octet >> shift & 1 == 1
}

/// An octet with numbers modulo 8 in bits 6 to 8 and 2 to 4, and a flag in bit 5.
pub(crate) fn octet_of(receive: u8, flag: bool, send: u8) -> u8
    requires receive { receive < 8 }
    requires send { send < 8 }
    ensures { result ≡ receive * 32 + bit_of flag * 16 + send * 2 }
{
    receive << 5 | u8::from(flag) << 4 | send << 1
}
