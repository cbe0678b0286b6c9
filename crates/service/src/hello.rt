//! The first line that a service is sent: who calls.
ghost use Rattle.std.specs.Prelude.{◌≡◌, ◌+◌, ◌%◌, ◌<◌, ◌++◌, map, flat_map, OnOk};
ghost use Rattle.service.specs.Hello.{digits_text, hello_line, hexadecimal, octet_text, octets_text};

use packet_codec::Address;
use std::alloc::AllocError;

/// Writes the line `CALL`, the calling address, the called one, user data in hexadecimal, CR LF. What is not told is `-`.
/// `AllocError` comes for want of memory, which a line with room for 80 octets does not want.
pub(crate) fn write_hello(
    line: &mut Vec<u8>,
    calling: &Option<Address>,
    called: &Option<Address>,
    user_data: &[u8],
) -> Result<(), AllocError>
    ensures { OnOk result (line.new.items ≡ hello_line calling.now called.now user_data.now) }
{
    line.clear();
    line.extend_from_slice(b"CALL ")?;
    push_address(line, calling)?;
    line.extend_from_slice(b" ")?;
    push_address(line, called)?;
    line.extend_from_slice(b" ")?;
    push_user_data(line, user_data)?;
    line.extend_from_slice(b"\r\n")
}

fn push_address(line: &mut Vec<u8>, address: &Option<Address>) -> Result<(), AllocError>
    ensures { OnOk result (line.new.items ≡ line.old.items ++ digits_text address.now) }
{
    match address {
        Some(address) => push_digits(line, address.digits()),
        None => line.extend_from_slice(b"-"),
    }
}

fn push_digits(line: &mut Vec<u8>, digits: &[u8]) -> Result<(), AllocError>
    ensures { OnOk result (line.new.items ≡ line.old.items ++ map (λ digit. 48 + digit % 10) digits.now) }
{
    for digit in digits {
        line.push(b'0' + *digit % 10)?;
    }
    Ok(())
}

fn push_user_data(line: &mut Vec<u8>, user_data: &[u8]) -> Result<(), AllocError>
    ensures { OnOk result (line.new.items ≡ line.old.items ++ octets_text user_data.now) }
{
    if user_data.is_empty() {
        return line.extend_from_slice(b"-");
    }
    push_octets(line, user_data)
}

fn push_octets(line: &mut Vec<u8>, octets: &[u8]) -> Result<(), AllocError>
    ensures { OnOk result (line.new.items ≡ line.old.items ++ flat_map octet_text octets.now) }
{
    for octet in octets {
        line.extend_from_slice(&[hexadecimal(*octet / 16), hexadecimal(*octet % 16)])?;
    }
    Ok(())
}

/// The hexadecimal digit of a number below 16.
fn hexadecimal(number: u8) -> u8
    requires { number < 16 }
    ensures { result ≡ hexadecimal number }
{
    if number < 10 {
        b'0' + number
    } else {
        87 + number
    }
}
