//! Call blocks: addresses in half octets, facilities and call user data (X.25 5.2.1).

ghost use Rattle.std.specs.Prelude.{◌≡◌, ◌+◌, ◌*◌, ◌≤◌, length, take, drop, IsSome, IfSome, IsTrue, ◌↔◌, false};
ghost use Rattle.packet_codec.specs.Address.{are_decimal, MayBeDigits};
ghost use Rattle.packet_codec.specs.Reading.{address_octets, after_addresses, called_length, calling_length};
ghost use Rattle.packet_codec.specs.Reading.{content_of, digits, ends_in_facilities, facilities_of, half_octets};
ghost use Rattle.packet_codec.specs.Reading.{has_addresses, has_facilities, user_data_of};
ghost use Rattle.packet_codec.specs.Digits.{digits_or_none};
ghost use Rattle.packet_codec.specs.View.{content_answer_view};

use crate::address::{Address, MAX_DIGITS};
use crate::fault::PacketFault;
use crate::packet::{CallData, Content, MAX_CALL_USER_DATA, MAX_FACILITIES, Numbering};
use crate::packet_type::PacketType;
use arrayvec::ArrayVec;

/// The digits of two addresses.
type Digits = ArrayVec<u8, 30>;

// The address part of a call block, and what follows it.
#[derive(Clone, Copy)]
struct Parts<'a> {
    called: usize,
    calling: usize,
    addresses: &'a [u8],
    after: &'a [u8],
}

/// The parts of a call block, if its addresses stand there whole.
fn split_addresses(block: &[u8]) -> Option<Parts<'_>>
    ensures some { IsSome result ↔ IsTrue (has_addresses block.now) }
    ensures called { IfSome result (λ p. p.called ≡ called_length block.now) }
    ensures calling { IfSome result (λ p. p.calling ≡ calling_length block.now) }
    ensures addresses { IfSome result (λ p. p.addresses.now ≡ take (address_octets block.now) (drop 1 block.now)) }
    ensures wide { IfSome result (λ p. p.called + p.calling ≤ 2 * length p.addresses.now) }
    ensures after { IfSome result (λ p. p.after.now ≡ after_addresses block.now) }
    ensures short { IfSome result (λ p. length p.addresses.now ≤ 15) }
{
    let [lengths, rest @ ..] = block else {
        return None;
    };
    let called = usize::from(lengths % 16);
    let calling = usize::from(lengths / 16);
    let octets = (called + calling + 1) / 2;
    if octets > rest.len() {
        return None;
    }
    let (addresses, after) = rest.split_at(octets);
    Some(Parts {
        called,
        calling,
        addresses,
        after,
    })
}

/// The facilities behind the addresses, and what follows them, if they stand there whole.
fn split_facilities(after: &[u8]) -> Option<(&[u8], &[u8])>
    ensures some { IsSome result ↔ IsTrue (has_facilities after.now) }
    ensures facilities { IfSome result (λ p. p.0.now ≡ facilities_of after.now) }
    ensures user_data { IfSome result (λ p. p.1.now ≡ user_data_of after.now) }
{
    let [len, rest @ ..] = after else {
        return None;
    };
    let len = usize::from(*len);
    if len > rest.len() || len > MAX_FACILITIES {
        return None;
    }
    Some(rest.split_at(len))
}

/// The first `count` half octets.
fn half_octets(octets: &[u8], count: usize) -> Digits
    requires short { length octets.now ≤ 15 }
    requires count { count ≤ 2 * length octets.now }
    ensures digits { result.items ≡ take count (half_octets octets.now) }
    ensures len { length result.items ≡ count }
{
    let mut digits = Digits::new();
    for octet in octets {
        digits.push(octet / 16);
        digits.push(octet % 16);
    }
    digits.truncate(count);
    digits
}

/// Whether each digit is 0 to 9.
fn all_decimal(digits: &[u8]) -> bool
    ensures { result ≡ are_decimal digits.now }
{
    digits.iter().all(|digit| *digit <= 9)
}

/// What a call block says.
pub(crate) fn read_call(block: &[u8]) -> Result<Content<'_>, PacketFault>
    ensures { content_answer_view result ≡ content_of Numbering.Modulo8 0 PacketType.CallRequest false false 0 block.now }
{
    let Some(parts) = split_addresses(block) else {
        return Err(PacketFault::BadLength);
    };
    let Some((facilities, user_data)) = split_facilities(parts.after) else {
        return Err(PacketFault::BadLength);
    };
    if user_data.len() > MAX_CALL_USER_DATA {
        return Err(PacketFault::BadLength);
    }
    let digits = half_octets(parts.addresses, parts.called + parts.calling);
    let digits = digits.as_slice();
    if parts.called == 0 || !all_decimal(digits) {
        return Err(PacketFault::BadAddress);
    }
    let (called, calling) = digits.split_at(parts.called);
    Ok(Content::CallRequest(CallData {
        called: Address::new(called),
        calling: address_or_none(calling),
        facilities,
        user_data,
    }))
}

/// No digits are no address.
fn address_or_none(digits: &[u8]) -> Option<Address>
    requires { MayBeDigits digits.now }
    ensures { digits_or_none result ≡ digits.now }
{
    if digits.is_empty() {
        None
    } else {
        Some(Address::new(digits))
    }
}

/// Reads the call block of an answer, which is not kept.
pub(crate) fn read_accepted(block: &[u8]) -> Result<Content<'_>, PacketFault>
    ensures { content_answer_view result ≡ content_of Numbering.Modulo8 0 PacketType.CallAccepted false false 0 block.now }
{
    if block.is_empty() {
        return Ok(Content::CallAccepted);
    }
    let Some(parts) = split_addresses(block) else {
        return Err(PacketFault::BadLength);
    };
    if !ends_in_facilities(parts.after) {
        return Err(PacketFault::BadLength);
    }
    let digits = half_octets(parts.addresses, parts.called + parts.calling);
    if !all_decimal(digits.as_slice()) {
        return Err(PacketFault::BadAddress);
    }
    Ok(Content::CallAccepted)
}

/// Whether nothing follows, or facilities alone.
fn ends_in_facilities(after: &[u8]) -> bool
    ensures { result ≡ ends_in_facilities after.now }
{
    if after.is_empty() {
        return true;
    }
    match split_facilities(after) {
        Some((_, rest)) => rest.is_empty(),
        None => false,
    }
}
