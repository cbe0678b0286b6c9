//! Addresses.

ghost use Rattle.std.specs.Prelude.{◌≡◌, ◌≤◌, length, IsTrue};
ghost use Rattle.packet_codec.specs.Address.{are_digits, digit_values};

use arrayvec::ArrayVec;
use std::marker::Model;
use thiserror::Error;

/// The most digits that an address has.
pub const MAX_DIGITS: usize = 15;

/// Why a text is no address.
#[derive(Clone, Copy, Debug, PartialEq, Eq, Error)]
pub enum AddressFault {
    /// It has no digit.
    #[error("an address has at least one digit")]
    Empty,
    /// It has more than fifteen characters.
    #[error("an address has at most 15 digits")]
    TooLong,
    /// One of its characters is not a decimal digit.
    #[error("an address has decimal digits alone")]
    NotADigit,
}

/// An address of one to fifteen decimal digits (X.25 5.2.1).
#[derive(Clone, Copy, PartialEq, Eq)]
pub struct Address {
    digits: [u8; MAX_DIGITS],
    len: u8,
}

impl Model for Address {
    ghost use Rattle.std.specs.Prelude.{List, ℕ, length};

    ghost Value = { List ℕ };

    ghost use Rattle.packet_codec.specs.Address.{digits_of, padded, IsAddress};

    ghost view = { digits_of };

    ghost invariant = { IsAddress };

    ghost inverse = { λ digits. record { digits = padded digits; len = length digits } };

    ghost inverse_ok = { λ a h. λ i. record { digits = h.rest i; len = h.len i } };
}

impl Address {
    ghost use Rattle.packet_codec.specs.Address.{address_of, AreDigits};

    /// The address of these digits, each 0 to 9.
    pub fn new(digits: &[u8]) -> Address
        requires { AreDigits digits.now }
        ensures { result ≡ digits.now }
    {
        let mut padded = [0; MAX_DIGITS];
        padded[..digits.len()].copy_from_slice(digits);
        Address {
            digits: padded,
            len: digits.len() as u8,
        }
    }

    /// The address that a text of octets names, as `b"2001"`. An empty text is `Empty`, one of more than fifteen octets
    /// `TooLong`, and one with another octet than the characters 0 to 9 `NotADigit`, tested in this order.
    pub fn read(text: &[u8]) -> Result<Address, AddressFault>
        ensures { result ≡ address_of text.now }
    {
        if text.is_empty() {
            return Err(AddressFault::Empty);
        }
        if text.len() > MAX_DIGITS {
            return Err(AddressFault::TooLong);
        }
        if !all_digits(text) {
            return Err(AddressFault::NotADigit);
        }
        let digits = values_of(text);
        Ok(Address::new(digits.as_slice()))
    }

    /// The digits, each 0 to 9.
    pub fn digits(&self) -> &[u8]
        ensures value { result.now ≡ self.now }
        ensures fits { AreDigits self.now }
    {
        &self.digits[..self.len as usize]
    }
}

/// Whether each octet of a text is one of the characters 0 to 9.
fn all_digits(text: &[u8]) -> bool
    ensures { result ≡ are_digits text.now }
{
    text.iter().all(|octet| octet.is_ascii_digit())
}

/// What the characters of a text are worth.
fn values_of(text: &[u8]) -> ArrayVec<u8, MAX_DIGITS>
    requires short { length text.now ≤ MAX_DIGITS }
    requires digits { IsTrue (are_digits text.now) }
    ensures { result.items ≡ digit_values text.now }
{
    let mut digits = ArrayVec::new();
    for octet in text {
        digits.push(*octet - b'0');
    }
    digits
}
