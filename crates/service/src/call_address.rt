//! The address of the other end of a call.
ghost use Rattle.std.specs.Prelude.{◌≤◌, length};

use packet_codec::Address;

/// How many digits an address has at most (X.25 5.2.1).
const MOST_DIGITS: usize = 15;

/// An address, as its digits, each 0 to 9.
#[derive(Clone, Copy)]
pub struct CallAddress {
    digits: [u8; MOST_DIGITS],
    count: u8,
}

impl CallAddress {
    /// The digits of an address.
    pub(crate) fn of(address: &Address) -> Self {
        let mut digits = [0; MOST_DIGITS];
        let mut count = 0;
        for digit in address.digits() {
            if let Some(place) = digits.get_mut(usize::from(count)) {
                *place = *digit;
                count += 1;
            }
        }
        CallAddress { digits, count }
    }

    /// Its digits.
    pub fn digits(&self) -> &[u8]
        ensures { length result.now ≤ MOST_DIGITS }
    {
        match self.digits.get(..usize::from(self.count)) {
            Some(digits) => digits,
            None => &[],
        }
    }
}
