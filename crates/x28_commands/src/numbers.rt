//! Numbers, pairs of them, and lists.

ghost use Rattle.std.specs.Prelude.{◌≡◌, ◌==◌, ◌<◌, ◌≤◌, ℕ, List, Option, length, position};
ghost use Rattle.std.specs.Prelude.{IfSome, IsTrue};
ghost use Rattle.std.specs.List.{list_all};
ghost use Rattle.std.specs.Char.{is_ascii_digit};
ghost use Rattle.x28_commands.specs.Numbers.{decimal, number_of, pair_of, entries};
ghost use Rattle.x28_commands.specs.Lists.{Gives, Cuts};

use crate::words::are_digits;
use arrayvec::ArrayVec;

/// More than the octets of a list, and so more than its entries: 18 pairs of two numbers of three digits have 143.
pub const TEXT_LIMIT: usize = 144;

/// An entry of a list.
pub trait Entry: Copy + Default {
    /// What a text says, if anything.
    ghost said: { List ℕ → Option Self };

    fn read(text: &[u8]) -> Option<Self>
        ensures { result ≡ said text.now };
}

impl Entry for u8 {
    ghost said = { number_of };

    /// The number that a text says: 1 to 3 digits, at most 255. `None` for any other text.
    #[tactic(auto, unfolding(crate::specs::Numbers::number_of))]
    fn read(text: &[u8]) -> Option<u8> {
        if text.is_empty() || text.len() > 3 {
            return None;
        }
        if !are_digits(text) {
            return None;
        }
        let value = decimal(text);
        if value > 255 {
            return None;
        }
        Some(value as u8)
    }
}

impl Entry for (u8, u8) {
    ghost said = { pair_of };

    /// The pair that a text says: two numbers with a colon between them.
    #[tactic(auto, unfolding(crate::specs::Numbers::pair_of))]
    fn read(text: &[u8]) -> Option<(u8, u8)> {
        let colon = place_of(text, b':')?;
        let number = u8::read(&text[..colon])?;
        let value = u8::read(&text[colon + 1..])?;
        Some((number, value))
    }
}

/// The entries that a text says, with a comma between each and the next. `None` if a part says none.
pub fn entries<E: Entry>(text: &[u8]) -> Option<ArrayVec<E, TEXT_LIMIT>>
    requires { length text.now < TEXT_LIMIT }
    ensures { Gives result (entries E.said text.now) }
{
    let mut found = ArrayVec::new();
    let mut rest = text;
    loop {
        let (part, after) = first_part(rest, b',');
        match E::read(part) {
            Some(entry) => found.push(entry),
            None => return None,
        }
        match after {
            Some(after) => rest = after,
            None => return Some(found),
        }
    }
}

/// What stands before the first such octet, and what stands after it, if there is one.
#[tactic(auto, using(crate::proofs::Parts::cut_none, crate::proofs::Parts::cut_at))]
fn first_part(text: &[u8], octet: u8) -> (&[u8], Option<&[u8]>)
    ensures parts { Cuts octet text.now result.0.now result.1 }
    ensures shorter { IfSome result.1 (λ rest. length rest.now < length text.now) }
{
    match place_of(text, octet) {
        Some(place) => (&text[..place], Some(&text[place + 1..])),
        None => (text, None),
    }
}

fn place_of(text: &[u8], octet: u8) -> Option<usize>
    ensures place { result ≡ position (λ o. o == octet) text.now }
    ensures within { IfSome result (λ place. place < length text.now) }
{
    text.iter().position(|other| *other == octet)
}

/// What at most three digits are worth.
fn decimal(digits: &[u8]) -> u16
    requires short { length digits.now ≤ 3 }
    requires digits { IsTrue (list_all is_ascii_digit digits.now) }
    ensures { result ≡ decimal digits.now }
{
    let mut value = 0;
    for digit in digits {
        value = 10 * value + u16::from(*digit - b'0');
    }
    value
}
