//! Selections.

ghost use Rattle.std.specs.Prelude.{◌≡◌, ◌≤◌, drop, length, position, not, MatchOption, IsTrue};
ghost use Rattle.std.specs.Bool.{IsFalse};
ghost use Rattle.std.specs.Char.{is_ascii_digit};
ghost use Rattle.x28_commands.specs.Words.{run};
ghost use Rattle.x28_commands.specs.Selection.{selection_of, has_user_data, hides_echo};

use crate::command::Selection;
use crate::fault::CommandFault;
use crate::words::{after_spaces, are_graphic, is_blank};
use arrayvec::ArrayVec;
use packet_codec::Address;

/// The selection that a text says, which begins with a digit (X.28 3.2). `BadAddress` comes if it has no address of 1
/// to 15 digits, or something else after it than `D` or `P` and graphic characters. `TooLong` comes for more than 12
/// octets of user data.
#[tactic(auto, unfolding(crate::specs::Selection::selection_of))]
pub fn read_selection(text: &[u8]) -> Result<Selection, CommandFault>
    ensures { result ≡ selection_of text.now }
{
    let (digits, rest) = text.split_at(leading_digits(text));
    let Ok(address) = Address::read(digits) else {
        return Err(CommandFault::BadAddress);
    };
    if is_blank(rest) {
        return Ok(Selection {
            address,
            user_data: ArrayVec::new(),
        });
    }
    let Some(octets) = user_data(rest) else {
        return Err(CommandFault::BadAddress);
    };
    match ArrayVec::try_from(octets) {
        Ok(user_data) => Ok(Selection { address, user_data }),
        Err(_) => Err(CommandFault::TooLong),
    }
}

/// The graphic characters after `D` or `P`.
fn user_data(rest: &[u8]) -> Option<&[u8]>
    ensures { MatchOption result (IsFalse (has_user_data rest.now))
        (λ octets. IsTrue (has_user_data rest.now) × (octets.now ≡ drop 1 rest.now)) }
{
    if rest.is_empty() || (rest[0] != b'D' && rest[0] != b'P') {
        return None;
    }
    let octets = &rest[1..];
    if are_graphic(octets) {
        Some(octets)
    } else {
        None
    }
}

#[tactic(auto, using(crate::proofs::Runs::unwrap_position))]
fn leading_digits(text: &[u8]) -> usize
    ensures count { result ≡ run is_ascii_digit text.now }
    ensures within { result ≤ length text.now }
{
    first_other(text).unwrap_or(text.len())
}

fn first_other(text: &[u8]) -> Option<usize>
    ensures { result ≡ position (λ o. not (is_ascii_digit o)) text.now }
{
    text.iter().position(|octet| !octet.is_ascii_digit())
}

/// Whether what is typed after this much of a line is not echoed: a selection with a `P`.
pub fn hides_echo(line: &[u8]) -> bool
    ensures { result ≡ hides_echo line.now }
{
    let text = after_spaces(line);
    let digits = leading_digits(text);
    digits > 0 && digits < text.len() && text[digits] == b'P'
}
