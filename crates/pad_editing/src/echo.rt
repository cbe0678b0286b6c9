//! What a terminal is shown of a key.
ghost use Rattle.std.specs.Prelude.{◌≡◌, ◌≤◌, ◌<◌, ◌+◌, ◌∷◌, [], ◌++◌, length};
ghost use Rattle.pad_editing.specs.Echoes.{function_echo};

use arrayvec::ArrayVec;
use std::marker::Model;
use std::ops::Deref;
use x3_params::EditingFunction;

/// The longest text that an echo can show.
pub const SHOWN_LIMIT: usize = 127;

/// CR LF and the longest text.
const ECHO_LIMIT: usize = SHOWN_LIMIT + 2;

/// What the PAD echoes of one key, before the display lays it out.
#[derive(Drop)]
pub struct Echo {
    octets: ArrayVec<u8, ECHO_LIMIT>,
}

impl Model for Echo {
    ghost use Rattle.std.specs.Prelude.{ℕ, List, ◌≤◌, length};

    ghost Value = { List ℕ };

    ghost view = { λ e. e.octets.items };

    ghost invariant = { λ e. length e.octets.items ≤ 129 };
}

impl Deref for Echo {
    type Target = ArrayVec<u8, ECHO_LIMIT>;

    /// The octets, at most 129 of them.
    fn deref(&self) -> &ArrayVec<u8, ECHO_LIMIT>
        ensures octets { result.now.items ≡ self.now }
        ensures limit { length self.now ≤ 129 }
    {
        &self.octets
    }
}

impl Echo {
    /// No echo.
    pub fn none() -> Echo
        ensures { result ≡ [] }
    {
        Echo {
            octets: ArrayVec::new(),
        }
    }

    /// The echo of an octet that is added to a text.
    pub fn of_octet(octet: u8) -> Echo
        ensures { result ≡ octet ∷ [] }
    {
        let mut octets = ArrayVec::new();
        octets.push(octet);
        Echo { octets }
    }

    /// The echo of a character that edits a text, as the text was before (X.3 3.16 to 3.18).
    ///
    /// A character delete shows backspace, space, backspace; a line delete `XXX` and a new line; neither shows anything
    /// if there is no text. A line display shows the text on a new line.
    pub fn of_function(function: EditingFunction, text: &[u8]) -> Echo
        requires { length text.now ≤ SHOWN_LIMIT }
        ensures { result ≡ function_echo function text.now }
    {
        match function {
            EditingFunction::LineDisplay => joined(b"\r\n", text),
            _ if text.is_empty() => Echo::none(),
            EditingFunction::CharacterDelete => joined(b"\x08 \x08", &[]),
            EditingFunction::LineDelete => joined(b"XXX\r\n", &[]),
        }
    }
}

/// An echo of two parts.
fn joined(first: &[u8], second: &[u8]) -> Echo
    requires { length first.now + length second.now ≤ ECHO_LIMIT }
    ensures { result ≡ first.now ++ second.now }
{
    let mut octets = ArrayVec::new();
    let _ = octets.try_extend_from_slice(first);
    let _ = octets.try_extend_from_slice(second);
    Echo { octets }
}
