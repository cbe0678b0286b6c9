//! Spaces about the words of a line.

ghost use Rattle.std.specs.Prelude.{◌≡◌, ◌≤◌, length, position, not};
ghost use Rattle.std.specs.List.{list_all};
ghost use Rattle.std.specs.Char.{is_ascii_digit};
ghost use Rattle.x28_commands.specs.Words.{after_spaces, is_blank, is_graphic, is_space, run, trimmed};

/// A text without its leading spaces.
pub fn after_spaces(text: &[u8]) -> &[u8]
    ensures text { result.now ≡ after_spaces text.now }
    ensures within { length result.now ≤ length text.now }
{
    &text[leading_spaces(text)..]
}

#[tactic(auto, using(crate::proofs::Runs::unwrap_position))]
fn leading_spaces(text: &[u8]) -> usize
    ensures count { result ≡ run is_space text.now }
    ensures within { result ≤ length text.now }
{
    first_other(text).unwrap_or(text.len())
}

fn first_other(text: &[u8]) -> Option<usize>
    ensures { result ≡ position (λ o. not (is_space o)) text.now }
{
    text.iter().position(|octet| *octet != b' ')
}

/// A text without its trailing spaces.
#[tactic(auto, using(crate::proofs::Trims::trimmed_take_space, crate::proofs::Trims::trimmed_take_other), unfolding(crate::specs::Words::trimmed))]
pub fn trimmed(text: &[u8]) -> &[u8]
    ensures text { result.now ≡ trimmed text.now }
    ensures within { length result.now ≤ length text.now }
{
    let mut end = text.len();
    while end > 0 {
        if text[end - 1] != b' ' {
            return &text[..end];
        }
        end -= 1;
    }
    &[]
}

/// Whether a text has nothing but spaces.
pub fn is_blank(text: &[u8]) -> bool
    ensures { result ≡ is_blank text.now }
{
    text.iter().all(|octet| *octet == b' ')
}

/// Whether a text has nothing but digits.
pub fn are_digits(text: &[u8]) -> bool
    ensures { result ≡ list_all is_ascii_digit text.now }
{
    text.iter().all(|octet| octet.is_ascii_digit())
}

/// Whether a text has nothing but graphic characters.
pub fn are_graphic(text: &[u8]) -> bool
    ensures { result ≡ list_all is_graphic text.now }
{
    text.iter().all(|octet| 0x20 <= *octet && *octet <= 0x7E)
}
