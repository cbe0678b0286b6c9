//! Keywords.

ghost use Rattle.std.specs.Prelude.{◌≡◌, ◌≤◌, length, take, drop, position, not};
ghost use Rattle.std.specs.Char.{is_ascii_alphabetic};
ghost use Rattle.x28_commands.specs.Words.{run};
ghost use Rattle.x28_commands.specs.Keywords.{keyword_length, keyword_named, spells};

/// The first word of a command.
#[derive(Clone, Copy, PartialEq, Eq)]
pub enum Keyword {
    Status,
    Clear,
    Interrupt,
    Reset,
    Profile,
    Read,
    Set,
    SetAndRead,
}

impl Keyword {
    /// The keyword that a word spells, in capital or small letters, if it spells one.
    pub fn named(word: &[u8]) -> Option<Keyword>
        ensures { result ≡ keyword_named word.now }
    {
        if spells(word, b"STAT") {
            Some(Keyword::Status)
        } else if spells(word, b"CLR") {
            Some(Keyword::Clear)
        } else if spells(word, b"INT") {
            Some(Keyword::Interrupt)
        } else if spells(word, b"RESET") {
            Some(Keyword::Reset)
        } else if spells(word, b"PROF") {
            Some(Keyword::Profile)
        } else if spells(word, b"PAR?") {
            Some(Keyword::Read)
        } else if spells(word, b"SET") {
            Some(Keyword::Set)
        } else if spells(word, b"SET?") {
            Some(Keyword::SetAndRead)
        } else {
            None
        }
    }
}

/// The keyword at the front of a text, and what follows it.
pub fn split_keyword(text: &[u8]) -> (&[u8], &[u8])
    ensures keyword { result.0.now ≡ take (keyword_length text.now) text.now }
    ensures rest { result.1.now ≡ drop (keyword_length text.now) text.now }
    ensures within { length result.1.now ≤ length text.now }
{
    text.split_at(keyword_length(text))
}

fn keyword_length(text: &[u8]) -> usize
    ensures count { result ≡ keyword_length text.now }
    ensures within { result ≤ length text.now }
{
    let letters = leading_letters(text);
    if letters < text.len() && text[letters] == b'?' {
        return letters + 1;
    }
    letters
}

#[tactic(auto, using(crate::proofs::Runs::unwrap_position))]
fn leading_letters(text: &[u8]) -> usize
    ensures count { result ≡ run is_ascii_alphabetic text.now }
    ensures within { result ≤ length text.now }
{
    first_other(text).unwrap_or(text.len())
}

fn first_other(text: &[u8]) -> Option<usize>
    ensures { result ≡ position (λ o. not (is_ascii_alphabetic o)) text.now }
{
    text.iter().position(|octet| !octet.is_ascii_alphabetic())
}

/// Whether a word spells a name, in either case.
#[tactic(auto, unfolding(crate::specs::Keywords::spells))]
fn spells(word: &[u8], name: &[u8]) -> bool
    ensures { result ≡ spells word.now name.now }
{
    match word {
        [] => name.is_empty(),
        [octet, word @ ..] => match name {
            [] => false,
            [letter, name @ ..] => octet.to_ascii_uppercase() == *letter && spells(word, name),
        },
    }
}
