//! The words of a line of a script.
ghost use Rattle.std.specs.Prelude.{◌≡◌, ◌<◌, ◌≤◌, ℕ, List, [], ◌∷◌, ◌++◌, Some, length};
ghost use Rattle.std.specs.Prelude.{IfOk, IfErr, OnOk, OnErr};
ghost use Rattle.std.specs.Prelude.{min, option_map, IsTrue};
ghost use Rattle.std.specs.List.{list_all};
ghost use Rattle.std.specs.Char.{is_ascii_digit};
ghost use Rattle.x28_commands.specs.Numbers.{decimal};
ghost use Rattle.net_files.specs.Digits.{hex_value};
ghost use Rattle.net_files.specs.Texts.{escaped, octets_of};
ghost use Rattle.net_files.specs.Cuts.{before, behind, length_left};
ghost use Rattle.net_files.specs.Words.{next_word, named, node_at, number_of, number_at, timer_number_at};
ghost use Rattle.net_files.specs.Words.{address_at, text_of};
ghost use Rattle.net_files.specs.Reading.{command_word};
ghost use Rattle.net_files.specs.Answers.{EndsLine, Gives, GivesOrWants, left_of};

use crate::keywords::CommandWord;
use crate::names::Names;
use memchr::memchr;
use packet_codec::Address;
use std::alloc::{AllocError, AllocFailed, Global};
use thiserror::Error;

/// Why a line is no command.
#[derive(Clone, Copy, Debug, PartialEq, Eq, Error)]
pub(crate) enum LineFault {
    #[error("not a command")]
    NotACommand,
    #[error("out of memory")]
    OutOfMemory,
}

impl From<AllocError> for LineFault {
    ghost use Rattle.std.specs.Prelude.{◌≡◌};
    ghost use Rattle.net_files.specs.declared.words.LineFault.TheVariants.{OutOfMemory};

    ghost from_gives = { λ _ fault. fault ≡ OutOfMemory };

    fn from(_: AllocError) -> Self {
        LineFault::OutOfMemory
    }
}

impl<T: Drop> From<AllocFailed<T>> for LineFault {
    ghost use Rattle.std.specs.Prelude.{◌≡◌};
    ghost use Rattle.net_files.specs.declared.words.LineFault.TheVariants.{OutOfMemory};

    ghost from_gives = { λ _ fault. fault ≡ OutOfMemory };

    fn from(_: AllocFailed<T>) -> Self {
        LineFault::OutOfMemory
    }
}

/// What is left of a line: words with one space between them. After the last word nothing is left.
#[derive(Clone, Copy)]
pub(crate) struct Words<'a> {
    rest: Option<&'a [u8]>,
}

impl<'a> Words<'a> {
    pub(crate) fn new(line: &'a [u8]) -> Self
        ensures { left_of result ≡ Some line.entry.now }
    {
        Words { rest: Some(line) }
    }

    /// The next word.
    #[inline]
    pub(crate) fn next_word(&mut self) -> Result<&'a [u8], LineFault>
        ensures { Gives (λ word. (word.now, left_of self.new)) result (next_word (left_of self.old)) }
    {
        let Some(line) = self.rest else {
            return Err(LineFault::NotACommand);
        };
        let (word, rest) = cut(line, b' ');
        self.rest = rest;
        Ok(word)
    }

    /// The next word, as what the line asks for.
    pub(crate) fn command_word(&mut self) -> Result<CommandWord, LineFault>
        ensures { Gives (λ word. (word, left_of self.new)) result (named command_word (next_word (left_of self.old))) }
    {
        let word = self.next_word()?;
        CommandWord::named(word).ok_or(LineFault::NotACommand)
    }

    /// The next word, as the place of the node of that name.
    pub(crate) fn node(&mut self, names: &Names<'_>) -> Result<usize, LineFault>
        ensures { Gives (λ node. (node, left_of self.new)) result (node_at names.now (left_of self.old)) }
    {
        let word = self.next_word()?;
        names.place_of(word).ok_or(LineFault::NotACommand)
    }

    /// The next word, as a number from 0 to 65,535.
    pub(crate) fn number(&mut self) -> Result<u16, LineFault>
        ensures { Gives (λ number. (number, left_of self.new)) result (number_at (left_of self.old)) }
    {
        let word = self.next_word()?;
        read_number(word).ok_or(LineFault::NotACommand)
    }

    /// The next word, as the number of a timer's logical channel or terminal. Beyond 255, as beyond the channels that a
    /// line and the terminals that a PAD may have, it names a timer that never runs.
    pub(crate) fn timer_number(&mut self) -> Result<u8, LineFault>
        ensures { Gives (λ number. (number, left_of self.new)) result (timer_number_at (left_of self.old)) }
    {
        let number = self.number()?;
        Ok(u8::try_from(number).unwrap_or(u8::MAX))
    }

    /// The next word, as an address of 1 to 15 digits.
    pub(crate) fn address(&mut self) -> Result<Address, LineFault>
        ensures { Gives (λ address. (address, left_of self.new)) result (address_at (left_of self.old)) }
    {
        let word = self.next_word()?;
        match Address::read(word) {
            Ok(address) => Ok(address),
            Err(_) => Err(LineFault::NotACommand),
        }
    }

    /// All that is left, nothing where no word follows.
    pub(crate) fn text(self) -> &'a [u8]
        ensures { result.now ≡ text_of (left_of self.entry) }
    {
        match self.rest {
            Some(text) => text,
            None => &[],
        }
    }

    /// That nothing is left.
    pub(crate) fn end(self) -> Result<(), LineFault>
        ensures { EndsLine result (left_of self.entry) }
    {
        match self.rest {
            None => Ok(()),
            Some(_) => Err(LineFault::NotACommand),
        }
    }
}

/// The octets before the first one of a kind, and those after it if there is one.
#[inline(always)]
#[tactic(auto, using(crate::proofs::Places::place_found))]
pub(crate) fn cut(octets: &[u8], at: u8) -> (&[u8], Option<&[u8]>)
    ensures before { result.0.now ≡ before at octets.entry.now }
    ensures behind { option_map (λ s. s.now) result.1 ≡ behind at octets.entry.now }
    ensures shorter { length_left (option_map (λ s. s.now) result.1) ≤ length octets.entry.now }
{
    match memchr(at, octets) {
        Some(place) => (&octets[..place], Some(&octets[place + 1..])),
        None => (octets, None),
    }
}

/// Reads digits, of a number of at most 65,535.
fn read_number(word: &[u8]) -> Option<u16>
    ensures { result ≡ number_of word.now }
{
    if word.is_empty() || !are_digits(word) {
        return None;
    }
    u16::try_from(value_of(word)).ok()
}

/// Whether a word has nothing but digits.
fn are_digits(word: &[u8]) -> bool
    ensures { result ≡ list_all is_ascii_digit word.now }
{
    word.iter().all(|octet| octet.is_ascii_digit())
}

/// What digits are worth, or the most that there can be where they are worth more.
fn value_of(digits: &[u8]) -> u32
    requires { IsTrue (list_all is_ascii_digit digits.now) }
    ensures { result ≡ min (decimal digits.now) u32.MAX }
{
    let mut value = 0u32;
    for digit in digits {
        value = value
            .saturating_mul(10)
            .saturating_add(u32::from(*digit - b'0'));
    }
    value
}

/// Reads a text: `\XX` is the octet of two hexadecimal digits, `\\` a backslash, and any other octet stands for itself.
pub(crate) fn read_text(alloc: Global, text: &[u8]) -> Result<Vec<u8>, LineFault>
    ensures { GivesOrWants (λ octets. octets.items) result (octets_of text.now) }
{
    let mut octets = Vec::new(alloc);
    add_text(&mut octets, text)?;
    Ok(octets)
}

/// Reads a text, and adds the octets that it spells to others. Where it spells none, some may have been added.
pub(crate) fn add_text(octets: &mut Vec<u8>, text: &[u8]) -> Result<(), LineFault>
    ensures read { GivesOrWants (λ _. octets.new.items) result
        (option_map (λ more. octets.old.items ++ more) (octets_of text.now)) }
    ensures behind { (more : List ℕ) × (octets.new.items ≡ octets.old.items ++ more) }
{
    let mut rest = text;
    while let Some(escape) = add_plain(octets, rest)? {
        let (octet, others) = read_escape(escape)?;
        octets.push(octet)?;
        rest = others;
    }
    Ok(())
}

/// Adds the octets of a text before its first backslash to others, and gives what stands behind it, if it has one.
fn add_plain<'a>(octets: &mut Vec<u8>, text: &'a [u8]) -> Result<Option<&'a [u8]>, AllocError>
    ensures plain { OnOk result (octets.new.items ≡ octets.old.items ++ before 92 text.entry.now) }
    ensures behind { IfOk result (λ rest. option_map (λ s. s.now) rest ≡ behind 92 text.entry.now) }
    ensures shorter { IfOk result (λ rest. length_left (option_map (λ s. s.now) rest) ≤ length text.entry.now) }
    ensures none { OnErr result (octets.new.items ≡ octets.old.items) }
{
    let (plain, rest) = cut(text, b'\\');
    octets.extend_from_slice(plain)?;
    Ok(rest)
}

/// Reads the octet whose escape a text begins with, behind the backslash, and gives what stands behind it.
fn read_escape(text: &[u8]) -> Result<(u8, &[u8]), LineFault>
    ensures { Gives (λ read. (read.0, read.1.now)) result (escaped text.entry.now) }
{
    let (high, rest) = first_octet(text)?;
    if high == b'\\' {
        return Ok((b'\\', rest));
    }
    let (low, rest) = first_octet(rest)?;
    Ok((hex_value(high)? * 16 + hex_value(low)?, rest))
}

/// The first octet, and those behind it.
fn first_octet(octets: &[u8]) -> Result<(u8, &[u8]), LineFault>
    ensures first { IfOk result (λ parts. octets.entry.now ≡ parts.0 ∷ parts.1.now) }
    ensures none { IfErr result (λ fault. (fault ≡ LineFault.NotACommand) × (octets.entry.now ≡ [])) }
{
    match octets.split_first() {
        Some((first, rest)) => Ok((*first, rest)),
        None => Err(LineFault::NotACommand),
    }
}

/// The value of a hexadecimal digit.
fn hex_value(digit: u8) -> Result<u8, LineFault>
    ensures value { Gives (λ value. value) result (hex_value digit) }
    ensures small { IfOk result (λ value. value < 16) }
{
    match digit {
        b'0'..=b'9' => Ok(digit - b'0'),
        b'A'..=b'F' => Ok(digit - b'A' + 10),
        b'a'..=b'f' => Ok(digit - b'a' + 10),
        _ => Err(LineFault::NotACommand),
    }
}
