//! Reading commands.

ghost use Rattle.std.specs.Prelude.{◌≡◌, ◌<◌, ◌≤◌, length, IfOk};
ghost use Rattle.x28_commands.specs.declared.command.Command.{Command};
ghost use Rattle.x28_commands.specs.CommandForm.{CommandForm};
ghost use Rattle.x28_commands.specs.Faults.{fault_in, first_fault};
ghost use Rattle.x28_commands.specs.Reading.{command_of, command_in, command_from, number_in, numbers_in, pairs_in};
ghost use Rattle.x28_commands.specs.Reading as spec;

use crate::command::{Command, ENTRY_LIMIT};
use crate::fault::CommandFault;
use crate::keyword::{Keyword, split_keyword};
use crate::numbers::{Entry, TEXT_LIMIT, entries};
use crate::selection::read_selection;
use crate::words::{after_spaces, trimmed};
use arrayvec::ArrayVec;

/// How many octets a line has at most.
pub const LINE_LIMIT: usize = 64;

/// Reads a command line, without the octet that ended it (X.28 3.2).
///
/// The faults are:
///
/// - `TooLong`: the line has more than 64 octets, which is looked for first, or more than 18 entries, or more than 12
///   octets of user data.
/// - `Unknown`: the line begins with no keyword, or something follows a keyword without arguments.
/// - `BadNumber`: numbers or pairs are wrong or missing.
/// - `BadAddress`: a selection has no address of 1 to 15 digits, or something else after it than `D` or `P` and graphic
///   characters.
pub fn read_command(line: &[u8]) -> Result<Command, CommandFault>
    // Which answer it is.
    ensures exact { result ≡ command_of line.now }
    // What is read is in the grammar, and what is in the grammar is read.
    ensures found { IfOk result (λ command. CommandForm line.now command) }
    ensures only { (command : Command) → CommandForm line.now command → result ≡ Ok command }
    // The fault is the first in number that the line has.
    ensures fault { fault_in result ≡ first_fault line.now }
{
    if line.len() > LINE_LIMIT {
        return Err(CommandFault::TooLong);
    }
    command_in(after_spaces(line))
}

/// The command of a text without leading spaces.
fn command_in(text: &[u8]) -> Result<Command, CommandFault>
    requires { length text.now < TEXT_LIMIT }
    ensures { result ≡ command_in text.now }
{
    if text.is_empty() {
        return Ok(Command::Empty);
    }
    if text[0].is_ascii_digit() {
        return Ok(Command::Select(read_selection(text)?));
    }
    let (word, rest) = split_keyword(trimmed(text));
    read_arguments(Keyword::named(word), after_spaces(rest))
}

/// A keyword's command, by the text that follows the keyword.
fn read_arguments(keyword: Option<Keyword>, text: &[u8]) -> Result<Command, CommandFault>
    requires { length text.now < TEXT_LIMIT }
    ensures { result ≡ command_from keyword text.now }
{
    match keyword {
        Some(Keyword::Status) => alone(Command::Status, text),
        Some(Keyword::Clear) => alone(Command::Clear, text),
        Some(Keyword::Interrupt) => alone(Command::Interrupt, text),
        Some(Keyword::Reset) => alone(Command::Reset, text),
        Some(Keyword::Profile) => Ok(Command::Profile(number_in(text)?)),
        Some(Keyword::Read) => Ok(Command::Read(numbers_in(text)?)),
        Some(Keyword::Set) => Ok(Command::Set(read_pairs(text)?)),
        Some(Keyword::SetAndRead) => Ok(Command::SetAndRead(read_pairs(text)?)),
        None => Err(CommandFault::Unknown),
    }
}

/// A command that nothing may follow.
fn alone(command: Command, text: &[u8]) -> Result<Command, CommandFault>
    ensures { result ≡ spec.alone command text.now }
{
    if text.is_empty() {
        Ok(command)
    } else {
        Err(CommandFault::Unknown)
    }
}

fn number_in(text: &[u8]) -> Result<u8, CommandFault>
    ensures { result ≡ number_in text.now }
{
    match u8::read(text) {
        Some(number) => Ok(number),
        None => Err(CommandFault::BadNumber),
    }
}

/// The numbers of a text, none for an empty one.
fn numbers_in(text: &[u8]) -> Result<ArrayVec<u8, ENTRY_LIMIT>, CommandFault>
    requires { length text.now < TEXT_LIMIT }
    ensures { result ≡ numbers_in text.now }
{
    if text.is_empty() {
        return Ok(ArrayVec::new());
    }
    let Some(numbers) = entries::<u8>(text) else {
        return Err(CommandFault::BadNumber);
    };
    match ArrayVec::try_from(numbers.as_slice()) {
        Ok(list) => Ok(list),
        Err(_) => Err(CommandFault::TooLong),
    }
}

/// Reads pairs as they follow `SET`, without spaces about them. A pair that is wrong or missing is `BadNumber`, more
/// than 18 are `TooLong`. (18 pairs have at most 143 octets.)
pub fn read_pairs(text: &[u8]) -> Result<ArrayVec<(u8, u8), ENTRY_LIMIT>, CommandFault>
    requires { length text.now ≤ 143 }
    ensures { result ≡ pairs_in text.now }
{
    let Some(pairs) = entries::<(u8, u8)>(text) else {
        return Err(CommandFault::BadNumber);
    };
    match ArrayVec::try_from(pairs.as_slice()) {
        Ok(list) => Ok(list),
        Err(_) => Err(CommandFault::TooLong),
    }
}
