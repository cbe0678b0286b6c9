//! The line on which a terminal types a command.
ghost use Rattle.std.specs.Prelude.{◌≡◌, ◌≤◌, [], length, None};
ghost use Rattle.pad_terminal.specs.CommandLine.{after_key, typed, edited, is_end, is_echoed};
ghost use Rattle.pad_editing.specs.Echoes.{function_echo};

use arrayvec::ArrayVec;
use pad_editing::Echo;
use std::marker::Model;
use std::ops::Deref;
use x3_params::{EditingFunction, Params};
use x28_commands::hides_echo;

/// How many octets of a command line are held: one more than a command may have.
const HELD_LIMIT: usize = 65;

/// The octets of a command line, at most [`HELD_LIMIT`] of them.
#[derive(Drop)]
pub(crate) struct CommandLine {
    octets: ArrayVec<u8, HELD_LIMIT>,
}

/// What a key of the command line gives: its echo, and the line that it ends, if any.
#[derive(Drop)]
pub(crate) struct LineKey {
    pub(crate) echo: Echo,
    pub(crate) ended: Option<CommandLine>,
}

impl Model for CommandLine {
    ghost use Rattle.std.specs.Prelude.{ℕ, List, ◌≤◌, length};
    ghost use Rattle.pad_terminal.specs.declared.command_line.TheConstants.{HELD_LIMIT};

    ghost Value = { List ℕ };

    ghost view = { λ l. l.octets.items };

    ghost invariant = { λ l. length l.octets.items ≤ HELD_LIMIT };
}

impl Deref for CommandLine {
    type Target = ArrayVec<u8, HELD_LIMIT>;

    /// The octets of the line.
    fn deref(&self) -> &ArrayVec<u8, HELD_LIMIT>
        ensures octets { result.now.items ≡ self.now }
        ensures limit { length self.now ≤ HELD_LIMIT }
    {
        &self.octets
    }
}

impl CommandLine {
    /// An empty line.
    pub(crate) fn new() -> CommandLine
        ensures { result ≡ [] }
    {
        CommandLine {
            octets: ArrayVec::new(),
        }
    }

    /// Whether the next key is echoed (X.3 3.2, X.28 3.2.2).
    pub(crate) fn is_echoed(&self, params: &Params) -> bool
        ensures { result ≡ is_echoed params.now self.now }
    {
        params.has_echo() && !hides_echo(self.octets.as_slice())
    }

    /// Takes a key: a carriage return or a plus sign ends the line, the characters of parameters 16 to 18 edit it, and
    /// any other is added while fewer than [`HELD_LIMIT`] octets are held.
    pub(crate) fn key(&mut self, octet: u8, params: &Params) -> LineKey
        ensures line { self.new ≡ (after_key params.now octet self.old).line }
        ensures echo { result.echo ≡ (after_key params.now octet self.old).echo }
        ensures ended { result.ended ≡ (after_key params.now octet self.old).ended }
    {
        if is_end(octet) {
            let ended = CommandLine {
                octets: self.octets.take(),
            };
            return LineKey {
                echo: Echo::of_octet(octet),
                ended: Some(ended),
            };
        }
        LineKey {
            echo: self.typed(params.editing_function(octet), octet),
            ended: None,
        }
    }

    /// Edits the line or adds a key to it, and gives the echo.
    fn typed(&mut self, function: Option<EditingFunction>, octet: u8) -> Echo
        ensures line { self.new ≡ (typed function octet self.old).line }
        ensures echo { result ≡ (typed function octet self.old).echo }
    {
        match function {
            Some(function) => self.edit(function),
            None => self.add(octet),
        }
    }

    fn edit(&mut self, function: EditingFunction) -> Echo
        ensures line { self.new ≡ edited function self.old }
        ensures echo { result ≡ function_echo function self.old }
    {
        let echo = Echo::of_function(function, self.octets.as_slice());
        match function {
            EditingFunction::CharacterDelete => {
                self.octets.pop();
            }
            EditingFunction::LineDelete => self.octets.clear(),
            EditingFunction::LineDisplay => {}
        }
        echo
    }

    fn add(&mut self, octet: u8) -> Echo
        ensures line { self.new ≡ (typed None octet self.old).line }
        ensures echo { result ≡ (typed None octet self.old).echo }
    {
        if self.octets.is_full() {
            return Echo::none();
        }
        self.octets.push(octet);
        Echo::of_octet(octet)
    }
}

/// Whether an octet ends the line.
fn is_end(octet: u8) -> bool
    ensures { result ≡ is_end octet }
{
    octet == b'\r' || octet == b'+'
}
