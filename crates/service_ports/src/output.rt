//! Writing text and commands as telnet has them.
ghost use Rattle.std.specs.Prelude.{◌≡◌, ◌+◌, ◌*◌, ◌≤◌, ◌<◌, ◌++◌, ◌∷◌, [], true, false, nat_le, length, take, drop, IfOk};
ghost use Rattle.std.specs.Bool.{OnTrue, OnFalse};
ghost use Rattle.service_ports.specs.Writing.{new_output, with_text, with_command, octet_form};
ghost use Rattle.service_ports.specs.Commands.{command_octets};

use crate::command::{IAC, TelnetCommand};
use crate::input::{CR, DO, DONT, LF, NUL, WILL, WONT};
use circular_buffer::HeapCircularBuffer;
use std::alloc::{AllocError, Global};
use std::marker::Model;

/// The code of a command that asks for nothing.
const NOP: u8 = 241;

/// The octets of a command, at most: the NUL that ends a CR before it, and three of its own.
const MOST_COMMAND: usize = 4;

/// What waits to be written to a client. It holds so many octets at most, and never grows.
#[derive(Drop)]
pub struct TelnetOutput {
    octets: HeapCircularBuffer<u8>,
    after_return: bool,
}

impl Model for TelnetOutput {
    ghost use Rattle.std.specs.Prelude.{◌≤◌, length};
    ghost use Rattle.service_ports.specs.Writing.{Output};

    ghost Value = { Output };

    ghost view = { λ o. record { octets = o.octets.items; capacity = o.octets.capacity; after_return = o.after_return } };

    ghost invariant = { λ o. length o.octets.items ≤ o.octets.capacity };
}

impl TelnetOutput {
    /// No octets, and room for so many.
    pub fn new(alloc: Global, capacity: usize) -> Result<Self, AllocError>
        ensures { IfOk result (λ output. output ≡ new_output capacity) }
    {
        let octets = HeapCircularBuffer::with_capacity(alloc, capacity)?;
        Ok(TelnetOutput {
            octets,
            after_return: false,
        })
    }

    /// Forgets all, as for a new client.
    pub fn clear(&mut self)
        ensures { self.new ≡ new_output self.old.capacity }
    {
        self.octets.clear();
        self.after_return = false;
    }

    /// How many octets wait to be written.
    pub fn waiting_octets(&self) -> usize
        ensures { result ≡ length self.now.octets }
    {
        self.octets.len()
    }

    /// How many octets more it has room for.
    pub fn room(&self) -> usize
        ensures { result + length self.now.octets ≡ self.now.capacity }
    {
        self.octets.capacity() - self.octets.len()
    }

    /// Whether there is room for the longest form of a text of so many octets: two octets for each, and one more.
    pub fn has_room(&self, text: usize) -> bool
        ensures { result ≡ nat_le (length self.now.octets + (2 * text + 1)) self.now.capacity }
    {
        text < self.octets.capacity() && self.room() >= 2 * text + 1
    }

    /// Writes text, and says so, if there is room for its longest form: two octets for each octet, and one more.
    /// Otherwise nothing changes.
    pub fn show(&mut self, text: &[u8]) -> bool
        ensures shown { OnTrue result (self.new ≡ with_text self.old text.now) }
        ensures full { OnFalse result (self.new ≡ self.old) }
        ensures room { result ≡ nat_le (length self.old.octets + (2 * length text.now + 1)) self.old.capacity }
    {
        if !self.has_room(text.len()) {
            return false;
        }
        for octet in text {
            self.push_text(*octet);
        }
        true
    }

    /// Writes octets as they are, and says so, if there is room for text of as many. Otherwise nothing changes.
    pub fn pass(&mut self, octets: &[u8]) -> bool
        ensures passed { OnTrue result (self.new ≡ record self.old { octets = self.old.octets ++ octets.now }) }
        ensures full { OnFalse result (self.new ≡ self.old) }
        ensures room { result ≡ nat_le (length self.old.octets + (2 * length octets.now + 1)) self.old.capacity }
    {
        if !self.has_room(octets.len()) {
            return false;
        }
        self.push_all(octets);
        true
    }

    fn push_text(&mut self, octet: u8)
        requires { length self.old.octets + length (octet_form self.old.after_return octet) ≤ self.old.capacity }
        ensures { self.new ≡ with_text self.old (octet ∷ []) }
    {
        if self.after_return && octet != LF {
            self.push(NUL);
        }
        if octet == IAC {
            self.push(IAC);
        }
        self.push(octet);
        self.after_return = octet == CR;
    }

    fn push(&mut self, octet: u8)
        requires { length self.old.octets < self.old.capacity }
        ensures { self.new ≡ record self.old { octets = self.old.octets ++ octet ∷ [] } }
    {
        let _ = self.octets.try_push_back(octet);
    }

    /// Whether there is room for any command.
    pub fn has_command_room(&self) -> bool
        ensures { result ≡ nat_le (length self.now.octets + MOST_COMMAND) self.now.capacity }
    {
        self.room() >= MOST_COMMAND
    }

    /// Writes a command, and says so, if there is room for any command. Otherwise nothing changes.
    pub fn tell(&mut self, command: TelnetCommand) -> bool
        ensures told { OnTrue result (self.new ≡ with_command self.old command) }
        ensures full { OnFalse result (self.new ≡ self.old) }
        ensures room { result ≡ nat_le (length self.old.octets + MOST_COMMAND) self.old.capacity }
    {
        if !self.has_command_room() {
            return false;
        }
        if self.after_return {
            self.push(NUL);
            self.after_return = false;
        }
        self.push_command(command);
        true
    }

    fn push_command(&mut self, command: TelnetCommand)
        requires { length self.old.octets + 3 ≤ self.old.capacity }
        ensures { self.new ≡ record self.old { octets = self.old.octets ++ command_octets command } }
    {
        match command {
            TelnetCommand::NoOperation => self.push_all(&[IAC, NOP]),
            TelnetCommand::Will(option) => self.push_all(&[IAC, WILL, option]),
            TelnetCommand::Wont(option) => self.push_all(&[IAC, WONT, option]),
            TelnetCommand::Do(option) => self.push_all(&[IAC, DO, option]),
            TelnetCommand::Dont(option) => self.push_all(&[IAC, DONT, option]),
        }
    }

    fn push_all(&mut self, octets: &[u8])
        requires { length self.old.octets + length octets.now ≤ self.old.capacity }
        ensures { self.new ≡ record self.old { octets = self.old.octets ++ octets.now } }
    {
        self.octets.fill_from_slice(octets);
    }

    /// Octets that wait, from the first on: some if there are any, and not always all.
    pub fn waiting(&self) -> &[u8]
        ensures front { take (length result.now) self.now.octets ≡ result.now }
        ensures some { length result.now ≡ 0 → self.now.octets ≡ [] }
    {
        let (first, second) = self.octets.as_slices();
        if first.is_empty() { second } else { first }
    }

    /// Drops the first `count` octets, which were written; all, if there are fewer.
    pub fn written(&mut self, count: usize)
        ensures { self.new ≡ record self.old { octets = drop count self.old.octets } }
    {
        let left = self.octets.len().saturating_sub(count);
        self.octets.truncate_front(left);
    }
}
