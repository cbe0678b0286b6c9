//! One client's side of a terminal.
ghost use Rattle.std.specs.Prelude.{◌≡◌, ◌+◌, ◌*◌, ◌≤◌, ◌<◌, [], ◌∷◌, ◌++◌, ◌&&◌, true, false, nat_le, length, take, drop, remove, slice_get, position, IfOk};
ghost use Rattle.std.specs.Bool.{OnTrue, OnFalse};
ghost use Rattle.circular_buffer.specs.Buffer.{buffer};
ghost use Rattle.service_ports.specs.Modes.{is_telnet, with_shown};
ghost use Rattle.service_ports.specs.Ports.{begun, after_octet, after_octets, is_break_or, is_octet, takes_octet};
ghost use Rattle.service_ports.specs.Writing.{with_command};

use crate::command::{ECHO, SUPPRESS_GO_AHEAD, TelnetCommand};
use crate::input::{Heard, Key, TelnetReader};
use crate::key_queue::KeyQueue;
use crate::mode::PortMode;
use crate::output::TelnetOutput;
use std::alloc::{AllocError, Global};
use std::marker::Model;
use std::ops::Deref;

/// How many octets may wait to be written.
pub const MOST_OCTETS: usize = 16_384;

/// One client's side of a terminal: what the client sent and is not typed yet, and what is shown and not written yet. What
/// asks about the latter, without a change, is a call of [`TelnetOutput`].
#[derive(Drop)]
pub struct Port {
    mode: PortMode,
    reader: TelnetReader,
    keys: KeyQueue,
    output: TelnetOutput,
}

impl Model for Port {
    ghost use Rattle.std.specs.Prelude.{◌≡◌};
    ghost use Rattle.service_ports.specs.Ports.{PortState, key_places, octet_places};

    ghost Value = { PortState };

    ghost view = { λ p. record { mode = p.mode; reader = p.reader; keys = p.keys; output = p.output } };

    ghost invariant = { λ p. (p.keys.capacity ≡ key_places) × (p.output.capacity ≡ octet_places) };
}

impl Deref for Port {
    type Target = TelnetOutput;

    fn deref(&self) -> &TelnetOutput
        ensures { result.now ≡ self.now.output }
    {
        &self.output
    }
}

impl Port {
    /// A port for a new client. `AllocError` comes for want of memory; no other call wants any.
    pub fn new(alloc: Global, mode: PortMode) -> Result<Self, AllocError>
        ensures { IfOk result (λ port. port ≡ begun mode) }
    {
        let keys = KeyQueue::new(alloc)?;
        let output = TelnetOutput::new(alloc, MOST_OCTETS)?;
        let mut port = Port {
            mode,
            reader: TelnetReader::new(),
            keys,
            output,
        };
        port.begin();
        Ok(port)
    }

    /// Forgets the last client. The next one of telnet is offered both options: the server echoes (RFC 857), and sends no
    /// go-ahead (RFC 858).
    pub fn begin(&mut self)
        ensures { self.new ≡ begun self.old.mode }
    {
        self.reader = TelnetReader::new();
        self.keys.clear();
        self.output.clear();
        if self.mode.is_telnet() {
            let _ = self.output.tell(TelnetCommand::Will(ECHO));
            let _ = self.output.tell(TelnetCommand::Will(SUPPRESS_GO_AHEAD));
        }
    }

    /// What the octets of its client are.
    pub fn mode(&self) -> PortMode
        ensures { result ≡ self.now.mode }
    {
        self.mode
    }

    /// Whether it takes another octet of its client: there is room for its key and for an answer.
    pub fn wants(&self) -> bool
        ensures { result ≡ takes_octet self.now }
    {
        self.keys.has_room() && self.output.has_command_room()
    }

    /// Takes octets of its client, from the first on, as long as it takes any. The answer is how many were taken.
    pub fn octets(&mut self, octets: &[u8]) -> usize
        ensures taken { self.new ≡ after_octets self.old (take result octets.now) }
        ensures within { result ≤ length octets.now }
        ensures most { result < length octets.now → takes_octet self.new ≡ false }
    {
        let mut taken = 0;
        for octet in octets {
            if !self.wants() {
                break;
            }
            self.hear(*octet);
            taken += 1;
        }
        taken
    }

    #[tactic(auto, unfolding(crate::specs::Ports::after_octet))]
    fn hear(&mut self, octet: u8)
        requires { takes_octet self.old ≡ true }
        ensures { self.new ≡ after_octet self.old octet }
    {
        let heard = match self.mode {
            PortMode::Telnet => self.reader.read(octet),
            PortMode::Raw => Heard::Typed(Key::Octet(octet)),
        };
        match heard {
            Heard::Nothing => {}
            Heard::Typed(key) => self.keys.push(key),
            Heard::Answered(command) => {
                let _ = self.output.tell(command);
            }
        }
    }

    /// The key that is to be typed next.
    pub fn next_key(&self) -> Option<Key>
        ensures { result ≡ slice_get self.now.keys.items 0 }
    {
        self.keys.first()
    }

    /// The place of the first key that waits and is a break or of this octet.
    pub fn find_key(&self, octet: u8) -> Option<usize>
        ensures { result ≡ position (is_break_or octet) self.now.keys.items }
    {
        self.keys.find_break_or(octet)
    }

    /// The place of the first key that waits and is of this octet.
    pub fn find_octet(&self, octet: u8) -> Option<usize>
        ensures { result ≡ position (is_octet octet) self.now.keys.items }
    {
        self.keys.find_octet(octet)
    }

    /// How many keys wait to be typed.
    pub fn waiting_keys(&self) -> usize
        ensures { result ≡ length self.now.keys.items }
    {
        self.keys.len()
    }

    /// Drops the first `count` keys, which were typed or are not to be; all, if there are fewer.
    pub fn drop_keys(&mut self, count: usize)
        ensures { self.new ≡ record self.old { keys = buffer (drop count self.old.keys.items) self.old.keys.capacity } }
    {
        self.keys.drop_front(count);
    }

    /// Drops the key of this place, which was typed before its turn. If there is none, nothing changes.
    pub fn drop_key(&mut self, place: usize)
        ensures { self.new ≡ record self.old {
          keys = buffer (remove self.old.keys.items place) self.old.keys.capacity;
        } }
    {
        self.keys.remove(place);
    }

    /// Shows text to the client, and says so, if there is room for its longest form. Otherwise nothing changes.
    pub fn show(&mut self, text: &[u8]) -> bool
        ensures shown { OnTrue result (self.new ≡ record self.old {
          output = with_shown self.old.mode self.old.output text.now;
        }) }
        ensures full { OnFalse result (self.new ≡ self.old) }
        ensures room { result ≡ nat_le (length self.old.output.octets + (2 * length text.now + 1)) self.old.output.capacity }
    {
        match self.mode {
            PortMode::Telnet => self.output.show(text),
            PortMode::Raw => self.output.pass(text),
        }
    }

    /// Sends a command to the client, and says so, if it is one of telnet and there is room for any command. Otherwise
    /// nothing changes.
    pub fn tell(&mut self, command: TelnetCommand) -> bool
        ensures told { OnTrue result (self.new ≡ record self.old { output = with_command self.old.output command }) }
        ensures full { OnFalse result (self.new ≡ self.old) }
        ensures room { result ≡ is_telnet self.old.mode
            && nat_le (length self.old.output.octets + 4) self.old.output.capacity }
    {
        self.mode.is_telnet() && self.output.tell(command)
    }

    /// Drops the first `count` octets that wait, which were written; all, if there are fewer.
    pub fn written(&mut self, count: usize)
        ensures { self.new ≡ record self.old {
          output = record self.old.output { octets = drop count self.old.output.octets };
        } }
    {
        self.output.written(count);
    }
}
