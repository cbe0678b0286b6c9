//! A terminal, and the client that has it.
ghost use Rattle.std.specs.Prelude.{◌≡◌, ◌≤◌, ◌<◌, ◌||◌, true, false, not, length, take, IfOk};
ghost use Rattle.std.specs.Bool.{OnTrue, OnFalse};
ghost use Rattle.service_ports.specs.Ports.{takes_octet};
ghost use Rattle.service.specs.Terminals.{attached, dismissed, elapsed, ended, fresh, has_client, heard, is_free, is_free_in, is_free_phase, is_open, kept_alive, left, left_if_written, urgent_place, waited, written, xon_place};

use service_ports::{Port, PortMode, TelnetCommand};
use std::alloc::{AllocError, Global};

/// How long what waits may take to be written out to a client that is to go, in ticks.
const MOST_FLUSH: u16 = 200;

/// The octets of text that are shown at once, at most.
const MOST_TEXT: usize = 3200;

/// After how many ticks without an octet a client is sent a command that asks for nothing.
const QUIET: u16 = 1200;

/// The recall character (X.3 3.1): DLE.
const RECALL: u8 = 16;

/// The key that lets a terminal be shown text again (X.3 3.12): DC1.
pub(crate) const XON: u8 = 17;

/// What a client of telnet is told that goes because nothing came and nothing was shown for too long.
const SILENT: [u8; 44] = *b"\r\nNothing was typed or shown for too long.\r\n";

/// Who has a terminal.
#[derive(Clone, Copy)]
pub(crate) enum Phase {
    /// Nobody.
    Free,
    /// A client.
    Open,
    /// A client that goes once what waits is written out, or after so many ticks.
    Ending(u16),
    /// Nobody, and the connection of the last client is to be closed.
    Closing,
    /// Nobody, and the order to close the connection of the last client was given.
    Closed,
}

/// What a PAD is told of a terminal.
#[derive(Clone, Copy)]
pub(crate) enum Presence {
    /// A client came.
    Here,
    /// The client left, or nobody came yet.
    Gone,
}

/// What a terminal has of its table.
#[derive(Drop)]
pub(crate) struct Terms {
    /// The number of the table.
    pub(crate) table: usize,
    /// After how many ticks without an octet either way a client goes. 0: never.
    pub(crate) idle: u16,
    /// Whether the PAD takes DC1 as XON.
    pub(crate) has_xon: bool,
    /// What a client is shown first.
    pub(crate) greeting: Vec<u8>,
}

/// A terminal.
#[derive(Drop)]
pub(crate) struct Terminal {
    terms: Terms,
    pub(crate) port: Port,
    pub(crate) phase: Phase,
    /// What its PAD is still to be told.
    pub(crate) untold: Option<Presence>,
    /// Ticks since the client last sent octets or text was shown.
    silence: u16,
    /// Ticks since the client last sent or was written octets, or was sent a command.
    quiet: u16,
    /// Whether it is to be logged that its client goes because it was silent too long.
    pub(crate) was_silent: bool,
    /// Keys of its client that were dropped because a recall or a break came after them.
    pub(crate) overtaken: u64,
    /// How many of these were logged.
    pub(crate) logged: u64,
}

impl Terminal {
    ghost use Rattle.service.specs.Serving.{IsOvertaken, may_show, shown_at};

    /// A terminal that nobody has. Its PAD is not told so yet.
    pub(crate) fn new(alloc: Global, mode: PortMode, terms: Terms) -> Result<Self, AllocError>
        ensures { IfOk result (λ terminal. terminal ≡ fresh mode terms) }
    {
        Ok(Terminal {
            terms,
            port: Port::new(alloc, mode)?,
            phase: Phase::Free,
            untold: Some(Presence::Gone),
            silence: 0,
            quiet: 0,
            was_silent: false,
            overtaken: 0,
            logged: 0,
        })
    }

    /// Whether a client may have it: nobody has it, and its PAD was told so.
    pub(crate) fn is_free(&self) -> bool
        ensures { result ≡ is_free self.now }
    {
        matches!(self.phase, Phase::Free) && self.untold.is_none()
    }

    /// Whether it is of this table, and a client may have it.
    pub(crate) fn is_free_in(&self, table: usize) -> bool
        ensures { result ≡ is_free_in table self.now }
    {
        self.terms.table == table && self.is_free()
    }

    /// A client gets it, and is shown the greeting.
    pub(crate) fn attach(&mut self)
        ensures { self.new ≡ attached self.old }
    {
        self.port.begin();
        let _ = self.port.show(self.terms.greeting.as_slice());
        self.phase = Phase::Open;
        self.untold = Some(Presence::Here);
        self.silence = 0;
        self.quiet = 0;
        self.was_silent = false;
        self.overtaken = 0;
        self.logged = 0;
    }

    /// Whether a client has it.
    pub(crate) fn has_client(&self) -> bool
        ensures { result ≡ has_client self.now.phase }
    {
        matches!(self.phase, Phase::Open | Phase::Ending(_))
    }

    /// Whether nobody has it, and no connection is to be closed.
    pub(crate) fn is_deserted(&self) -> bool
        ensures { result ≡ is_free_phase self.now.phase }
    {
        matches!(self.phase, Phase::Free)
    }

    /// Whether its client may send octets.
    pub(crate) fn is_open(&self) -> bool
        ensures { result ≡ is_open self.now.phase }
    {
        matches!(self.phase, Phase::Open)
    }

    /// The client is gone: what it typed and what it was to see is dropped, and its PAD is to be told.
    pub(crate) fn leave(&mut self)
        ensures { self.new ≡ left self.old }
    {
        if self.has_client() {
            self.port.begin();
            self.untold = Some(Presence::Gone);
            self.phase = Phase::Closing;
        }
    }

    /// The client is to go once what waits is written out.
    pub(crate) fn end(&mut self)
        ensures { self.new ≡ ended self.old }
    {
        if self.is_open() {
            self.phase = Phase::Ending(MOST_FLUSH);
        }
        self.leave_if_written();
    }

    fn leave_if_written(&mut self)
        ensures { self.new ≡ left_if_written self.old }
    {
        if matches!(self.phase, Phase::Ending(_)) && self.port.waiting_octets() == 0 {
            self.leave();
        }
    }

    /// Lets ticks pass.
    pub(crate) fn elapse(&mut self, ticks: u16)
        ensures { self.new ≡ elapsed ticks self.old }
    {
        match self.phase {
            Phase::Open => self.wait(ticks),
            Phase::Ending(left) if left > ticks => self.phase = Phase::Ending(left - ticks),
            Phase::Ending(_) => self.leave(),
            Phase::Free | Phase::Closing | Phase::Closed => {}
        }
    }

    fn wait(&mut self, ticks: u16)
        ensures { self.new ≡ waited ticks self.old }
    {
        self.silence = self.silence.saturating_add(ticks);
        self.quiet = self.quiet.saturating_add(ticks);
        if self.terms.idle > 0 && self.silence >= self.terms.idle {
            self.dismiss();
        } else {
            self.keep_alive();
        }
    }

    /// The client goes because it was silent too long. One of telnet is told so, if there is room.
    fn dismiss(&mut self)
        ensures { self.new ≡ dismissed self.old }
    {
        if self.port.mode().is_telnet() {
            let _ = self.port.show(&SILENT);
        }
        self.was_silent = true;
        self.end();
    }

    /// Sends a quiet client a command that asks for nothing, if there is room.
    fn keep_alive(&mut self)
        ensures { self.new ≡ kept_alive self.old }
    {
        if self.quiet >= QUIET && self.port.tell(TelnetCommand::NoOperation) {
            self.quiet = 0;
        }
    }

    /// Takes octets of its client, as long as there is room; all, if no client is there that may send any.
    pub(crate) fn hear(&mut self, octets: &[u8]) -> usize
        ensures within { result ≤ length octets.now }
        ensures taken { self.new ≡ heard (take result octets.now) self.old }
        ensures most { result < length octets.now → takes_octet self.new.port ≡ false }
    {
        if !self.is_open() {
            return octets.len();
        }
        self.silence = 0;
        self.quiet = 0;
        self.port.octets(octets)
    }

    /// Whether it takes an octet of its client.
    pub(crate) fn wants(&self) -> bool
        ensures { result ≡ (not (is_open self.now.phase) || takes_octet self.now.port) }
    {
        !self.is_open() || self.port.wants()
    }

    /// Drops octets that were written.
    pub(crate) fn written(&mut self, count: usize)
        ensures { self.new ≡ written count self.old }
    {
        self.quiet = 0;
        self.port.written(count);
        self.leave_if_written();
    }

    /// Whether text may be shown: a client is there, and there is room for any.
    pub(crate) fn may_show(&self) -> bool
        ensures { result ≡ may_show self.now }
    {
        self.has_client() && self.port.has_room(MOST_TEXT)
    }

    /// Shows text.
    pub(crate) fn show(&mut self, text: &[u8])
        requires may { may_show self.old ≡ true }
        requires short { length text.now ≤ MOST_TEXT }
        ensures { self.new ≡ shown_at text.now self.old }
    {
        self.silence = 0;
        let _ = self.port.show(text);
    }

    /// The place of the first key that waits and is an XON, if the PAD has one.
    pub(crate) fn find_xon(&self) -> Option<usize>
        ensures { result ≡ xon_place self.now }
    {
        if !self.terms.has_xon {
            return None;
        }
        self.port.find_octet(XON)
    }

    /// The first key cannot be typed: if a recall or a break comes after it, the keys before that are dropped, and the
    /// answer is whether there were any.
    pub(crate) fn overtake(&mut self) -> bool
        ensures dropped { OnTrue result (IsOvertaken self.old self.new) }
        ensures same { OnFalse result (self.new ≡ self.old) }
        ensures first { OnFalse result (urgent_place self.old.port.keys.items ≡ 0) }
    {
        match self.port.find_key(RECALL) {
            None | Some(0) => false,
            Some(place) => {
                self.port.drop_keys(place);
                self.overtaken = self.overtaken.saturating_add(place as u64);
                true
            }
        }
    }
}
