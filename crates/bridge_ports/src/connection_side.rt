//! What the shell tells a bridge of its connection.
ghost use Rattle.std.specs.Prelude.{◌≡◌, ◌≤◌, [], true, false, length, take};
ghost use Rattle.bridge_ports.specs.Phases.{broken, closed, dismissed, opened, own_ended};
ghost use Rattle.bridge_ports.specs.Bridges.{elapsed, heard, heard_count, listens, may_write, wants_octets, written};

use crate::bridge::Bridge;
use crate::phases::{CallPhase, Connection, OwnSide};
use octet_rings::MOST_OCTETS;

impl Bridge {
    /// The connection stands that was ordered.
    pub fn opened(&mut self)
        ensures { self.new ≡ record self.old { phases = opened self.old.phases } }
    {
        if matches!(self.phases.connection, Connection::Awaited(_)) {
            self.phases.connection = Connection::Open;
            if matches!(self.phases.call, CallPhase::Incoming) {
                self.phases.call = CallPhase::ToAnswer;
            }
        }
    }

    /// The connection could not be had, or is broken: the order to close it follows, and the call is refused or cleared.
    pub fn lost(&mut self)
        ensures { self.new ≡ record self.old { phases = broken self.old.phases } }
    {
        self.phases.break_off();
    }

    /// The peer ended its side.
    pub fn ended(&mut self)
        ensures { self.new ≡ record self.old { phases = record self.old.phases { own = own_ended self.old.phases.own } } }
    {
        if matches!(self.phases.own, OwnSide::Speaking) {
            self.phases.own = OwnSide::Ended;
        }
    }

    /// The connection was closed, so that the bridge may have another one.
    pub fn closed(&mut self)
        ensures { self.new ≡ record self.old { phases = closed self.old.phases } }
    {
        self.phases.break_off();
        self.phases.connection = Connection::Absent;
    }

    /// The bridge is to go: the call is refused or cleared, and what waits is written out, within 200 ticks.
    pub fn end(&mut self)
        ensures { self.new ≡ record self.old { phases = dismissed self.old.phases } }
    {
        self.phases.call = self.phases.call.given_up();
        self.phases.connection = self.phases.connection.flushing();
        self.phases.far = self.phases.far.ended();
    }

    fn listens(&self) -> bool
        ensures { result ≡ listens self.now }
    {
        matches!(self.phases.connection, Connection::Open)
            && matches!(self.phases.own, OwnSide::Speaking)
    }

    /// Takes octets of the peer, from the first on, as long as there is room. The answer is how many were taken. Those that
    /// are for no call are dropped.
    pub fn octets(&mut self, octets: &[u8]) -> usize
        ensures count { result ≡ heard_count octets.now self.old }
        ensures within { result ≤ length octets.now }
        ensures taken { self.new ≡ heard (take result octets.now) self.old }
    {
        if !self.listens() {
            return octets.len();
        }
        self.input.fill(octets)
    }

    /// Whether octets of the peer are to be read.
    pub fn wants(&self) -> bool
        ensures { result ≡ wants_octets self.now }
    {
        match self.phases.connection {
            Connection::Open => self.listens() && self.input.len() < MOST_OCTETS,
            Connection::Flushing(_) => matches!(self.phases.own, OwnSide::Speaking),
            _ => false,
        }
    }

    fn may_write(&self) -> bool
        ensures { result ≡ may_write self.now }
    {
        matches!(
            self.phases.connection,
            Connection::Open | Connection::Flushing(_)
        )
    }

    /// Octets that wait to be written, from the first on: some if there are any that may be written, and not always all.
    pub fn waiting(&self) -> &[u8]
        ensures front { take (length result.now) self.now.output ≡ result.now }
        ensures some { may_write self.now ≡ true → length result.now ≡ 0 → self.now.output ≡ [] }
        ensures none { may_write self.now ≡ false → result.now ≡ [] }
    {
        if self.may_write() {
            self.output.waiting()
        } else {
            &[]
        }
    }

    /// Drops the first `count` octets that wait, which were written; all, if there are fewer.
    pub fn written(&mut self, count: usize)
        ensures { self.new ≡ written count self.old }
    {
        self.output.drop_front(count);
    }

    /// Lets ticks pass, each a twentieth of a second.
    pub fn elapse(&mut self, ticks: u16)
        ensures { self.new ≡ elapsed ticks self.old }
    {
        let is_written = self.output.len() == 0;
        self.phases.elapse(ticks, is_written);
    }
}
