//! What the network tells a bridge, and what it did of what was asked.
ghost use Rattle.std.specs.Prelude.{◌≡◌};
ghost use Rattle.bridge_ports.specs.Phases.{answered, call_ended, cleared, connected, own_confirmed, own_end_said, placed, reset};
ghost use Rattle.bridge_ports.specs.Bridges.{said, taken};

use crate::bridge::Bridge;
use crate::phases::{AtReset, CallPhase, FarSide, OwnSide};

impl Bridge {
    /// The call that came was answered, or could not be: then the connection is closed.
    pub fn answered(&mut self, done: bool)
        ensures { self.new ≡ record self.old { phases = answered done self.old.phases } }
    {
        if matches!(self.phases.call, CallPhase::ToAnswer) {
            if done {
                self.phases.call = CallPhase::Standing;
            } else {
                self.phases.end_otherwise();
            }
        }
    }

    /// The call was placed, or could not be: then the connection is closed.
    pub fn placed(&mut self, done: bool)
        ensures { self.new ≡ record self.old { phases = placed done self.old.phases } }
    {
        if matches!(self.phases.call, CallPhase::ToPlace) {
            if done {
                self.phases.call = CallPhase::Placed;
            } else {
                self.phases.end_otherwise();
            }
        }
    }

    /// The far end accepted the call.
    pub fn connected(&mut self)
        ensures { self.new ≡ record self.old { phases = connected self.old.phases } }
    {
        if matches!(self.phases.call, CallPhase::Placed) {
            self.phases.call = CallPhase::Standing;
        }
    }

    /// The first `count` octets that waited were said.
    pub fn said(&mut self, count: usize)
        ensures { self.new ≡ said count self.old }
    {
        self.input.drop_front(count);
    }

    /// The empty message was said.
    pub fn said_end(&mut self)
        ensures { self.new ≡ record self.old { phases = record self.old.phases { own = own_end_said self.old.phases.own } } }
    {
        if matches!(self.phases.own, OwnSide::Ended) {
            self.phases.own = OwnSide::EndSaid;
        }
    }

    /// The empty message is confirmed.
    pub fn confirmed(&mut self)
        ensures { self.new ≡ record self.old { phases = record self.old.phases { own = own_confirmed self.old.phases.own } } }
    {
        if matches!(self.phases.own, OwnSide::EndSaid) {
            self.phases.own = OwnSide::EndConfirmed(0);
        }
    }

    /// A packet without Q was taken, with its M bit. An empty message is the end of the far side. What comes after that is
    /// dropped. If there is no room, which is so only if the packet has over 1,024 octets or none was to be taken, the call
    /// is cleared.
    pub fn took(&mut self, octets: &[u8], more: bool)
        ensures { self.new ≡ taken octets.now more self.old }
    {
        if !matches!(self.phases.call, CallPhase::Standing)
            || !matches!(self.phases.far, FarSide::Coming)
        {
            return;
        }
        if self.output.room() < octets.len() {
            self.phases.break_off();
        } else if octets.is_empty() && !more && !self.phases.in_message {
            self.phases.far = FarSide::EndTaken;
        } else {
            self.output.extend(octets);
            self.phases.own = self.phases.own.moved();
            self.phases.in_message = more;
        }
    }

    /// The call was refused or cleared from here.
    pub fn cleared(&mut self)
        ensures { self.new ≡ record self.old { phases = cleared self.old.phases } }
    {
        match self.phases.call {
            CallPhase::Standing => self.phases.end_whole(),
            CallPhase::ToRefuse | CallPhase::ToClear => self.phases.call = CallPhase::Idle,
            _ => {}
        }
    }

    /// The call is over by the far end or the network, for this cause and diagnostic (X.25 5.2.4).
    pub fn call_ended(&mut self, cause: u8, diagnostic: u8)
        ensures { self.new ≡ record self.old { phases = call_ended cause diagnostic self.old.phases } }
    {
        let is_whole = self.phases.has_whole_end(cause, diagnostic);
        match self.phases.call {
            CallPhase::Idle => {}
            CallPhase::ToRefuse | CallPhase::ToClear => self.phases.call = CallPhase::Idle,
            _ if is_whole => self.phases.end_whole(),
            _ => self.phases.end_otherwise(),
        }
    }

    /// The call was reset: what was on the way is gone (X.25 4.4.3).
    pub fn reset(&mut self)
        ensures { self.new ≡ record self.old { phases = reset self.old.terms.at_reset self.old.phases } }
    {
        if !matches!(self.phases.call, CallPhase::Standing) {
            return;
        }
        match self.terms.at_reset {
            AtReset::ClearCall => self.phases.break_off(),
            AtReset::Continue => {
                self.phases.own = self.phases.own.reset();
                self.phases.in_message = false;
            }
        }
    }
}
