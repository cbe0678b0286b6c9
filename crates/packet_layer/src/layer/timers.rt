//! The timers of a packet layer (X.25 annex D).
ghost use Rattle.std.specs.Prelude.{◌≡◌, [], ◌≤◌, ◌||◌, length};
ghost use Rattle.flow_window.specs.Pool.{Holds, Balances};
ghost use Rattle.packet_layer.specs.Held.{most_held};
ghost use Rattle.packet_layer.specs.Layer as machine;
ghost use Rattle.packet_layer.specs.Events.{timer_named, runs_named, on_named};
ghost use Rattle.packet_layer.specs.TimerView.{maybe_timer, timer_of};

use crate::layer::Layer;
use crate::layer_timers::Timer;
use crate::restart::Phase;
use flow_window::pool::Pool;
use link_timers::{Role, TimerId};
use packet_channel::{Reason, error_cause};
use packet_codec::{diagnostic, restart_cause};

impl Layer {
    /// The timer of this end that has the name, if there is one: T20 to T23 are a DTE's, T10 to T13 a DCE's.
    pub fn timer_named(&self, id: TimerId) -> Option<Timer>
        ensures { maybe_timer result ≡ timer_named self.now.layer.role id }
    {
        match (self.role, id) {
            (Role::Dte, TimerId::T20) | (Role::Dce, TimerId::T10) => Some(Timer::Restart),
            (Role::Dte, TimerId::T21(channel)) | (Role::Dce, TimerId::T11(channel)) => {
                Some(Timer::Call(channel))
            }
            (Role::Dte, TimerId::T22(channel)) | (Role::Dce, TimerId::T12(channel)) => {
                Some(Timer::Reset(channel))
            }
            (Role::Dte, TimerId::T23(channel)) | (Role::Dce, TimerId::T13(channel)) => {
                Some(Timer::Clear(channel))
            }
            _ => None,
        }
    }

    /// Whether the timer is to run. T20 of a DTE or T10 of a DCE runs while the restart is not confirmed. By channel,
    /// T21 or T11 runs while the call is not answered, T22 or T12 while the reset is not confirmed, T23 or T13 while
    /// the clear is not. No other timer is one of the layer's.
    pub fn runs(&self, id: TimerId) -> bool
        ensures { result ≡ runs_named self.now.layer (timer_named self.now.layer.role id) }
    {
        match self.timer_named(id) {
            Some(timer) => self.runs_own(timer),
            None => false,
        }
    }

    /// Whether a timer is to run.
    pub(crate) fn runs_own(&self, timer: Timer) -> bool
        ensures { result ≡ machine.runs self.now.layer (timer_of timer) }
    {
        match timer {
            Timer::Restart => matches!(self.phase, Phase::OwnRestart),
            Timer::Call(channel) => match self.ready_channel(u16::from(channel)) {
                Some(channel) => channel.state().waits_for_call(self.role),
                None => false,
            },
            Timer::Reset(channel) => match self.ready_channel(u16::from(channel)) {
                Some(channel) => channel.waits_for_reset(),
                None => false,
            },
            Timer::Clear(channel) => match self.ready_channel(u16::from(channel)) {
                Some(channel) => channel.state().waits_for_clear(),
                None => false,
            },
        }
    }

    /// Whether a timer of the channel is to run: of the own call, the own reset or the own clear.
    pub(crate) fn waits_on(&self, channel: u8) -> bool
        ensures { result ≡ (machine.runs self.now.layer (machine.Timer.CallTimer channel)
            || (machine.runs self.now.layer (machine.Timer.ResetTimer channel)
            || machine.runs self.now.layer (machine.Timer.ClearTimer channel))) }
    {
        match self.ready_channel(u16::from(channel)) {
            Some(channel) => {
                channel.state().waits_for_call(self.role)
                    || channel.waits_for_reset()
                    || channel.state().waits_for_clear()
            }
            None => false,
        }
    }

    /// Takes an expiry of a timer: that of a call or a reset clears the call, that of a clear restarts the packet
    /// layer, and that of a restart asks for a relink. If the timer does not run, nothing happens.
    #[tactic(auto, using(crate::proofs::Placed::own_few, crate::proofs::Placed::few))]
    pub fn on_timer(&mut self, id: TimerId, pool: &mut Pool)
        requires holds { Holds pool.old self.old.held }
        ensures layer { self.new.layer ≡ on_named self.old.layer (timer_named self.old.layer.role id) }
        ensures pool { Balances pool.old self.old.held pool.new self.new.held }
        ensures most { most_held self.new.layer ≡ most_held self.old.layer }
        ensures few { length self.new.held ≤ most_held self.new.layer }
    {
        let Some(timer) = self.timer_named(id) else {
            return;
        };
        if self.runs_own(timer) {
            self.notes.clear();
            self.expire(timer, pool);
        }
    }

    #[tactic(auto, using(crate::proofs::Placed::own_few, crate::proofs::Placed::few))]
    fn expire(&mut self, timer: Timer, pool: &mut Pool)
        requires read { self.old.layer.notes ≡ [] }
        requires holds { Holds pool.old self.old.held }
        ensures layer { self.new.layer ≡ machine.expired self.old.layer (timer_of timer) }
        ensures pool { Balances pool.old self.old.held pool.new self.new.held }
        ensures most { most_held self.new.layer ≡ most_held self.old.layer }
        ensures few { length self.new.held ≤ most_held self.new.layer }
    {
        match timer {
            Timer::Restart => self.relink = true,
            Timer::Call(channel) | Timer::Reset(channel) => self.clear_expired(channel, pool),
            Timer::Clear(_) => {
                self.close_all(Reason::LocalFault, pool);
                let cause = error_cause(self.role, restart_cause::LOCAL_PROCEDURE_ERROR);
                self.restart(cause, diagnostic::NO_INFORMATION);
            }
        }
    }

    #[tactic(auto, using(crate::proofs::Placed::own_few, crate::proofs::Placed::few))]
    fn clear_expired(&mut self, channel: u8, pool: &mut Pool)
        requires read { self.old.layer.notes ≡ [] }
        requires holds { Holds pool.old self.old.held }
        ensures layer { self.new.layer ≡ machine.expired self.old.layer (machine.Timer.CallTimer channel) }
        ensures pool { Balances pool.old self.old.held pool.new self.new.held }
        ensures most { most_held self.new.layer ≡ most_held self.old.layer }
        ensures few { length self.new.held ≤ most_held self.new.layer }
    {
        let Some(place) = self.place(u16::from(channel)) else {
            return;
        };
        let end = self.end(place);
        self.to_serve.insert(place);
        let channel = &mut self.channels[place];
        let relink = channel.clear_error(
            end,
            diagnostic::NO_INFORMATION,
            true,
            pool,
            &mut self.notes,
        );
        self.relink_if(relink);
    }
}
