//! Which timers of a packet layer run, and how long still (X.25 annex D).
ghost use Rattle.std.specs.Prelude.{◌≡◌, ◌≤◌, ◌↔◌, ℕ, is_some, IsTrue};
ghost use Rattle.packet_layer.specs.Layer.{Timer as TimerName};
ghost use Rattle.packet_layer.specs.TimerView.{timer_of, maybe_timer};
ghost use Rattle.packet_layer.specs.LayerTimers.{none_running, left_of, stopped, after_ticks, name_of, first_due};
ghost use Rattle.packet_layer.specs.LayerTimers.{brought, brought_channel, RunsAsWanted, TimersAgree, IsTimer};
ghost use Rattle.packet_layer.specs.LayerTimers.{channel_number, NoneRuns};

use crate::layer::Layer;
use link_timers::{ChannelTimers, Countdown, Role, TimerId};
use packet_channel::MOST_CHANNELS;
use std::marker::Model;

/// How long each of these timers runs, in ticks of a twentieth of a second.
const PACKET_TICKS: u16 = 3600;

/// A timer of a packet layer: of the own restart, or by channel of the own call, the own reset or the own clear.
#[derive(Clone, Copy)]
pub enum Timer {
    Restart,
    Call(u8),
    Reset(u8),
    Clear(u8),
}

impl Timer {
    /// The name of the timer at an end of this role: T20 to T23 at a DTE, T10 to T13 at a DCE.
    pub fn name(self, role: Role) -> TimerId
        ensures { result ≡ name_of role (timer_of self) }
    {
        match (role, self) {
            (Role::Dte, Timer::Restart) => TimerId::T20,
            (Role::Dte, Timer::Call(channel)) => TimerId::T21(channel),
            (Role::Dte, Timer::Reset(channel)) => TimerId::T22(channel),
            (Role::Dte, Timer::Clear(channel)) => TimerId::T23(channel),
            (Role::Dce, Timer::Restart) => TimerId::T10,
            (Role::Dce, Timer::Call(channel)) => TimerId::T11(channel),
            (Role::Dce, Timer::Reset(channel)) => TimerId::T12(channel),
            (Role::Dce, Timer::Clear(channel)) => TimerId::T13(channel),
        }
    }
}

/// The timers of a packet layer, and how many ticks each that runs has left. Twenty ticks are a second.
#[derive(Drop)]
pub struct LayerTimers {
    restart: Countdown,
    calls: ChannelTimers,
    resets: ChannelTimers,
    clears: ChannelTimers,
}

impl Model for LayerTimers {
    ghost use Rattle.packet_layer.specs.LayerTimers as timers;

    ghost Value = { timers.LayerTimers };

    ghost view = { λ a. record { restart = a.restart; calls = a.calls; resets = a.resets; clears = a.clears } };

    ghost invariant = { λ a. Unit {0} };
}

impl LayerTimers {
    /// No timer runs.
    pub fn new() -> Self
        ensures { result ≡ none_running }
    {
        LayerTimers {
            restart: Countdown::new(),
            calls: ChannelTimers::new(),
            resets: ChannelTimers::new(),
            clears: ChannelTimers::new(),
        }
    }

    /// Whether a timer runs, also with no tick left.
    pub fn is_running(&self, timer: Timer) -> bool
        ensures { result ≡ is_some (left_of self.now (timer_of timer)) }
    {
        match timer {
            Timer::Restart => self.restart.is_running(),
            Timer::Call(channel) => self.calls.is_running(channel),
            Timer::Reset(channel) => self.resets.is_running(channel),
            Timer::Clear(channel) => self.clears.is_running(channel),
        }
    }

    /// Stops a timer, if it runs.
    pub fn stop(&mut self, timer: Timer)
        ensures { self.new ≡ stopped self.old (timer_of timer) }
    {
        match timer {
            Timer::Restart => self.restart.stop(),
            Timer::Call(channel) => self.calls.stop(channel),
            Timer::Reset(channel) => self.resets.stop(channel),
            Timer::Clear(channel) => self.clears.stop(channel),
        }
    }

    /// Lets ticks pass: each timer that runs has so many less, not below 0. Those that have none left run until they
    /// are stopped.
    pub fn elapse(&mut self, ticks: u16)
        ensures { self.new ≡ after_ticks self.old ticks }
    {
        self.restart.elapse(ticks);
        self.calls.elapse(ticks);
        self.resets.elapse(ticks);
        self.clears.elapse(ticks);
    }

    /// The first timer that runs with no tick left: that of the restart, then those of calls, of resets and of clears,
    /// each by channel.
    pub fn due(&self) -> Option<Timer>
        ensures { maybe_timer result ≡ first_due self.now }
    {
        if self.restart.is_due() {
            return Some(Timer::Restart);
        }
        if let Some(channel) = self.calls.first_due() {
            return Some(Timer::Call(channel));
        }
        if let Some(channel) = self.resets.first_due() {
            return Some(Timer::Reset(channel));
        }
        Some(Timer::Clear(self.clears.first_due()?))
    }

    /// Starts the timers that the layer wants to run and that do not, and stops those that it does not want to run.
    #[tactic(auto, unfolding(crate::specs::LayerTimers::brought))]
    pub fn bring_all(&mut self, layer: &Layer)
        ensures timers { self.new ≡ brought layer.now.layer self.old }
        ensures agree { TimersAgree layer.now.layer self.new }
    {
        self.restart
            .bring(layer.runs_own(Timer::Restart), PACKET_TICKS);
        for place in 0..MOST_CHANNELS {
            self.bring_channel(layer, place + 1);
        }
    }

    /// Starts and stops the timers of one channel, 1 to 32, in the same way.
    pub fn bring_channel(&mut self, layer: &Layer, channel: u8)
        requires least { 1 ≤ channel }
        requires most { channel ≤ 32 }
        ensures timers { self.new ≡ brought_channel layer.now.layer channel self.old }
        ensures own { (timer : TimerName) → IsTimer timer → channel_number timer ≡ channel →
            RunsAsWanted layer.now.layer self.new timer }
        ensures kept { (timer : TimerName) → RunsAsWanted layer.now.layer self.old timer →
            RunsAsWanted layer.now.layer self.new timer }
    {
        if self.is_empty() && !layer.waits_on(channel) {
            return;
        }
        self.calls.bring(channel, layer.runs_own(Timer::Call(channel)), PACKET_TICKS);
        self.resets.bring(channel, layer.runs_own(Timer::Reset(channel)), PACKET_TICKS);
        self.clears.bring(channel, layer.runs_own(Timer::Clear(channel)), PACKET_TICKS);
    }

    /// Whether no timer of a channel runs.
    fn is_empty(&self) -> bool
        ensures { IsTrue result ↔ ((channel : ℕ) → NoneRuns self.now channel) }
    {
        if !self.calls.is_empty() {
            return false;
        }
        if !self.resets.is_empty() {
            return false;
        }
        self.clears.is_empty()
    }
}
