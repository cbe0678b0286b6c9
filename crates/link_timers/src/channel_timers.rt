//! The timers of one kind, one for each logical channel.
ghost use Rattle.std.specs.Prelude.{◌≡◌, ◌≤◌, ◌↔◌, ℕ, None, is_some, IsTrue};
ghost use Rattle.link_timers.specs.ChannelTimers.{none_of_kind, left_on, brought_on, stopped_on, first_due};
ghost use Rattle.link_timers.specs.Timers.{after_ticks};

use crate::timers::lower_one;
use number_set::NumberSet;
use std::marker::Model;

/// The places of the timers: those of the channels 1 to 32, and one of channel 0, whose timer never runs.
const PLACES: usize = 33;

/// The timers of one kind, as of the call: one for each logical channel, 1 to 32, with the ticks that it has left, if
/// it runs. Twenty ticks are a second.
#[derive(Drop)]
pub struct ChannelTimers {
    left: [Option<u16>; PLACES],
    /// The channels whose timer runs.
    running: NumberSet,
}

impl Model for ChannelTimers {
    ghost use Rattle.std.specs.Prelude.{ℕ, List, Option};
    ghost use Rattle.std.specs.Coded.{coded_list, coded_option, coded_ℕ};
    ghost use Rattle.number_set.specs.NumberSet.{has};
    ghost use Rattle.link_timers.specs.Running.{AreCounts};
    ghost use Rattle.link_timers.specs.ChannelTimers.{channel_places};

    ghost Value = { List (Option ℕ) };

    ghost coded = { coded_list (coded_option coded_ℕ) };

    ghost view = { λ t. t.left };

    ghost invariant = { λ t. AreCounts channel_places t.left (λ n. has t.running n) };
}

impl ChannelTimers {
    /// No timer runs.
    pub fn new() -> Self
        ensures { result ≡ none_of_kind }
    {
        ChannelTimers {
            left: [None; PLACES],
            running: NumberSet::new(),
        }
    }

    /// Makes the timer run or not. If it is to run and does not, it starts with this many ticks left. If it is not to
    /// run, it stops. If it runs already, it goes on.
    pub fn bring(&mut self, channel: u8, runs: bool, ticks: u16)
        requires { channel ≤ 32 }
        ensures timers { self.new ≡ brought_on ticks runs channel self.old }
        ensures runs { is_some (left_on self.new channel) ≡ runs }
    {
        if runs == self.is_running(channel) {
            return;
        }
        let place = usize::from(channel);
        if runs {
            self.left[place] = Some(ticks);
            self.running.insert(place);
        } else {
            self.left[place] = None;
            self.running.remove(place);
        }
    }

    /// Stops the timer of a channel, if it runs.
    pub fn stop(&mut self, channel: u8)
        ensures { self.new ≡ stopped_on self.old channel }
    {
        if self.is_running(channel) {
            let place = usize::from(channel);
            self.left[place] = None;
            self.running.remove(place);
        }
    }

    /// Whether the timer of a channel runs, also with no tick left.
    pub fn is_running(&self, channel: u8) -> bool
        ensures { result ≡ is_some (left_on self.now channel) }
    {
        let place = usize::from(channel);
        place < PLACES && self.left[place].is_some()
    }

    /// Whether no timer runs.
    pub fn is_empty(&self) -> bool
        ensures { IsTrue result ↔ ((channel : ℕ) → left_on self.now channel ≡ None) }
    {
        self.running.is_empty()
    }

    /// Lets ticks pass: each timer that runs has so many less, not below 0. Those that have none left run until they
    /// are stopped.
    pub fn elapse(&mut self, ticks: u16)
        ensures { self.new ≡ after_ticks self.old ticks }
    {
        let mut running = self.running;
        while let Some(place) = running.take_first() {
            self.left[place] = lower_one(self.left[place], ticks);
        }
    }

    /// The first channel whose timer has no tick left.
    pub fn first_due(&self) -> Option<u8>
        ensures { result ≡ first_due self.now }
    {
        let mut running = self.running;
        while let Some(place) = running.take_first() {
            if self.left[place] == Some(0) {
                return Some(place as u8);
            }
        }
        None
    }
}
