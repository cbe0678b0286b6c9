//! A count of ticks that runs down.
ghost use Rattle.std.specs.Prelude.{◌≡◌, Some, None, is_some};
ghost use Rattle.link_timers.specs.ChannelTimers.{brought_as};
ghost use Rattle.link_timers.specs.Timers.{lowered, is_due};

use std::marker::Model;

/// The ticks that one timer has left, if it runs. Twenty ticks are a second.
#[derive(Drop)]
pub struct Countdown {
    left: Option<u16>,
}

impl Model for Countdown {
    ghost use Rattle.std.specs.Prelude.{ℕ, Option};

    ghost Value = { Option ℕ };

    ghost view = { λ a. a.left };

    ghost invariant = { λ a. Unit {0} };
}

impl Countdown {
    /// A countdown that does not run.
    pub fn new() -> Self
        ensures { result ≡ None }
    {
        Countdown { left: None }
    }

    /// Starts the countdown, or restarts it, with so many ticks left.
    pub fn start(&mut self, ticks: u16)
        ensures { self.new ≡ Some ticks }
    {
        self.left = Some(ticks);
    }

    /// Stops the countdown, if it runs.
    pub fn stop(&mut self)
        ensures { self.new ≡ None }
    {
        self.left = None;
    }

    /// Makes the timer run or not. If it is to run and does not, it starts with this many ticks left. If it is not to
    /// run, it stops. If it runs already, it goes on.
    pub fn bring(&mut self, runs: bool, ticks: u16)
        ensures { self.new ≡ brought_as ticks runs self.old }
    {
        if runs != self.is_running() {
            self.left = if runs { Some(ticks) } else { None };
        }
    }

    /// Whether the countdown runs, also with no tick left.
    pub fn is_running(&self) -> bool
        ensures { result ≡ is_some self.now }
    {
        self.left.is_some()
    }

    /// Whether the countdown runs with no tick left.
    pub fn is_due(&self) -> bool
        ensures { result ≡ is_due self.now }
    {
        self.left == Some(0)
    }

    /// Lets ticks pass: a countdown that runs has so many less, not below 0.
    pub fn elapse(&mut self, ticks: u16)
        ensures { self.new ≡ lowered ticks self.old }
    {
        if let Some(left) = self.left {
            self.left = Some(left.saturating_sub(ticks));
        }
    }
}
