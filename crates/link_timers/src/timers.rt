//! The timers of an end of a line.
ghost use Rattle.std.specs.Prelude.{
  ◌≡◌,
  ◌≢◌,
  ◌≤◌,
  ◌<◌,
  ◌↔◌,
  Some,
  None,
  is_some,
  MatchOption,
  Contains,
};
ghost use Rattle.link_timers.specs.declared.timers.TimerId.{TimerId};
ghost use Rattle.link_timers.specs.Timers.{
  places,
  place_of,
  place_in,
  timer_at,
  IsTimer,
  left_of,
  none_running,
  started,
  stopped,
  lowered,
  after_ticks,
  due_timers,
};

use arrayvec::ArrayVec;
use std::marker::Model;

/// A timer of an end of a line: T1 of the link (X.25 2.4.8.1), those of the packet layer by channel, 1 to 32 (X.25
/// annex D: T10 to T13 of a DCE, T20 to T23 of a DTE), and the idle timer of a terminal, 0 to 15 (X.3 3.4).
#[derive(Clone, Copy, PartialEq, Eq)]
pub enum TimerId {
    T1,
    T10,
    T20,
    T11(u8),
    T12(u8),
    T13(u8),
    T21(u8),
    T22(u8),
    T23(u8),
    Idle(u8),
}

impl Default for TimerId {
    ghost use Rattle.std.specs.Prelude.{◌≡◌};
    ghost use Rattle.link_timers.specs.declared.timers.TimerId.TheVariants.{T1};

    ghost is_default = { λ id. id ≡ T1 };

    fn default() -> Self {
        TimerId::T1
    }
}

const CHANNELS: u8 = 32;

const TERMINALS: u8 = 16;

// The places of the timers: T1, T10 and T20 have the first three, then each kind of timer has one for each channel or
// terminal.
const FIRST_T11: usize = 3;

const FIRST_T12: usize = FIRST_T11 + CHANNELS as usize;

const FIRST_T13: usize = FIRST_T12 + CHANNELS as usize;

const FIRST_T21: usize = FIRST_T13 + CHANNELS as usize;

const FIRST_T22: usize = FIRST_T21 + CHANNELS as usize;

const FIRST_T23: usize = FIRST_T22 + CHANNELS as usize;

const FIRST_IDLE: usize = FIRST_T23 + CHANNELS as usize;

/// How many timers an end of a line has: T1, T10 and T20, six of each channel, one of each terminal.
pub const MOST_TIMERS: usize = FIRST_IDLE + TERMINALS as usize;

/// Which timers run, and how many ticks each has left. Twenty ticks are a second.
#[derive(Drop)]
pub struct Timers {
    left: [Option<u16>; MOST_TIMERS],
}

impl Model for Timers {
    ghost use Rattle.std.specs.Prelude.{◌≡◌, ℕ, length, List, Option};
    ghost use Rattle.std.specs.Coded.{coded_list, coded_option, coded_ℕ};
    ghost use Rattle.link_timers.specs.Timers.{places};

    ghost Value = { List (Option ℕ) };

    ghost coded = { coded_list (coded_option coded_ℕ) };

    ghost view = { λ t. t.left };

    ghost invariant = { λ t. length t.left ≡ places };
}

impl Timers {
    /// No timer runs.
    pub fn new() -> Self
        ensures places { result ≡ none_running }
        ensures left { (id : TimerId) → left_of result id ≡ None }
    {
        Timers {
            left: [None; MOST_TIMERS],
        }
    }

    /// Starts a timer, or restarts it, with this many ticks left.
    pub fn start(&mut self, id: TimerId, ticks: u16)
        requires timer { IsTimer id }
        requires ticks { 1 ≤ ticks }
        ensures places { self.new ≡ started self.old id ticks }

        // The same as a map from timers to the ticks left.
        ensures left { left_of self.new id ≡ Some ticks }
        ensures others { (other : TimerId) → other ≢ id → left_of self.new other ≡ left_of self.old other }
    {
        if let Some(place) = place(id) {
            self.left[place] = Some(ticks);
        }
    }

    /// Stops a timer, if it runs.
    pub fn stop(&mut self, id: TimerId)
        ensures places { self.new ≡ stopped self.old id }
        ensures left { left_of self.new id ≡ None }
        ensures others { (other : TimerId) → other ≢ id → left_of self.new other ≡ left_of self.old other }
    {
        if let Some(place) = place(id) {
            self.left[place] = None;
        }
    }

    /// Whether a timer runs, also with no tick left.
    pub fn is_running(&self, id: TimerId) -> bool
        ensures { result ≡ is_some (left_of self.now id) }
    {
        match place(id) {
            Some(place) => self.left[place].is_some(),
            None => false,
        }
    }

    /// Stops a timer that expired, and says whether it was running.
    pub fn fire(&mut self, id: TimerId) -> bool
        ensures ran { result ≡ is_some (left_of self.old id) }
        ensures places { self.new ≡ stopped self.old id }
        ensures left { left_of self.new id ≡ None }
        ensures others { (other : TimerId) → other ≢ id → left_of self.new other ≡ left_of self.old other }
    {
        match place(id) {
            Some(place) => self.left[place].take().is_some(),
            None => false,
        }
    }

    /// Each timer that runs has so many ticks less, not below 0.
    fn elapse(&mut self, ticks: u16)
        ensures places { self.new ≡ after_ticks self.old ticks }
        ensures left { (id : TimerId) → left_of self.new id ≡ lowered ticks (left_of self.old id) }
    {
        for left in self.left.iter_mut() {
            *left = lower_one(*left, ticks);
        }
    }

    /// Lets ticks pass: each timer that runs has so many less left, not below 0. Gives the timers that have none left
    /// then, in the order of [`TimerId`] and then by number. They run until they are fired.
    pub fn tick(&mut self, ticks: u16) -> ArrayVec<TimerId, MOST_TIMERS>
        ensures places { self.new ≡ after_ticks self.old ticks }
        ensures left { (id : TimerId) → left_of self.new id ≡ lowered ticks (left_of self.old id) }
        ensures due { result.items ≡ due_timers self.new }

        // It gives exactly the timers that run and have no tick left.
        ensures members { (id : TimerId) → Contains result.items id ↔ (left_of self.new id ≡ Some 0) }
    {
        self.elapse(ticks);
        let mut due = ArrayVec::new();
        for (place, left) in self.left.iter().enumerate() {
            if *left == Some(0) {
                due.push(timer(place));
            }
        }
        due
    }
}

pub(crate) fn lower_one(left: Option<u16>, ticks: u16) -> Option<u16>
    ensures { result ≡ lowered ticks left }
{
    Some(left?.saturating_sub(ticks))
}

/// The place of a timer, if there is its channel or terminal.
fn place(id: TimerId) -> Option<usize>
    ensures { MatchOption result (place_of id ≡ places) (λ place. (place ≡ place_of id) × (place < places)) }
{
    match id {
        TimerId::T1 => Some(0),
        TimerId::T10 => Some(1),
        TimerId::T20 => Some(2),
        TimerId::T11(channel) => channel_place(FIRST_T11, channel),
        TimerId::T12(channel) => channel_place(FIRST_T12, channel),
        TimerId::T13(channel) => channel_place(FIRST_T13, channel),
        TimerId::T21(channel) => channel_place(FIRST_T21, channel),
        TimerId::T22(channel) => channel_place(FIRST_T22, channel),
        TimerId::T23(channel) => channel_place(FIRST_T23, channel),
        TimerId::Idle(terminal) => terminal_place(terminal),
    }
}

fn channel_place(first: usize, channel: u8) -> Option<usize>
    requires { first ≤ FIRST_T23 }
    ensures { MatchOption result (place_in first 1 32 channel ≡ places) (λ place. (place ≡ place_in first 1 32
        channel) × (place < places)) }
{
    if channel < 1 || channel > CHANNELS {
        return None;
    }
    Some(first + usize::from(channel) - 1)
}

fn terminal_place(terminal: u8) -> Option<usize>
    ensures { MatchOption result (place_in FIRST_IDLE 0 15 terminal ≡ places) (λ place. (place ≡ place_in
        FIRST_IDLE 0 15 terminal) × (place < places)) }
{
    if terminal >= TERMINALS {
        return None;
    }
    Some(FIRST_IDLE + usize::from(terminal))
}

/// The timer at a place.
fn timer(place: usize) -> TimerId
    requires { place < places }
    ensures { result ≡ timer_at place }
{
    match place {
        0 => TimerId::T1,
        1 => TimerId::T10,
        2 => TimerId::T20,
        FIRST_T11..FIRST_T12 => TimerId::T11((place - FIRST_T11 + 1) as u8),
        FIRST_T12..FIRST_T13 => TimerId::T12((place - FIRST_T12 + 1) as u8),
        FIRST_T13..FIRST_T21 => TimerId::T13((place - FIRST_T13 + 1) as u8),
        FIRST_T21..FIRST_T22 => TimerId::T21((place - FIRST_T21 + 1) as u8),
        FIRST_T22..FIRST_T23 => TimerId::T22((place - FIRST_T22 + 1) as u8),
        FIRST_T23..FIRST_IDLE => TimerId::T23((place - FIRST_T23 + 1) as u8),
        _ => TimerId::Idle((place - FIRST_IDLE) as u8),
    }
}
