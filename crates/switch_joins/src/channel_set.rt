//! Sets of channels of the lines of a switch.
ghost use Rattle.std.specs.Prelude.{◌≡◌, ℕ, ◌<◌, ◌≤◌, false, ◌||◌, ◌&&◌, not, MatchOption};
ghost use Rattle.switch_joins.specs.ChannelSet.{has, is_small, is_of_join};
ghost use Rattle.switch_joins.specs.Joins.{same_place};

use crate::channels::{MOST_LINES, SwitchChannel};
use number_set::NumberSet;

/// Channels of a line are below this number.
pub const END_OF_CHANNELS: u8 = 63;

/// Channels by their lines: lines below 64, channels below 63.
#[derive(Drop)]
pub struct ChannelSet {
    by_line: [NumberSet; MOST_LINES],
}

impl ChannelSet {
    /// No channel.
    pub fn new() -> Self
        ensures { (p : SwitchChannel) → has result p ≡ false }
    {
        ChannelSet {
            by_line: [NumberSet::new(); MOST_LINES],
        }
    }

    /// Adds a channel, if its line and its number are below their limits.
    pub fn insert(&mut self, leg: SwitchChannel)
        ensures { (p : SwitchChannel) → has self.new p ≡ (has self.old p || (is_small leg && same_place p leg)) }
    {
        if leg.line < MOST_LINES && leg.channel < END_OF_CHANNELS {
            self.by_line[leg.line].insert(usize::from(leg.channel));
        }
    }

    /// Adds a channel, if this is so.
    pub fn insert_if(&mut self, leg: SwitchChannel, is_so: bool)
        ensures { (p : SwitchChannel) → has self.new p
            ≡ (has self.old p || (is_so && (is_small leg && same_place p leg))) }
    {
        if is_so {
            self.insert(leg);
        }
    }

    /// Adds a joined channel and the one that it is joined to.
    pub fn insert_join(&mut self, leg: SwitchChannel, other: Option<SwitchChannel>)
        ensures { (p : SwitchChannel) → has self.new p ≡ (has self.old p || is_of_join p leg other) }
    {
        if let Some(other) = other {
            self.insert(leg);
            self.insert(other);
        }
    }

    /// Takes a channel out, if it is there.
    pub fn remove(&mut self, leg: SwitchChannel)
        ensures { (p : SwitchChannel) → has self.new p
            ≡ (has self.old p && not (is_small leg && same_place p leg)) }
    {
        if leg.line < MOST_LINES && leg.channel < END_OF_CHANNELS {
            self.by_line[leg.line].remove(usize::from(leg.channel));
        }
    }

    /// The first channel of a line, from one number up to below another.
    pub fn first_between(&self, line: usize, first: u8, end: u8) -> Option<u8>
        requires line { line < 64 }
        requires order { first ≤ end }
        requires most { end < 64 }
        ensures { MatchOption result
            ((c : ℕ) → first ≤ c → c < end → has self.now (record { line = line; channel = c }) ≡ false)
            (λ channel. (first ≤ channel) × (channel < end)
            × ((c : ℕ) → first ≤ c → c < channel → has self.now (record { line = line; channel = c }) ≡ false)) }
    {
        let mut between = self.by_line[line].between(usize::from(first), usize::from(end));
        let channel = between.take_first()?;
        Some(channel as u8)
    }
}
