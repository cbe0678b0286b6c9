//! The relay between the two legs of a join (X.25 4.3).
ghost use Rattle.std.specs.Prelude.{◌≡◌, None, Some, slice_get};
ghost use Rattle.std.specs.Bool.{OnFalse, OnTrue};
ghost use Rattle.switch_lines.specs.Alone.{relayed_alone};
ghost use Rattle.switch_lines.specs.Lines.{joined_at};
ghost use Rattle.switch_lines.specs.Waiting.{other_at, IsStuck};
ghost use Rattle.switch_lines.specs.Relay.{moved, relayed, most_moves, relayed_from, both_legs, legs_at, places_of};
ghost use Rattle.switch_lines.specs.Touched.{members};

use crate::lines::Lines;
use number_set::NumberSet;
use switch_joins::SwitchChannel;

/// The most that waits on a leg: a queue of 32 packets, and an interrupt.
const MOST_WAITING: usize = 33;

impl Lines {
    /// What waits first on a joined channel is taken there and goes on to the other leg, unless that one would refuse some
    /// of what it makes due. Answers whether it was.
    fn relay_one(&mut self, leg: SwitchChannel) -> bool
        ensures lines { self.new ≡ moved leg self.old }
        ensures stuck { OnFalse result (IsStuck self.old leg) }
    {
        let Some(other) = self.other(leg) else {
            return false;
        };
        let Some(front) = self.front(leg) else {
            return false;
        };
        if !self.may_take(leg, other, front) {
            return false;
        }
        self.move_front(leg, other);
        self.release(leg);
        true
    }

    /// All that waits on a channel goes to the other leg of its join, as far as that one takes it. Answers whether that
    /// was seen, in as many moves as a leg can have waiting.
    fn relay_channel(&mut self, leg: SwitchChannel) -> bool
        ensures lines { self.new ≡ relayed most_moves leg self.old }
        ensures stuck { OnTrue result (IsStuck self.new leg) }
    {
        for _ in 0..MOST_WAITING {
            if !self.relay_one(leg) {
                return true;
            }
        }
        false
    }

    /// Nothing that waits on a joined channel and on the other leg of its join can go on: that join is not to be relayed.
    fn rest_join(&mut self, leg: SwitchChannel, other: SwitchChannel)
        requires joined { other_at self.old leg ≡ Some other }
        requires back { other_at self.old other ≡ Some leg }
        requires stuck { IsStuck self.old leg }
        requires other_stuck { IsStuck self.old other }
        ensures { self.new ≡ self.old }
    {
        let waits = self.front(leg).is_some();
        let other_waits = self.front(other).is_some();
        self.refusing.insert_if(other, waits);
        self.refusing.insert_if(leg, other_waits);
        self.to_relay.remove(leg);
        self.to_relay.remove(other);
    }

    /// Whether a channel is joined to another one.
    fn is_joined_to(&self, leg: SwitchChannel, other: SwitchChannel) -> bool
        ensures { OnTrue result (other_at self.now leg ≡ Some other) }
    {
        self.other(leg) == Some(other)
    }

    /// All that waits on a joined channel and on the other leg of its join goes on.
    fn relay_join(&mut self, leg: SwitchChannel)
        ensures { self.new ≡ relayed_from (both_legs (joined_at self.old leg) leg) self.old }
    {
        let Some(other) = self.other(leg) else {
            self.to_relay.remove(leg);
            return;
        };
        let all = self.relay_channel(leg);
        let all_back = self.relay_channel(other);
        if all && all_back && self.is_joined_to(other, leg) {
            self.rest_join(leg, other);
        }
    }

    /// All that waits on the joined channels of a line goes on, and on the other legs of their joins. Only channels
    /// that are to be relayed have anything that can.
    pub(super) fn relay_line(&mut self, line: usize)
        ensures { self.new ≡ relayed_from (legs_at (places_of line (slice_get self.old line)) self.old) self.old }
    {
        if line < self.lines.len() {
            let end = self.lines[line].joins().channels() + 1;
            let mut next = 1;
            while let Some(channel) = self.to_relay.first_between(line, next, end) {
                self.relay_join(SwitchChannel { line, channel });
                next = channel + 1;
            }
        }
    }

    /// All that waits on the joins of listed lines goes to the other leg, as far as that one takes it: line by line, as
    /// they are listed.
    pub(super) fn relay_listed(&mut self, lines: &[usize])
        ensures { self.new ≡ relayed_alone lines.now self.old }
    {
        for line in lines {
            self.relay_line(*line);
        }
    }

    /// All that waits on the joins of these lines goes to the other leg, as far as that one takes it.
    pub(super) fn relay_lines(&mut self, mut lines: NumberSet)
        ensures { self.new ≡ relayed_alone (members lines) self.old }
    {
        while let Some(line) = lines.take_first() {
            self.relay_line(line);
        }
    }
}
