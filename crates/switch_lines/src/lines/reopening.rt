//! Channels that may take again what they refused.
ghost use Rattle.std.specs.Prelude.{◌≡◌, ℕ, ◌<◌, true, false};
ghost use Rattle.number_set.specs.NumberSet as numbers;
ghost use Rattle.switch_joins.specs.ChannelSet.{has, is_small};
ghost use Rattle.switch_lines.specs.Pooled.{plain};
ghost use Rattle.switch_lines.specs.Waiting.{NothingElseMoves};

use crate::lines::other_of;
use joined_line::SwitchLine;
use number_set::NumberSet;
use switch_joins::{ChannelSet, END_OF_CHANNELS, SwitchChannel};

/// No channel of these lines is known to refuse anything: the joins of those that were are to be relayed.
pub(super) fn reopen(
    lines: &[SwitchLine],
    mut which: NumberSet,
    to_relay: &mut ChannelSet,
    refusing: &mut ChannelSet,
)
    requires { NothingElseMoves to_relay.old refusing.old (plain lines.now) }
    ensures moves { NothingElseMoves to_relay.new refusing.new (plain lines.now) }
    ensures none { (p : SwitchChannel) → is_small p ≡ true → numbers.has which p.line ≡ true
        → has refusing.new p ≡ false }
{
    while let Some(line) = which.take_first() {
        reopen_line(lines, line, to_relay, refusing);
    }
}

/// No channel of a line is known to refuse anything: the joins of those that were are to be relayed.
fn reopen_line(
    lines: &[SwitchLine],
    line: usize,
    to_relay: &mut ChannelSet,
    refusing: &mut ChannelSet,
)
    requires line { line < 64 }
    requires moves { NothingElseMoves to_relay.old refusing.old (plain lines.now) }
    ensures moves { NothingElseMoves to_relay.new refusing.new (plain lines.now) }
    ensures none { (p : SwitchChannel) → p.line ≡ line → p.channel < 63 → has refusing.new p ≡ false }
    ensures fewer { (p : SwitchChannel) → has refusing.old p ≡ false → has refusing.new p ≡ false }
{
    let mut next = 0;
    while let Some(channel) = refusing.first_between(line, next, END_OF_CHANNELS) {
        let leg = SwitchChannel { line, channel };
        to_relay.insert_join(leg, other_of(lines, leg));
        refusing.remove(leg);
        next = channel + 1;
    }
}
