//! What is done to some lines alone.
ghost use Rattle.std.specs.Prelude.{◌≡◌, ℕ, ◌&&◌, true, Some, map, slice_get};
ghost use Rattle.packet_end.specs.PacketEnd as end;
ghost use Rattle.packet_layer.specs.LayerTimers.{TimersAgree};
ghost use Rattle.number_set.specs.NumberSet.{has};
ghost use Rattle.switch_lines.specs.Lines.{SwitchLine as Line};
ghost use Rattle.switch_lines.specs.Pooled.{plain, on_line, ArePooled};
ghost use Rattle.switch_lines.specs.Switch.{with_end, without_joins};
ghost use Rattle.switch_lines.specs.Touched.{AreThere, changed_in, offers_on};

use flow_window::pool::Pool;
use joined_line::SwitchLine;
use number_set::NumberSet;

/// Begins an event on these lines.
pub(super) fn begin_lines(lines: &mut [SwitchLine], mut which: NumberSet)
    requires { AreThere which (plain lines.old) }
    ensures { lines.new ≡ changed_in which (on_line (with_end end.begun)) 0 lines.old }
{
    while let Some(line) = which.take_first() {
        lines[line].begin();
    }
}

/// Ends an event on these lines.
pub(super) fn settle_lines(lines: &mut [SwitchLine], mut which: NumberSet, pool: &mut Pool)
    requires there { AreThere which (plain lines.old) }
    requires pool { ArePooled pool.old lines.old }
    ensures lines { lines.new ≡ changed_in which (on_line (with_end end.settled)) 0 lines.old }
    ensures timers { (n : ℕ) → (l : Line) → has which n ≡ true → slice_get (plain lines.new) n ≡ Some l →
        TimersAgree l.end.layer l.end.timers }
    ensures pool { ArePooled pool.new lines.new }
{
    while let Some(line) = which.take_first() {
        lines[line].settle(pool);
    }
}

/// Offers packets to the links of these lines, in order, and answers which of them took one.
pub(super) fn offer_lines(
    lines: &mut [SwitchLine],
    mut which: NumberSet,
    pool: &mut Pool,
) -> NumberSet
    requires there { AreThere which (plain lines.old) }
    requires pool { ArePooled pool.old lines.old }
    ensures offering { (n : ℕ) → has result n ≡ (has which n && offers_on (slice_get (plain lines.old) n)) }
    ensures lines { plain lines.new ≡ changed_in which (with_end end.all_offered) 0 (plain lines.old) }
    ensures pool { ArePooled pool.new lines.new }
{
    let mut offering = NumberSet::new();
    while let Some(line) = which.take_first() {
        if lines[line].offer(pool) {
            offering.insert(line);
        }
    }
    offering
}

/// All lines begin anew.
pub(super) fn restart_lines(lines: &mut [SwitchLine], pool: &mut Pool)
    requires { ArePooled pool.old lines.old }
    ensures lines { plain lines.new ≡ map without_joins (plain lines.old) }
    ensures pool { ArePooled pool.new lines.new }
{
    for line in lines.iter_mut() {
        line.restart(pool);
    }
}
