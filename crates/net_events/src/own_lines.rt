//! The lines of a switch, by the network's numbers.
ghost use Rattle.std.specs.Prelude.{◌≡◌};
ghost use Rattle.net_events.specs.AtSwitch.{network_line};

/// The number in the network of an own line of a switch, and 0 if the switch has no such line.
pub fn network_line(lines: &[usize], own: usize) -> usize
    ensures { result ≡ network_line lines.now own }
{
    lines.get(own).copied().unwrap_or(0)
}
