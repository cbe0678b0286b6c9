//! How a switch is to be made.
ghost use Rattle.std.specs.Prelude.{◌≡◌, MatchResult};
ghost use Rattle.packet_end.specs.declared.fault.EndFault.TheVariants as fault_is;
ghost use Rattle.switch_lines.specs.Making.{IsConfig};

use address_routes::Routes;
use joined_line::SwitchLineConfig;
use packet_end::EndFault;
use switch_joins::MOST_LINES;

/// How a switch is to be made.
#[derive(Drop)]
pub struct SwitchConfig<'a> {
    /// The lines, 1 to 64: they are numbered from 0.
    pub lines: &'a [SwitchLineConfig],
    /// Which line the calls to an address go to.
    pub routes: Routes,
}

/// `BadConfig` comes if there is no line or more than 64, or one is standing or has a parameter out of its range.
pub fn check_lines(lines: &[SwitchLineConfig]) -> Result<(), EndFault>
    ensures { MatchResult result
        (λ _. IsConfig lines.now)
        (λ fault. (fault ≡ fault_is.BadConfig) × (IsConfig lines.now → ⊥)) }
{
    if lines.is_empty() || lines.len() > MOST_LINES {
        return Err(EndFault::BadConfig);
    }
    for line in lines {
        line.check()?;
    }
    Ok(())
}
