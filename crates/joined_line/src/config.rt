//! How a line of a switch is to be made.
ghost use Rattle.std.specs.Prelude.{◌≡◌, ◌≤◌, MatchResult};
ghost use Rattle.packet_end.specs.declared.fault.EndFault.TheVariants as fault_is;
ghost use Rattle.joined_line.specs.Making.{IsLineConfig, line_share};

use link_timers::Role;
use packet_codec::Address;
use packet_end::{EndFault, EndParams};

/// How a line of a switch is to be made.
#[derive(Clone, Copy, PartialEq, Eq)]
pub struct SwitchLineConfig {
    /// The parameters of the line, which is not standing.
    pub params: EndParams,
    /// The switch's role on the line.
    pub role: Role,
    /// The address that calls from the line get as their calling address. A line without one is a trunk: a switch is
    /// at its other end too.
    pub address: Option<Address>,
}

impl SwitchLineConfig {
    /// How many buffers of the switch's pool the line needs: those of its end, and one for each channel, for what is
    /// gathered from there.
    pub fn buffers(&self) -> usize
        requires { IsLineConfig self.now }
        ensures share { result ≡ line_share self.now }
        ensures most { result ≤ 1320 }
    {
        self.params.buffers() + usize::from(self.params.channels)
    }

    /// `BadConfig` comes if a parameter is out of its range, or the line is standing.
    pub fn check(&self) -> Result<(), EndFault>
        ensures { MatchResult result
            (λ _. IsLineConfig self.now)
            (λ fault. (fault ≡ fault_is.BadConfig) × (IsLineConfig self.now → ⊥)) }
    {
        self.params.check()?;
        if self.params.standing {
            return Err(EndFault::BadConfig);
        }
        Ok(())
    }
}
