//! The role of a switch on each of its lines.
ghost use Rattle.std.specs.Prelude.{◌≡◌};
ghost use Rattle.net_events.specs.Network.{own_role};

use link_timers::Role;
use x25_switch::Switch;

/// The role of a switch on an own line; a line that it does not have counts as one of which it is the DCE.
pub(crate) fn role_of(switch: &Switch, own: usize) -> Role
    ensures { result ≡ own_role switch.now own }
{
    if own >= switch.lines() {
        return Role::Dce;
    }
    switch.role(own)
}
