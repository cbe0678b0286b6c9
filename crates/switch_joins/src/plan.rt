//! How a packet of one line goes on to another one (X.25 4.3.4), by lengths alone.
ghost use Rattle.std.specs.Prelude.{◌≡◌, ◌≤◌, ◌+◌, ◌-◌, ◌/◌, ◌||◌, ◌&&◌, nat_lt, true, false, if◌then◌else◌, length, MatchOption};
ghost use Rattle.epochs.specs.Item.{DataPacket};
ghost use Rattle.data_transfer.specs.Held.{are_short};
ghost use Rattle.switch_joins.specs.Plan.{outline_of, plan_for, rest_length};
ghost use Rattle.switch_joins.specs.Turning.{Gathered, turned};

use crate::sizes::Sizes;

/// What decides how a packet goes on: how many octets it has, and its bits M, Q and D.
#[derive(Clone, Copy)]
pub struct Outline {
    pub length: u16,
    pub more: bool,
    pub qualified: bool,
    pub delivery: bool,
}

/// How a packet goes on, and what is gathered before it.
#[derive(Clone, Copy)]
pub(crate) struct Plan {
    /// What is gathered goes first, as a packet. Else the packet is joined to it.
    pub gathered_first: bool,
    /// The rest waits for more. Else it goes in packets of `size`.
    pub rest_waits: bool,
    pub size: usize,
}

impl Plan {
    /// The plan for a packet, if so many octets are gathered, with Q or without.
    #[tactic(auto, using(crate::proofs::Planning::waits_some, crate::proofs::Planning::rest_fits))]
    pub(crate) fn new(sizes: Sizes, gathered: usize, qualified: bool, packet: Outline) -> Plan
        requires { gathered ≤ 1024 }
        ensures plan { result ≡ plan_for sizes gathered qualified packet }
        ensures size { 1 ≤ result.size }
        ensures waits { result.rest_waits ≡ true → 1 ≤ packet.length }
        ensures joined { result.gathered_first ≡ false → packet.length ≤ 1024 → gathered + packet.length ≤ 1024 }
    {
        let (near, far) = (usize::from(sizes.near()), usize::from(sizes.far()));
        let length = usize::from(packet.length);
        if near == far && gathered == 0 {
            return Plan {
                gathered_first: false,
                rest_waits: false,
                size: length.max(1),
            };
        }
        let fits = gathered + length <= far;
        let gathered_first = gathered > 0 && (!fits || qualified != packet.qualified);
        let rest = rest_length(gathered_first, gathered, length);
        let is_full = packet.more && !packet.delivery && length == near;
        Plan {
            gathered_first,
            rest_waits: fits && is_full && rest + near <= far,
            size: far,
        }
    }

    /// Whether a packet is longer than this, where so many octets are gathered.
    fn is_long(self, gathered: usize, far: usize) -> bool
        ensures { result ≡ (nat_lt far self.size || (self.gathered_first && nat_lt far gathered)) }
    {
        self.size > far || (self.gathered_first && gathered > far)
    }
}

/// How many packets a packet makes due, if so many octets are gathered, with Q or without; `None` if one of them is
/// longer than the size of the line that they go to.
pub(crate) fn due(sizes: Sizes, gathered: usize, qualified: bool, packet: Outline) -> Option<usize>
    requires { gathered ≤ 1024 }
    ensures { (g : Gathered) → (d : DataPacket) → length g.octets ≡ gathered → g.qualified ≡ qualified
        → outline_of d ≡ packet → MatchOption result
        (are_short sizes.far (turned sizes g d).made ≡ false)
        (λ count. (are_short sizes.far (turned sizes g d).made ≡ true) × (count ≡ length (turned sizes g d).made)) }
{
    let plan = Plan::new(sizes, gathered, qualified, packet);
    if plan.is_long(gathered, usize::from(sizes.far())) {
        return None;
    }
    let rest = rest_length(plan.gathered_first, gathered, usize::from(packet.length));
    Some(usize::from(plan.gathered_first) + pieces(plan.rest_waits, rest, plan.size))
}

/// How many octets are left after what goes first.
fn rest_length(gathered_first: bool, gathered: usize, length: usize) -> usize
    requires gathered { gathered ≤ 1024 }
    requires length { length ≤ 65535 }
    ensures { result ≡ rest_length gathered_first gathered length }
{
    if gathered_first {
        length
    } else {
        gathered + length
    }
}

/// How many packets of this size the rest makes, unless it waits.
pub(crate) fn pieces(waits: bool, rest: usize, size: usize) -> usize
    requires { 1 ≤ size }
    ensures { result ≡ (if waits then 0 else (rest - 1) / size + 1) }
{
    if waits {
        0
    } else {
        rest.saturating_sub(1) / size + 1
    }
}
