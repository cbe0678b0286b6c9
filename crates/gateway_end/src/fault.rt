//! Why an end of a gateway is not made.
use lapb::BadParams;
use std::alloc::AllocError;
use thiserror::Error;

/// Why an end of a gateway was not made, in the order in which the faults are tested.
#[derive(Clone, Copy, Debug, PartialEq, Eq, Error)]
pub enum GatewayFault {
    /// A parameter of the link is out of its range.
    #[error("bad parameters of a line")]
    BadParams,
    /// Memory was refused.
    #[error("out of memory")]
    OutOfMemory,
}

impl From<BadParams> for GatewayFault {
    ghost use Rattle.std.specs.Prelude.{◌≡◌};
    ghost use Rattle.gateway_end.specs.declared.fault.GatewayFault.TheVariants as fault;

    ghost from_gives = { λ _ made. made ≡ fault.BadParams };

    fn from(_: BadParams) -> Self {
        GatewayFault::BadParams
    }
}

impl From<AllocError> for GatewayFault {
    ghost use Rattle.std.specs.Prelude.{◌≡◌};
    ghost use Rattle.gateway_end.specs.declared.fault.GatewayFault.TheVariants as fault;

    ghost from_gives = { λ _ made. made ≡ fault.OutOfMemory };

    fn from(_: AllocError) -> Self {
        GatewayFault::OutOfMemory
    }
}
