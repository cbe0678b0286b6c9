//! Why a route is not added.
use std::alloc::AllocError;
use thiserror::Error;

/// Why a route is not added.
#[derive(Clone, Copy, Debug, PartialEq, Eq, Error)]
pub enum RouteFault {
    /// The prefix has a route already.
    #[error("the prefix has a route")]
    Duplicate,
    /// There are as many routes as there may be.
    #[error("no room for a further route")]
    Full,
    /// No memory was left.
    #[error("no memory left")]
    OutOfMemory,
}

impl From<AllocError> for RouteFault {
    ghost use Rattle.std.specs.Prelude.{◌≡◌};
    ghost use Rattle.address_routes.specs.declared.fault.RouteFault.TheVariants.{OutOfMemory};

    ghost from_gives = { λ _ fault. fault ≡ OutOfMemory };

    fn from(_: AllocError) -> Self {
        RouteFault::OutOfMemory
    }
}
