//! Why a call of a layer is refused.

use std::alloc::AllocError;
use thiserror::Error;

/// Why a layer was not made, in the order in which the faults are tested.
#[derive(Clone, Copy, Debug, PartialEq, Eq, Error)]
pub enum LayerFault {
    /// A parameter is out of its range.
    #[error("bad packet layer parameters")]
    BadParams,
    /// Memory was refused.
    #[error("out of memory")]
    OutOfMemory,
}

impl From<AllocError> for LayerFault {
    ghost use Rattle.std.specs.Prelude.{◌≡◌};
    ghost use Rattle.packet_layer.specs.declared.fault.LayerFault.TheVariants.{OutOfMemory};

    ghost from_gives = { λ _ fault. fault ≡ OutOfMemory };

    fn from(_: AllocError) -> Self {
        LayerFault::OutOfMemory
    }
}

/// Why a call was not placed, in the order in which the faults are tested.
#[derive(Clone, Copy, Debug, PartialEq, Eq, Error)]
pub enum CallFault {
    /// The restart procedure is not done.
    #[error("packet layer not ready")]
    NotReady,
    /// No channel is free.
    #[error("no free channel")]
    NoChannel,
}
