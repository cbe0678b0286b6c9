//! Why an end of a line is not made.

use lapb::BadParams;
use packet_layer::LayerFault;
use std::alloc::AllocError;
use thiserror::Error;

/// Why an end of a line, or the node at it, was not made, in the order in which the faults are tested.
#[derive(Clone, Copy, Debug, PartialEq, Eq, Error)]
pub enum EndFault {
    /// A parameter is out of its range.
    #[error("bad configuration of a line")]
    BadConfig,
    /// Memory was refused.
    #[error("out of memory")]
    OutOfMemory,
}

impl From<BadParams> for EndFault {
    ghost use Rattle.std.specs.Prelude.{◌≡◌};
    ghost use Rattle.packet_end.specs.declared.fault.EndFault.TheVariants as fault;

    ghost from_gives = { λ _ made. made ≡ fault.BadConfig };

    fn from(_: BadParams) -> Self {
        EndFault::BadConfig
    }
}

impl From<LayerFault> for EndFault {
    ghost use Rattle.std.specs.Prelude.{◌≡◌};
    ghost use Rattle.packet_end.specs.Params.{end_fault};

    ghost from_gives = { λ fault made. made ≡ end_fault fault };

    fn from(fault: LayerFault) -> Self {
        match fault {
            LayerFault::BadParams => EndFault::BadConfig,
            LayerFault::OutOfMemory => EndFault::OutOfMemory,
        }
    }
}

impl From<AllocError> for EndFault {
    ghost use Rattle.std.specs.Prelude.{◌≡◌};
    ghost use Rattle.packet_end.specs.declared.fault.EndFault.TheVariants as fault;

    ghost from_gives = { λ _ made. made ≡ fault.OutOfMemory };

    fn from(_: AllocError) -> Self {
        EndFault::OutOfMemory
    }
}
