//! Why a trace gives no capture.
use std::alloc::AllocError;
use thiserror::Error;

/// Why a trace gives no capture.
#[derive(Clone, Copy, Debug, PartialEq, Eq, Error)]
pub enum TraceFault {
    /// The line of this number, counted from 1, begins as that of a frame and is none.
    #[error("line {0} is no frame")]
    Line(u32),
    /// The trace has more than 67,108,864 octets.
    #[error("the trace is too long")]
    TooLong,
    /// The trace could not be read.
    #[error("the trace could not be read")]
    Input,
    /// The capture could not be written.
    #[error("the capture could not be written")]
    Write,
    /// No memory was left.
    #[error("no memory was left")]
    OutOfMemory,
}

impl From<AllocError> for TraceFault {
    ghost use Rattle.std.specs.Prelude.{◌≡◌};
    ghost use Rattle.trace_capture.specs.declared.fault.TraceFault.TheVariants.{OutOfMemory};

    ghost from_gives = { λ _ fault. fault ≡ OutOfMemory };

    fn from(_: AllocError) -> Self {
        TraceFault::OutOfMemory
    }
}
