//! Why the program, or one of its parts, gives up.
use std::alloc::{AllocError, AllocFailed};
use thiserror::Error;

/// Why the program gives up. Each fault prints as it is told on standard error.
#[derive(Clone, Copy, Debug, PartialEq, Eq, Error)]
pub enum ProgFault {
    /// The network's text is no network.
    #[error("fault 1")]
    NetText,
    /// The line of this number, counted from 1, is no line of a script.
    #[error("fault 2 line {0}")]
    Script(usize),
    /// The network is not made: a value is outside its limits, or nodes, lines and routes do not fit together.
    #[error("fault 3")]
    BadConfig,
    /// No memory was left.
    #[error("fault 4")]
    OutOfMemory,
    /// Output could not be written.
    #[error("fault 5")]
    Write,
    /// A socket could not be made.
    #[error("fault 6")]
    Socket,
    /// Input could not be read, or is too long.
    #[error("fault 7")]
    File,
}

impl From<AllocError> for ProgFault {
    ghost use Rattle.std.specs.Prelude.{◌≡◌};
    ghost use Rattle.net_files.specs.declared.fault.ProgFault.TheVariants.{OutOfMemory};

    ghost from_gives = { λ _ fault. fault ≡ OutOfMemory };

    fn from(_: AllocError) -> Self {
        ProgFault::OutOfMemory
    }
}

impl<T: Drop> From<AllocFailed<T>> for ProgFault {
    ghost use Rattle.std.specs.Prelude.{◌≡◌};
    ghost use Rattle.net_files.specs.declared.fault.ProgFault.TheVariants.{OutOfMemory};

    ghost from_gives = { λ _ fault. fault ≡ OutOfMemory };

    fn from(_: AllocFailed<T>) -> Self {
        ProgFault::OutOfMemory
    }
}
