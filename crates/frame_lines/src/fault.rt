//! Why a pair of sockets is not made.
use std::alloc::{AllocError, AllocFailed};
use std::io;
use thiserror::Error;

/// Why a pair of sockets is not made.
#[derive(Clone, Copy, Debug, PartialEq, Eq, Error)]
pub enum SocketFault {
    /// No memory was left.
    #[error("no memory was left")]
    OutOfMemory,
    /// The system gave no socket.
    #[error("a socket could not be made")]
    Socket,
}

impl From<AllocError> for SocketFault {
    ghost use Rattle.std.specs.Prelude.{◌≡◌};
    ghost use Rattle.frame_lines.specs.declared.fault.SocketFault.TheVariants.{OutOfMemory};

    ghost from_gives = { λ _ fault. fault ≡ OutOfMemory };

    fn from(_: AllocError) -> Self {
        SocketFault::OutOfMemory
    }
}

impl<T: Drop> From<AllocFailed<T>> for SocketFault {
    ghost use Rattle.std.specs.Prelude.{◌≡◌};
    ghost use Rattle.frame_lines.specs.declared.fault.SocketFault.TheVariants.{OutOfMemory};

    ghost from_gives = { λ _ fault. fault ≡ OutOfMemory };

    fn from(_: AllocFailed<T>) -> Self {
        SocketFault::OutOfMemory
    }
}

impl From<io::Error> for SocketFault {
    ghost use Rattle.std.specs.Prelude.{◌≡◌, ◌≢◌};
    ghost use Rattle.std.specs.IoError.{error_kind};
    ghost use Rattle.std.specs.declared.io.ErrorKind.TheVariants as kind_is;
    ghost use Rattle.frame_lines.specs.declared.fault.SocketFault.TheVariants.{OutOfMemory, Socket};

    ghost from_gives = { λ error fault. (error_kind error ≡ kind_is.OutOfMemory → fault ≡ OutOfMemory)
        × (error_kind error ≢ kind_is.OutOfMemory → fault ≡ Socket) };

    fn from(error: io::Error) -> Self {
        match error.kind() {
            io::ErrorKind::OutOfMemory => SocketFault::OutOfMemory,
            _ => SocketFault::Socket,
        }
    }
}
