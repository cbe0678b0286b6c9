//! Why the program cannot do what it is asked for.
use service_files::Refusal;
use std::alloc::AllocError;
use std::fmt;
use std::io::{self, ErrorKind};
use std::net::SocketAddr;

/// Why what the words ask for cannot be done.
#[derive(Clone, Copy)]
pub(crate) enum Fault {
    /// The socket at this address cannot be had.
    NoSocket(SocketAddr, io::Error),
    /// No service answers at this control port.
    NoAnswer(SocketAddr, io::Error),
    /// The service file cannot be read.
    NoServiceFile(io::Error),
    /// The file of the network cannot be read.
    NoNetworkFile(io::Error),
    /// The log cannot be opened.
    NoLog(io::Error),
    /// The service has no client at this port.
    NoClient(u16),
    /// The system fails in something else, or there is no memory.
    System(io::Error),
}

impl fmt::Display for Fault {
    fn fmt<W: fmt::Write>(&self, f: &mut fmt::Formatter<W>) -> fmt::Result {
        match self {
            Fault::NoSocket(at, error) => write!(f, "no socket at {at}: {error}"),
            Fault::NoAnswer(at, error) => write!(f, "no service answers at {at}: {error}"),
            Fault::NoServiceFile(error) => write!(f, "the service file cannot be read: {error}"),
            Fault::NoNetworkFile(error) => write!(f, "the network file cannot be read: {error}"),
            Fault::NoLog(error) => write!(f, "the log cannot be opened: {error}"),
            Fault::NoClient(port) => write!(f, "no client at port {port}"),
            Fault::System(error) => write!(f, "{error}"),
        }
    }
}

impl From<io::Error> for Fault {
    fn from(error: io::Error) -> Self {
        Fault::System(error)
    }
}

impl From<AllocError> for Fault {
    fn from(error: AllocError) -> Self {
        Fault::System(io::Error::from(error))
    }
}

impl From<Refusal> for Fault {
    fn from(refusal: Refusal) -> Self {
        match refusal {
            Refusal::OutOfMemory => Fault::from(AllocError),
            Refusal::Told => Fault::System(io::Error::from(ErrorKind::InvalidData)),
        }
    }
}
