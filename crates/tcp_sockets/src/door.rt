//! Doors: sockets at which connections are accepted.
ghost use Rattle.std.specs.Prelude.{◌≡◌, true, false, None, IfOk};

use mio::net::{TcpListener, TcpStream};
use mio::{Interest, Registry, Token};
use std::io::{self, ErrorKind};
use std::net::{Net, SocketAddr};

/// A socket at which connections are accepted, its address, and whether some may wait there.
#[derive(Drop)]
pub struct Door {
    listener: TcpListener,
    at: SocketAddr,
    waits: bool,
}

impl Door {
    /// Opens a door at an address, of which the system tells under a token. The system chooses the port if 0 is asked
    /// for. An error is the system's.
    pub fn open(
        net: &impl Net,
        registry: &Registry,
        at: SocketAddr,
        token: Token,
    ) -> io::Result<Self>
        ensures { IfOk result (λ door. door.waits ≡ true) }
    {
        let mut listener = TcpListener::bind(net, at)?;
        registry.register(&mut listener, token, Interest::READABLE)?;
        let at = listener.local_addr()?;
        Ok(Door {
            listener,
            at,
            waits: true,
        })
    }

    /// Where it is.
    pub fn at(&self) -> SocketAddr
        ensures { result ≡ self.now.at }
    {
        self.at
    }

    /// The system tells that a connection waits.
    pub fn report(&mut self)
        ensures waits { self.new.waits ≡ true }
        ensures at { self.new.at ≡ self.old.at }
    {
        self.waits = true;
    }

    /// The next connection and its peer, if one waits.
    pub fn next(&mut self) -> Option<(TcpStream, SocketAddr)>
        ensures closed { self.old.waits ≡ false → result ≡ None }
        ensures at { self.new.at ≡ self.old.at }
    {
        if !self.waits {
            return None;
        }
        match self.listener.accept() {
            Ok(connection) => Some(connection),
            Err(error) => {
                self.waits = error.kind() != ErrorKind::WouldBlock;
                None
            }
        }
    }
}
