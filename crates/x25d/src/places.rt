//! The connections of ports.
use crate::log::Peer;
use mio::net::TcpStream;
use std::alloc::{AllocError, Global};
use std::net::SocketAddr;
use tcp_sockets::Connection;

/// The place of a port's connection, and who is at its other end, if there is one.
#[derive(Drop)]
pub(crate) struct Place {
    pub(crate) connection: Connection,
    pub(crate) peer: Option<Peer>,
    /// Whether the connection is to be ended for writing once what waits is written.
    pub(crate) ends: bool,
}

impl Place {
    /// The connection of this peer came, and stands.
    pub(crate) fn accept(&mut self, stream: TcpStream, peer: Peer) {
        self.connection.accept(stream);
        self.peer = Some(peer);
        self.ends = false;
    }

    /// Whether it is the connection of a terminal.
    pub(crate) fn is_terminal(&self) -> bool {
        matches!(self.peer, Some(Peer::Client(_)))
    }

    /// All is written: the connection is ended for writing, if it is to be.
    pub(crate) fn finish(&mut self) {
        if self.ends {
            self.ends = false;
            self.connection.end_writing();
        }
    }

    /// A connection to a service, which was asked for.
    pub(crate) fn ask(&mut self, stream: TcpStream, service: SocketAddr) {
        self.connection.ask(stream);
        self.peer = Some(Peer::Service(service));
        self.ends = false;
    }

    /// Closes the connection, and says whose it was.
    pub(crate) fn close(&mut self) -> Option<Peer> {
        self.connection.close();
        self.ends = false;
        self.peer.take()
    }
}

/// So many places without connections.
pub(crate) fn places(alloc: Global, count: usize) -> Result<Vec<Place>, AllocError> {
    let mut places = Vec::new(alloc);
    for _ in 0..count {
        let connection = Connection::new(alloc)?;
        places.push(Place {
            connection,
            peer: None,
            ends: false,
        })?;
    }
    Ok(places)
}
