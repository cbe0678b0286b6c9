//! The connections of calls over TCP (RFC 1613).
use gateway_end::GatewayEnd;
use mio::net::TcpStream;
use std::alloc::{AllocError, Global};
use std::io;
use std::net::SocketAddr;
use tcp_sockets::{Connection, Heard, Made, Written};

/// How often a connection is read or written in one turn.
const MOST_CALLS: usize = 16;

/// What a place for a connection is used for.
#[derive(Clone, Copy, PartialEq, Eq)]
enum Stage {
    /// For nothing.
    Free,
    /// For a connection that was asked for.
    Asked,
    /// For one that stands.
    Stands,
    /// For one whose peer sends no more. What came is still to be taken.
    Ended,
}

/// What became of a connection.
#[derive(Clone, Copy)]
pub(crate) enum Change {
    /// Nothing that matters.
    Nothing,
    /// Octets came.
    Came,
    /// It stands.
    Made,
    /// It cannot be had.
    Failed(io::Error),
    /// It is lost.
    Lost,
}

/// The place of the connection of a call.
#[derive(Drop)]
pub(crate) struct CallWire {
    pub(crate) connection: Connection,
    stage: Stage,
    peer: Option<SocketAddr>,
}

impl CallWire {
    /// Whether a connection is here, or is asked for.
    pub(crate) fn is_taken(&self) -> bool {
        self.stage != Stage::Free
    }

    /// One who came has the place.
    pub(crate) fn accept(&mut self, stream: TcpStream, from: SocketAddr) {
        self.connection.accept(stream);
        self.stage = Stage::Stands;
        self.peer = Some(from);
    }

    /// A connection is asked for.
    pub(crate) fn ask(&mut self, stream: TcpStream, to: SocketAddr) {
        self.connection.ask(stream);
        self.stage = Stage::Asked;
        self.peer = Some(to);
    }

    /// Closes what is here, and says with whom it was.
    pub(crate) fn close(&mut self) -> Option<SocketAddr> {
        self.connection.close();
        self.stage = Stage::Free;
        self.peer.take()
    }

    /// Reads what is there, as long as there is room for it at the connection of this number, and says what became of
    /// it.
    pub(crate) fn turn(&mut self, end: &mut GatewayEnd, number: usize) -> Change {
        match self.stage {
            Stage::Free => Change::Nothing,
            Stage::Asked => match self.connection.made() {
                Made::NotYet => Change::Nothing,
                Made::Stands => {
                    self.stage = Stage::Stands;
                    Change::Made
                }
                Made::Failed(why) => Change::Failed(why),
            },
            Stage::Stands => self.read(end, number),
            Stage::Ended => self.hand_over(end, number),
        }
    }

    fn read(&mut self, end: &mut GatewayEnd, number: usize) -> Change {
        let mut change = Change::Nothing;
        for _ in 0..MOST_CALLS {
            if let Change::Came = self.hand_over(end, number) {
                change = Change::Came;
            }
            match self.connection.read() {
                Heard::Octets => change = Change::Came,
                Heard::Nothing => return change,
                Heard::End => {
                    self.stage = Stage::Ended;
                    return Change::Came;
                }
                Heard::Loss => return Change::Lost,
            }
        }
        change
    }

    /// Hands over what was read, as much as there is room for.
    fn hand_over(&mut self, end: &mut GatewayEnd, number: usize) -> Change {
        if self.connection.unread().is_empty() {
            return Change::Nothing;
        }
        let count = end.came(number, self.connection.unread());
        self.connection.taken(count);
        if count > 0 {
            Change::Came
        } else {
            Change::Nothing
        }
    }

    /// Whether the peer sends no more, and all that it sent was handed over.
    pub(crate) fn is_over(&self) -> bool {
        self.stage == Stage::Ended && self.connection.unread().is_empty()
    }

    /// Writes what waits at the connection of this number, as long as there is room, and says whether anything was
    /// written.
    pub(crate) fn write(&mut self, end: &mut GatewayEnd, number: usize) -> bool {
        for calls in 0..MOST_CALLS {
            if end.waiting(number).is_empty() {
                return calls > 0;
            }
            match self.connection.write(end.waiting(number)) {
                Written::Octets(count) => end.written(number, count),
                Written::Nothing | Written::Loss => return calls > 0,
            }
        }
        true
    }
}

/// So many places without connections.
pub(crate) fn call_wires(alloc: Global, count: usize) -> Result<Vec<CallWire>, AllocError> {
    let mut wires = Vec::new(alloc);
    for _ in 0..count {
        wires.push(CallWire {
            connection: Connection::new(alloc)?,
            stage: Stage::Free,
            peer: None,
        })?;
    }
    Ok(wires)
}
