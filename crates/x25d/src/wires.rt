//! The connections of lines to other processes.
use crate::serving::Running;
use arrayvec::ArrayVec;
use mio::net::TcpStream;
use std::alloc::{AllocError, Global};
use std::net::SocketAddr;
use tcp_sockets::{Connection, Heard, Made, Written};

/// How many octets a hello has.
const HELLO: usize = 48;

/// How many ticks one who came may take for its hello.
const MOST_TICKS: u16 = 40;

/// How often a connection is read or written in one turn.
const MOST_CALLS: usize = 16;

/// What a place for a connection is used for.
#[derive(Clone, Copy)]
pub(crate) enum Stage {
    /// For nothing.
    Free,
    /// For one who came to this door, and has so many ticks left to say hello.
    Guest { door: usize, left: u16 },
    /// For a connection that was asked for, for this line.
    Asked(usize),
    /// For the connection of this line.
    Stands(usize),
}

/// What became of a connection.
#[derive(Clone, Copy)]
pub(crate) enum Turn {
    /// Nothing that matters.
    Goes,
    /// One who came to this door said hello.
    Says { door: usize },
    /// One who came said no hello.
    Silent,
    /// The connection of this line stands.
    Made(usize),
    /// The connection of this line cannot be had, or is lost.
    Lost(usize),
}

/// A place for a connection, where its peer is, and what it said first if it came.
#[derive(Drop)]
pub(crate) struct Wire {
    pub(crate) connection: Connection,
    hello: ArrayVec<u8, HELLO>,
    pub(crate) stage: Stage,
    pub(crate) peer: Option<SocketAddr>,
}

impl Wire {
    /// Whether nothing is here.
    pub(crate) fn is_free(&self) -> bool {
        matches!(self.stage, Stage::Free)
    }

    /// Whether it is for the connection of this line, or for one that was asked for.
    pub(crate) fn is_of(&self, line: usize) -> bool {
        match self.stage {
            Stage::Asked(own) | Stage::Stands(own) => own == line,
            Stage::Free | Stage::Guest { .. } => false,
        }
    }

    /// One who came to a door.
    pub(crate) fn accept(&mut self, stream: TcpStream, from: SocketAddr, door: usize) {
        self.connection.accept(stream);
        self.hello.clear();
        self.peer = Some(from);
        self.stage = Stage::Guest {
            door,
            left: MOST_TICKS,
        };
    }

    /// A connection of a line is asked for.
    pub(crate) fn ask(&mut self, stream: TcpStream, to: SocketAddr, line: usize) {
        self.connection.ask(stream);
        self.peer = Some(to);
        self.stage = Stage::Asked(line);
    }

    /// Closes what is here, and says with whom it was.
    pub(crate) fn close(&mut self) -> Option<SocketAddr> {
        self.connection.close();
        self.stage = Stage::Free;
        self.peer.take()
    }

    /// What one who came has said first.
    pub(crate) fn hello(&self) -> &[u8] {
        self.hello.as_slice()
    }

    /// One who came has the connection of this line now.
    pub(crate) fn stand(&mut self, line: usize) {
        self.stage = Stage::Stands(line);
    }

    /// Reads what is there, as long as it is taken, and says what became of the connection. Ticks have passed.
    pub(crate) fn turn(&mut self, service: &mut Running, ticks: u16) -> Turn {
        match self.stage {
            Stage::Free => Turn::Goes,
            Stage::Guest { door, left } => self.listen(door, left.saturating_sub(ticks)),
            Stage::Asked(line) => match self.connection.made() {
                Made::NotYet => Turn::Goes,
                Made::Stands => Turn::Made(line),
                Made::Failed(_) => Turn::Lost(line),
            },
            Stage::Stands(line) => self.read(service, line),
        }
    }

    fn listen(&mut self, door: usize, left: u16) -> Turn {
        self.stage = Stage::Guest { door, left };
        for _ in 0..=HELLO {
            self.take_hello();
            if self.hello.is_full() {
                return Turn::Says { door };
            }
            match self.connection.read() {
                Heard::Octets => {}
                Heard::Nothing if left > 0 => return Turn::Goes,
                Heard::Nothing | Heard::End | Heard::Loss => return Turn::Silent,
            }
        }
        Turn::Goes
    }

    /// Takes what was read, as far as it is of the hello.
    fn take_hello(&mut self) {
        let unread = self.connection.unread();
        let count = unread.len().min(HELLO.saturating_sub(self.hello.len()));
        if let Some(first) = unread.get(..count) {
            let _ = self.hello.try_extend_from_slice(first);
        }
        self.connection.taken(count);
    }

    fn read(&mut self, service: &mut Running, line: usize) -> Turn {
        for _ in 0..MOST_CALLS {
            if !self.connection.unread().is_empty() {
                let count = service.net_mut().line_came(line, self.connection.unread());
                self.connection.taken(count);
            }
            match self.connection.read() {
                Heard::Octets => {}
                Heard::Nothing => return Turn::Goes,
                Heard::End | Heard::Loss => return Turn::Lost(line),
            }
        }
        Turn::Goes
    }

    /// Writes what waits on the line, as long as there is room.
    pub(crate) fn write(&mut self, service: &mut Running) {
        let Stage::Stands(line) = self.stage else {
            return;
        };
        for _ in 0..MOST_CALLS {
            if service.net().line_waiting(line).is_empty() {
                return;
            }
            match self.connection.write(service.net().line_waiting(line)) {
                Written::Octets(count) => service.net_mut().line_written(line, count),
                Written::Nothing | Written::Loss => return,
            }
        }
    }

    /// Whether there is more to do at once.
    pub(crate) fn is_busy(&self, service: &Running) -> bool {
        match self.stage {
            Stage::Stands(line) => {
                self.connection.may_read()
                    || self.connection.may_write() && !service.net().line_waiting(line).is_empty()
            }
            Stage::Guest { .. } => self.connection.may_read(),
            Stage::Asked(_) | Stage::Free => false,
        }
    }
}

/// So many places without connections.
pub(crate) fn wires(alloc: Global, count: usize) -> Result<Vec<Wire>, AllocError> {
    let mut wires = Vec::new(alloc);
    for _ in 0..count {
        wires.push(Wire {
            connection: Connection::new(alloc)?,
            hello: ArrayVec::new(),
            stage: Stage::Free,
            peer: None,
        })?;
    }
    Ok(wires)
}
