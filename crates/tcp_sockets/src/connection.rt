//! The place of a connection: its socket, and what was read from it and not taken yet.
ghost use Rattle.std.specs.Prelude.{◌≡◌, ◌≤◌, ◌&&◌, ◌||◌, [], drop, length, nat_eq, not, IfOk};
ghost use Rattle.tcp_sockets.specs.Connections.{IsRead, count_of};

use crate::outcome::{Heard, Made, Written};
use crate::unread::{MOST_READ, Unread};
use mio::event::Event;
use mio::net::TcpStream;
use std::alloc::{AllocError, Global};
use std::io::{self, ErrorKind, Write};
use std::net::Shutdown;

/// The place of a connection: its socket if there is one, what may be done with that, and what was read and not taken.
#[derive(Drop)]
pub struct Connection {
    stream: Option<TcpStream>,
    /// Whether it stands.
    is_made: bool,
    /// Whether something may be read.
    readable: bool,
    /// Whether something may be written.
    writable: bool,
    /// Whether the peer has ended its side.
    has_ended: bool,
    /// Whether the connection is broken.
    is_broken: bool,
    unread: Unread,
}

impl Connection {
    /// A place without a connection. `AllocError` comes for want of memory; no other call wants any.
    pub fn new(alloc: Global) -> Result<Self, AllocError>
        ensures { IfOk result (λ place. place.unread ≡ []) }
    {
        Ok(Connection {
            stream: None,
            is_made: false,
            readable: false,
            writable: false,
            has_ended: false,
            is_broken: false,
            unread: Unread::new(alloc)?,
        })
    }

    /// A connection came, and stands.
    pub fn accept(&mut self, stream: TcpStream)
        ensures { self.new.unread ≡ [] }
    {
        self.ask(stream);
        self.is_made = true;
        self.readable = true;
        self.writable = true;
    }

    /// A connection is asked for, and does not stand yet.
    pub fn ask(&mut self, stream: TcpStream)
        ensures { self.new.unread ≡ [] }
    {
        self.close();
        self.stream = Some(stream);
    }

    /// Closes the connection. What was not taken is dropped. If octets of the peer are left unread in the system, that
    /// resets the connection.
    pub fn close(&mut self)
        ensures { self.new.unread ≡ [] }
    {
        self.stream = None;
        self.is_made = false;
        self.readable = false;
        self.writable = false;
        self.has_ended = false;
        self.is_broken = false;
        self.unread.clear();
    }

    /// Notes what the system tells of the socket.
    pub fn report(&mut self, event: &Event)
        ensures { self.new.unread ≡ self.old.unread }
    {
        self.is_broken = self.is_broken || event.is_error();
        self.has_ended = self.has_ended || event.is_read_closed();
        self.readable = self.readable || event.is_readable() || self.is_over();
        self.writable = self.writable || event.is_writable() || self.is_broken;
    }

    /// Whether nothing comes any more but what the system has already.
    fn is_over(&self) -> bool
        ensures { result ≡ (self.now.has_ended || self.now.is_broken) }
    {
        self.has_ended || self.is_broken
    }

    /// Whether the system told that the peer has ended its side. Not all that came before may be read yet.
    pub fn has_ended(&self) -> bool
        ensures { result ≡ (self.now.is_made && self.now.has_ended) }
    {
        self.is_made && self.has_ended
    }

    /// Whether the system told that the connection is broken. Not all that came before may be read yet.
    pub fn is_broken(&self) -> bool
        ensures { result ≡ (self.now.is_made && self.now.is_broken) }
    {
        self.is_made && self.is_broken
    }

    /// What became of a connection that was asked for. It is told once.
    pub fn made(&mut self) -> Made
        ensures { self.new.unread ≡ self.old.unread }
    {
        if self.is_made || !self.writable || self.stream.is_none() {
            return Made::NotYet;
        }
        match self.fault() {
            Some(error) => {
                self.writable = false;
                Made::Failed(error)
            }
            None => {
                self.is_made = true;
                self.readable = true;
                Made::Stands
            }
        }
    }

    /// Why a connection that was asked for cannot be had, if so. The system tells of its error as of room to write.
    fn fault(&self) -> Option<io::Error> {
        let stream = self.stream.as_ref()?;
        match stream.take_error() {
            Ok(None) => stream.peer_addr().err(),
            Ok(Some(error)) => Some(error),
            Err(error) => Some(error),
        }
    }

    /// Octets that were read and are not taken yet.
    pub fn unread(&self) -> &[u8]
        ensures { result.now ≡ self.now.unread }
    {
        self.unread.as_slice()
    }

    /// The first `count` of the octets that were read are taken; all, if there are fewer.
    pub fn taken(&mut self, count: usize)
        ensures { self.new.unread ≡ drop count self.old.unread }
    {
        self.unread.drop_front(count);
    }

    /// Whether there are octets to be taken, or something may be read.
    pub fn may_read(&self) -> bool
        ensures { result ≡ (self.now.is_made && (self.now.readable || not (nat_eq (length self.now.unread) 0))) }
    {
        self.is_made && (self.readable || !self.unread.is_empty())
    }

    /// Whether something may be written.
    pub fn may_write(&self) -> bool
        ensures { result ≡ (self.now.is_made && self.now.writable) }
    {
        self.is_made && self.writable
    }

    /// Reads once, if all that was read before is taken and something may be there.
    pub fn read(&mut self) -> Heard
        ensures { IsRead result self.old.unread self.new.unread }
    {
        if !self.is_made || !self.readable || !self.unread.is_empty() {
            return Heard::Nothing;
        }
        let Some(stream) = self.stream.as_mut() else {
            return Heard::Nothing;
        };
        match self.unread.fill(stream) {
            Ok(0) => {
                self.readable = false;
                Heard::End
            }
            Ok(count) => {
                self.readable = self.is_over() || count == MOST_READ;
                Heard::Octets
            }
            Err(error) if error.kind() == ErrorKind::Interrupted => Heard::Nothing,
            Err(error) => {
                self.readable = false;
                if error.kind() == ErrorKind::WouldBlock {
                    Heard::Nothing
                } else {
                    Heard::Loss
                }
            }
        }
    }

    /// Writes once, if there is room.
    pub fn write(&mut self, octets: &[u8]) -> Written
        ensures within { count_of result ≤ length octets.now }
        ensures kept { self.new.unread ≡ self.old.unread }
    {
        if !self.may_write() {
            return Written::Nothing;
        }
        let Some(stream) = self.stream.as_mut() else {
            return Written::Nothing;
        };
        match stream.write(octets) {
            Ok(count) => {
                self.writable = count == octets.len();
                Written::Octets(count)
            }
            Err(error) if error.kind() == ErrorKind::Interrupted => Written::Nothing,
            Err(error) => {
                self.writable = false;
                if error.kind() == ErrorKind::WouldBlock {
                    Written::Nothing
                } else {
                    Written::Loss
                }
            }
        }
    }

    /// Tells the peer that nothing more comes, and goes on reading.
    pub fn end_writing(&mut self)
        ensures { self.new.unread ≡ self.old.unread }
    {
        self.writable = false;
        if let Some(stream) = self.stream.as_ref() {
            let _ = stream.shutdown(Shutdown::Write);
        }
    }
}
