//! The sockets at which connections are accepted, and the system's poll, which tells of all.
use crate::faults::Fault;
use mio::net::{TcpStream, UdpSocket};
use mio::{Events, Interest, Poll, Token};
use service::PortMode;
use service_files::{Allow, LineTable, ServiceFile, Way};
use std::alloc::AllocError;
use std::io;
use std::net::{IpAddr, SocketAddr};
use std::time::Duration;
use tcp_sockets::Door;

/// The token under which the system tells of datagrams. All sockets for them are read in each turn.
const DATAGRAMS: Token = Token(usize::MAX);

/// Where a door leads to.
#[derive(Clone, Copy)]
pub(crate) enum Leads<'a> {
    /// To the terminals of this table, with the name of their PAD.
    Terminals(usize, PortMode, &'a str),
    /// To calls from this caller, with the name of its host.
    Caller(usize, &'a str),
    /// To lines to other processes; the first of those that come here has this number.
    Line(u16, SocketAddr),
    /// To calls of the equipment at the line of this number.
    Equipment(u16),
    /// To the control port.
    Control,
    /// To the page.
    Web,
}

/// A door, where it leads to, and who is let in.
#[derive(Drop)]
pub(crate) struct Entrance<'a> {
    pub(crate) door: Door,
    pub(crate) leads: Leads<'a>,
    allow: Option<&'a Allow>,
}

impl Entrance<'_> {
    /// Whether a client at this address may come in: if nothing else is said, those of this machine alone.
    pub(crate) fn lets_in(&self, address: IpAddr) -> bool {
        let address = address.to_canonical();
        match self.allow {
            Some(allow) => allow.allows(address),
            None => Allow { prefixes: None }.allows(address),
        }
    }
}

/// A socket for the datagrams of a line of this number, and where it is.
#[derive(Drop)]
pub(crate) struct DatagramSocket {
    pub(crate) socket: UdpSocket,
    pub(crate) line: u16,
    pub(crate) at: SocketAddr,
}

/// All doors, the sockets for datagrams in the order of their tables, and the system's poll.
#[derive(Drop)]
pub(crate) struct Sockets<'a> {
    poll: Poll,
    pub(crate) entrances: Vec<Entrance<'a>>,
    pub(crate) datagrams: Vec<DatagramSocket>,
}

impl<'a> Sockets<'a> {
    /// Opens the sockets of a service file.
    pub(crate) fn open(rt: &HostRuntime, file: &'a ServiceFile<'_>) -> Result<Self, Fault> {
        let mut sockets = Sockets::without_doors(rt)?;
        sockets.add_all(rt, file)?;
        Ok(sockets)
    }

    /// Opens the doors of all tables, and the sockets for datagrams.
    fn add_all(&mut self, rt: &HostRuntime, file: &'a ServiceFile<'_>) -> Result<(), Fault> {
        for (place, table) in file.terminals.iter().enumerate() {
            let leads = Leads::Terminals(place, table.mode, table.pad);
            self.add(rt, table.listen, leads, Some(&table.allow))?;
        }
        for (place, table) in file.callers.iter().enumerate() {
            let leads = Leads::Caller(place, table.host);
            self.add(rt, table.listen, leads, Some(&table.allow))?;
        }
        for table in &file.lines {
            self.add_line(rt, table)?;
        }
        if let Some(web) = file.web {
            self.add(rt, web, Leads::Web, None)?;
        }
        if let Some(control) = file.control {
            self.add(rt, control, Leads::Control, None)?;
        }
        Ok(())
    }

    /// Opens the socket of a line, if it has one and shares none.
    fn add_line(&mut self, rt: &HostRuntime, table: &'a LineTable) -> Result<(), Fault> {
        let line = table.line;
        match table.way {
            Way::Listen(at) if self.line_door(at, line).is_none() => {
                self.add(rt, at, Leads::Line(line, at), None)
            }
            Way::Listen(_) | Way::Connect(_) => Ok(()),
            Way::Xot(way) => match way.listen() {
                Some(at) => self.add(rt, at, Leads::Equipment(line), Some(&table.allow)),
                None => Ok(()),
            },
            Way::Udp(way) => self.bind(rt, way.bind, line),
        }
    }

    /// Opens the socket for datagrams of a line.
    fn bind(&mut self, rt: &HostRuntime, at: SocketAddr, line: u16) -> Result<(), Fault> {
        match self.bound(rt, at, line) {
            Ok(socket) => Ok(self.keep(socket)?),
            Err(error) => Err(Fault::NoSocket(at, error)),
        }
    }

    fn keep(&mut self, socket: DatagramSocket) -> Result<(), AllocError> {
        self.datagrams.push(socket)?;
        Ok(())
    }

    fn bound(&self, rt: &HostRuntime, at: SocketAddr, line: u16) -> io::Result<DatagramSocket> {
        let mut socket = UdpSocket::bind(rt, at)?;
        self.poll
            .registry()
            .register(&mut socket, DATAGRAMS, Interest::READABLE)?;
        let at = socket.local_addr()?;
        Ok(DatagramSocket { socket, line, at })
    }

    /// The number of the door that a line of this number has, which is to listen at this address: lines may share one.
    /// The system gives each line a port of its own if 0 is asked for.
    pub(crate) fn line_door(&self, listen: SocketAddr, number: u16) -> Option<usize> {
        self.entrances.iter().position(|entrance| {
            matches!(entrance.leads, Leads::Line(first, at) if at == listen && (first == number || at.port() != 0))
        })
    }

    fn without_doors(rt: &HostRuntime) -> io::Result<Self> {
        Ok(Sockets {
            poll: Poll::new(rt)?,
            entrances: Vec::new(rt.alloc()),
            datagrams: Vec::new(rt.alloc()),
        })
    }

    fn add(
        &mut self,
        rt: &HostRuntime,
        at: SocketAddr,
        leads: Leads<'a>,
        allow: Option<&'a Allow>,
    ) -> Result<(), Fault> {
        let token = Token(self.entrances.len());
        match Door::open(rt, self.poll.registry(), at, token) {
            Ok(door) => Ok(self.push(Entrance { door, leads, allow })?),
            Err(error) => Err(Fault::NoSocket(at, error)),
        }
    }

    fn push(&mut self, entrance: Entrance<'a>) -> Result<(), AllocError> {
        self.entrances.push(entrance)?;
        Ok(())
    }

    /// Waits until there is something to tell, so many thousandths of a second at most.
    pub(crate) fn wait(&mut self, events: &mut Events, millis: u32) -> io::Result<()> {
        let limit = Duration::from_millis(u64::from(millis));
        self.poll.poll(events, Some(limit))
    }

    /// Has the system tell of a port's connection.
    pub(crate) fn watch(&self, stream: &mut TcpStream, port: usize) -> io::Result<()> {
        let token = Token(port.wrapping_add(self.entrances.len()));
        let interest = Interest::READABLE | Interest::WRITABLE;
        self.poll.registry().register(stream, token, interest)
    }
}
