//! The log: one line for each thing that happens.
use crate::clock::seconds_since_1970;
use crate::names::{Names, call_text};
use crate::sockets::{DatagramSocket, Entrance, Leads};
use crate::words::VERSION;
use clock_texts::utc_text;
use line_carriers::CarrierFault;
use log_repeats::{Repeats, Told};
use remote_lines::Ending;
use service::NotedCall;
use status_texts::Counts;
use std::alloc::AllocError;
use std::fs::{File, OpenOptions};
use std::io::{self, Write};
use std::net::{IpAddr, SocketAddr};
use std::path::Path;

/// Who is at the other end of a connection.
#[derive(Clone, Copy)]
pub(crate) enum Peer {
    /// A client that has a terminal.
    Client(SocketAddr),
    /// A program that came to place a call.
    Caller(SocketAddr),
    /// A service that was called.
    Service(SocketAddr),
}

impl Peer {
    /// Where it is.
    pub(crate) fn at(self) -> SocketAddr {
        match self {
            Peer::Client(at) | Peer::Caller(at) | Peer::Service(at) => at,
        }
    }
}

/// The log, and what was counted of what it tells.
#[derive(Drop)]
pub(crate) struct Log {
    /// The file that lines are appended to; none: they go to standard error.
    file: Option<File>,
    repeats: Repeats,
    pub(crate) counts: Counts,
    /// The seconds since the start.
    pub(crate) seconds: u64,
}

impl Log {
    /// A log that lines are appended to, in the file of this name; without a name it is standard error.
    pub(crate) fn open(rt: &HostRuntime, name: Option<Path<'_>>) -> io::Result<Self> {
        let file = match name {
            Some(name) => Some(appended(rt, name)?),
            None => None,
        };
        Ok(Log {
            file,
            repeats: Repeats::new(rt.alloc())?,
            counts: Counts::NONE,
            seconds: 0,
        })
    }

    /// Writes a line, if there was memory for its text and it was not told within a minute.
    fn write(&mut self, rt: &HostRuntime, line: Result<String, AllocError>) {
        let Ok(line) = line else {
            self.counts.lost = self.counts.lost.saturating_add(1);
            return;
        };
        if self.repeats.is_repeat(line.as_str(), self.seconds) {
            self.counts.withheld = self.counts.withheld.saturating_add(1);
            return;
        }
        if self.put(rt, line.as_str()).is_err() {
            self.counts.lost = self.counts.lost.saturating_add(1);
        }
        let second = self.seconds;
        self.repeats.keep(Told { line, second });
    }

    fn put(&mut self, rt: &HostRuntime, line: &str) -> io::Result<()> {
        let time = utc_text(rt.alloc(), seconds_since_1970(rt)?)?;
        match self.file.as_mut() {
            Some(file) => writeln!(file, "{time} {line}"),
            None => eprintln!(rt; "{time} {line}"),
        }
    }

    /// The service starts.
    pub(crate) fn start(&mut self, rt: &HostRuntime) {
        self.write(rt, format!(in rt.alloc(); "start version={VERSION}"));
    }

    /// A door is open.
    pub(crate) fn bind(&mut self, rt: &HostRuntime, entrance: &Entrance<'_>) {
        let at = entrance.door.at();
        let line = match entrance.leads {
            Leads::Terminals(_, _, pad) => format!(in rt.alloc(); "bind terminals={at} pad={pad}"),
            Leads::Caller(_, host) => format!(in rt.alloc(); "bind caller={at} host={host}"),
            Leads::Line(number, _) | Leads::Equipment(number) => {
                format!(in rt.alloc(); "bind line={number} at={at}")
            }
            Leads::Control => format!(in rt.alloc(); "bind control={at}"),
            Leads::Web => format!(in rt.alloc(); "bind web={at}"),
        };
        self.write(rt, line);
    }

    /// The socket for the datagrams of a line is open.
    pub(crate) fn bind_datagrams(&mut self, rt: &HostRuntime, socket: &DatagramSocket) {
        let (number, at) = (socket.line, socket.at);
        self.write(rt, format!(in rt.alloc(); "bind line={number} at={at}"));
    }

    /// A client got a port.
    pub(crate) fn attach(&mut self, rt: &HostRuntime, port: usize, peer: SocketAddr) {
        self.counts.clients = self.counts.clients.saturating_add(1);
        self.write(rt, format!(in rt.alloc(); "attach port={port} from={peer}"));
    }

    /// A connection to a service is asked for.
    pub(crate) fn connect(&mut self, rt: &HostRuntime, port: usize, at: SocketAddr) {
        self.write(rt, format!(in rt.alloc(); "connect port={port} to={at}"));
    }

    /// A connection to a service cannot be had.
    pub(crate) fn failed(&mut self, rt: &HostRuntime, port: usize, at: SocketAddr, why: io::Error) {
        self.write(
            rt,
            format!(in rt.alloc(); "failed port={port} to={at} reason=\"{why}\""),
        );
    }

    /// A port has no connection any more.
    pub(crate) fn leave(&mut self, rt: &HostRuntime, port: usize, peer: Peer) {
        let line = match peer {
            Peer::Client(at) | Peer::Caller(at) => format!(in rt.alloc();
                "leave port={port} from={at}"
            ),
            Peer::Service(at) => format!(in rt.alloc(); "leave port={port} to={at}"),
        };
        self.write(rt, line);
    }

    /// Keys of a client were dropped.
    pub(crate) fn overtaken(&mut self, rt: &HostRuntime, port: usize, keys: u64) {
        self.write(
            rt,
            format!(in rt.alloc(); "overtaken port={port} keys={keys}"),
        );
    }

    /// A client was silent too long.
    pub(crate) fn idle(&mut self, rt: &HostRuntime, port: usize) {
        self.write(rt, format!(in rt.alloc(); "idle port={port}"));
    }

    /// The connection of a port is to go.
    pub(crate) fn clear(&mut self, rt: &HostRuntime, port: usize) {
        self.write(rt, format!(in rt.alloc(); "clear port={port}"));
    }

    /// There was no port for a client at this address.
    pub(crate) fn refuse(&mut self, rt: &HostRuntime, peer: IpAddr, at: SocketAddr) {
        self.counts.refused = self.counts.refused.saturating_add(1);
        self.write(rt, format!(in rt.alloc(); "refused from={peer} at={at}"));
    }

    /// What was captured cannot be written any more.
    pub(crate) fn capture_ended(&mut self, rt: &HostRuntime, why: io::Error) {
        self.write(rt, format!(in rt.alloc(); "capture ended reason=\"{why}\""));
    }

    /// One who came for a line is not its partner.
    pub(crate) fn stranger(&mut self, rt: &HostRuntime, peer: IpAddr, fault: Option<CarrierFault>) {
        self.counts.refused = self.counts.refused.saturating_add(1);
        let line = match fault {
            Some(fault) => format!(in rt.alloc(); "refused from={peer} reason=\"{fault}\""),
            None => format!(in rt.alloc(); "refused from={peer} reason=\"no hello\""),
        };
        self.write(rt, line);
    }

    /// A line whose other end is elsewhere is up.
    pub(crate) fn line_up(&mut self, rt: &HostRuntime, number: u16) {
        self.write(rt, format!(in rt.alloc(); "line up line={number}"));
    }

    /// A line whose other end is elsewhere is down.
    pub(crate) fn line_down(&mut self, rt: &HostRuntime, number: u16) {
        self.write(rt, format!(in rt.alloc(); "line down line={number}"));
    }

    /// This end closed the connection of a line.
    pub(crate) fn line_closed(&mut self, rt: &HostRuntime, number: u16, ending: Ending) {
        self.write(
            rt,
            format!(in rt.alloc(); "line closed line={number} reason=\"{ending}\""),
        );
    }

    /// The connection of a line cannot be asked for.
    pub(crate) fn line_failed(
        &mut self,
        rt: &HostRuntime,
        number: u16,
        to: SocketAddr,
        why: io::Error,
    ) {
        self.write(
            rt,
            format!(in rt.alloc(); "failed line={number} to={to} reason=\"{why}\""),
        );
    }

    /// A connection of equipment came, over which a call is to come.
    pub(crate) fn call_came(
        &mut self,
        rt: &HostRuntime,
        line: u16,
        connection: usize,
        from: SocketAddr,
    ) {
        self.write(
            rt,
            format!(in rt.alloc(); "attach line={line} connection={connection} from={from}"),
        );
    }

    /// The connection of a call to equipment is asked for.
    pub(crate) fn call_connect(
        &mut self,
        rt: &HostRuntime,
        line: u16,
        connection: usize,
        to: SocketAddr,
    ) {
        self.write(
            rt,
            format!(in rt.alloc(); "connect line={line} connection={connection} to={to}"),
        );
    }

    /// The connection of a call to equipment cannot be had.
    pub(crate) fn call_failed(
        &mut self,
        rt: &HostRuntime,
        line: u16,
        connection: usize,
        to: SocketAddr,
        why: io::Error,
    ) {
        self.write(
            rt,
            format!(in rt.alloc();
                "failed line={line} connection={connection} to={to} reason=\"{why}\""
            ),
        );
    }

    /// No connection of a call to equipment is asked for.
    pub(crate) fn call_refused(
        &mut self,
        rt: &HostRuntime,
        line: u16,
        connection: usize,
        why: &str,
    ) {
        self.write(
            rt,
            format!(in rt.alloc(); "failed line={line} connection={connection} reason=\"{why}\""),
        );
    }

    /// A call of equipment has no connection any more.
    pub(crate) fn call_left(
        &mut self,
        rt: &HostRuntime,
        line: u16,
        connection: usize,
        peer: SocketAddr,
    ) {
        self.write(
            rt,
            format!(in rt.alloc(); "leave line={line} connection={connection} peer={peer}"),
        );
    }

    /// A call came to a host or a PAD, or changed there.
    pub(crate) fn call(&mut self, rt: &HostRuntime, names: Names<'_>, note: &NotedCall) {
        self.write(rt, call_text(rt.alloc(), &names, note));
    }

    /// So many changes of calls could not be told.
    pub(crate) fn missed(&mut self, rt: &HostRuntime, calls: u64) {
        self.write(rt, format!(in rt.alloc(); "missed calls={calls}"));
    }

    /// The service is to stop.
    pub(crate) fn stop(&mut self, rt: &HostRuntime) {
        self.write(rt, String::from_str(rt.alloc(), "stop"));
    }

    /// The service has ended.
    pub(crate) fn stopped(&mut self, rt: &HostRuntime) {
        self.write(rt, String::from_str(rt.alloc(), "stopped"));
    }
}

/// Opens a file at its end, and makes it if it is not there.
fn appended(rt: &HostRuntime, name: Path<'_>) -> io::Result<File> {
    OpenOptions::new().append(true).create(true).open(rt, name)
}
