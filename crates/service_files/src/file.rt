//! What a service file says. Its texts lie in the document that it was read from.
use crate::addresses::Allow;
use bridge_ports::AtReset;
use service_ports::PortMode;
use std::net::SocketAddr;

/// The name of a service of `x25d` itself.
#[derive(Clone, Copy)]
pub enum BuiltInName {
    /// `echo`, which says what it hears.
    Echo,
    /// `time`, which says the time and clears the call.
    Time,
    /// `discard`, which takes what comes and says nothing.
    Discard,
}

/// A port on which terminals of a PAD are had.
#[derive(Drop)]
pub struct TerminalsTable<'a> {
    pub pad: &'a str,
    pub listen: SocketAddr,
    pub first: u16,
    /// None: the PAD's last one.
    pub last: Option<u16>,
    pub mode: PortMode,
    pub greeting: Option<&'a str>,
    /// How many ticks without an octet either way end the connection; 0: none do.
    pub idle: u16,
    pub allow: Allow,
}

/// A service that a connection leads to.
#[derive(Clone, Copy)]
pub struct Connect {
    pub at: SocketAddr,
    /// Whether a line that tells of the call is said first.
    pub hello: bool,
    /// After how many ticks a connection must stand.
    pub wait: u16,
    pub at_reset: AtReset,
    /// How many ticks of quiet end the call after the service ended its side.
    pub linger: u16,
}

/// What serves the incoming calls of a host.
#[derive(Clone, Copy)]
pub enum HostService {
    BuiltIn(BuiltInName),
    Connect(Connect),
}

/// What an incoming call at a host is.
#[derive(Clone, Copy)]
pub struct ServiceTable<'a> {
    pub host: &'a str,
    pub service: HostService,
}

/// A port at which each connection places a call from a host.
#[derive(Drop)]
pub struct CallerTable<'a> {
    pub host: &'a str,
    pub listen: SocketAddr,
    /// The address that is called, 1 to 15 digits.
    pub call: &'a str,
    /// Up to 16 octets.
    pub user_data: Vec<u8>,
    pub at_reset: AtReset,
    /// How many ticks of quiet end the call after the caller ended its side.
    pub linger: u16,
    pub allow: Allow,
}

/// An end of a line.
#[derive(Clone, Copy, PartialEq, Eq)]
pub enum End {
    Dte,
    Dce,
}

/// What the other end of a line is, and how it is reached.
#[derive(Clone, Copy)]
pub enum Way {
    /// Another process of the same network, whose connection comes to this address.
    Listen(SocketAddr),
    /// Another process of the same network, to which a connection is made at this address.
    Connect(SocketAddr),
    /// Equipment of another make, each call over a connection of its own (RFC 1613).
    Xot(XotWay),
    /// Equipment of another make, each frame in a datagram of UDP.
    Udp(UdpWay),
}

/// How the connections of calls come about.
#[derive(Clone, Copy)]
pub enum XotWay {
    /// Connections come to this address.
    Listen(SocketAddr),
    /// Connections are made to this address.
    Connect(SocketAddr),
    /// Connections come to the one address, and are made to the other.
    Both {
        listen: SocketAddr,
        connect: SocketAddr,
    },
}

impl XotWay {
    ghost use Rattle.std.specs.Prelude.{◌≡◌};
    ghost use Rattle.service_files.specs.Ways.{xot_listen, xot_connect};

    /// Where connections come, if they do.
    pub fn listen(self) -> Option<SocketAddr>
        ensures { result ≡ xot_listen self }
    {
        match self {
            XotWay::Listen(listen) | XotWay::Both { listen, .. } => Some(listen),
            XotWay::Connect(_) => None,
        }
    }

    /// Where connections are made to, if they are.
    pub fn connect(self) -> Option<SocketAddr>
        ensures { result ≡ xot_connect self }
    {
        match self {
            XotWay::Connect(connect) | XotWay::Both { connect, .. } => Some(connect),
            XotWay::Listen(_) => None,
        }
    }
}

/// How datagrams go and come.
#[derive(Clone, Copy)]
pub struct UdpWay {
    /// Where they come.
    pub bind: SocketAddr,
    /// Where they go to. From elsewhere none is taken.
    pub partner: SocketAddr,
}

/// An end of a line of which the other end is elsewhere, in another process of the same network or at equipment of
/// another make.
#[derive(Drop)]
pub struct LineTable {
    /// The number of the line in the network's file, from 0.
    pub line: u16,
    /// Which end is here.
    pub here: End,
    pub way: Way,
    /// After how many ticks without a connection to another process the link is given up.
    pub hold: u16,
    /// After how many ticks of silence a connection to another process is closed.
    pub silence: u16,
    /// Who may connect.
    pub allow: Allow,
}

/// Where frames are captured.
#[derive(Clone, Copy)]
pub struct CaptureTable<'a> {
    /// The name of the first file.
    pub file: &'a str,
    /// How many MiB a file has at most, from 1 on.
    pub size: u16,
    /// How many files there are, from 1 on.
    pub files: u16,
}

/// What a service file says.
#[derive(Drop)]
pub struct ServiceFile<'a> {
    /// The name of the network's file, beside this one.
    pub network: &'a str,
    pub control: Option<SocketAddr>,
    /// Where the page is had.
    pub web: Option<SocketAddr>,
    /// The name of the file that the log is appended to; none: standard error.
    pub log: Option<&'a str>,
    /// How many connections there may be at once.
    pub connections: u16,
    pub terminals: Vec<TerminalsTable<'a>>,
    pub services: Vec<ServiceTable<'a>>,
    pub callers: Vec<CallerTable<'a>>,
    pub lines: Vec<LineTable>,
    /// None: frames are not captured.
    pub capture: Option<CaptureTable<'a>>,
}
