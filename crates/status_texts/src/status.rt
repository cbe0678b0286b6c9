//! What a service tells of itself, whatever the form.

/// A service, so many seconds after it began.
#[derive(Drop)]
pub struct Status<'a> {
    pub version: &'a str,
    pub seconds: u64,
    pub nodes: Vec<NodeLine<'a>>,
    pub lines: Vec<NetLine<'a>>,
    pub counts: Counts,
    pub calls: Vec<CallLine<'a>>,
    pub ports: Vec<PortLine>,
}

/// The kind of a node.
#[derive(Clone, Copy)]
pub enum NodeKind {
    Pad,
    Host,
    Switch,
}

/// Whether a node is of this process, and has started.
#[derive(Clone, Copy)]
pub enum NodeState {
    /// It is of this process, and has started.
    Up,
    /// It is of this process, and has not started.
    Starting,
    /// It is of another process.
    Elsewhere,
}

/// A node of the network.
#[derive(Clone, Copy)]
pub struct NodeLine<'a> {
    pub name: &'a str,
    pub kind: NodeKind,
    pub state: NodeState,
}

/// Where the ends of a line are, and whether frames pass over it.
#[derive(Clone, Copy)]
pub enum LineState {
    /// Frames pass: the nodes at both ends are up, or one end is in another process and the line to it is open.
    Up,
    /// No frames pass, though an end is in this process.
    Down,
    /// Both ends are in other processes.
    Elsewhere,
}

/// A line of the network: the names of the nodes at its ends, the DTE's address (empty: none) and its state.
#[derive(Clone, Copy)]
pub struct NetLine<'a> {
    pub dte: &'a str,
    pub dce: &'a str,
    pub address: &'a str,
    pub state: LineState,
}

/// A route of a switch: the digits that an address begins with, and the number of the line that leads there.
#[derive(Clone, Copy)]
pub struct Route<'a> {
    pub switch: &'a str,
    pub prefix: &'a str,
    pub line: usize,
}

/// What was counted since the service began.
#[derive(Clone, Copy)]
pub struct Counts {
    /// Clients that got a port.
    pub clients: u64,
    /// Clients that got none.
    pub refused: u64,
    /// Lines of the log that could not be written.
    pub lost: u64,
    /// Lines of the log that were not written since they had been within a minute.
    pub withheld: u64,
}

impl Counts {
    /// Nothing was counted yet.
    pub const NONE: Counts = Counts {
        clients: 0,
        refused: 0,
        lost: 0,
        withheld: 0,
    };
}

/// Octets of a call that a host took and said.
#[derive(Clone, Copy)]
pub struct CallOctets {
    pub taken: u64,
    pub said: u64,
}

/// A call at a host or a PAD.
#[derive(Drop)]
pub struct CallLine<'a> {
    /// The calling address.
    pub from: String,
    /// The called address.
    pub to: String,
    /// The name of the host or PAD.
    pub node: &'a str,
    pub channel: u8,
    /// When it began, in seconds since the beginning of 1970.
    pub since: i64,
    /// Octets each way, at a host; those of a PAD's calls are not counted.
    pub octets: Option<CallOctets>,
    /// The numbers of the lines that it passes over, from the caller on, as far as they are known.
    pub over: Vec<usize>,
}

/// What waits at a port.
#[derive(Clone, Copy)]
pub struct PortLine {
    pub in_use: bool,
    /// Keys or octets that wait to be taken from the client.
    pub keys: usize,
    /// Octets that wait to be written.
    pub octets: usize,
    /// Keys that were dropped.
    pub overtaken: u64,
}
