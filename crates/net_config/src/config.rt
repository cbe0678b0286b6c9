//! A network as its text describes it. Nodes and lines count from 0, in the order of the text.
use x3_params::Profile;

/// A network. What it says is checked when the network is made.
#[derive(Drop)]
pub struct Config {
    pub nodes: Vec<NodeConfig>,
    pub lines: Vec<LineConfig>,
    pub routes: Vec<RouteConfig>,
}

/// A node: its name, of letters and digits, and its kind.
#[derive(Drop)]
pub struct NodeConfig {
    pub name: String,
    pub kind: NodeKind,
}

/// The kind of a node.
#[derive(Drop)]
pub enum NodeKind {
    Pad(TerminalsConfig),
    Host,
    Switch,
}

/// A PAD: how many terminals it has, from which profile and speed their parameters start, and which of these are set to
/// other values, in order.
#[derive(Drop)]
pub struct TerminalsConfig {
    pub terminals: u16,
    pub profile: Profile,
    pub speed: u16,
    pub settings: Vec<Setting>,
}

/// A parameter and its value.
#[derive(Clone, Copy, PartialEq, Eq)]
pub struct Setting {
    pub number: u8,
    pub value: u8,
}

/// A line: the names of the nodes at its ends, the DTE's address (its digits, none if it is empty), how many logical
/// channels it has, the modulus of its packets' numbers, how many octets of user data a packet may have, the window
/// size, the link's k and n2, and whether it is standing: with a call from the start.
#[derive(Drop)]
pub struct LineConfig {
    pub dte: String,
    pub dce: String,
    pub address: String,
    pub channels: u16,
    pub modulo: u16,
    pub size: u16,
    pub window: u16,
    pub k: u16,
    pub n2: u16,
    pub standing: bool,
}

/// A route of a switch: the digits that an address begins with, and the line that leads there.
#[derive(Drop)]
pub struct RouteConfig {
    pub switch: String,
    pub prefix: String,
    pub line: u16,
}
