//! What may happen at a node with users.
use link_timers::TimerId;
use packet_codec::Address;
use packet_host::HostRequest;
use user_nodes::TerminalEvent;

/// What comes to a node at its line.
#[derive(Clone, Copy)]
pub enum LineEvent<'a> {
    /// A frame arrives.
    Hears(&'a [u8]),
    /// A timer expires.
    Expires(TimerId),
    /// The link is given up, and set up again by a DTE.
    Relinks,
    /// The node restarts.
    Restarts,
}

/// What a user asks of a host.
#[derive(Clone, Copy)]
pub enum HostEvent<'a> {
    /// The host calls an address, with at most 16 octets of user data.
    Calls(Address, &'a [u8]),
    /// The host is asked something of the call on a channel.
    Asks(u16, &'a HostRequest),
    /// The host takes what waits on a channel.
    Takes(u16),
}

/// What a user does at a node.
#[derive(Clone, Copy)]
pub enum UserEvent<'a> {
    /// Something happens at a terminal of a PAD.
    AtTerminal(u16, TerminalEvent),
    /// A host is asked something.
    AtHost(HostEvent<'a>),
}
