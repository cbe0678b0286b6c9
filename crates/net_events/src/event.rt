//! The events of a network, and why they are refused.
use arrayvec::ArrayVec;
use frame_lines::Direction;
use link_timers::TimerId;
use packet_codec::Address;
use packet_host::HostRequest;
use std::alloc::AllocError;
use thiserror::Error;
use user_nodes::{NodeFault, TerminalEvent};

/// An event, which is handled whole before the next one. Nodes and lines go by their place in the network's
/// configuration, counted from 0.
#[derive(Drop)]
pub enum Event {
    /// Something happens at a terminal of a PAD.
    AtTerminal {
        node: usize,
        terminal: u16,
        event: TerminalEvent,
    },
    /// A host calls an address, with at most 16 octets of user data (X.25 4.1.2).
    Call {
        node: usize,
        address: Address,
        user_data: ArrayVec<u8, 16>,
    },
    /// A host asks something of the call on a logical channel.
    Ask {
        node: usize,
        channel: u16,
        request: HostRequest,
    },
    /// A host takes what waits on a logical channel.
    Take {
        node: usize,
        channel: u16,
    },
    /// The first frame in flight in this direction arrives.
    Deliver {
        line: usize,
        direction: Direction,
    },
    /// The first frame in flight in this direction is lost.
    Lose {
        line: usize,
        direction: Direction,
    },
    /// A timer of a node's end of a line, or the idle timer of a terminal of a PAD, expires. If it does not run,
    /// nothing happens.
    Expire {
        node: usize,
        line: usize,
        timer: TimerId,
    },
    /// The DTE of a line, a node with users or a switch, gives the link up and sets it up again.
    Relink {
        line: usize,
    },
    /// The DCE of a line, a host or a switch, gives the link up. It is then down until the DTE sets it up.
    GivesUp {
        line: usize,
    },
    /// A node restarts, and its lines lose all frames in flight.
    Restart {
        node: usize,
    },
}

/// Why an event is refused. The first three are tested in this order, then memory is asked for, and last the node may
/// refuse. A refused event changes nothing.
#[derive(Clone, Copy, Debug, PartialEq, Eq, Error)]
pub enum StepFault {
    /// No node or line has the number, or the node is of another kind.
    #[error("no such node")]
    NoSuchNode,
    /// The PAD has no such terminal.
    #[error("no such terminal")]
    NoSuchTerminal,
    /// The channel is 0 or beyond those of the line.
    #[error("no such call")]
    NoSuchCall,
    /// The node refuses it, for this reason.
    #[error("refused: {0}")]
    Refused(NodeFault),
    /// No memory was left.
    #[error("out of memory")]
    OutOfMemory,
}

impl From<AllocError> for StepFault {
    ghost use Rattle.std.specs.Prelude.{◌≡◌};
    ghost use Rattle.net_events.specs.declared.event.StepFault.TheVariants.{OutOfMemory};

    ghost from_gives = { λ _ fault. fault ≡ OutOfMemory };

    fn from(_: AllocError) -> Self {
        StepFault::OutOfMemory
    }
}

impl From<NodeFault> for StepFault {
    ghost use Rattle.std.specs.Prelude.{◌≡◌};
    ghost use Rattle.net_events.specs.declared.event.StepFault.TheVariants.{Refused};

    ghost from_gives = { λ fault made. made ≡ Refused fault };

    fn from(fault: NodeFault) -> Self {
        StepFault::Refused(fault)
    }
}
