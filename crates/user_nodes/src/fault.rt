//! Why a node refuses what its user asks.

use packet_layer::{CallFault, ChannelFault};
use thiserror::Error;

/// Why a node refuses what its user asks. What is refused changes nothing.
#[derive(Clone, Copy, Debug, PartialEq, Eq, Error)]
pub enum NodeFault {
    /// No call was placed.
    #[error("{0}")]
    Call(CallFault),
    /// A request on a channel was refused.
    #[error("{0}")]
    Channel(ChannelFault),
}

impl From<CallFault> for NodeFault {
    ghost use Rattle.std.specs.Prelude.{◌≡◌};
    ghost use Rattle.user_nodes.specs.declared.fault.NodeFault.TheVariants.{Call};

    ghost from_gives = { λ fault made. made ≡ Call fault };

    fn from(fault: CallFault) -> Self {
        NodeFault::Call(fault)
    }
}

impl From<ChannelFault> for NodeFault {
    ghost use Rattle.std.specs.Prelude.{◌≡◌};
    ghost use Rattle.user_nodes.specs.declared.fault.NodeFault.TheVariants.{Channel};

    ghost from_gives = { λ fault made. made ≡ Channel fault };

    fn from(fault: ChannelFault) -> Self {
        NodeFault::Channel(fault)
    }
}
