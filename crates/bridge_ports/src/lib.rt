//! One TCP connection's side of one call: the octets that wait either way, and what the call and the connection are at.
#![tactic(auto)]

mod bridge;
mod call_side;
mod connection_side;
mod law;
mod phases;

pub use bridge::{Bridge, MOST_MESSAGE, Order, Turn};
pub use law::{bridge_law, bridge_port_law, bridge_port_rows};
pub use phases::{AtReset, BridgeTerms, CallPhase, Connection, FarEnd, FarSide, OwnSide, Phases};
