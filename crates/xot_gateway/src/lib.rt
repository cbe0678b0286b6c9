//! A gateway for equipment of others (X.25 over TCP, RFC 1613): the calls of one line of the network, each over one
//! connection. The packet layer is end to end: the gateway changes the logical channel, the facilities and long Clears,
//! and nothing else of a packet that it passes on.
#![tactic(auto)]

mod calls;
mod connection;
mod law;
mod line;
mod packets;
mod states;

pub use calls::{Order, Work, XotCalls};
pub use law::xot_calls_law;
pub use line::XotLine;
