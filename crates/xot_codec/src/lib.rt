//! X.25 over TCP (RFC 1613): packets over a stream of octets, each after a header of four.
#![tactic(auto)]

mod facilities;
mod fault;
mod law;
mod stream;
#[cfg(test)]
mod tests;

pub use facilities::{FacilityFault, LineFlow, put_facilities, take_facilities};
pub use fault::XotFault;
pub use law::xot_law;
pub use stream::{MAX_XOT_PACKET, XotPacket, XotStream};
