//! The end of a line that a gateway for equipment of others has: the link, and each call of the line over a connection.
#![tactic(auto)]

mod asking;
mod end;
mod fault;
mod law;
mod params;

pub use end::GatewayEnd;
pub use fault::GatewayFault;
pub use law::gateway_law;
pub use params::GatewayParams;
pub use xot_gateway::{Order, XotLine};
