//! A host: a packet terminal at one end of a line, which places and takes calls and says and takes octets on them
//! (X.25 3 to 5).
#![tactic(auto)]

mod config;
mod host;
mod request;

pub use config::HostConfig;
pub use host::Host;
pub use request::HostRequest;
