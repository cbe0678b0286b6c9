//! TCP sockets that nobody waits for: doors at which connections are accepted, and the connections of ports.
#![tactic(auto)]

mod connection;
mod door;
mod outcome;
mod unread;

pub use connection::Connection;
pub use door::Door;
pub use outcome::{Heard, Made, Written};
