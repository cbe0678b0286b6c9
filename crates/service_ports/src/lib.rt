//! One client's side of a terminal: the octets that come from it and go to it, as telnet has them (RFC 854).
#![tactic(auto)]

mod command;
mod input;
mod key_counts;
mod key_queue;
mod law;
mod mode;
mod options;
mod output;
mod port;

pub use command::TelnetCommand;
pub use input::{Heard, Key, TelnetReader};
pub use law::telnet_law;
pub use mode::PortMode;
pub use output::TelnetOutput;
pub use port::Port;
