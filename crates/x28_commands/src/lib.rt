//! The commands and the service signals between a terminal and its PAD (X.28).
#![tactic(auto)]

mod command;
mod fault;
mod keyword;
mod numbers;
mod reading;
mod selection;
mod signal;
mod words;
mod writing;

pub use command::{Command, ENTRY_LIMIT, Selection, USER_DATA_LIMIT};
pub use fault::CommandFault;
pub use reading::{LINE_LIMIT, read_command, read_pairs};
pub use selection::hides_echo;
pub use signal::{ParameterValue, Signal};
pub use writing::{SIGNAL_LIMIT, write_signal};
