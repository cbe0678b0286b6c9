//! The messages between a PAD and a host: qualified Data packets (X.29).
#![tactic(auto)]

mod fault;
mod message;
mod reading;
mod writing;

pub use fault::MessageFault;
pub use message::{Message, MessageBuf, PAIR_LIMIT, Pairs};
pub use reading::read_message;
pub use writing::write_message;
