//! One process of a network in several: the nodes that are its own, the lines between them, and its ends of the lines to
//! other processes. With all nodes its own it is a network in one process.
#![tactic(auto)]

mod asking;
mod carrying;
mod happening;
mod law;
mod process;
mod remote;
mod starting;

pub use law::{act_law, apart_law, restart_law};
pub use process::{Process, Share};
