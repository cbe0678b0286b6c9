//! Captures: the frames that a run has traced, as a file that Wireshark opens.
#![tactic(auto)]

mod blocks;
mod fault;
mod frame;
mod program;

pub use blocks::capture;
pub use fault::TraceFault;
pub use frame::{NotAFrame, TracedFrame, read_line};
pub use program::convert;
