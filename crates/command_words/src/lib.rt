//! The command words of the program.
#![tactic(auto)]

mod invocation;
mod reading;

pub use invocation::{Invocation, RunMode, WordsFault};
pub use reading::read_words;
