//! The book of a line: the records of the calls' two ends, and which two of them make a call. The register of many
//! lines is here too, and whether what the ends of calls took matches what the other ends sent.
#![tactic(auto)]

mod book;
mod ends;
mod pairs;
mod record;
mod register;

pub use book::{Book, calling_of};
pub use pairs::all_match;
pub use record::{EditStep, Hop, Pair, Record};
pub use register::{ChannelEnd, Register};
