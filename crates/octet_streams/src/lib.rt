//! Octets as a whole: all that a reader has, up to a limit, and all that is to be written, or a front of it.
#![tactic(auto)]

mod reading;
mod writing;

pub use reading::{ReadFault, read_all};
pub use writing::{Refused, write_all};
