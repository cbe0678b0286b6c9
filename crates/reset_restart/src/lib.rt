//! The states of reset on a logical channel, d1 to d3, and of restart on a line, r1 to r3 (X.25 4.4.3 and 3, Annex C).
#![tactic(auto)]

mod reset;
mod restart;

pub use reset::{ResetEvent, ResetNote, ResetState, ResetStep};
pub use restart::{RestartNote, RestartState, RestartStep};
