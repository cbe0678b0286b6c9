//! The lines of a process whose other ends are in other processes: what is known of each beside its connection. A line
//! is closed until the nodes at both its ends have started, and a node starts when all its lines are ready.
#![tactic(auto)]

mod law;
mod line;
mod order;

pub use law::restart_law;
pub use line::{LineEnd, LineState, Reading, RemoteLine, may_start};
pub use order::{Ending, LineOrder};
