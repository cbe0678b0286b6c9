//! Routes: which line the calls to an address go to.
#![tactic(auto)]

mod fault;
mod line_no;
mod routes;
mod tree;

pub use fault::RouteFault;
pub use line_no::LineNo;
pub use routes::{MAX_ROUTES, Routes};
