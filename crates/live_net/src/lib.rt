//! A network that keeps no records of the calls on it, whole or one process of several.
#![tactic(auto)]

mod live;
mod making;
mod part;

pub use live::LiveNet;
pub use part::LivePart;
