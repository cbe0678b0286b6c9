//! The nodes of a network on their lines: what each event does to them, exactly.
#![tactic(auto)]

mod nodes;

pub use nodes::Nodes;
