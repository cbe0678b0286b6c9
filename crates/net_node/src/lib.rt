//! The nodes of a network at their places, each with users at a line or a switch at its lines, and how those of a plan
//! are made.
#![tactic(auto)]

mod making;
mod node;

pub use making::{new_nodes, new_register};
pub use node::{Equipment, NetNode, first_node_due};
