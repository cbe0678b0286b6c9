//! The laws of a network: of one line with the nodes at its ends, of many nodes and lines with one register, and of a
//! network with switches.
#![tactic(auto)]

mod any_network;
mod course;
mod line;

pub use any_network::any_network_law;
pub use course::pad_course_law;
pub use line::{line_course_law, one_line_law};
