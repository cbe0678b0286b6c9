//! All lines of a switch together: calls of two lines are joined, and what is taken on one leg is relayed to the other.
#![tactic(auto)]

mod config;
mod lines;

pub use config::{SwitchConfig, check_lines};
pub use joined_line::SwitchLineConfig;
pub use lines::Lines;
pub use packet_end::MOST_FRAMES;
pub use switch_joins::{MOST_LINES, NewJoin, SwitchChannel};
