//! A switch of an X.25 network: it joins calls of its lines and relays between their two legs.
#![tactic(auto)]

mod switch;

pub use switch::Switch;
pub use switch_lines::{MOST_LINES, NewJoin, SwitchChannel, SwitchConfig, SwitchLineConfig};
