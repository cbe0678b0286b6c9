//! The law of a link of which nothing is lost any more: what was offered arrives.
#![tactic(auto)]

mod law;

pub use law::link_arrival_law;
