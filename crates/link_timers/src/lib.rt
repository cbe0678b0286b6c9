//! The roles that the two ends of a line have, and the timers of an end.
#![tactic(auto)]

mod channel_timers;
mod countdown;
mod role;
mod timers;

pub use channel_timers::ChannelTimers;
pub use countdown::Countdown;
pub use role::Role;
pub use timers::{MOST_TIMERS, TimerId, Timers};
