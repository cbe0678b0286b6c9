//! Joins of the channels of a switch's lines: what a channel is joined to, what is kept of each direction, what becomes
//! of a packet if the packet sizes differ, and sets of channels.
#![tactic(auto)]

mod channel_set;
mod channels;
mod direction;
mod gathering;
mod join;
mod joins;
mod plan;
mod sizes;
mod turned;

pub use channel_set::{ChannelSet, END_OF_CHANNELS};
pub use channels::{MOST_LINES, NewJoin, SwitchChannel};
pub use join::Joined;
pub use joins::Joins;
pub use plan::Outline;
pub use sizes::Sizes;
pub use turned::Turned;
