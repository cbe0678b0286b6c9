//! One logical channel of the packet layer: the state of its call, the control packets that it owes to the link, what its
//! user asks, and what a packet from the link makes of it (X.25 sections 4 and 5). The crate data_transfer has its data.
#![tactic(auto)]

mod channel;
mod control;
mod fault;
mod note;
mod notes;
mod owed;
mod state;

pub use channel::{Channel, Request};
pub use fault::{ChannelFault, RefusedBuf};
pub use note::{LayerNote, Reason};
pub use notes::{NoteQueue, Notes};
pub use owed::Owed;
pub use state::{ChannelState, End, MOST_CHANNELS, error_cause};
