//! The packet layer of one line: all its logical channels, their turns at the link, restart and timers (X.25 sections 3
//! to 5).
#![tactic(auto)]

mod fault;
mod layer;
mod layer_timers;
mod params;
mod restart;

pub use data_transfer::{
    AnyUserData, DEFAULT_SIZE, Flow, Front, InterruptData, KeptPacket, SEND_QUEUE, Taken, TakenBuf,
    UserData, full_packets,
};
pub use fault::{CallFault, LayerFault};
pub use layer::Layer;
pub use layer_timers::{LayerTimers, Timer};
pub use packet_channel::{
    ChannelFault, LayerNote, MOST_CHANNELS, NoteQueue, Reason, RefusedBuf, Request,
};
pub use params::LayerParams;
