//! One end of a line with its packet layer, for every kind of node: the link, the logical channels, the timers of
//! both, and what is told of the calls. A node with one line has an end with a pool of its own, and one with many lines
//! has ends that share a pool.
#![tactic(auto)]

mod end;
mod fault;
mod notes;
mod params;
mod pooled;
mod timing;
mod touched;

pub use end::PacketEnd;
pub use fault::EndFault;
pub use frame_codec::FrameBuf;
pub use line_end::MOST_FRAMES;
pub use notes::MOST_NOTES;
pub use params::EndParams;
pub use pooled::PooledEnd;
