//! Data transfer on a logical channel from one reset to the next: packets in buffers of a pool, the queues of a call,
//! P(S) and P(R), the window, busy states and interrupts (X.25 4.3, 4.4).
#![tactic(auto)]

mod cutting;
mod flow;
mod heard;
mod kept;
mod queue;
mod taken;
mod traffic;
mod user_data;

pub use cutting::full_packets;
pub use flow::{DEFAULT_SIZE, Flow};
pub use heard::Heard;
pub use kept::KeptPacket;
pub use taken::{Front, Taken, TakenBuf};
pub use traffic::{SEND_QUEUE, Traffic};
pub use user_data::{AnyUserData, InterruptData, UserData};
