//! The PAD of a line (X.3, X.28, X.29): terminals at their ports, and the calls that they have there.
#![tactic(auto)]

mod answer;
mod config;
mod law;
mod pad;

pub use answer::PadAnswer;
pub use config::PadConfig;
pub use law::block_law;
pub use pad::Pad;
pub use pad_ports::{ChannelNote, MOST_NOTES, MOST_TEXT, PadNote, PadTaken};
