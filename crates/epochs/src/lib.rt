//! What the two ends of a call send and take between resets: items, epochs, and when the one matches the other. And how
//! what one end sent or took is kept, packet by packet, and is found to match.
#![tactic(auto)]

mod epochs_iter;
mod interrupt;
mod items;
mod laws;
mod matching;
mod packets;
mod passed;
mod spare;

pub use interrupt::Interrupt;
pub use laws::{confirmation_laws, decision_law, match_laws};
pub use matching::matches;
pub use packets::{PacketsIter, PassedPacket};
pub use passed::{Epoch, Passed};
pub use spare::drop_spare;
