//! The frames of the link layer, LAPB modulo 8 (ISO 7776 3 and 4): octets to frames and back.
#![tactic(auto)]

mod buffer;
mod fault;
mod fields;
mod frame;
mod reading;
mod writing;

pub use buffer::{FrameBuf, MAX_FRAME, MAX_INFORMATION};
pub use fault::FrameFault;
pub use frame::{Frame, FrameKind, Rejection};
pub use reading::read_frame;
pub use writing::write_frame;
