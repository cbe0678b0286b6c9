//! Captures of frames as they pass: the octets of files that Wireshark opens, in whole blocks, without memory of their own
//! beyond what they begin with.
#![tactic(auto)]

mod blocks;
mod capture;

pub use capture::Capture;
