//! The end of a line: the link, T1 and the frames that go out, for every kind of node.
#![tactic(auto)]

mod end;

pub use end::{LineEnd, Received};
pub use lapb::MOST_FRAMES;
