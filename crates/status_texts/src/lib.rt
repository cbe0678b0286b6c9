//! What a service tells of itself: its nodes and lines, its calls, its ports and what it counts.
#![tactic(auto)]

mod status;
mod text;
mod way;
mod words;

pub use status::{
    CallLine, CallOctets, Counts, LineState, NetLine, NodeKind, NodeLine, NodeState, PortLine,
    Route, Status,
};
pub use text::status_text;
pub use way::way_of;
pub use words::{kind_word, line_state_word, node_state_word};
