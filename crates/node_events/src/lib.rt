//! What an event does at one node of a network: the node is called, the network writes what was asked and what the
//! node noted at the node's line, and the node's frames go onto the line. A switch is called, its frames go onto its
//! lines, and the call that it joined is handed on in the register.
#![tactic(auto)]

mod hosts;
mod net_line;
mod putting;
mod roles;
mod room;
mod send;
mod serving;
mod switches;
mod terminals;

pub use net_line::NetLine;
pub use putting::put_lines;
pub use room::{MOST_PUTS, make_bare, make_frame_room, make_room};
pub use send::put_frames;
pub use serving::{MOST_WRITES, direction_of, serve_line, serve_user};
pub use switches::serve_switch;
