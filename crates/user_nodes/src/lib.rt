//! A node at an end of a line, a PAD or a host, what the network writes of it into the line's book, and what its users
//! are told.
#![tactic(auto)]

mod attachment;
mod fault;
mod node;
mod note;
mod pad_notes;
mod terminal;
mod writing;

pub use attachment::Attachment;
pub use fault::NodeFault;
pub use node::Node;
pub use note::{CallUser, CallUserData, MOST_NOTES, NoteKind, UserNote};
pub use pad_notes::{write_pad_note, write_pad_notes, write_taken};
pub use terminal::TerminalEvent;
pub use writing::{write_notes, write_request};
