//! A port of a PAD (X.3, X.28, X.29): a terminal and its call on the PAD's line; what a port asks of the line, shows at
//! its terminal and notes.
#![tactic(auto)]

mod call;
mod line;
mod note;
mod port;
mod taken;

pub use call::PortNote;
pub use line::PadLine;
pub use note::{ChannelNote, EARLY_NOTES, MOST_NOTES, PadNote, PadNotes, TOLD_NOTES};
pub use port::{MOST_TEXT, Port};
pub use taken::PadTaken;
