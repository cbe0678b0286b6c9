//! The editing of what a terminal sends to a PAD, and the display of what it gets (X.3).
//!
//! An `Editor` holds the text that was typed since the last block. A key edits it, is added to it, or ends a block,
//! which the PAD then sends in one Data packet. A `Display` lays octets out for the terminal: it folds lines and
//! pads carriage returns and line feeds.
#![tactic(auto)]

mod block;
mod display;
mod echo;
mod editor;

pub use block::{BLOCK_LIMIT, Block};
pub use display::{Display, OCTET_LIMIT};
pub use echo::Echo;
pub use editor::{Editor, KeyOut};
