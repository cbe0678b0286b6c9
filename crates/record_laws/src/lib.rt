//! The laws of the records of calls: of the book of a line, of the register of a network, and of its calls over paths of
//! any length.
#![tactic(auto)]

mod book;
mod call_path;
mod register;

pub use book::{accepted_run, book_law, delivery_law};
pub use call_path::{end_law, forward_law, lines_law, own_address_law, path_law, tree_law};
pub use register::register_law;
