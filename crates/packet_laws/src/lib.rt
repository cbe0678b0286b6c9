//! The laws of the packet layer: of a line between two layers, of one layer whatever its partner does, and of the tables
//! of its states.
#![tactic(auto)]

mod law;
mod layer;
mod table;

pub use law::{counts_law, line_counts_law, line_law, owed_law};
pub use layer::layer_law;
pub use table::tables_law;
