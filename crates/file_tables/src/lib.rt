//! What the tables of a TOML file may have, what is wrong first in one of them, and how that is told.
#![tactic(auto)]

mod faults;
mod forms;
mod telling;

pub use faults::{TableFault, first_fault};
pub use forms::{Form, Key, TextForm, value_at};
pub use telling::{did_you_mean, tell_fault, tell_value};
