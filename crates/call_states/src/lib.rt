//! The states of a call on one logical channel, p1 to p7 (X.25 4.1, Annex C table C-3).
#![tactic(auto)]

mod state;
mod table;

pub use state::CallState;
pub use table::{CallEvent, CallNote, CallStep, UserAct};
