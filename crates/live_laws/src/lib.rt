//! Laws of a network whose register is forgotten after each event.
#![tactic(auto)]

mod laws;

pub use laws::{any_register_law, blind_law, forgetting_law, live_run_law};
