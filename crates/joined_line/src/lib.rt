//! One line of a switch: its end, the address of its calls, and the joins of its channels; and how it is to be made.
#![tactic(auto)]

mod causes;
mod config;
mod line;

pub use causes::{far_clear_cause, far_diagnostic, far_reset_cause};
pub use config::SwitchLineConfig;
pub use line::SwitchLine;
