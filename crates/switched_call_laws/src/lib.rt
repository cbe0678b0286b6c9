//! The laws of calls through a switch: of its records, of a call that it joins, of the switch between two events, and of
//! the paths of calls over its lines.
#![tactic(auto)]

mod joined_call;
mod quiet_switch;
mod switch_path;
mod switch_record;

pub use joined_call::joined_call_law;
pub use quiet_switch::{switch_due_law, switch_quiet_law};
pub use switch_path::switch_path_law;
pub use switch_record::{
    join_record_law, kept_lines_law, leg_record_law, switch_record_law, tied_law,
};
