//! Why a network's text is no network, or why a network is not served, in words.
#![tactic(auto)]

mod checking;
mod reasons;
mod rules;

pub use checking::{Checked, check_network, read_network, text_of};
pub use reasons::tell_no_toml;
pub use rules::ask_for_node;
