//! The parameters of a PAD (X.3).
//!
//! A terminal's PAD is governed by parameters 1 to 18. `Params` has a value for each, always one that the parameter
//! may have. They begin as one of two profiles, and change by `set`.
#![tactic(auto)]

mod editing;
mod fault;
mod params;
mod profile;
mod settings;

pub use editing::EditingFunction;
pub use fault::ParamFault;
pub use params::Params;
pub use profile::Profile;
pub use settings::{BreakAction, LineFeedInsertion};
