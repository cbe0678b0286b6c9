//! Network files and scripts, read from their texts.
#![tactic(auto)]

mod commands;
mod entries;
mod fault;
mod keywords;
mod names;
mod network;
mod script;
mod settings;
mod words;

pub use commands::{Commands, CommandsIter, Keys, ScriptCommand};
pub use fault::ProgFault;
pub use network::{FIRST, read_net};
pub use script::{Script, read_script};
