//! Scripts played on networks, with what is printed, and the program that does so.
#![tactic(auto)]

mod output;
mod player;
mod program;

pub use line_sim::{
    Config, Direction, Epoch, Event, Line, LineConfig, MakeFault, MemLine, Net, NodeConfig,
    NodeKind, Pair, Passed, Record, RunFault, StepFault, TerminalEvent, run,
};
pub use player::play;
pub use program::{perform, refuse_words};
