//! The lines that are printed for what happened in a network: of what an event made, of its refusal, of what a host
//! noted, and of a frame that was traced.
#![tactic(auto)]

mod answer;

pub use answer::{add_answer, check_line, prints_nothing, refusal_text};
