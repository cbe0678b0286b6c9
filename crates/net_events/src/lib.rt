//! What may happen in a network of nodes and lines, and what answers it.
#![tactic(auto)]

mod answer;
mod event;
mod node_event;
mod own_lines;
mod puts;
mod switch_event;

pub use answer::{Answer, Outcome, Put};
pub use event::{Event, StepFault};
pub use node_event::{HostEvent, LineEvent, UserEvent};
pub use own_lines::network_line;
pub use puts::Puts;
pub use switch_event::SwitchEvent;
