//! A network of nodes on lines, what it promises of the calls on it, and runs of events.
#![tactic(auto)]

mod busy_lines;
mod making;
mod net;
mod running;

pub use call_records::{EditStep, Hop, Pair, Record};
pub use epochs::{Epoch, Interrupt, Passed, PassedPacket, matches};
pub use frame_lines::{Direction, FRAMES_IN_FLIGHT, Line, MemLine, mem_lines};
pub use net::Net;
pub use net_config::{
    Config, LineConfig, MakeFault, NodeConfig, NodeKind, RouteConfig, Setting, TerminalsConfig,
};
pub use net_events::{Answer, Event, Outcome, Put, StepFault};
pub use packet_host::HostRequest;
pub use packet_layer::Taken;
pub use running::{RunFault, run};
pub use user_nodes::{CallUser, CallUserData, NodeFault, NoteKind, TerminalEvent, UserNote};
pub use x25_pad::PadAnswer;
