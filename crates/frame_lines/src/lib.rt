//! Lines that carry frames between two nodes: what each of them promises, a line in memory, and a line over a pair of
//! sockets on this machine.
#![tactic(auto)]

mod datagrams;
mod fault;
mod flying;
mod line;
mod memory;
mod udp;

pub use datagrams::Datagrams;
pub use fault::SocketFault;
pub use line::{Direction, Line};
pub use memory::{FRAMES_IN_FLIGHT, MemLine, mem_lines};
pub use udp::UdpLine;
