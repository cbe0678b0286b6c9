//! The packets of the packet layer in octets, and back (X.25 5).
#![tactic(auto)]

mod address;
mod call_block;
mod call_buf;
pub mod clear_cause;
pub mod diagnostic;
mod fault;
mod packet;
mod packet_type;
mod reading;
pub mod reset_cause;
pub mod restart_cause;
mod writing;

pub use address::{Address, AddressFault};
pub use call_buf::CallBuf;
pub use fault::PacketFault;
pub use packet::{
    CallData, Content, DataPacket, MAX_CALL_USER_DATA, MAX_FACILITIES, MAX_INTERRUPT, MAX_PACKET,
    MAX_USER_DATA, Numbering, Packet, PacketBuf,
};
pub use packet_type::PacketType;
pub use reading::{logical_channel, read_packet};
pub use writing::write_packet;
