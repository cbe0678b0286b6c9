//! What a user of a call takes.
ghost use Rattle.std.specs.Prelude.{◌≡◌, ◌≤◌, [], Some, length, vec_capacity};
ghost use Rattle.flow_window.specs.Pool.{Holds, Balances};
ghost use Rattle.data_transfer.specs.TakenView.{taken_of, taken_in, buffers_in, shown_front, taken_octets};
ghost use Rattle.data_transfer.specs.TakenView.{HasFewOctets};

use crate::kept::KeptPacket;
use crate::user_data::{AnyUserData, InterruptData};
use flow_window::pool::Pool;
use packet_codec::MAX_USER_DATA;

/// What comes next on a call: an interrupt, or the user data of a Data packet.
#[derive(Drop)]
pub enum Taken {
    Interrupt(InterruptData),
    Data(AnyUserData),
}

/// What comes next on a call: an interrupt, or a Data packet in its buffer.
#[derive(Drop)]
pub enum TakenBuf {
    Interrupt(InterruptData),
    Data(KeptPacket),
}

impl TakenBuf {
    /// Copies a packet out, and gives its buffer back.
    pub fn take_out(self, pool: &mut Pool) -> Taken
        requires { Holds pool.old (buffers_in self) }
        ensures value { taken_of result ≡ taken_in self }
        ensures pool { Balances pool.old (buffers_in self) pool.new [] }
    {
        match self {
            TakenBuf::Interrupt(interrupt) => Taken::Interrupt(interrupt),
            TakenBuf::Data(packet) => Taken::Data(packet.take_out(pool)),
        }
    }

    /// Copies the octets into a text, which is empty and has room for them, gives a packet's buffer back, and tells what
    /// they are.
    pub fn take_into(self, pool: &mut Pool, text: &mut Vec<u8>) -> Front
        requires held { Holds pool.old (buffers_in self) }
        requires empty { text.old.items ≡ [] }
        requires places { MAX_USER_DATA ≤ vec_capacity text.old }
        ensures front { result ≡ shown_front (taken_in self) }
        ensures text { text.new.items ≡ taken_octets (Some (taken_in self)) }
        ensures few { HasFewOctets result text.new.items }
        ensures kept { vec_capacity text.old ≤ vec_capacity text.new }
        ensures pool { Balances pool.old (buffers_in self) pool.new [] }
    {
        match self {
            TakenBuf::Interrupt(interrupt) => {
                copy_into(text, interrupt.octets());
                Front::Interrupt
            }
            TakenBuf::Data(packet) => {
                copy_into(text, pool.octets(packet.buffer()));
                let front = packet.front(pool);
                packet.give_back(pool);
                front
            }
        }
    }
}

/// Copies octets into an empty text that has room for them.
fn copy_into(text: &mut Vec<u8>, octets: &[u8])
    requires empty { text.old.items ≡ [] }
    requires places { length octets.now ≤ vec_capacity text.old }
    ensures items { text.new.items ≡ octets.now }
    ensures kept { vec_capacity text.old ≤ vec_capacity text.new }
{
    let Ok(()) = text.extend_from_slice(octets) else {
        unreachable!()
    };
}

/// What `take` would give: an interrupt, or a Data packet of so many octets with its bits M, Q and D.
#[derive(Clone, Copy, PartialEq, Eq)]
pub enum Front {
    Interrupt,
    Data {
        length: u16,
        more: bool,
        qualified: bool,
        delivery: bool,
    },
}
