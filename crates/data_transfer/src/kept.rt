//! A packet that lies in a buffer of a pool.
ghost use Rattle.std.specs.Prelude.{◌≡◌, ◌≤◌, [], ◌∷◌, length};
ghost use Rattle.flow_window.specs.Pool.{IsIn, Balances};
ghost use Rattle.data_transfer.specs.Held.{datum_in};
ghost use Rattle.data_transfer.specs.TakenView.{shown_front};
ghost use Rattle.data_transfer.specs.Traffic.Taken.{TakenPacket};

use crate::taken::Front;
use crate::user_data::{AnyUserData, UserData};
use flow_window::pool::{BufNo, Pool};
use std::marker::Model;

/// The user data of a Data packet, at most 1,024 octets in a buffer, with the bits M, Q and D (X.25 4.3).
#[derive(Drop)]
pub struct KeptPacket {
    buffer: BufNo,
    more: bool,
    qualified: bool,
    delivery: bool,
}

impl Model for KeptPacket {
    ghost use Rattle.std.specs.Prelude.{◌≤◌, length};
    ghost use Rattle.data_transfer.specs.Held.{Kept};

    ghost Value = { Kept };

    ghost view = { λ p. record {
      buffer = p.buffer;
      more = p.more;
      qualified = p.qualified;
      delivery = p.delivery;
    } };

    ghost invariant = { λ p. length p.buffer.octets ≤ 1024 };
}

impl KeptPacket {
    /// The packet that lies in the buffer.
    pub fn new(buffer: BufNo, more: bool, qualified: bool, delivery: bool) -> Self
        requires { length buffer.octets ≤ 1024 }
        ensures { result ≡ record { buffer = buffer; more = more; qualified = qualified; delivery = delivery } }
    {
        KeptPacket {
            buffer,
            more,
            qualified,
            delivery,
        }
    }

    /// The buffer that has the octets.
    pub fn buffer(&self) -> &BufNo
        ensures value { result.now ≡ self.now.buffer }
        ensures fits { length result.now.octets ≤ 1024 }
    {
        &self.buffer
    }

    /// The M bit: the message goes on in the next packet (X.25 4.3.4).
    pub fn more(&self) -> bool
        ensures { result ≡ self.now.more }
    {
        self.more
    }

    /// The Q bit: the octets are for the PAD or its partner, and not for its user (X.25 4.3.6).
    pub fn qualified(&self) -> bool
        ensures { result ≡ self.now.qualified }
    {
        self.qualified
    }

    /// The D bit: the receiver's user confirms the packet (X.25 4.3.3).
    pub fn delivery(&self) -> bool
        ensures { result ≡ self.now.delivery }
    {
        self.delivery
    }

    /// What is told of the packet before it is taken.
    pub fn front(&self, pool: &Pool) -> Front
        requires { IsIn self.now.buffer pool.now }
        ensures { result ≡ shown_front (TakenPacket (datum_in self.now)) }
    {
        Front::Data {
            length: pool.octets(&self.buffer).len() as u16,
            more: self.more,
            qualified: self.qualified,
            delivery: self.delivery,
        }
    }

    /// Copies the packet out, and gives its buffer back.
    pub fn take_out(self, pool: &mut Pool) -> AnyUserData
        requires { IsIn self.buffer pool.old }
        ensures value { result ≡ datum_in self }
        ensures pool { Balances pool.old (self.buffer ∷ []) pool.new [] }
    {
        let KeptPacket {
            buffer,
            more,
            qualified,
            delivery,
        } = self;
        let data = UserData::new(pool.octets(&buffer), more, qualified, delivery);
        pool.free(buffer);
        data
    }

    /// Gives the buffer back.
    pub fn give_back(self, pool: &mut Pool)
        requires { IsIn self.buffer pool.old }
        ensures { Balances pool.old (self.buffer ∷ []) pool.new [] }
    {
        pool.free(self.buffer);
    }
}
