//! The packets of one call over its connection.
ghost use Rattle.std.specs.Prelude.{◌≡◌, ◌+◌, ◌-◌, ◌≤◌, [], ◌++◌, length, take, drop, min, IfOk};
ghost use Rattle.std.specs.Bool.{OnTrue, OnFalse};
ghost use Rattle.octet_rings.specs.Places.{most_octets};
ghost use Rattle.xot_codec.specs.Xot.{
  new_stream,
  packet_form,
  takes_packet,
  first_packet,
  first_by_length,
  answer_of,
  packet_after,
  rest_after,
};

use crate::fault::XotFault;
use arrayvec::ArrayVec;
use octet_rings::{OctetRing, number_of};
use std::alloc::{AllocError, Global};

/// How many octets stand before a packet: the version, 0, and the length of the packet, two octets each.
const HEADER: usize = 4;

/// The fewest octets of a packet.
const MIN_XOT_PACKET: usize = 3;

/// The most octets of a packet.
pub const MAX_XOT_PACKET: usize = 1030;

/// The octets of a packet.
pub type XotPacket = ArrayVec<u8, MAX_XOT_PACKET>;

/// The two directions of one connection: octets that came and were not read yet, and octets that wait to be written.
#[derive(Drop)]
pub struct XotStream {
    input: OctetRing,
    output: OctetRing,
}

impl XotStream {
    /// No octets. `AllocError` comes for want of memory; no other call wants any.
    pub fn new(alloc: Global) -> Result<Self, AllocError>
        ensures { IfOk result (λ stream. stream ≡ new_stream) }
    {
        let input = OctetRing::new(alloc)?;
        let output = OctetRing::new(alloc)?;
        Ok(XotStream { input, output })
    }

    /// Forgets all octets, as for a new connection.
    pub fn clear(&mut self)
        ensures { self.new ≡ new_stream }
    {
        self.input.clear();
        self.output.clear();
    }

    /// Takes octets that came, from the first on, as many as there is room for. The answer is how many were taken.
    pub fn octets(&mut self, octets: &[u8]) -> usize
        ensures taken { result ≡ min (length octets.now) (most_octets - length self.old.input) }
        ensures after { self.new ≡ record self.old { input = self.old.input ++ take result octets.now } }
    {
        self.input.fill(octets)
    }

    /// Octets that wait to be written, from the first on: some if there are any, and not always all.
    pub fn waiting(&self) -> &[u8]
        ensures front { take (length result.now) self.now.output ≡ result.now }
        ensures some { length result.now ≡ 0 → self.now.output ≡ [] }
    {
        self.output.waiting()
    }

    /// Drops the first `count` octets that wait, which were written; all, if there are fewer.
    pub fn written(&mut self, count: usize)
        ensures { self.new ≡ record self.old { output = drop count self.old.output } }
    {
        self.output.drop_front(count);
    }

    /// Adds a packet of 3 to 1,030 octets, the whole of it, and says so, if there is room for it. Else nothing changes.
    pub fn add_packet(&mut self, packet: &[u8]) -> bool
        ensures added { OnTrue result (self.new ≡ record self.old { output = self.old.output ++ packet_form packet.now }) }
        ensures refused { OnFalse result (self.new ≡ self.old) }
        ensures taken { result ≡ takes_packet self.old packet.now }
    {
        if !self.takes_packet(packet) {
            return false;
        }
        self.output.extend(&[0, 0, (packet.len() / 256) as u8, (packet.len() % 256) as u8]);
        self.output.extend(packet);
        true
    }

    fn takes_packet(&self, packet: &[u8]) -> bool
        ensures { result ≡ takes_packet self.now packet.now }
    {
        packet.len() >= MIN_XOT_PACKET
            && packet.len() <= MAX_XOT_PACKET
            && self.output.room() >= HEADER + packet.len()
    }

    /// Reads the packet that comes next, and says so, if the whole of it came; it comes in place of what the buffer
    /// held. If a header is no header, the first fault in the order of [`XotFault`] is answered, and the connection is
    /// to be closed.
    pub fn next_packet(&mut self, packet: &mut XotPacket) -> Result<bool, XotFault>
        ensures answer { result ≡ answer_of (first_packet self.old.input) }
        ensures packet { packet.new.items ≡ packet_after packet.old.items (first_packet self.old.input) }
        ensures rest { self.new ≡ record self.old { input = rest_after self.old.input (first_packet self.old.input) } }
    {
        match number_of(self.input.get(0), self.input.get(1)) {
            None => Ok(false),
            Some(0) => self.next_by_length(packet),
            Some(_) => Err(XotFault::OtherVersion),
        }
    }

    fn next_by_length(&mut self, packet: &mut XotPacket) -> Result<bool, XotFault>
        ensures answer { result ≡ answer_of (first_by_length self.old.input) }
        ensures packet { packet.new.items ≡ packet_after packet.old.items (first_by_length self.old.input) }
        ensures rest { self.new ≡ record self.old { input = rest_after self.old.input (first_by_length self.old.input) } }
    {
        match number_of(self.input.get(2), self.input.get(3)) {
            None => Ok(false),
            Some(count) if count < MIN_XOT_PACKET => Err(XotFault::TooShort),
            Some(count) if count > MAX_XOT_PACKET => Err(XotFault::TooLong),
            Some(count) if self.input.len() < HEADER + count => Ok(false),
            Some(count) => {
                take_packet(&mut self.input, count, packet);
                Ok(true)
            }
        }
    }
}

fn take_packet(input: &mut OctetRing, count: usize, packet: &mut XotPacket)
    requires whole { 4 + count ≤ length input.old }
    requires fits { count ≤ MAX_XOT_PACKET }
    ensures packet { packet.new.items ≡ take count (drop 4 input.old) }
    ensures rest { input.new ≡ drop count (drop 4 input.old) }
{
    input.drop_front(HEADER);
    packet.clear();
    let (first, second) = input.front(count);
    let _ = packet.try_extend_from_slice(first);
    let _ = packet.try_extend_from_slice(second);
    input.drop_front(count);
}
