//! What is kept of the Data packets that passed on a call.
ghost use Rattle.std.specs.Prelude.{◌≡◌, ◌≤◌, ◌==◌, ◌+◌, ◌-◌, ◌*◌, [], ◌∷◌, ◌++◌, OnOk, length, take, drop};
ghost use Rattle.epochs.specs.Packets.{data_packet_of, places_of};

use crate::spare::drop_spare;
use std::alloc::{AllocError, Global};
use std::marker::Model;

/// How many octets of user data a place has.
const PLACE: usize = 128;

/// How many octets a packet takes as it is written, besides its own.
const HEAD: usize = 2;

/// A Data packet that passed on a call: at most 1,024 octets, and the bits M, Q and D (X.25 4.3).
#[derive(Clone, Copy, PartialEq, Eq)]
pub struct PassedPacket<'a> {
    pub octets: &'a [u8],
    pub more: bool,
    pub qualified: bool,
    pub delivery: bool,
}

impl PassedPacket<'_> {
    /// How many places it takes: one for each 128 octets that it begins, and at least one.
    pub fn places(&self) -> usize
        ensures { result ≡ places_of self.now.octets.now }
    {
        self.octets.len().saturating_sub(1) / PLACE + 1
    }
}

/// Data packets in order, one written after the other: of each its length and its bits M, Q and D in two octets, and
/// then its octets.
#[derive(Drop)]
pub(crate) struct Packets {
    written: Vec<u8>,
    count: usize,
}

impl Model for Packets {
    ghost use Rattle.epochs.specs.Packets.{PacketsState};

    ghost Value = { PacketsState };

    ghost use Rattle.std.specs.Prelude.{◌-◌, vec_len, vec_capacity};
    ghost use Rattle.epochs.specs.Packets.{read_packets, AreWritten};

    ghost view = { λ p. record {
      packets = read_packets p.count p.written.items;
      spare = vec_capacity p.written - vec_len p.written;
    } };

    ghost invariant = { λ p. AreWritten p.count p.written.items };
}

impl Packets {
    /// No packets, and no room.
    pub(crate) fn new(alloc: Global) -> Self
        ensures packets { result.packets ≡ [] }
        ensures spare { result.spare ≡ 0 }
    {
        Packets {
            written: Vec::new(alloc),
            count: 0,
        }
    }

    /// How many packets there are.
    pub(crate) fn len(&self) -> usize
        ensures { result ≡ length self.now.packets }
    {
        self.count
    }

    /// The packets, one after the other.
    fn iter(&self) -> PacketsIter<'_>
        ensures { result ≡ self.now.packets }
    {
        PacketsIter {
            written: self.written.as_slice(),
            count: self.count,
        }
    }

    /// The packets from one place up to another.
    pub(crate) fn between(&self, from: usize, to: usize) -> PacketsIter<'_>
        requires order { from ≤ to }
        requires end { to ≤ length self.now.packets }
        ensures { result ≡ take (to - from) (drop from self.now.packets) }
    {
        let mut packets = self.iter();
        for _ in 0..from {
            let _ = packets.next();
        }
        packets.count = to - from;
        packets
    }

    /// Makes room for packets that take so many places more.
    pub(crate) fn reserve(&mut self, count: usize) -> Result<(), AllocError>
        ensures same { self.new.packets ≡ self.old.packets }
        ensures ok { OnOk result (130 * count ≤ self.new.spare) }
    {
        let Some(octets) = count.checked_mul(PLACE + HEAD) else {
            return Err(AllocError);
        };
        self.written.reserve(octets)
    }

    /// Adds a packet at the end.
    pub(crate) fn push(&mut self, packet: PassedPacket<'_>)
        requires fits { length packet.octets.now ≤ 1024 }
        requires spare { length packet.octets.now + 2 ≤ self.old.spare }
        ensures packets { self.new.packets ≡ self.old.packets ++ data_packet_of packet.entry ∷ [] }
        ensures spare { self.old.spare ≤ self.new.spare + (length packet.entry.octets.now + 2) }
    {
        let length = packet.octets.len();
        let bits = 4 * u8::from(packet.more)
            + 2 * u8::from(packet.qualified)
            + u8::from(packet.delivery);
        let head = [8 * (length / 256) as u8 + bits, (length % 256) as u8];
        let _ = self.written.extend_from_slice(&head);
        let _ = self.written.extend_from_slice(packet.octets);
        self.count += 1;
    }

    /// Gives back what room there is beyond what the packets take, as far as there is memory for it.
    pub(crate) fn drop_spare(&mut self, alloc: Global) -> Result<(), AllocError>
        ensures same { self.new.packets ≡ self.old.packets }
        ensures fits { OnOk result (self.new.spare ≡ 0) }
    {
        drop_spare(alloc, &mut self.written)
    }
}

/// Goes over packets, after which others may be written.
#[derive(Drop)]
pub struct PacketsIter<'a> {
    written: &'a [u8],
    count: usize,
}

impl<'a> Model for PacketsIter<'a> {
    ghost use Rattle.std.specs.Prelude.{List};
    ghost use Rattle.epochs.specs.Item.{DataPacket};

    ghost Value = { List DataPacket };

    ghost use Rattle.epochs.specs.Packets.{read_packets, AreThere};

    ghost view = { λ i. read_packets i.count i.written.now };

    ghost invariant = { λ i. AreThere i.count i.written.now };
}

impl PacketsIter<'_> {
    /// How many packets are left.
    pub fn len(&self) -> usize
        ensures { result ≡ length self.now }
    {
        self.count
    }

    /// Whether none is left.
    pub fn is_empty(&self) -> bool
        ensures { result ≡ (length self.now == 0) }
    {
        self.len() == 0
    }
}

impl<'a> Iterator for PacketsIter<'a> {
    type Item = PassedPacket<'a>;

    ghost use Rattle.std.specs.Iterator.{YieldsFirstBy, item_count};
    ghost use Rattle.epochs.specs.Packets.{data_packet_of};

    ghost next_gives = { YieldsFirstBy data_packet_of (λ packets. packets) };

    ghost remaining = { item_count (λ packets. packets) };

    fn next(&mut self) -> Option<PassedPacket<'a>> {
        if self.count == 0 {
            return None;
        }
        let [first, second, rest @ ..] = self.written else {
            return None;
        };
        let length = 256 * usize::from(first / 8) + usize::from(*second);
        let (octets, others) = rest.split_at(length);
        self.written = others;
        self.count -= 1;
        Some(PassedPacket {
            octets,
            more: first / 4 % 2 != 0,
            qualified: first / 2 % 2 != 0,
            delivery: first % 2 != 0,
        })
    }
}
