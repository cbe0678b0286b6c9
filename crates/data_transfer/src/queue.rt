//! Packets in order, each in a buffer of a pool.
ghost use Rattle.std.specs.Prelude.{◌≡◌, ◌≤◌, ◌<◌, ◌==◌, [], ◌∷◌, ◌++◌, length, drop, slice_get, Some, None};
ghost use Rattle.std.specs.Prelude.{IfOk, MatchOption};
ghost use Rattle.flow_window.specs.Pool.{Holds, Balances};
ghost use Rattle.data_transfer.specs.Held.{datum_in};

use crate::kept::KeptPacket;
use circular_buffer::HeapCircularBuffer;
use flow_window::pool::Pool;
use std::alloc::{AllocError, Global};
use std::marker::Model;

/// Packets in order, each in a buffer of a pool.
#[derive(Drop)]
pub(crate) struct PacketQueue {
    packets: HeapCircularBuffer<KeptPacket>,
}

impl Model for PacketQueue {
    ghost use Rattle.data_transfer.specs.Held.{Queue, contents, buffers};

    ghost Value = { Queue };

    ghost view = { λ q. record { places = q.packets.capacity; packets = contents q.packets.items; held = buffers q.packets.items } };
}

impl PacketQueue {
    /// A queue with room for so many packets.
    pub(crate) fn new(alloc: Global, places: usize) -> Result<Self, AllocError>
        requires { places ≤ 32 }
        ensures { IfOk result (λ q. q ≡ record { places = places; packets = []; held = [] }) }
    {
        let packets = HeapCircularBuffer::with_capacity(alloc, places)?;
        Ok(PacketQueue { packets })
    }

    pub(crate) fn len(&self) -> usize
        ensures value { result ≡ length self.now.packets }
        ensures held { result ≡ length self.now.held }
        ensures most { result ≤ self.now.places }
    {
        self.packets.len()
    }

    pub(crate) fn is_empty(&self) -> bool
        ensures { result ≡ (length self.now.packets == 0) }
    {
        self.packets.is_empty()
    }

    /// The first packet, if there is one.
    pub(crate) fn front(&self) -> Option<&KeptPacket>
        ensures packet { MatchOption result (slice_get self.now.packets 0 ≡ None)
            (λ p. slice_get self.now.packets 0 ≡ Some (datum_in p.now)) }
        ensures buffer { MatchOption result (slice_get self.now.held 0 ≡ None)
            (λ p. slice_get self.now.held 0 ≡ Some p.now.buffer) }
    {
        self.packets.front()
    }

    /// Appends a packet.
    pub(crate) fn push(&mut self, packet: KeptPacket)
        requires { length self.old.packets < self.old.places }
        ensures { self.new ≡ record self.old {
          packets = self.old.packets ++ datum_in packet ∷ [];
          held = self.old.held ++ packet.buffer ∷ [];
        } }
    {
        let _ = self.packets.try_push_back(packet);
    }

    /// Takes the first packet, if there is one.
    pub(crate) fn pop(&mut self) -> Option<KeptPacket>
        ensures packet { MatchOption result (slice_get self.old.packets 0 ≡ None)
            (λ p. slice_get self.old.packets 0 ≡ Some (datum_in p)) }
        ensures buffer { MatchOption result (slice_get self.old.held 0 ≡ None)
            (λ p. slice_get self.old.held 0 ≡ Some p.buffer) }
        ensures rest { self.new ≡ record self.old { packets = drop 1 self.old.packets; held = drop 1 self.old.held } }
    {
        self.packets.pop_front()
    }

    /// Gives all packets up, and their buffers back.
    pub(crate) fn clear(&mut self, pool: &mut Pool)
        requires { Holds pool.old self.old.held }
        ensures queue { self.new ≡ record self.old { packets = []; held = [] } }
        ensures pool { Balances pool.old self.old.held pool.new [] }
    {
        while let Some(packet) = self.pop() {
            packet.give_back(pool);
        }
    }

    /// Gives the first packet up, if there is one, and its buffer back.
    #[tactic(auto, using(flow_window::proofs::Weights::held_in))]
    pub(crate) fn drop_front(&mut self, pool: &mut Pool)
        requires { Holds pool.old self.old.held }
        ensures queue { self.new ≡ record self.old { packets = drop 1 self.old.packets; held = drop 1 self.old.held } }
        ensures pool { Balances pool.old self.old.held pool.new self.new.held }
    {
        if let Some(packet) = self.pop() {
            packet.give_back(pool);
        }
    }
}
