//! The packets that a link holds until they are acknowledged.
ghost use Rattle.std.specs.Prelude.{◌≡◌, ◌≤◌, ◌<◌, ◌+◌, [], ◌∷◌, ◌++◌, length, drop, slice_get, slice_set, Some, None};
ghost use Rattle.flow_window.specs.Pool.{Holds, Balances};
ghost use Rattle.lapb.specs.Machine.{is_empty};

use flow_window::pool::{BufNo, Pool};
use std::marker::Model;

// One more than the most packets that a link holds.
const PLACES: usize = 8;

/// Up to seven packets in order, each in a buffer of a pool. Those that are given up hold their buffers until
/// `give_back`.
///
/// The buffers lie in places that follow each other round, from `first` on: the `spent` ones that are given up, and
/// then the `len` ones of the packets.
#[derive(Drop)]
pub(crate) struct Queue {
    places: [Option<BufNo>; PLACES],
    first: usize,
    spent: usize,
    len: usize,
}

impl Model for Queue {
    ghost use Rattle.lapb.specs.Held.{Queue as QueueValue};

    ghost Value = { QueueValue };

    ghost use Rattle.lapb.specs.QueueView.{queue_of, IsQueue};

    ghost view = { queue_of };

    ghost invariant = { IsQueue };
}

impl Queue {
    pub(crate) fn new() -> Self
        ensures { result ≡ record { packets = []; held = [] } }
    {
        Queue {
            places: [None, None, None, None, None, None, None, None],
            first: 0,
            spent: 0,
            len: 0,
        }
    }

    #[tactic(auto, using(crate::proofs::Queues::packets_length))]
    pub(crate) fn len(&self) -> u8
        ensures value { result ≡ length self.now.packets }
        ensures fits { result ≤ 7 }
    {
        self.len as u8
    }

    pub(crate) fn is_empty(&self) -> bool
        ensures { result ≡ is_empty self.now.packets }
    {
        self.len() == 0
    }

    /// Appends the packet of a buffer.
    pub(crate) fn push(&mut self, b: BufNo)
        requires { length self.old.held < 7 }
        ensures { self.new ≡ record {
          packets = self.old.packets ++ b.octets ∷ [];
          held = self.old.held ++ b ∷ [];
        } }
    {
        let place = (self.first + self.spent + self.len) % PLACES;
        self.places[place] = Some(b);
        self.len += 1;
    }

    /// The packet at a place.
    pub(crate) fn packet<'a>(&self, place: u8, pool: &'a Pool) -> &'a [u8]
        requires place { place < length self.now.packets }
        requires holds { Holds pool.now self.now.held }
        ensures value { slice_get self.now.packets place ≡ Some result.now }
        ensures fits { length result.now ≤ pool.now.size }
    {
        let place = (self.first + self.spent + usize::from(place)) % PLACES;
        let Some(b) = &self.places[place] else {
            unreachable!();
        };
        pool.octets(b)
    }

    /// Gives the first packets up.
    pub(crate) fn drop_front(&mut self, count: u8)
        requires { count ≤ length self.old.packets }
        ensures { self.new ≡ record self.old { packets = drop count self.old.packets } }
    {
        let count = usize::from(count);
        self.spent += count;
        self.len -= count;
    }

    /// Gives all packets up.
    pub(crate) fn clear(&mut self)
        ensures { self.new ≡ record self.old { packets = [] } }
    {
        self.spent += self.len;
        self.len = 0;
    }

    /// Frees the buffers of the packets that were given up.
    #[inline(always)]
    pub(crate) fn give_back(&mut self, pool: &mut Pool)
        requires { Holds pool.old self.old.held }
        ensures packets { self.new.packets ≡ self.old.packets }
        ensures tight { length self.new.held ≡ length self.new.packets }
        ensures fewer { length self.new.held ≤ length self.old.held }
        ensures pool { Balances pool.old self.old.held pool.new self.new.held }
    {
        for _ in 0..self.spent {
            self.free_first(pool);
        }
    }

    /// Gives the buffers back as `give_back` does, for a call that seldom finds any.
    #[inline(always)]
    pub(crate) fn give_back_any(&mut self, pool: &mut Pool)
        requires { Holds pool.old self.old.held }
        ensures packets { self.new.packets ≡ self.old.packets }
        ensures tight { length self.new.held ≡ length self.new.packets }
        ensures fewer { length self.new.held ≤ length self.old.held }
        ensures pool { Balances pool.old self.old.held pool.new self.new.held }
        ensures same { length self.old.held ≡ length self.old.packets
            → (self.new ≡ self.old) × (pool.new ≡ pool.old) }
    {
        if self.spent > 0 {
            self.free_spent(pool);
        }
    }

    #[cold]
    #[inline(never)]
    fn free_spent(&mut self, pool: &mut Pool)
        requires { Holds pool.old self.old.held }
        ensures packets { self.new.packets ≡ self.old.packets }
        ensures tight { length self.new.held ≡ length self.new.packets }
        ensures fewer { length self.new.held ≤ length self.old.held }
        ensures pool { Balances pool.old self.old.held pool.new self.new.held }
    {
        self.give_back(pool);
    }

    /// Frees the buffer of the first packet, which was given up.
    fn free_first(&mut self, pool: &mut Pool)
        requires spent { length self.old.packets < length self.old.held }
        requires holds { Holds pool.old self.old.held }
        ensures queue { self.new ≡ record self.old { held = drop 1 self.old.held } }
        ensures pool { Balances pool.old self.old.held pool.new self.new.held }
    {
        let Some(b) = take(&mut self.places, self.first) else {
            unreachable!();
        };
        pool.free(b);
        self.first = (self.first + 1) % PLACES;
        self.spent -= 1;
    }
}

/// What lies in a place, which is empty then.
fn take(places: &mut [Option<BufNo>], place: usize) -> Option<BufNo>
    requires { place < length places.old }
    ensures value { slice_get places.old place ≡ Some result }
    ensures places { places.new ≡ slice_set places.old place None }
{
    places[place].take()
}
