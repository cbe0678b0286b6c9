//! Rings of octets, for what comes and goes in pieces of any size and is read and written whole.
#![tactic(auto)]

ghost use Rattle.std.specs.Prelude.{◌≡◌, ◌+◌, ◌-◌, ◌≤◌, [], ◌++◌, length, take, drop, min, slice_get, IfOk};
ghost use Rattle.octet_rings.specs.Places.{most_octets};
ghost use Rattle.octet_rings.specs.Numbers.{number_of};

use circular_buffer::HeapCircularBuffer;
use std::alloc::{AllocError, Global};
use std::marker::Model;

/// How many octets a ring holds at most.
pub const MOST_OCTETS: usize = 65_536;

/// Up to [`MOST_OCTETS`] octets, the first that came before all others. A ring never grows.
#[derive(Drop)]
pub struct OctetRing {
    octets: HeapCircularBuffer<u8>,
}

impl Model for OctetRing {
    ghost use Rattle.std.specs.Prelude.{◌≡◌, List, ℕ};
    ghost use Rattle.std.specs.Coded.{coded_list, coded_ℕ};
    ghost use Rattle.octet_rings.specs.Places.{most_octets};

    ghost Value = { List ℕ };

    ghost coded = { coded_list coded_ℕ };

    ghost view = { λ r. r.octets.items };

    ghost invariant = { λ r. r.octets.capacity ≡ most_octets };
}

impl OctetRing {
    /// No octets. `AllocError` comes for want of memory; no other call wants any.
    pub fn new(alloc: Global) -> Result<Self, AllocError>
        ensures { IfOk result (λ ring. ring ≡ []) }
    {
        let octets = HeapCircularBuffer::with_capacity(alloc, MOST_OCTETS)?;
        Ok(OctetRing { octets })
    }

    /// Forgets all octets.
    pub fn clear(&mut self)
        ensures { self.new ≡ [] }
    {
        self.octets.clear();
    }

    /// How many octets there are.
    pub fn len(&self) -> usize
        ensures value { result ≡ length self.now }
        ensures fits { result ≤ most_octets }
    {
        self.octets.len()
    }

    /// How many octets more there is room for.
    pub fn room(&self) -> usize
        ensures { result + length self.now ≡ most_octets }
    {
        self.octets.capacity() - self.octets.len()
    }

    /// Takes octets, from the first on, as many as there is room for. The answer is how many were taken.
    pub fn fill(&mut self, octets: &[u8]) -> usize
        ensures taken { result ≡ min (length octets.now) (most_octets - length self.old) }
        ensures after { self.new ≡ self.old ++ take result octets.now }
    {
        self.octets.fill_from_slice(octets)
    }

    /// Takes octets, all of them.
    pub fn extend(&mut self, octets: &[u8])
        requires { length self.old + length octets.now ≤ most_octets }
        ensures { self.new ≡ self.old ++ octets.now }
    {
        self.octets.fill_from_slice(octets);
    }

    /// The octet at a place, counted from the first one.
    pub fn get(&self, place: usize) -> Option<u8>
        ensures { result ≡ slice_get self.now place }
    {
        self.octets.get(place).copied()
    }

    /// The first `count` octets, in two pieces; all, if there are fewer.
    pub fn front(&self, count: usize) -> (&[u8], &[u8])
        ensures { result.0.now ++ result.1.now ≡ take count self.now }
    {
        let (first, second) = self.octets.as_slices();
        if count <= first.len() {
            (&first[..count], &second[..0])
        } else {
            (first, &second[..second.len().min(count - first.len())])
        }
    }

    /// Octets from the first on, in one piece: some if there are any, and not always all.
    pub fn waiting(&self) -> &[u8]
        ensures front { take (length result.now) self.now ≡ result.now }
        ensures some { length result.now ≡ 0 → self.now ≡ [] }
    {
        let (first, second) = self.octets.as_slices();
        if first.is_empty() { second } else { first }
    }

    /// Drops the first `count` octets; all, if there are fewer.
    pub fn drop_front(&mut self, count: usize)
        ensures { self.new ≡ drop count self.old }
    {
        let left = self.octets.len().saturating_sub(count);
        self.octets.truncate_front(left);
    }
}

/// The number of two octets, the high one first, if both are there.
pub fn number_of(high: Option<u8>, low: Option<u8>) -> Option<usize>
    ensures { result ≡ number_of high low }
{
    Some(usize::from(high?) * 256 + usize::from(low?))
}
