//! A pool of buffers for the payloads of packets.
ghost use Rattle.std.specs.Prelude.{
  ◌≡◌,
  ◌≤◌,
  ◌<◌,
  ◌+◌,
  length,
  replicate,
  slice_get,
  slice_set,
  Some,
  None,
  IfOk,
  MatchOption,
  ℕ,
};
ghost use Rattle.flow_window.specs.Pool.{Buffer, IsIn, pooled, in_use};

mod given;
mod number;
mod slot;

pub use number::BufNo;
use slot::Slot;
use std::alloc::{AllocError, Global};
use std::marker::Model;

/// Buffers of one size, numbered from 0. A number is given by `put` or `place`, and once until it is freed.
#[derive(Drop)]
pub struct Pool {
    size: usize,
    slots: Vec<Slot>,
    spare: Vec<usize>,
}

impl Model for Pool {
    ghost use Rattle.flow_window.specs.Pool.{Pool as PoolValue};

    ghost Value = { PoolValue };

    ghost use Rattle.flow_window.specs.PoolView.{pool_of, IsPool};

    ghost view = { pool_of };

    ghost invariant = { IsPool };
}

impl Pool {
    /// A pool of so many buffers, each for up to `size` octets. None is in use.
    ///
    /// `AllocError` comes for want of memory. Nothing else of a pool takes any.
    pub fn new(alloc: Global, buffers: usize, size: usize) -> Result<Self, AllocError>
        ensures map { IfOk result (λ pool. pool ≡ record { size = size; places = replicate buffers None }) }
        ensures weights { (w : Buffer → ℕ) → IfOk result (λ pool. pooled w pool ≡ 0) }
    {
        let mut spare = Vec::with_capacity(alloc, buffers)?;
        let mut slots = Vec::with_capacity(alloc, buffers)?;
        for number in 0..buffers {
            slots.push(Slot::new(alloc, size)?)?;
            spare.push(number)?;
        }
        Ok(Pool { size, slots, spare })
    }

    /// Puts octets into a buffer that is not in use, and gives its number; `None` if every buffer is in use.
    pub fn put(&mut self, octets: &[u8]) -> Option<BufNo>
        requires { length octets.now ≤ self.old.size }

        // It was not in use, and now holds the octets. All others stay.
        ensures put { MatchOption result (self.new ≡ self.old)
            (λ b. (b.octets ≡ octets.now) × (slice_get self.old.places b.number ≡ Some None)
            × (self.new ≡ record self.old {
              places = slice_set self.old.places b.number (Some octets.now);
            })) }
        ensures weights { (w : Buffer → ℕ) → MatchOption result
            (pooled w self.new ≡ pooled w self.old) (λ b. pooled w self.new ≡ pooled w self.old + w b) }
        ensures full { MatchOption result (in_use self.old ≡ length self.old.places)
            (λ _. length self.new.places ≡ length self.old.places) }
    {
        let number = self.spare.pop()?;
        let slot = &mut self.slots[number];
        slot.fill(octets);
        Some(BufNo::of(number, slot))
    }

    /// Puts octets into a buffer as `put` does, where one is not in use, and gives its number.
    pub fn place(&mut self, octets: &[u8]) -> BufNo
        requires fits { length octets.now ≤ self.old.size }
        requires room { in_use self.old < length self.old.places }
        ensures put { (result.octets ≡ octets.now) × (slice_get self.old.places result.number ≡ Some None)
            × (self.new ≡ record self.old {
              places = slice_set self.old.places result.number (Some octets.now);
            }) }
        ensures weights { (w : Buffer → ℕ) → pooled w self.new ≡ pooled w self.old + w result }
        ensures size { length self.new.places ≡ length self.old.places }
    {
        let Some(b) = self.put(octets) else {
            unreachable!();
        };
        b
    }

    /// The octets that were put into a buffer.
    pub fn octets(&self, b: &BufNo) -> &[u8]
        requires { IsIn b.now self.now }
        ensures octets { result.now ≡ b.now.octets }
        ensures fits { length result.now ≤ self.now.size }
    {
        self.slots[b.number()].as_slice()
    }

    /// Gives a buffer back.
    pub fn free(&mut self, b: BufNo)
        requires { IsIn b self.old }
        ensures map { self.new ≡ record self.old { places = slice_set self.old.places b.number None } }
        ensures weights { (w : Buffer → ℕ) → pooled w self.new + w b ≡ pooled w self.old }
        ensures size { length self.new.places ≡ length self.old.places }
    {
        let number = b.number();
        self.slots[number].empty();
        let _ = self.spare.push(number);
    }
}
