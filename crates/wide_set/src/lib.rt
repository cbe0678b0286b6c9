//! Sets of numbers that may be many, as of the lines of a network.
#![tactic(auto)]

ghost use Rattle.std.specs.Prelude.{◌≡◌, ◌≢◌, ◌≤◌, ◌<◌, ℕ, true, false, ◌||◌, ◌==◌, IfOk, min};
ghost use Rattle.wide_set.specs.WideSet.{has, places};

use number_set::NumberSet;
use std::alloc::{AllocError, Global};
use std::marker::Model;

/// How many numbers stand in one part of a set.
const PART: usize = 32;

/// A set keeps at most this many numbers apart.
pub const MOST_NUMBERS: usize = 1_048_576;

/// A set of numbers. It keeps those below a limit apart; all others are always in it.
#[derive(Drop)]
pub struct WideSet {
    parts: Vec<NumberSet>,
}

impl Model for WideSet {
    ghost use Rattle.std.specs.Prelude.{◌≤◌, List, length};
    ghost use Rattle.number_set.specs.declared.NumberSet.{NumberSet};

    ghost Value = { List NumberSet };

    ghost view = { λ s. s.parts.items };

    ghost invariant = { λ s. length s.parts.items ≤ 32769 };
}

impl WideSet {
    /// All numbers. Those below `limit` can be taken out, if it is at most [`MOST_NUMBERS`]. `AllocError` comes for want
    /// of memory.
    pub fn full(alloc: Global, limit: usize) -> Result<Self, AllocError>
        ensures all { IfOk result (λ set. (n : ℕ) → has set n ≡ true) }
        ensures places { IfOk result (λ set. min limit MOST_NUMBERS ≤ places set) }
    {
        let count = limit.min(MOST_NUMBERS) / PART + 1;
        let mut parts = Vec::with_capacity(alloc, count)?;
        for made in 0..count {
            parts.push(NumberSet::first(PART))?;
        }
        Ok(WideSet { parts })
    }

    /// Adds a number.
    #[inline(always)]
    pub fn insert(&mut self, number: usize)
        ensures numbers { (n : ℕ) → has self.new n ≡ (has self.old n || n == number) }
        ensures places { places self.new ≡ places self.old }
    {
        let part = number / PART;
        if part < self.parts.len() {
            self.parts[part].insert(number % PART);
        }
    }

    /// Takes a number out, if it is below the limit.
    #[inline(always)]
    pub fn remove(&mut self, number: usize)
        ensures gone { number < places self.old → has self.new number ≡ false }
        ensures others { (n : ℕ) → n ≢ number → has self.new n ≡ has self.old n }
        ensures places { places self.new ≡ places self.old }
    {
        let part = number / PART;
        if part < self.parts.len() {
            self.parts[part].remove(number % PART);
        }
    }

    /// The first number of the set from this one on.
    #[inline(always)]
    pub fn next(&self, from: usize) -> usize
        ensures onward { from ≤ result }
        ensures there { has self.now result ≡ true }
        ensures none { (n : ℕ) → from ≤ n → n < result → has self.now n ≡ false }
    {
        let mut first = from % PART;
        for part in from / PART..self.parts.len() {
            let mut numbers = self.parts[part].between(first, PART);
            if let Some(number) = numbers.take_first() {
                return part * PART + number;
            }
            first = 0;
        }
        from.max(self.parts.len() * PART)
    }
}
