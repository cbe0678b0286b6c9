//! Sets of small numbers.
#![tactic(auto)]

ghost use Rattle.std.specs.Prelude.{◌≡◌, ℕ, ◌<◌, ◌≤◌, true, false, nat_lt, ◌||◌, ◌&&◌, not, ◌==◌, MatchOption};
ghost use Rattle.std.specs.Bool.{OnTrue, OnFalse};
ghost use Rattle.number_set.specs.NumberSet.{has, IsFirstOf};

/// Numbers below 64, as of lines or of channels.
#[derive(Clone, Copy)]
pub struct NumberSet {
    bits: u64,
}

impl NumberSet {
    /// No number.
    pub fn new() -> Self
        ensures { (n : ℕ) → has result n ≡ false }
    {
        NumberSet { bits: 0 }
    }

    /// The first `count` numbers, from 0 on.
    pub fn first(count: usize) -> Self
        requires { count ≤ 64 }
        ensures { (n : ℕ) → has result n ≡ nat_lt n count }
    {
        let mut set = NumberSet::new();
        for number in 0..count {
            set.insert(number);
        }
        set
    }

    /// Adds a number.
    pub fn insert(&mut self, number: usize)
        requires { number < 64 }
        ensures { (n : ℕ) → has self.new n ≡ (has self.old n || n == number) }
    {
        self.bits |= 1 << number;
    }

    /// Takes a number out, if it is there.
    pub fn remove(&mut self, number: usize)
        requires { number < 64 }
        ensures { (n : ℕ) → has self.new n ≡ (has self.old n && not (n == number)) }
    {
        let bits = self.bits & !(1 << number);
        self.bits = bits;
    }

    /// The numbers of either set.
    pub fn with(self, other: NumberSet) -> NumberSet
        ensures { (n : ℕ) → has result n ≡ (has self n || has other n) }
    {
        NumberSet {
            bits: self.bits | other.bits,
        }
    }

    /// The numbers of the set from `first` to one below `end`.
    pub fn between(self, first: usize, end: usize) -> NumberSet
        requires order { first ≤ end }
        requires most { end < 64 }
        ensures { (n : ℕ) → has result n ≡ (has self n && (not (nat_lt n first) && nat_lt n end)) }
    {
        NumberSet {
            bits: self.bits & ((1 << end) - (1 << first)),
        }
    }

    /// Whether there is no number.
    pub fn is_empty(self) -> bool
        ensures exact { result ≡ (self.bits == 0) }
        ensures none { OnTrue result ((n : ℕ) → has self n ≡ false) }
        ensures some { OnFalse result ((n : ℕ) × (n < 64) × (has self n ≡ true)) }
    {
        self.bits == 0
    }

    /// Takes the first number out, if there is one.
    pub fn take_first(&mut self) -> Option<usize>
        ensures first { MatchOption result
            ((n : ℕ) → has self.old n ≡ false)
            (λ number. IsFirstOf self.old number self.new) }
        ensures fewer { MatchOption result (self.new ≡ self.old) (λ number. self.new.bits < self.old.bits) }
        ensures within { MatchOption result (Unit {0}) (λ number. number < 64) }
    {
        if self.bits == 0 {
            return None;
        }
        let number = self.bits.trailing_zeros();
        self.bits ^= 1 << number;
        Some(number as usize)
    }
}
