//! Sequence numbers.
ghost use Rattle.std.specs.Prelude.{◌≡◌, ◌<◌, ◌≤◌, ◌+◌, ◌%◌, MatchOption};
ghost use Rattle.flow_window.specs.Window.{ahead};

use crate::modulus::Modulus;
use std::marker::{Model, PhantomData};

/// A sequence number: a number below the modulus `M`.
#[derive(Drop)]
pub struct Seq<M: Modulus> {
    number: u8,
    of: PhantomData<M>,
}

impl<M: Modulus> Model for Seq<M> {
    ghost use Rattle.std.specs.Prelude.{ℕ, ◌<◌};
    ghost use Rattle.std.specs.Coded.{coded_ℕ};

    ghost Value = { ℕ };

    ghost coded = { coded_ℕ };

    ghost view = { λ s. s.number };

    ghost invariant = { λ s. s.number < M.modulus };
}

impl<M: Modulus> Seq<M> {
    /// The number 0.
    pub fn zero() -> Self
        ensures { result ≡ 0 }
    {
        Seq {
            number: 0,
            of: PhantomData,
        }
    }

    /// The sequence number that is `number`, or `None` if it is not below the modulus.
    pub fn new(number: u8) -> Option<Self>
        ensures { MatchOption result (M.modulus ≤ number) (λ s. (number < M.modulus) × (s ≡ number)) }
    {
        if number >= M::modulus() {
            return None;
        }
        Some(Seq {
            number,
            of: PhantomData,
        })
    }

    /// The number.
    pub fn number(&self) -> u8
        ensures value { result ≡ self.now }
        ensures range { result < M.modulus }
    {
        self.number
    }

    /// The sequence number that is `count` further on.
    pub fn after(&self, count: u8) -> Self
        requires { count < M.modulus }
        ensures { result ≡ (self.now + count) % M.modulus }
    {
        let modulus = M::modulus();
        Seq {
            number: (self.number + count) % modulus,
            of: PhantomData,
        }
    }

    /// The sequence number after this one.
    pub fn next(&self) -> Self
        ensures { result ≡ (self.now + 1) % M.modulus }
    {
        let modulus = M::modulus();
        Seq {
            number: (self.number + 1) % modulus,
            of: PhantomData,
        }
    }

    /// How far this number is ahead of `oldest`, going round at the modulus.
    pub fn ahead_of(&self, oldest: &Self) -> u8
        ensures value { result ≡ ahead M.modulus oldest.now self.now }
        ensures range { result < M.modulus }
    {
        let modulus = M::modulus();
        let oldest = oldest.number();
        (self.number + modulus - oldest) % modulus
    }
}
