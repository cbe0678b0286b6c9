//! The numbers that a receiver expects.
ghost use Rattle.std.specs.Prelude.{◌≡◌, ◌<◌, ◌+◌, ◌%◌, ℕ};
ghost use Rattle.flow_window.specs.Window.{offered, expected_after};

use crate::modulus::Modulus;
use crate::seq::Seq;
use std::marker::Model;

/// Whether a received number is the expected one.
#[derive(Clone, Copy, PartialEq, Eq)]
pub enum Offer {
    InOrder,
    OutOfOrder,
}

/// What a receiver knows: the number that it expects next, V(R), modulo `M` (X.25 2.4.5, 4.4.1.3).
#[derive(Drop)]
pub struct RecvWindow<M: Modulus> {
    expected: Seq<M>,
}

impl<M: Modulus> Model for RecvWindow<M> {
    ghost use Rattle.std.specs.Prelude.{ℕ, ◌<◌};
    ghost use Rattle.std.specs.Coded.{coded_ℕ};

    ghost Value = { ℕ };

    ghost coded = { coded_ℕ };

    ghost view = { λ w. w.expected };

    ghost invariant = { λ w. w.expected < M.modulus };
}

impl<M: Modulus> RecvWindow<M> {
    /// Expects 0.
    pub fn new() -> Self
        ensures { result ≡ 0 }
    {
        RecvWindow {
            expected: Seq::zero(),
        }
    }

    /// Takes a received number: the expected one alone is in order, and the next one is expected then.
    pub fn offer(&mut self, ns: u8) -> Offer
        ensures answer { result ≡ offered self.old ns }
        ensures expected { self.new ≡ expected_after M.modulus self.old ns }

        // By counts: where so many were accepted, exactly the number of that count is in order.
        ensures counts { (count : ℕ) → self.old ≡ count % M.modulus → ns ≡ count % M.modulus
            → (result ≡ Offer.InOrder) × (self.new ≡ (count + 1) % M.modulus) }
    {
        if ns != self.expected.number() {
            return Offer::OutOfOrder;
        }
        self.expected = self.expected.next();
        Offer::InOrder
    }

    /// The number that is expected next.
    pub fn expected(&self) -> u8
        ensures value { result ≡ self.now }
        ensures range { result < M.modulus }
    {
        self.expected.number()
    }

    /// Starts again at 0.
    pub fn clear(&mut self)
        ensures { self.new ≡ 0 }
    {
        self.expected = Seq::zero();
    }
}
