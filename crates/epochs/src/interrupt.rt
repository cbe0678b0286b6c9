//! What is kept of an interrupt that passed on a call.
ghost use Rattle.std.specs.Prelude.{◌≡◌, ◌≤◌, length};

use arrayvec::ArrayVec;
use std::marker::Model;

/// The user data of an interrupt: at most 32 octets (X.25 4.3.7).
#[derive(Drop)]
pub struct Interrupt {
    octets: ArrayVec<u8, 32>,
}

impl Model for Interrupt {
    ghost use Rattle.std.specs.Prelude.{List, ℕ, ◌≤◌, length};
    ghost use Rattle.std.specs.Coded.{coded_list, coded_ℕ};

    ghost Value = { List ℕ };

    ghost coded = { coded_list coded_ℕ };

    ghost view = { λ i. i.octets.items };

    ghost invariant = { λ i. length i.octets.items ≤ 32 };
}

impl Interrupt {
    /// Keeps at most 32 octets.
    pub fn new(octets: &[u8]) -> Self
        requires { length octets.now ≤ 32 }
        ensures { result ≡ octets.now }
    {
        let mut kept = ArrayVec::new();
        let _ = kept.try_extend_from_slice(octets);
        Interrupt { octets: kept }
    }

    /// The octets.
    pub fn octets(&self) -> &[u8]
        ensures value { result.now ≡ self.now }
        ensures fits { length result.now ≤ 32 }
    {
        self.octets.as_slice()
    }
}
