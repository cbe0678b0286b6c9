//! The moduli of sequence numbers.
ghost use Rattle.std.specs.Prelude.{◌≡◌, ◌<◌, ◌≤◌, ℕ};
ghost use Rattle.flow_window.specs.Counts.{NamesOne};
ghost use Rattle.flow_window.specs.Naming.{names_one, has_zero};

/// The modulus of sequence numbers.
pub trait Modulus {
    ghost modulus: { ℕ };

    /// One more than the highest sequence number, from 2 to 128.
    fn modulus() -> u8
        ensures value { result ≡ modulus }
        ensures least { 2 ≤ result }
        ensures most { result ≤ 128 };

    // A number of a window names one count.
    ghost names_one: { NamesOne modulus };

    // There is a number 0.
    ghost has_zero: { 0 < modulus };
}

/// Numbers from 0 to 7.
#[derive(Clone, Copy, PartialEq, Eq)]
pub struct Mod8;

impl Modulus for Mod8 {
    ghost modulus = { 8 };

    ghost names_one = { names_one 8 };

    ghost has_zero = { has_zero 7 };

    fn modulus() -> u8 {
        8
    }
}

/// Numbers from 0 to 127.
#[derive(Clone, Copy, PartialEq, Eq)]
pub struct Mod128;

impl Modulus for Mod128 {
    ghost modulus = { 128 };

    ghost names_one = { names_one 128 };

    ghost has_zero = { has_zero 127 };

    fn modulus() -> u8 {
        128
    }
}
