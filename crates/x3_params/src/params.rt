//! The values of the parameters.
ghost use Rattle.std.specs.Prelude.{◌≡◌, ◌==◌, ◌<◌, List, ℕ, MatchOption, IsOk, OnOk, OnErr, Some, None};
ghost use Rattle.std.specs.Prelude.{if◌then◌else◌};
ghost use Rattle.x3_params.specs.Table.{allows};

use crate::fault::ParamFault;
use crate::profile::Profile;
use std::alloc::AllocError;
use std::marker::Model;

/// How many parameters there are.
const COUNT: usize = 18;

/// The number of the speed of the terminal, which is read only.
const SPEED: u8 = 11;

/// The values of parameters 1 to 18, each one that its parameter may have.
pub struct Params {
    pub(crate) values: [u8; COUNT],
}

impl Model for Params {
    ghost use Rattle.std.specs.Prelude.{ℕ, List};
    ghost use Rattle.x3_params.specs.Values.{AreAllowed};

    ghost Value = { List ℕ };

    ghost view = { λ p. p.values };

    ghost invariant = { λ p. AreAllowed p.values };

    ghost inverse = { λ xs. record { values = xs } };
}

impl Clone for Params {
    ghost use Rattle.std.specs.Prelude.{◌≡◌, ⊤};

    ghost is_clone = { λ params copy. copy ≡ params };

    ghost is_infallible = { λ _. ⊤ };

    fn clone(&self) -> Result<Params, AllocError> {
        Ok(*self)
    }
}

impl Copy for Params {}

impl Params {
    ghost use Rattle.x3_params.specs.Table.{is_number, profile_values};
    ghost use Rattle.x3_params.specs.Values.{value, fault_of, with_value};

    /// The initial values of a profile, at a terminal of this speed.
    pub fn profile(profile: Profile, speed: u8) -> Params
        ensures { result ≡ profile_values profile speed }
    {
        let mut values = match profile {
            Profile::Simple => [1, 1, 126, 0, 1, 1, 2, 0, 0, 0, 0, 1, 0, 0, 0, 127, 24, 18],
            Profile::Transparent => [0, 0, 0, 20, 0, 0, 2, 0, 0, 0, 0, 0, 0, 0, 0, 127, 24, 18],
        };
        values[10] = speed;
        Params { values }
    }

    /// The value of a parameter, if the number names one.
    pub fn get(&self, number: u8) -> Option<u8>
        ensures { result ≡ (if is_number number then Some (value self.now number) else None) }
    {
        if number == 0 {
            return None;
        }
        self.values.get(usize::from(number) - 1).copied()
    }

    /// Sets a parameter.
    ///
    /// `NoSuchParameter` comes if no parameter has the number, then `BadValue` if the parameter has no such value, then
    /// `ReadOnly` if it is the speed. A refused call changes nothing.
    pub fn set(&mut self, number: u8, value: u8) -> Result<(), ParamFault>
        ensures exact { MatchOption (fault_of number value) (IsOk result) (λ fault. result ≡ Err fault) }
        ensures ok { OnOk result (self.new ≡ with_value self.old number value) }
        ensures err { OnErr result (self.new ≡ self.old) }
    {
        if number == 0 || number > 18 {
            return Err(ParamFault::NoSuchParameter);
        }
        if !is_allowed(number, value) {
            return Err(ParamFault::BadValue);
        }
        if number == SPEED {
            return Err(ParamFault::ReadOnly);
        }
        self.values[usize::from(number) - 1] = value;
        Ok(())
    }
}

/// Whether a parameter may have a value.
#[tactic(auto, unfolding(crate::specs::Table::allows))]
fn is_allowed(number: u8, value: u8) -> bool
    ensures { result ≡ allows number value }
{
    match number {
        1 => value <= 1 || (32 <= value && value <= 126),
        2 | 5 | 8 | 12 | 15 => value <= 1,
        3 | 16..=18 => value <= 127,
        6 => value <= 1 || value == 5,
        7 => value <= 31,
        9 | 13 | 14 => value <= 7,
        4 | 10 | 11 => true,
        _ => false,
    }
}
