//! What the ends of a call send and take: the user data of Data packets and of interrupts.
ghost use Rattle.std.specs.Prelude.{◌≡◌, ◌≤◌, length};

use arrayvec::ArrayVec;
use packet_codec::{MAX_INTERRUPT, MAX_USER_DATA};
use std::marker::Model;

/// The user data of a Data packet, kept in place: at most `N` octets, with the bits M, Q and D (X.25 4.3).
#[derive(Drop)]
pub struct UserData<const N: usize> {
    octets: ArrayVec<u8, N>,
    more: bool,
    qualified: bool,
    delivery: bool,
}

/// The user data of a Data packet of any line: at most 1,024 octets.
pub type AnyUserData = UserData<MAX_USER_DATA>;

impl<const N: usize> Model for UserData<N> {
    ghost use Rattle.std.specs.Prelude.{◌≤◌, length};
    ghost use Rattle.data_transfer.specs.Packets.{Datum};

    ghost Value = { Datum };

    ghost view = { λ d. record {
      octets = d.octets.items;
      more = d.more;
      qualified = d.qualified;
      delivery = d.delivery;
    } };

    ghost invariant = { λ d. length d.octets.items ≤ N };
}

impl<const N: usize> UserData<N> {
    /// Keeps at most `N` octets with their bits.
    pub fn new(octets: &[u8], more: bool, qualified: bool, delivery: bool) -> Self
        requires { length octets.now ≤ N }
        ensures { result ≡ record { octets = octets.now; more = more; qualified = qualified; delivery = delivery } }
    {
        let mut kept = ArrayVec::new();
        let _ = kept.try_extend_from_slice(octets);
        UserData {
            octets: kept,
            more,
            qualified,
            delivery,
        }
    }

    /// The octets.
    pub fn octets(&self) -> &[u8]
        ensures value { result.now ≡ self.now.octets }
        ensures fits { length result.now ≤ N }
    {
        self.octets.as_slice()
    }

    /// The M bit: the message goes on in the next packet (X.25 4.3.4).
    pub fn more(&self) -> bool
        ensures { result ≡ self.now.more }
    {
        self.more
    }

    /// The Q bit: the octets are for the PAD or its partner, and not for its user (X.25 4.3.6).
    pub fn qualified(&self) -> bool
        ensures { result ≡ self.now.qualified }
    {
        self.qualified
    }

    /// The D bit: the receiver's user confirms the packet (X.25 4.3.3).
    pub fn delivery(&self) -> bool
        ensures { result ≡ self.now.delivery }
    {
        self.delivery
    }
}

/// The user data of an interrupt, kept in place: 1 to 32 octets (X.25 4.3.7).
#[derive(Drop)]
pub struct InterruptData {
    octets: ArrayVec<u8, MAX_INTERRUPT>,
}

impl Model for InterruptData {
    ghost use Rattle.std.specs.Prelude.{List, ℕ, ◌≤◌, length};
    ghost use Rattle.std.specs.Coded.{coded_list, coded_ℕ};

    ghost Value = { List ℕ };

    ghost coded = { coded_list coded_ℕ };

    ghost view = { λ d. d.octets.items };

    ghost invariant = { λ d. (1 ≤ length d.octets.items) × (length d.octets.items ≤ 32) };
}

impl InterruptData {
    /// Keeps 1 to 32 octets.
    pub fn new(octets: &[u8]) -> Self
        requires least { 1 ≤ length octets.now }
        requires most { length octets.now ≤ 32 }
        ensures { result ≡ octets.now }
    {
        let mut kept = ArrayVec::new();
        let _ = kept.try_extend_from_slice(octets);
        InterruptData { octets: kept }
    }

    /// The octets.
    pub fn octets(&self) -> &[u8]
        ensures value { result.now ≡ self.now }
        ensures least { 1 ≤ length result.now }
        ensures most { length result.now ≤ 32 }
    {
        self.octets.as_slice()
    }
}
