//! A text that was ended, as it goes in one Data packet.
ghost use Rattle.std.specs.Prelude.{◌≡◌, ◌≤◌, length};

use arrayvec::ArrayVec;
use std::marker::Model;
use std::ops::Deref;

/// How many octets a block has at most: those of one Data packet.
pub const BLOCK_LIMIT: usize = 128;

/// A text that was ended: 1 to 128 octets, which go in one Data packet.
#[derive(Drop)]
pub struct Block {
    octets: ArrayVec<u8, BLOCK_LIMIT>,
}

impl Model for Block {
    ghost use Rattle.std.specs.Prelude.{ℕ, List, ◌≤◌, length};

    ghost Value = { List ℕ };

    ghost view = { λ b. b.octets.items };

    ghost invariant = { λ b. (1 ≤ length b.octets.items) × (length b.octets.items ≤ 128) };
}

impl Deref for Block {
    type Target = ArrayVec<u8, BLOCK_LIMIT>;

    /// The octets, 1 to 128 of them.
    fn deref(&self) -> &ArrayVec<u8, BLOCK_LIMIT>
        ensures octets { result.now.items ≡ self.now }
        ensures some { 1 ≤ length self.now }
        ensures limit { length self.now ≤ 128 }
    {
        &self.octets
    }
}

impl Block {
    /// The block of a text.
    pub(crate) fn of(octets: ArrayVec<u8, BLOCK_LIMIT>) -> Block
        requires some { 1 ≤ length octets.items }
        requires fits { length octets.items ≤ 128 }
        ensures { result ≡ octets.items }
    {
        Block { octets }
    }
}
