//! What was read and not taken yet.
ghost use Rattle.std.specs.Prelude.{◌≡◌, [], drop, length, nat_eq, OnErr, IfOk};

use mio::net::TcpStream;
use std::alloc::{AllocError, Global};
use std::io::{self, Read};
use std::marker::Model;

/// How many octets are read at once, at most.
pub(crate) const MOST_READ: usize = 16_384;

/// Octets that were read and are not taken yet, the first one first.
#[derive(Drop)]
pub(crate) struct Unread {
    octets: Vec<u8>,
    from: usize,
    to: usize,
}

impl Model for Unread {
    ghost use Rattle.std.specs.Prelude.{List, ℕ, ◌≤◌, take, drop, length};

    ghost Value = { List ℕ };

    ghost view = { λ u. drop u.from (take u.to u.octets.items) };

    ghost invariant = { λ u. (u.from ≤ u.to) × (u.to ≤ length u.octets.items) };
}

impl Unread {
    /// No octets.
    pub(crate) fn new(alloc: Global) -> Result<Self, AllocError>
        ensures { IfOk result (λ unread. unread ≡ []) }
    {
        Ok(Unread {
            octets: vec![in alloc; 0; MOST_READ]?,
            from: 0,
            to: 0,
        })
    }

    /// Forgets all octets.
    pub(crate) fn clear(&mut self)
        ensures { self.new ≡ [] }
    {
        self.from = 0;
        self.to = 0;
    }

    pub(crate) fn is_empty(&self) -> bool
        ensures { result ≡ nat_eq (length self.now) 0 }
    {
        self.from == self.to
    }

    pub(crate) fn as_slice(&self) -> &[u8]
        ensures { result.now ≡ self.now }
    {
        &self.octets[..self.to][self.from..]
    }

    /// Drops the first `count` octets; all, if there are fewer.
    #[tactic(auto, using(crate::proofs::Fronts::drop_within))]
    pub(crate) fn drop_front(&mut self, count: usize)
        ensures { self.new ≡ drop count self.old }
    {
        self.from += count.min(self.to - self.from);
    }

    /// Reads once. Octets that were there are forgotten.
    pub(crate) fn fill(&mut self, stream: &mut TcpStream) -> io::Result<usize>
        ensures ok { IfOk result (λ count. length self.new ≡ count) }
        ensures err { OnErr result (self.new ≡ []) }
    {
        self.from = 0;
        self.to = 0;
        let count = stream.read(self.octets.as_mut_slice())?;
        self.to = count;
        Ok(count)
    }
}
