//! The keys that wait to be typed.
ghost use Rattle.std.specs.Prelude.{◌≡◌, ◌<◌, [], ◌∷◌, ◌++◌, nat_lt, length, drop, remove, slice_get, position, IfOk};
ghost use Rattle.circular_buffer.specs.Buffer.{buffer};
ghost use Rattle.service_ports.specs.Counting.{is_break};
ghost use Rattle.service_ports.specs.Ports.{key_places, is_break_or, is_octet};

use crate::input::Key;
use crate::key_counts::KeyCounts;
use circular_buffer::HeapCircularBuffer;
use std::alloc::{AllocError, Global};
use std::marker::Model;

/// How many keys may wait to be typed.
const MOST_KEYS: usize = 2048;

/// The keys that wait to be typed, the first that came before all others. They are counted by octet, so that a key that is
/// not there is not looked for among them, whichever octet it is of.
#[derive(Drop)]
pub(crate) struct KeyQueue {
    keys: HeapCircularBuffer<Key>,
    counts: KeyCounts,
}

impl Model for KeyQueue {
    ghost use Rattle.std.specs.Prelude.{◌≡◌};
    ghost use Rattle.circular_buffer.specs.Buffer.{Buffer};
    ghost use Rattle.service_ports.specs.Counting.{AreCounted};
    ghost use Rattle.service_ports.specs.Counting.{is_break};
    ghost use Rattle.service_ports.specs.Ports.{key_places};
    ghost use Rattle.service_ports.specs.declared.input.Key.{Key as KeyValue};

    ghost Value = { Buffer KeyValue };

    ghost view = { λ q. q.keys };

    ghost invariant = { λ q. AreCounted q.keys.items q.counts × (q.keys.capacity ≡ key_places) };
}

impl KeyQueue {
    /// No keys. `AllocError` comes for want of memory; no other call wants any.
    pub(crate) fn new(alloc: Global) -> Result<Self, AllocError>
        ensures { IfOk result (λ keys. keys ≡ buffer [] key_places) }
    {
        let keys = HeapCircularBuffer::with_capacity(alloc, MOST_KEYS)?;
        Ok(KeyQueue {
            keys,
            counts: KeyCounts::new(),
        })
    }

    /// Forgets all keys.
    pub(crate) fn clear(&mut self)
        ensures { self.new ≡ buffer [] self.old.capacity }
    {
        self.keys.clear();
        self.counts = KeyCounts::new();
    }

    /// How many keys there are.
    pub(crate) fn len(&self) -> usize
        ensures { result ≡ length self.now.items }
    {
        self.keys.len()
    }

    /// Whether there is room for another key.
    pub(crate) fn has_room(&self) -> bool
        ensures { result ≡ nat_lt (length self.now.items) self.now.capacity }
    {
        self.keys.len() < self.keys.capacity()
    }

    /// Adds a key behind the others.
    pub(crate) fn push(&mut self, key: Key)
        requires { length self.old.items < self.old.capacity }
        ensures { self.new ≡ buffer (self.old.items ++ key ∷ []) self.old.capacity }
    {
        let _ = self.keys.try_push_back(key);
        self.counts.add(key);
    }

    /// The first key.
    pub(crate) fn first(&self) -> Option<Key>
        ensures { result ≡ slice_get self.now.items 0 }
    {
        self.keys.front().copied()
    }

    /// Drops the first key, if there is one.
    fn drop_first(&mut self)
        ensures { self.new ≡ buffer (drop 1 self.old.items) self.old.capacity }
    {
        if let Some(key) = self.keys.pop_front() {
            self.counts.remove(key);
        }
    }

    /// Drops the first `count` keys; all, if there are fewer.
    #[tactic(auto, using(crate::proofs::Counting::drop_one_more, crate::proofs::Counting::drop_over))]
    pub(crate) fn drop_front(&mut self, count: usize)
        ensures { self.new ≡ buffer (drop count self.old.items) self.old.capacity }
    {
        for _ in 0..count.min(self.keys.len()) {
            self.drop_first();
        }
    }

    /// Drops the key of this place. If there is none, nothing changes.
    pub(crate) fn remove(&mut self, place: usize)
        ensures { self.new ≡ buffer (remove self.old.items place) self.old.capacity }
    {
        let Some(key) = self.keys.get(place).copied() else {
            return;
        };
        bring_forward(self.keys.make_contiguous(), place);
        self.keys.pop_front();
        self.counts.remove(key);
    }

    /// The place of the first key of this octet.
    pub(crate) fn find_octet(&self, octet: u8) -> Option<usize>
        ensures { result ≡ position (is_octet octet) self.now.items }
    {
        if !self.counts.has_octet(octet) {
            return None;
        }
        self.keys.iter().position(|key| is_octet(*key, octet))
    }

    /// The place of the first break.
    fn find_break(&self) -> Option<usize>
        ensures { result ≡ position is_break self.now.items }
    {
        if !self.counts.has_break() {
            return None;
        }
        self.keys.iter().position(|key| is_break(*key))
    }

    /// The place of the first key that is a break or of this octet.
    pub(crate) fn find_break_or(&self, octet: u8) -> Option<usize>
        ensures { result ≡ position (is_break_or octet) self.now.items }
    {
        if !self.counts.has_octet(octet) {
            return self.find_break();
        }
        self.keys.iter().position(|key| is_break_or(*key, octet))
    }
}

/// Moves the key of a place before all others.
fn bring_forward(keys: &mut [Key], place: usize)
    requires { place < length keys.old }
    ensures len { length keys.new ≡ length keys.old }
    ensures others { drop 1 keys.new ≡ remove keys.old place }
{
    keys[..=place].rotate_right(1);
}

fn is_break(key: Key) -> bool
    ensures { result ≡ is_break key }
{
    matches!(key, Key::Break)
}

/// Whether a key is a break or of this octet.
fn is_break_or(key: Key, octet: u8) -> bool
    ensures { result ≡ is_break_or octet key }
{
    is_break(key) || is_octet(key, octet)
}

/// Whether a key is of this octet.
fn is_octet(key: Key, octet: u8) -> bool
    ensures { result ≡ is_octet octet key }
{
    matches!(key, Key::Octet(typed) if typed == octet)
}
