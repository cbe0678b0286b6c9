//! A capture, file by file.
ghost use Rattle.std.specs.Prelude.{◌≡◌, drop, IfOk};
ghost use Rattle.frame_captures.specs.Capture.{new_capture, begun, is_full, takes, with_frame};

use crate::blocks::{add_frame, add_head};
use frame_codec::MAX_FRAME;
use frame_lines::Direction;
use itoa::Buffer;
use octet_rings::OctetRing;
use std::alloc::{AllocError, Global};
use std::ops::Deref;

/// The most octets that the block of a frame has.
const MOST_BLOCK: usize = 1104;

/// Frames as they pass, as the octets of files that Wireshark reads as LAPB and what is above it (pcapng). Each frame is a
/// block with its line, its direction and its time. Blocks are whole, and a frame without room for its block is counted as
/// lost. A file is full once it has `size` octets, and the next one begins with a head of its own. What asks about the
/// octets that wait to be written, without a change, is a call of [`OctetRing`].
#[derive(Drop)]
pub struct Capture {
    size: u64,
    /// How many octets the file has, with those that wait.
    octets: u64,
    lost: u64,
    waiting: OctetRing,
}

impl Deref for Capture {
    type Target = OctetRing;

    fn deref(&self) -> &OctetRing
        ensures { result.now ≡ self.now.waiting }
    {
        &self.waiting
    }
}

impl Capture {
    /// A capture whose first file has begun. `AllocError` comes for want of memory; no other call wants any.
    pub fn new(alloc: Global, size: u64) -> Result<Self, AllocError>
        ensures { IfOk result (λ capture. capture ≡ new_capture size) }
    {
        let mut capture = Capture {
            size,
            octets: 0,
            lost: 0,
            waiting: OctetRing::new(alloc)?,
        };
        capture.begin();
        Ok(capture)
    }

    /// Begins a file: its head waits to be written, and what waited before is dropped.
    pub fn begin(&mut self)
        ensures { self.new ≡ begun self.old }
    {
        self.waiting.clear();
        add_head(&mut self.waiting);
        self.octets = self.waiting.len() as u64;
    }

    /// Adds a frame that passed on a line in a direction at a time, in microseconds, if there is room for any block and the
    /// frame has at most 1,030 octets. Else it is counted as lost.
    pub fn add(&mut self, line: u16, direction: Direction, time: u64, frame: &[u8]) -> bool
        ensures taken { result ≡ takes self.old frame.now }
        ensures after { self.new ≡ with_frame line direction time frame.now self.old }
    {
        if frame.len() > MAX_FRAME || self.waiting.room() < MOST_BLOCK {
            self.lost = self.lost.saturating_add(1);
            return false;
        }
        let before = self.waiting.len();
        let mut digits = Buffer::new();
        add_frame(
            &mut self.waiting,
            time,
            digits.format(line).as_bytes(),
            direction,
            frame,
        );
        self.octets = self
            .octets
            .saturating_add((self.waiting.len() - before) as u64);
        true
    }

    /// Whether the file is full, so that the next one is to begin once what waits is written.
    pub fn is_full(&self) -> bool
        ensures { result ≡ is_full self.now }
    {
        self.octets >= self.size
    }

    /// How many frames were lost.
    pub fn lost(&self) -> u64
        ensures { result ≡ self.now.lost }
    {
        self.lost
    }

    /// Drops the first `count` octets that wait, which were written; all, if there are fewer.
    pub fn written(&mut self, count: usize)
        ensures { self.new ≡ record self.old { waiting = drop count self.old.waiting } }
    {
        self.waiting.drop_front(count);
    }
}
