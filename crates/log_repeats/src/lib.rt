//! Lines of a log that repeat: the same line is told at most once a minute.
#![tactic(auto)]

ghost use Rattle.std.specs.Prelude.{◌≡◌, [], ◌∷◌, ◌++◌, IfOk};
ghost use Rattle.std.specs.List.{list_any};
ghost use Rattle.circular_buffer.specs.Buffer.{keep_last};
ghost use Rattle.log_repeats.specs.Repeats.{most_lines, is_told_lately};

use circular_buffer::HeapCircularBuffer;
use std::alloc::{AllocError, Global};
use std::marker::Model;

/// How many seconds a line is not told again.
const MINUTE: u64 = 60;

/// How many lines are kept.
const MOST_LINES: usize = 64;

/// A line that was told, and when, in seconds.
#[derive(Drop)]
pub struct Told {
    pub line: String,
    pub second: u64,
}

/// The lines that were told last, 64 at most.
#[derive(Drop)]
pub struct Repeats {
    lines: HeapCircularBuffer<Told>,
}

impl Model for Repeats {
    ghost use Rattle.std.specs.Prelude.{◌≡◌, List};
    ghost use Rattle.log_repeats.specs.declared.Told.{Told};
    ghost use Rattle.log_repeats.specs.Repeats.{most_lines};

    ghost Value = { List Told };

    ghost view = { λ r. r.lines.items };

    ghost invariant = { λ r. r.lines.capacity ≡ most_lines };
}

impl Repeats {
    /// No lines. `AllocError` comes for want of memory; no other call wants any.
    pub fn new(alloc: Global) -> Result<Self, AllocError>
        ensures { IfOk result (λ repeats. repeats ≡ []) }
    {
        let lines = HeapCircularBuffer::with_capacity(alloc, MOST_LINES)?;
        Ok(Repeats { lines })
    }

    /// Whether a line was told less than a minute before this second, as far as lines are kept.
    pub fn is_repeat(&self, line: &str, second: u64) -> bool
        ensures { result ≡ list_any (is_told_lately line.now second) self.now }
    {
        self.lines.iter().any(|told| told.line.as_str() == line
            && second.saturating_sub(told.second) < MINUTE)
    }

    /// Keeps a line that is told now. If there is no place, the one that was told first is forgotten.
    pub fn keep(&mut self, told: Told)
        ensures { self.new ≡ keep_last most_lines (self.old ++ told ∷ []) }
    {
        self.lines.push_back(told);
    }
}
