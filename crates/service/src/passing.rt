//! Frames as they pass, for a capture.
ghost use Rattle.std.specs.Prelude.{◌≡◌};

use crate::service::Service;
use frame_captures::Capture;
use frame_codec::FrameBuf;
use line_sim::{Answer, Direction, Line};
use std::alloc::{AllocError, Global};

/// The frames that pass, if they are captured, and the time.
#[derive(Drop)]
pub(crate) struct Passing {
    capture: Option<Capture>,
    micros: u64,
}

impl Passing {
    /// Nothing is captured.
    pub(crate) fn new() -> Self {
        Passing {
            capture: None,
            micros: 0,
        }
    }

    /// A frame passes on a line.
    pub(crate) fn see(&mut self, line: usize, direction: Direction, frame: &FrameBuf) {
        if let Some(capture) = self.capture.as_mut() {
            let line = u16::try_from(line).unwrap_or(u16::MAX);
            capture.add(line, direction, self.micros, frame.as_slice());
        }
    }

    /// The frames of an answer pass.
    pub(crate) fn see_all(&mut self, answer: &Answer) {
        if self.capture.is_none() {
            return;
        }
        for put in answer.frames.as_slice() {
            self.see(put.line, put.direction, &put.octets);
        }
    }
}

impl<L: Line> Service<L> {
    /// Captures frames from now on, in files of so many octets. `AllocError` comes for want of memory.
    pub fn capture(&mut self, alloc: Global, size: u64) -> Result<(), AllocError>
        ensures terminals { self.new.terminals ≡ self.old.terminals }
        ensures network { self.new.exchange.net ≡ self.old.exchange.net }
    {
        self.exchange.passing.capture = Some(Capture::new(alloc, size)?);
        Ok(())
    }

    /// The time of frames that pass, in microseconds since the beginning of 1970.
    pub fn time_frames(&mut self, micros: u64)
        ensures terminals { self.new.terminals ≡ self.old.terminals }
        ensures network { self.new.exchange.net ≡ self.old.exchange.net }
    {
        self.exchange.passing.micros = micros;
    }

    /// Octets of the capture that wait to be written to its file, whole blocks in all; some if there are any.
    pub fn captured(&self) -> &[u8] {
        match self.exchange.passing.capture.as_ref() {
            Some(capture) => capture.waiting(),
            None => &[],
        }
    }

    /// The first `count` octets of the capture that wait were written.
    pub fn captured_written(&mut self, count: usize)
        ensures terminals { self.new.terminals ≡ self.old.terminals }
        ensures network { self.new.exchange.net ≡ self.old.exchange.net }
    {
        if let Some(capture) = self.exchange.passing.capture.as_mut() {
            capture.written(count);
        }
    }

    /// Whether the file of the capture is full.
    pub fn capture_is_full(&self) -> bool {
        match self.exchange.passing.capture.as_ref() {
            Some(capture) => capture.is_full(),
            None => false,
        }
    }

    /// The next file of the capture begins.
    pub fn begin_captured(&mut self)
        ensures terminals { self.new.terminals ≡ self.old.terminals }
        ensures network { self.new.exchange.net ≡ self.old.exchange.net }
    {
        if let Some(capture) = self.exchange.passing.capture.as_mut() {
            capture.begin();
        }
    }

    /// Frames are captured no more.
    pub fn stop_capture(&mut self)
        ensures terminals { self.new.terminals ≡ self.old.terminals }
        ensures network { self.new.exchange.net ≡ self.old.exchange.net }
    {
        self.exchange.passing.capture = None;
    }
}
