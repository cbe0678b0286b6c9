//! The connections at the control port.
use mio::net::TcpStream;
use std::alloc::{AllocError, Global};
use std::io::{self, ErrorKind, Read, Write};

/// How many connections the control port has at once.
const MOST_CONTROLS: usize = 4;

/// The longest line that is read.
const MOST_WORDS: usize = 64;

/// How long a connection may take, in ticks.
const MOST_TICKS: u16 = 40;

/// What was asked.
#[derive(Clone, Copy)]
pub(crate) enum Question {
    Status,
    Clear(usize),
    Stop,
    Unknown,
}

/// What a connection is at.
#[derive(Clone, Copy, PartialEq, Eq)]
enum Stage {
    /// Its line is read.
    Asking,
    /// The answer is written.
    Answering,
    /// It stays until the service ends.
    Staying,
}

/// A connection at the control port: what was read of the line, and what is left to be written.
#[derive(Drop)]
pub(crate) struct Control {
    stream: TcpStream,
    line: Vec<u8>,
    answer: Vec<u8>,
    written: usize,
    stage: Stage,
    left: u16,
}

impl Control {
    pub(crate) fn new(alloc: Global, stream: TcpStream) -> Self {
        Control {
            stream,
            line: Vec::new(alloc),
            answer: Vec::new(alloc),
            written: 0,
            stage: Stage::Asking,
            left: MOST_TICKS,
        }
    }

    /// Lets ticks pass, and says whether there is time left. Who waits for the end has all of it.
    pub(crate) fn elapse(&mut self, ticks: u16) -> bool {
        self.left = self.left.saturating_sub(ticks);
        self.stage == Stage::Staying || self.left > 0
    }

    /// What is asked, once its line is there. A connection that is broken asks nothing, and is to be closed.
    pub(crate) fn question(&mut self) -> io::Result<Option<Question>> {
        if self.stage != Stage::Asking {
            return Ok(None);
        }
        let mut buffer = [0; MOST_WORDS];
        match self.stream.read(&mut buffer) {
            Ok(count) => self.hear(buffer.get(..count).unwrap_or(&[])),
            Err(error) if error.kind() == ErrorKind::WouldBlock => Ok(None),
            Err(error) => Err(error),
        }
    }

    /// The question of the line, if it is whole with these octets: it has its end, is too long, or nothing comes any
    /// more.
    fn hear(&mut self, octets: &[u8]) -> io::Result<Option<Question>> {
        self.line.extend_from_slice(octets)?;
        let line = self.line.as_slice();
        let end = line.iter().position(|octet| *octet == b'\n');
        if end.is_none() && !octets.is_empty() && line.len() < MOST_WORDS {
            return Ok(None);
        }
        let words = line.get(..end.unwrap_or(line.len())).unwrap_or(&[]);
        Ok(Some(question_of(words)))
    }

    /// The answer is to be written, and then the connection closed.
    pub(crate) fn answer(&mut self, text: String) {
        self.answer = text.into_bytes();
        self.stage = Stage::Answering;
    }

    /// The connection stays until the service ends.
    pub(crate) fn stay(&mut self) {
        self.stage = Stage::Staying;
    }

    /// Writes what is left of the answer, and says whether the connection is still wanted.
    pub(crate) fn write(&mut self) -> bool {
        if self.stage != Stage::Answering {
            return true;
        }
        let left = self.answer.get(self.written..).unwrap_or(&[]);
        match self.stream.write(left) {
            Ok(count) => {
                self.written = self.written.saturating_add(count);
                self.written < self.answer.len()
            }
            Err(error) => error.kind() == ErrorKind::WouldBlock,
        }
    }
}

/// The question of a line.
fn question_of(line: &[u8]) -> Question {
    match line.trim_ascii() {
        b"status" => Question::Status,
        b"stop" => Question::Stop,
        words => match words.strip_prefix(b"clear ") {
            Some(digits) => clearing_of(digits.trim_ascii()),
            None => Question::Unknown,
        },
    }
}

/// The clearing of the port of these digits.
fn clearing_of(digits: &[u8]) -> Question {
    match str::from_utf8(digits) {
        Ok(text) => match text.parse::<usize>() {
            Ok(port) => Question::Clear(port),
            Err(_) => Question::Unknown,
        },
        Err(_) => Question::Unknown,
    }
}

/// The places of the control port, without connections.
pub(crate) fn places(alloc: Global) -> Result<Vec<Option<Control>>, AllocError> {
    let mut places = Vec::new(alloc);
    for _ in 0..MOST_CONTROLS {
        places.push(None)?;
    }
    Ok(places)
}
