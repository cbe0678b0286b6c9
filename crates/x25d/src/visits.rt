//! The connections of those who want the page.
use mio::net::TcpStream;
use status_pages::{Hearing, LATE, Request};
use std::alloc::{AllocError, Global};
use std::io::{self, ErrorKind, Read, Write};
use std::net::Shutdown;

/// How many connections there are at once.
const MOST_VISITS: usize = 4;

/// How many octets are read at once.
const MOST_READ: usize = 2048;

/// How long an answer may take, in ticks.
const MOST_TICKS: u16 = 200;

/// How long the peer may take to go after its answer, in ticks.
const LEAVING_TICKS: u16 = 20;

/// What a connection is at.
#[derive(Clone, Copy, PartialEq, Eq)]
enum Stage {
    /// Its request is read.
    Asking,
    /// The answer is written.
    Answering,
    /// The answer is written, and what comes is dropped until the peer goes: so no octet of the answer is lost.
    Leaving,
}

/// A connection of one who wants the page: its request, and what is left to be written of the answer.
#[derive(Drop)]
pub(crate) struct Visit {
    stream: TcpStream,
    hearing: Hearing,
    answer: Vec<u8>,
    written: usize,
    stage: Stage,
    left: u16,
}

impl Visit {
    pub(crate) fn new(alloc: Global, stream: TcpStream) -> Self {
        Visit {
            stream,
            hearing: Hearing::new(),
            answer: Vec::new(alloc),
            written: 0,
            stage: Stage::Asking,
            left: MOST_TICKS,
        }
    }

    /// Reads what came, and says what is asked for, once that is certain, its time is over or no more comes. A connection
    /// that is broken asks for nothing, and is to be closed.
    pub(crate) fn asked(&mut self, ticks: u16) -> io::Result<Option<Request>> {
        if self.stage != Stage::Asking {
            return Ok(None);
        }
        let mut buffer = [0; MOST_READ];
        let asked = match self.stream.read(&mut buffer) {
            Ok(0) => return Ok(Some(LATE)),
            Ok(count) => self.hearing.hear(buffer.get(..count).unwrap_or(&[])),
            Err(error) if error.kind() == ErrorKind::WouldBlock => None,
            Err(error) => return Err(error),
        };
        Ok(match asked {
            None if !self.hearing.elapse(ticks) => Some(LATE),
            asked => asked,
        })
    }

    /// The answer is to be written.
    pub(crate) fn answer(&mut self, answer: Vec<u8>) {
        self.answer = answer;
        self.stage = Stage::Answering;
    }

    /// Goes on with the answer, and says whether the connection is still wanted.
    pub(crate) fn goes_on(&mut self, ticks: u16) -> bool {
        match self.stage {
            Stage::Asking => true,
            Stage::Answering => self.has_time(ticks) && self.write().is_ok(),
            Stage::Leaving => self.has_time(ticks) && self.is_there(),
        }
    }

    /// Lets ticks pass for the answer, and says whether there is time left.
    fn has_time(&mut self, ticks: u16) -> bool {
        self.left = self.left.saturating_sub(ticks);
        self.left > 0
    }

    /// Writes what is left of the answer. After it, the connection is ended for writing.
    fn write(&mut self) -> io::Result<()> {
        let left = self.answer.get(self.written..).unwrap_or(&[]);
        match self.stream.write(left) {
            Ok(count) => self.written = self.written.saturating_add(count),
            Err(error) if error.kind() == ErrorKind::WouldBlock => return Ok(()),
            Err(error) => return Err(error),
        }
        if self.written < self.answer.len() {
            return Ok(());
        }
        self.stage = Stage::Leaving;
        self.left = LEAVING_TICKS;
        self.stream.shutdown(Shutdown::Write)
    }

    /// Drops what comes, and says whether the peer is still there.
    fn is_there(&mut self) -> bool {
        let mut buffer = [0; MOST_READ];
        match self.stream.read(&mut buffer) {
            Ok(count) => count > 0,
            Err(error) => error.kind() == ErrorKind::WouldBlock,
        }
    }
}

/// The places of those who want the page, without connections.
pub(crate) fn places(alloc: Global) -> Result<Vec<Option<Visit>>, AllocError> {
    let mut places = Vec::new(alloc);
    for _ in 0..MOST_VISITS {
        places.push(None)?;
    }
    Ok(places)
}
