//! Lines that are none of a trace, the longest line of one, the longest trace, and a capture that is not written whole.
use std::alloc::{AllocError, Global};
use std::io::{self, Read, Write};
use std::test::Fail;
use trace_capture::{TraceFault, capture, convert};

/// The fault of a text, if no capture is made of it.
fn fault_of(alloc: Global, text: &[u8]) -> Option<TraceFault> {
    capture(alloc, text).err()
}

#[test]
fn tells_the_line_that_is_no_frame(rt: HostRuntime) {
    const TEXTS: &[(&[u8], u32)] = &[
        (b"0 < 01 73\n0 - 01", 2),
        (b"0 > 01 7", 1),
        (b"0 > 01 7f", 1),
        (b"\n0 >01", 2),
        (b"123456 > 01", 1),
        (b"0 ", 1),
    ];
    for (text, line) in TEXTS {
        assert!(rt;
            fault_of(rt.alloc(), text) == Some(TraceFault::Line(*line)),
            "{text:?}"
        );
    }
}

/// The line of a frame with so many octets `FF`.
fn line_of(alloc: Global, count: usize) -> Result<Vec<u8>, AllocError> {
    let mut line = Vec::new(alloc);
    line.extend_from_slice(b"0 >")?;
    for _ in 0..count {
        line.extend_from_slice(b" FF")?;
    }
    Ok(line)
}

/// The fault of a line with so many octets, if it has one.
fn fault_of_line(alloc: Global, count: usize) -> Option<TraceFault> {
    match line_of(alloc, count) {
        Ok(line) => fault_of(alloc, line.as_slice()),
        Err(_) => Some(TraceFault::OutOfMemory),
    }
}

#[test]
fn a_frame_has_at_most_1030_octets(rt: HostRuntime) {
    assert!(rt; fault_of_line(rt.alloc(), 1_030).is_none());
    assert!(rt; fault_of_line(rt.alloc(), 1_031) == Some(TraceFault::Line(1)));
}

/// A trace of two frames.
const TRACE: &[u8] = b"0 > 01 73\nhost/1 none\n0 < 01 44 10 01 00 41\n";

/// A writer that has room for so many octets, and refuses the others.
#[derive(Drop)]
struct Room {
    text: Vec<u8>,
    left: usize,
}

impl Write for Room {
    fn write(&mut self, buf: &[u8]) -> io::Result<usize> {
        if self.left == 0 {
            return Err(io::Error::from(io::ErrorKind::StorageFull));
        }
        let count = buf.len().min(self.left);
        self.left -= count;
        self.text.extend_from_slice(&buf[..count])?;
        Ok(count)
    }

    fn flush(&mut self) -> io::Result<()> {
        Ok(())
    }
}

/// Whether, of an input and with room for so many octets of the capture, this is written, and the program ends so.
fn converts_so<R: Read>(
    alloc: Global,
    input: &mut R,
    left: usize,
    written: &[u8],
    (status, told): (u8, &[u8]),
) -> bool {
    let mut out = Room {
        text: Vec::new(alloc),
        left,
    };
    let mut err = Vec::new(alloc);
    convert(alloc, input, &mut out, &mut err) == status
        && err.as_slice() == told
        && out.text.as_slice() == written
}

/// Whether, with room for each number of octets that is less than those of the capture, so many of them are written.
fn is_torn_anywhere(alloc: Global) -> Result<bool, TraceFault> {
    let whole = capture(alloc, TRACE)?;
    let mut input = TRACE;
    let mut fits = converts_so(alloc, &mut input, whole.len(), whole.as_slice(), (0, b""));
    for left in 0..whole.len() {
        let mut input = TRACE;
        let refused: (u8, &[u8]) = (1, b"the capture could not be written\n");
        fits = fits && converts_so(alloc, &mut input, left, &whole.as_slice()[..left], refused);
    }
    Ok(fits)
}

#[test]
fn a_capture_that_is_not_written_whole_is_a_fault(rt: HostRuntime) {
    assert!(rt; is_torn_anywhere(rt.alloc()) == Ok(true));
}

#[test]
fn nothing_is_written_of_a_trace_with_a_line_that_is_no_frame(rt: HostRuntime) {
    let mut input: &[u8] = b"0 < 01 73\n\n0 - 01\n";
    assert!(rt;
        converts_so(
            rt.alloc(),
            &mut input,
            1_000,
            b"",
            (1, b"line 3 is no frame\n")
        )
    );
}

/// A reader that fails.
#[derive(Drop)]
struct Failing;

impl Read for Failing {
    fn read(&mut self, _buf: &mut [u8]) -> io::Result<usize> {
        Err(io::Error::from(io::ErrorKind::ConnectionReset))
    }
}

#[test]
fn a_trace_has_at_most_64_mebibytes_and_can_be_read(rt: HostRuntime) -> Result<(), Fail> {
    let none = capture(rt.alloc(), b"")?;
    let mut input = io::repeat(b'x').take(67_108_864);
    assert!(rt; converts_so(rt.alloc(), &mut input, 1_000, none.as_slice(), (0, b"")));
    let mut input = io::repeat(b'x').take(67_108_865);
    assert!(rt;
        converts_so(
            rt.alloc(),
            &mut input,
            1_000,
            b"",
            (1, b"the trace is too long\n")
        )
    );
    assert!(rt;
        converts_so(
            rt.alloc(),
            &mut Failing,
            1_000,
            b"",
            (1, b"the trace could not be read\n")
        )
    );
    Ok(())
}
