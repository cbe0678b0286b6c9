//! Readers and writers that refuse a call or are interrupted, texts of the greatest length, output in whole lines, and
//! output that is refused at the end.
use net_player::perform;
use std::alloc::{AllocError, Global};
use std::fs::Files;
use std::io::{BufWriter, Read, Write};
use std::{io, net};

/// A line that is typed and goes to the host, which takes it, with the frames traced.
const SCRIPT: &[u8] = b"trace on\nkey pad 0 HEX\\7FLLO\\0D\nflow\ntake host 1\nflow\n";

const PRINTED: &[u8] = b"0 > 01 00 10 01 00 48 45 4C 4C 4F 0D
0 < 01 21
0 < 03 20 10 01 21
host/1 data - \"HELLO\\0D\"
0 > 03 21
end rest
";

/// The writer, if the program, on the script of an input and through a buffer of so many octets before the writer, ends
/// with this status and tells this.
fn ends_buffered<F: Files + net::Net, R: Read, W: Write + Drop>(
    rt: &F,
    alloc: Global,
    input: &mut R,
    (capacity, out): (usize, W),
    (status, told): (u8, &[u8]),
) -> Option<W> {
    let mut out = BufWriter::with_capacity(alloc, capacity, out).ok()?;
    let mut err = Vec::new(alloc);
    let ended = perform(rt, alloc, &[], input, &mut out, &mut err);
    let (writer, _) = out.into_parts();
    if ended == status && err.as_slice() == told {
        Some(writer)
    } else {
        None
    }
}

/// What `ends_buffered` gives without a buffer: the writer is given each text as it is made.
fn ends<F: Files + net::Net, R: Read, W: Write + Drop>(
    rt: &F,
    alloc: Global,
    input: &mut R,
    out: W,
    ended: (u8, &[u8]),
) -> Option<W> {
    ends_buffered(rt, alloc, input, (0, out), ended)
}

/// Whether the program ends so on this input, and prints this text.
fn ends_printing<F: Files + net::Net, R: Read>(
    rt: &F,
    alloc: Global,
    input: &mut R,
    printed: &[u8],
    ended: (u8, &[u8]),
) -> bool {
    match ends(rt, alloc, input, Vec::new(alloc), ended) {
        Some(out) => out.as_slice() == printed,
        None => false,
    }
}

/// A writer that takes so many writes, and refuses those after them, and then a flush too. It counts the writes that do
/// not end with a line.
#[derive(Drop)]
struct Refusing {
    text: Vec<u8>,
    left: u32,
    cut: u32,
}

impl Refusing {
    fn new(alloc: Global, left: u32) -> Self {
        Refusing {
            text: Vec::new(alloc),
            left,
            cut: 0,
        }
    }

    /// Whether a part of what is printed was written, and not all.
    fn has_a_part(&self) -> bool {
        self.text.as_slice() != PRINTED && PRINTED.starts_with(self.text.as_slice())
    }
}

impl Write for Refusing {
    fn write(&mut self, buf: &[u8]) -> io::Result<usize> {
        if self.left == 0 {
            return Err(io::Error::from(io::ErrorKind::BrokenPipe));
        }
        self.left -= 1;
        self.cut = self.cut.saturating_add(u32::from(!buf.ends_with(b"\n")));
        self.text.extend_from_slice(buf)?;
        Ok(buf.len())
    }

    fn flush(&mut self) -> io::Result<()> {
        if self.left == 0 {
            return Err(io::Error::from(io::ErrorKind::BrokenPipe));
        }
        Ok(())
    }
}

/// How many writes the program makes for the script, if all that it prints is written.
fn writes_of_all<F: Files + net::Net>(rt: &F, alloc: Global) -> Option<u32> {
    let mut input = SCRIPT;
    let out = ends(rt, alloc, &mut input, Refusing::new(alloc, 1_000), (0, b""))?;
    if out.text.as_slice() == PRINTED {
        1_000_u32.checked_sub(out.left)
    } else {
        None
    }
}

/// Whether the program ends in the fault of a refused write after so many, with a part of what is printed.
fn stops<F: Files + net::Net>(rt: &F, alloc: Global, writes: u32) -> bool {
    let mut input = SCRIPT;
    let out = Refusing::new(alloc, writes);
    match ends(rt, alloc, &mut input, out, (1, b"fault 5\n")) {
        Some(out) => out.has_a_part(),
        None => false,
    }
}

#[test]
fn each_write_that_is_refused_is_a_fault(rt: HostRuntime) {
    let writes = writes_of_all(&rt, rt.alloc()).expect(&rt, "what is printed");
    assert!(rt; writes >= 5, "{writes} writes");
    for refused in 0..writes {
        assert!(rt; stops(&rt, rt.alloc(), refused), "at {refused}");
    }
}

/// A writer that is interrupted before each write, and takes one octet at a time.
#[derive(Drop)]
struct Interrupted {
    text: Vec<u8>,
    is_ready: bool,
}

impl Write for Interrupted {
    fn write(&mut self, buf: &[u8]) -> io::Result<usize> {
        self.is_ready = !self.is_ready;
        if self.is_ready {
            return Err(io::Error::from(io::ErrorKind::Interrupted));
        }
        let count = buf.len().min(1);
        self.text.extend_from_slice(&buf[..count])?;
        Ok(count)
    }

    fn flush(&mut self) -> io::Result<()> {
        Ok(())
    }
}

/// Whether all that is printed comes out of a writer that is interrupted.
fn prints_interrupted<F: Files + net::Net>(rt: &F, alloc: Global) -> bool {
    let mut input = SCRIPT;
    let out = Interrupted {
        text: Vec::new(alloc),
        is_ready: false,
    };
    match ends(rt, alloc, &mut input, out, (0, b"")) {
        Some(out) => out.text.as_slice() == PRINTED,
        None => false,
    }
}

#[test]
fn an_interrupted_write_is_tried_again(rt: HostRuntime) {
    assert!(rt; prints_interrupted(&rt, rt.alloc()));
}

/// A reader of the script that gives one octet at a read, and fails after so many reads; before each octet it may be
/// interrupted.
#[derive(Drop)]
struct Failing {
    rest: &'static [u8],
    left: usize,
    interrupts: bool,
    is_ready: bool,
}

impl Read for Failing {
    fn read(&mut self, buf: &mut [u8]) -> io::Result<usize> {
        self.is_ready = !self.is_ready;
        if self.interrupts && self.is_ready {
            return Err(io::Error::from(io::ErrorKind::Interrupted));
        }
        if self.left == 0 {
            return Err(io::Error::from(io::ErrorKind::ConnectionReset));
        }
        self.left -= 1;
        match (self.rest, buf) {
            ([octet, rest @ ..], [place, ..]) => {
                *place = *octet;
                self.rest = rest;
                Ok(1)
            }
            _ => Ok(0),
        }
    }
}

/// Whether the program, on an input that fails after so many reads or is interrupted, prints this and ends so.
fn reads_so<F: Files + net::Net>(
    rt: &F,
    alloc: Global,
    (left, interrupts): (usize, bool),
    printed: &[u8],
    ended: (u8, &[u8]),
) -> bool {
    let mut input = Failing {
        rest: SCRIPT,
        left,
        interrupts,
        is_ready: false,
    };
    ends_printing(rt, alloc, &mut input, printed, ended)
}

#[test]
fn each_read_that_fails_is_a_fault(rt: HostRuntime) {
    for reads in 0..=SCRIPT.len() {
        assert!(rt;
            reads_so(&rt, rt.alloc(), (reads, false), b"", (1, b"fault 7\n")),
            "at {reads}"
        );
    }
    assert!(rt; reads_so(&rt, rt.alloc(), (usize::MAX, true), PRINTED, (0, b"")));
}

#[test]
fn input_has_at_most_a_mebibyte(rt: HostRuntime) {
    const MOST: [(u64, &[u8], (u8, &[u8])); 2] = [
        (1_048_577, b"", (1, b"fault 7\n")),
        (1_048_576, b"end rest\n", (0, b"")),
    ];
    for (octets, printed, ended) in &MOST {
        let mut input = io::repeat(b'\n').take(*octets);
        assert!(rt;
            ends_printing(&rt, rt.alloc(), &mut input, printed, *ended),
            "{octets} octets"
        );
    }
}

/// How many lines a long script has before its last ones.
const LINES: usize = 1_100;

/// A line so many times, and another text behind that.
fn long(alloc: Global, line: &[u8], last: &[u8]) -> Result<Vec<u8>, AllocError> {
    let mut text = Vec::new(alloc);
    for _ in 0..LINES {
        text.extend_from_slice(line)?;
    }
    text.extend_from_slice(last)?;
    Ok(text)
}

/// Whether the program writes this for a script through a buffer of 1,000 octets, whole lines at a time.
fn writes_whole<F: Files + net::Net>(rt: &F, alloc: Global, script: &[u8], printed: &[u8]) -> bool {
    let mut input = script;
    let out = (1_000, Refusing::new(alloc, 1_000));
    match ends_buffered(rt, alloc, &mut input, out, (0, b"")) {
        Some(out) => is_written_whole(&out, printed),
        None => false,
    }
}

fn is_written_whole(out: &Refusing, printed: &[u8]) -> bool {
    out.text.as_slice() == printed && out.cut == 0 && out.left >= 985
}

/// Whether a long script is played to its end, and with one more line that is no command it is refused for that one.
fn plays_long<F: Files + net::Net>(rt: &F, alloc: Global) -> Result<bool, AllocError> {
    let printed = long(
        alloc,
        b"host/1 none\n",
        b"host/1 data - \"LAST\\0D\"\nend rest\n",
    )?;
    let mut script = long(
        alloc,
        b"take host 1\n",
        b"key pad 0 LAST\\0D\nflow\ntake host 1\nflow\n",
    )?;
    let whole = writes_whole(rt, alloc, script.as_slice(), printed.as_slice());
    script.extend_from_slice(b"jump\n")?;
    let mut input = script.as_slice();
    Ok(whole && ends_printing(rt, alloc, &mut input, b"", (1, b"fault 2 line 1105\n")))
}

#[test]
fn a_long_script_is_played_and_printed_in_whole_lines(rt: HostRuntime) {
    assert!(rt; plays_long(&rt, rt.alloc()) == Ok(true));
}

/// Whether the program ends so with a script, through a buffer that has room for all that is printed, before a writer
/// that takes so many writes; and the writer then has this.
fn ends_at_the_end<F: Files + net::Net>(
    rt: &F,
    alloc: Global,
    (script, writes): (&[u8], u32),
    ended: (u8, &[u8]),
    written: &[u8],
) -> bool {
    let mut input = script;
    let out = (1_000, Refusing::new(alloc, writes));
    match ends_buffered(rt, alloc, &mut input, out, ended) {
        Some(out) => out.text.as_slice() == written,
        None => false,
    }
}

#[test]
fn output_that_is_refused_at_the_end_is_a_fault(rt: HostRuntime) {
    const ENDS: [(&[u8], u32, (u8, &[u8]), &[u8]); 4] = [
        (SCRIPT, 0, (1, b"fault 5\n"), b""),
        (SCRIPT, 1, (1, b"fault 5\n"), PRINTED),
        (SCRIPT, 2, (0, b""), PRINTED),
        (b"jump\n", 0, (1, b"fault 2 line 1\n"), b""),
    ];
    for (script, writes, ended, written) in &ENDS {
        assert!(rt;
            ends_at_the_end(&rt, rt.alloc(), (*script, *writes), *ended, *written),
            "{writes} writes"
        );
    }
}
