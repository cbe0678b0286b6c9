//! The program that makes a capture.
ghost use Rattle.std.specs.Prelude.{◌≡◌, ◌⊎◌, OnOk, OnErr, IfErr, IfOk};
ghost use Rattle.std.specs.Io.KnownBytes.{Appends};
ghost use Rattle.octet_streams.specs.Written.{Writes, IsFrontOf};
ghost use Rattle.trace_capture.specs.Converting.{Converts, ConvertFails, IsTrace, IsReadFault, fault_line};
ghost use Rattle.trace_capture.specs.Converting.{reading_fault};

use crate::blocks::capture;
use crate::fault::TraceFault;
use itoa::Buffer;
use octet_streams::{ReadFault, Refused, read_all, write_all};
use std::alloc::Global;
use std::io::{Read, Write};

/// How many octets a trace has at most.
const TEXT_OCTETS: u64 = 67_108_864;

/// The status of a run that wrote a capture, and of one that a fault ended.
const DONE: u8 = 0;

const FAULT: u8 = 1;

/// Reads what a run has printed with its frames traced, and writes the capture of the frames; gives the status to end
/// with. A fault is told on `err`. Then nothing was written, or a front of the capture if its writing failed.
pub fn convert<R: Read, W: Write, E: Write>(
    alloc: Global,
    input: &mut R,
    out: &mut W,
    err: &mut E,
) -> u8
    ensures status { (result ≡ DONE) ⊎ (result ≡ FAULT) }
    ensures done { result ≡ DONE → Converts (R.remaining input.old) (W.contents out.old) (W.contents out.new)
        × (E.contents err.new ≡ E.contents err.old) }
    ensures fault { result ≡ FAULT → (fault : TraceFault)
        × ConvertFails (R.remaining input.old) (W.contents out.old) (W.contents out.new) fault
        × Writes (E.contents err.old) (E.contents err.new) (IsFrontOf (fault_line fault)) }
{
    match try_convert(alloc, input, out) {
        Ok(()) => DONE,
        Err(fault) => tell_fault(fault, err),
    }
}

fn try_convert<R: Read, W: Write>(
    alloc: Global,
    input: &mut R,
    out: &mut W,
) -> Result<(), TraceFault>
    ensures converts { OnOk result (Converts (R.remaining input.old) (W.contents out.old) (W.contents out.new)) }
    ensures failed { IfErr result (ConvertFails (R.remaining input.old) (W.contents out.old) (W.contents out.new)) }
{
    let text = read_text(alloc, input)?;
    let capture = capture(alloc, text.as_slice())?;
    write_capture(capture.as_slice(), out)
}

/// Reads the text that a reader has, of at most 67,108,864 octets.
fn read_text<R: Read>(alloc: Global, input: &mut R) -> Result<Vec<u8>, TraceFault>
    ensures text { IfOk result (λ text. IsTrace (R.remaining input.old) text.items) }
    ensures fault { IfErr result (IsReadFault (R.remaining input.old)) }
{
    match read_all(alloc, input, TEXT_OCTETS) {
        Ok(text) => Ok(text),
        Err(fault) => Err(reading_fault(fault)),
    }
}

/// The fault of a failed read.
fn reading_fault(fault: ReadFault) -> TraceFault
    ensures { result ≡ reading_fault fault }
{
    match fault {
        ReadFault::OutOfMemory => TraceFault::OutOfMemory,
        ReadFault::TooLong => TraceFault::TooLong,
        ReadFault::Failed => TraceFault::Input,
    }
}

/// Writes a capture, or a front of it if the output refuses the rest.
fn write_capture<W: Write>(capture: &[u8], out: &mut W) -> Result<(), TraceFault>
    ensures written { OnOk result (Appends (W.contents out.old) (W.contents out.new) capture.now) }
    ensures front { OnErr result (Writes (W.contents out.old) (W.contents out.new) (IsFrontOf capture.now)) }
    ensures fault { IfErr result (λ fault. fault ≡ TraceFault.Write) }
{
    if write_all(out, capture).is_err() || out.flush().is_err() {
        return Err(TraceFault::Write);
    }
    Ok(())
}

fn tell_fault<E: Write>(fault: TraceFault, err: &mut E) -> u8
    ensures status { result ≡ FAULT }
    ensures told { Writes (E.contents err.old) (E.contents err.new) (IsFrontOf (fault_line fault)) }
{
    let _ = write_fault(fault, err);
    FAULT
}

/// Writes the line of a fault.
fn write_fault<E: Write>(fault: TraceFault, err: &mut E) -> Result<(), Refused>
    ensures writes { OnOk result (Appends (E.contents err.old) (E.contents err.new) (fault_line fault)) }
    ensures front { OnErr result (Writes (E.contents err.old) (E.contents err.new) (IsFrontOf (fault_line fault))) }
{
    match fault {
        TraceFault::Line(number) => write_line_fault(number, err),
        TraceFault::TooLong => write_all(err, b"the trace is too long\n"),
        TraceFault::Input => write_all(err, b"the trace could not be read\n"),
        TraceFault::Write => write_all(err, b"the capture could not be written\n"),
        TraceFault::OutOfMemory => write_all(err, b"no memory was left\n"),
    }
}

/// Writes the line of a fault of a trace's line.
fn write_line_fault<E: Write>(number: u32, err: &mut E) -> Result<(), Refused>
    ensures writes { OnOk result (Appends (E.contents err.old) (E.contents err.new)
        (fault_line (TraceFault.Line number))) }
    ensures front { OnErr result (Writes (E.contents err.old) (E.contents err.new)
        (IsFrontOf (fault_line (TraceFault.Line number)))) }
{
    let mut digits = Buffer::new();
    write_all(err, b"line ")?;
    write_all(err, digits.format(number).as_bytes())?;
    write_all(err, b" is no frame\n")
}
