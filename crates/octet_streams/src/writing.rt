//! Writing of octets whole, or in part if the writer refuses the rest.
ghost use Rattle.std.specs.Prelude.{OnOk, OnErr};
ghost use Rattle.std.specs.Io.{WritesAtMost};
ghost use Rattle.std.specs.Io.KnownBytes.{Appends, WriteAppends};
ghost use Rattle.octet_streams.specs.Written.{Writes, IsShortFrontOf};

use std::io::{self, Write};
use thiserror::Error;

/// A writer refused octets.
#[derive(Clone, Copy, Debug, PartialEq, Eq, Error)]
#[error("octets could not be written")]
pub struct Refused;

/// Writes octets. `Refused` comes if the writer refuses a part of them; what it took until then stays.
pub fn write_all<W: Write>(out: &mut W, octets: &[u8]) -> Result<(), Refused>
    ensures writes { OnOk result (Appends (W.contents out.old) (W.contents out.new) octets.now) }
    ensures refused { OnErr result (Writes (W.contents out.old) (W.contents out.new) (IsShortFrontOf octets.now)) }
{
    let mut rest = octets;
    while !rest.is_empty() {
        match write_some(out, rest) {
            Ok(0) | Err(_) => return Err(Refused),
            Ok(count) => rest = &rest[count..],
        }
    }
    Ok(())
}

/// Writes as many octets as the writer takes at once, and tries again where this is interrupted.
fn write_some<W: Write>(out: &mut W, octets: &[u8]) -> io::Result<usize>
    ensures bound { WritesAtMost result octets.now }
    ensures bytes { WriteAppends (W.contents out.old) (W.contents out.new) result octets.now }
{
    for _ in 0..u64::MAX {
        match out.write(octets) {
            Err(error) if error.kind() == io::ErrorKind::Interrupted => {}
            written => return written,
        }
    }
    Err(io::Error::from(io::ErrorKind::TimedOut))
}
