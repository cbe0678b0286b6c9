//! Reading of all that a reader has, up to a limit.
ghost use Rattle.std.specs.Prelude.{◌≡◌, ◌≤◌, ◌<◌, Err, IfOk, IfSome, length};

use std::alloc::Global;
use std::io::{self, ErrorKind, Read};
use thiserror::Error;

/// Why nothing is read.
#[derive(Clone, Copy, Debug, PartialEq, Eq, Error)]
pub enum ReadFault {
    /// No memory was left.
    #[error("no memory was left")]
    OutOfMemory,
    /// There are more octets than are read.
    #[error("too long")]
    TooLong,
    /// The reader failed.
    #[error("could not be read")]
    Failed,
}

impl From<io::Error> for ReadFault {
    ghost use Rattle.std.specs.Prelude.{◌≡◌, ◌≢◌};
    ghost use Rattle.std.specs.IoError.{error_kind};
    ghost use Rattle.std.specs.declared.io.ErrorKind.TheVariants as kind_is;
    ghost use Rattle.octet_streams.specs.declared.reading.ReadFault.TheVariants.{OutOfMemory, Failed};

    ghost from_gives = { λ error fault. (error_kind error ≡ kind_is.OutOfMemory → fault ≡ OutOfMemory)
        × (error_kind error ≢ kind_is.OutOfMemory → fault ≡ Failed) };

    fn from(error: io::Error) -> Self {
        match error.kind() {
            ErrorKind::OutOfMemory => ReadFault::OutOfMemory,
            _ => ReadFault::Failed,
        }
    }
}

/// Reads all that a reader has, if that is at most `most` octets.
///
/// `TooLong` comes if there are more. `OutOfMemory` comes for want of memory and `Failed` if a read fails.
pub fn read_all<R: Read>(alloc: Global, input: &mut R, most: u64) -> Result<Vec<u8>, ReadFault>
    requires { most < u64.MAX }
    ensures size { IfOk result (λ text. length text.items ≤ most) }
    ensures whole { IfOk result (λ text. IfSome (R.remaining input.old) (λ octets. text.items ≡ octets)) }
    ensures too_long { result ≡ Err ReadFault.TooLong → IfSome (R.remaining input.old) (λ octets. most < length octets) }
{
    let mut text = Vec::new(alloc);
    match input.take(most + 1).read_to_end(&mut text) {
        Ok(count) if count as u64 <= most => Ok(text),
        Ok(_) => Err(ReadFault::TooLong),
        Err(error) => Err(ReadFault::from(error)),
    }
}
