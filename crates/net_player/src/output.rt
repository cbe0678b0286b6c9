//! The output: texts that are written whole, or in part if the writer refuses the rest.
ghost use Rattle.std.specs.Prelude.{◌≡◌, OnOk, IfErr};
ghost use Rattle.std.specs.Io.KnownBytes.{Appends};
ghost use Rattle.octet_streams.specs.Written.{Writes};
ghost use Rattle.net_player.specs.Stopping.{IsPartOf};

use net_files::ProgFault;
use octet_streams::write_all;
use std::io::Write;

/// Writes a text. `Write` where the writer refuses a part of it; what it took until then stays.
pub(crate) fn write<W: Write>(out: &mut W, text: &str) -> Result<(), ProgFault>
    ensures writes { OnOk result (Appends (W.contents out.old) (W.contents out.new) text.now) }
    ensures refused { IfErr result (λ fault. Writes (W.contents out.old) (W.contents out.new)
        (IsPartOf text.now fault)) }
    ensures fault { IfErr result (λ fault. fault ≡ ProgFault.Write) }
{
    write_octets(out, text.as_bytes())
}

/// Writes octets, as `write` does a text.
pub(crate) fn write_octets<W: Write>(out: &mut W, octets: &[u8]) -> Result<(), ProgFault>
    ensures writes { OnOk result (Appends (W.contents out.old) (W.contents out.new) octets.now) }
    ensures refused { IfErr result (λ fault. Writes (W.contents out.old) (W.contents out.new)
        (IsPartOf octets.now fault)) }
    ensures fault { IfErr result (λ fault. fault ≡ ProgFault.Write) }
{
    match write_all(out, octets) {
        Ok(()) => Ok(()),
        Err(_) => Err(ProgFault::Write),
    }
}
