//! What the other end of a line is, and how it is reached, as a table of `[[line]]` says it.
ghost use Rattle.std.specs.Prelude.{◌≡◌, IfOk, option_map};
ghost use Rattle.toml.specs.View.{table_view};
ghost use Rattle.service_files.specs.Ways.{far_of, SaysWay, SaysConnection, SaysUdp, SaysXot};

use crate::file::{UdpWay, Way, XotWay};
use crate::keys::{OF_CONNECTIONS, OF_DATAGRAMS, OF_PROCESS};
use crate::places::{Place, refuse_keys, tell_at};
use crate::refusal::Refusal;
use crate::values::{read_address, text_at};
use toml::Table;

/// What is at the other end of a line.
#[derive(Clone, Copy)]
pub(crate) enum Far {
    /// Another process of the same network.
    Process,
    /// Equipment whose calls come over connections.
    Xot,
    /// Equipment whose frames are datagrams.
    Udp,
}

/// How the other end of the line of a table is reached.
pub(crate) fn read_way(out: &mut String, place: Place, table: &Table) -> Result<Way, Refusal>
    ensures { IfOk result (SaysWay (table_view table.now)) }
{
    let far = far_of(text_at(table, "to"));
    refuse_others(out, place, table, far)?;
    match far {
        Far::Process => read_connection(out, place, table),
        Far::Xot => Ok(Way::Xot(read_xot(out, place, table)?)),
        Far::Udp => Ok(Way::Udp(read_udp(out, place, table)?)),
    }
}

fn far_of(word: Option<&str>) -> Far
    ensures { result ≡ far_of (option_map (λ word. word.now) word.entry) }
{
    match word {
        Some("xot") => Far::Xot,
        Some("udp") => Far::Udp,
        _ => Far::Process,
    }
}

/// Refuses the keys that are for other lines.
fn refuse_others(out: &mut String, place: Place, table: &Table, far: Far) -> Result<(), Refusal> {
    if !matches!(far, Far::Process) {
        let told = "is for to = \"findravolo\"";
        refuse_keys(out, place, table, &OF_PROCESS, told)?;
    }
    if matches!(far, Far::Udp) {
        let told = "is for to = \"findravolo\" and to = \"xot\"";
        refuse_keys(out, place, table, &OF_CONNECTIONS, told)
    } else {
        refuse_keys(out, place, table, &OF_DATAGRAMS, "is for to = \"udp\"")
    }
}

/// How another process is reached: either its connection comes, or one is made.
fn read_connection(out: &mut String, place: Place, table: &Table) -> Result<Way, Refusal>
    ensures { IfOk result (SaysConnection (table_view table.now)) }
{
    match (text_at(table, "listen"), text_at(table, "connect")) {
        (Some(text), None) => Ok(Way::Listen(read_address(out, place, "listen", text)?)),
        (None, Some(text)) => Ok(Way::Connect(read_address(out, place, "connect", text)?)),
        (None, None) => {
            tell_at(out, place, "it has neither 'listen' nor 'connect'")?;
            Err(Refusal::Told)
        }
        (Some(_), Some(_)) => {
            tell_at(out, place, "it has both 'listen' and 'connect'")?;
            Err(Refusal::Told)
        }
    }
}

/// How equipment is reached whose calls come over connections: these come, or are made, or both.
fn read_xot(out: &mut String, place: Place, table: &Table) -> Result<XotWay, Refusal>
    ensures { IfOk result (SaysXot (table_view table.now)) }
{
    match (text_at(table, "listen"), text_at(table, "connect")) {
        (Some(text), None) => Ok(XotWay::Listen(read_address(out, place, "listen", text)?)),
        (None, Some(text)) => Ok(XotWay::Connect(read_address(out, place, "connect", text)?)),
        (Some(listen), Some(connect)) => Ok(XotWay::Both {
            listen: read_address(out, place, "listen", listen)?,
            connect: read_address(out, place, "connect", connect)?,
        }),
        (None, None) => {
            tell_at(out, place, "it has neither 'listen' nor 'connect'")?;
            Err(Refusal::Told)
        }
    }
}

/// How equipment is reached whose frames are datagrams.
fn read_udp(out: &mut String, place: Place, table: &Table) -> Result<UdpWay, Refusal>
    ensures { IfOk result (SaysUdp (table_view table.now)) }
{
    match (text_at(table, "bind"), text_at(table, "partner")) {
        (Some(bind), Some(partner)) => Ok(UdpWay {
            bind: read_address(out, place, "bind", bind)?,
            partner: read_address(out, place, "partner", partner)?,
        }),
        (None, _) => {
            tell_at(out, place, "it has no 'bind'")?;
            Err(Refusal::Told)
        }
        (_, None) => {
            tell_at(out, place, "it has no 'partner'")?;
            Err(Refusal::Told)
        }
    }
}
