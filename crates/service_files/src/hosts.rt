//! How the tables of hosts are read: of services that they are, and of callers.
ghost use Rattle.std.specs.Prelude.{◌≡◌, [], IfOk, codes, option_map, unwrap_or};
ghost use Rattle.std.specs.Net.Grammar.{IsSocketText};
ghost use Rattle.toml.specs.View.{table_view};
ghost use Rattle.service_files.specs.Reads.{Reads, text_at};
ghost use Rattle.service_files.specs.Says.{at_reset_of, builtin_of, SaysHost, SaysConnect, SaysService, SaysAllow, SaysUserData, SaysCaller};

use crate::addresses::Allow;
use crate::file::{BuiltInName, CallerTable, Connect, HostService, ServiceTable};
use crate::keys::{CALLER, OF_CONNECT, SERVICE};
use crate::places::{Place, look_at, refuse_keys, tell_at, tell_place};
use crate::refusal::Refusal;
use crate::values::{flag_at, number_at, read_address, read_allow, text_at};
use bridge_ports::AtReset;
use hex::FromHexError;
use std::alloc::Global;
use std::fmt::Write;
use std::net::SocketAddr;
use toml::Table;

/// After how many ticks a connection to a service must stand, if the file does not say.
const WAIT: u16 = 200;

/// How many ticks of quiet end a call after a service ended its side, if the file does not say.
const SERVICE_LINGER: u16 = 40;

/// How many ticks of quiet end a call after a caller ended its side, if the file does not say.
const CALLER_LINGER: u16 = 1200;

/// How many octets of user data a call has at most (X.25 5.2.1).
const MOST_USER_DATA: usize = 16;

/// What a table of `[[service]]` says.
pub(crate) fn read_host<'a>(
    alloc: Global,
    out: &mut String,
    place: Place,
    table: &'a Table,
) -> Result<ServiceTable<'a>, Refusal>
    ensures { IfOk result (SaysService (table_view table.entry.now)) }
{
    look_at(alloc, out, place, &SERVICE, table)?;
    Ok(ServiceTable {
        host: text_at(table, "host").unwrap_or(""),
        service: read_host_service(out, place, table)?,
    })
}

fn read_host_service(out: &mut String, place: Place, table: &Table) -> Result<HostService, Refusal>
    ensures { IfOk result (SaysHost (table_view table.now)) }
{
    match (text_at(table, "builtin"), text_at(table, "connect")) {
        (Some(word), None) => {
            refuse_keys(
                out,
                place,
                table,
                &OF_CONNECT,
                "is for a service to connect to",
            )?;
            Ok(HostService::BuiltIn(builtin_of(word)))
        }
        (None, Some(text)) => Ok(HostService::Connect(read_connect(out, place, table, text)?)),
        (None, None) => {
            tell_at(out, place, "it has neither 'connect' nor 'builtin'")?;
            Err(Refusal::Told)
        }
        (Some(_), Some(_)) => {
            tell_at(out, place, "it has both 'connect' and 'builtin'")?;
            Err(Refusal::Told)
        }
    }
}

fn builtin_of(word: &str) -> BuiltInName
    ensures { result ≡ builtin_of word.now }
{
    match word {
        "echo" => BuiltInName::Echo,
        "time" => BuiltInName::Time,
        _ => BuiltInName::Discard,
    }
}

/// What a table of `[[service]]` says of the service to connect to, whose address is this text.
fn read_connect(
    out: &mut String,
    place: Place,
    table: &Table,
    text: &str,
) -> Result<Connect, Refusal>
    ensures { IfOk result (SaysConnect (table_view table.now) text.now) }
{
    Ok(Connect {
        at: read_address(out, place, "connect", text)?,
        hello: flag_at(table, "hello"),
        wait: number_at(table, "wait").unwrap_or(WAIT),
        at_reset: at_reset_of(text_at(table, "at_reset")),
        linger: number_at(table, "linger").unwrap_or(SERVICE_LINGER),
    })
}

fn at_reset_of(word: Option<&str>) -> AtReset
    ensures { result ≡ at_reset_of (option_map (λ word. word.now) word.entry) }
{
    match word {
        Some("continue") => AtReset::Continue,
        _ => AtReset::ClearCall,
    }
}

/// What a table of `[[caller]]` says.
pub(crate) fn read_caller<'a>(
    alloc: Global,
    out: &mut String,
    place: Place,
    table: &'a Table,
) -> Result<CallerTable<'a>, Refusal>
    ensures { IfOk result (SaysCaller (table_view table.entry.now)) }
{
    look_at(alloc, out, place, &CALLER, table)?;
    let user_data = read_user_data(alloc, out, place, text_at(table, "user_data"))?;
    let allow = read_allow(alloc, out, place, table)?;
    let listen = read_address(out, place, "listen", text_at(table, "listen").unwrap_or(""))?;
    Ok(caller_of(table, listen, allow, user_data))
}

/// The caller of a table, at this address and for these clients, with this user data.
fn caller_of<'a>(
    table: &'a Table,
    listen: SocketAddr,
    allow: Allow,
    user_data: Vec<u8>,
) -> CallerTable<'a>
    requires listen { IsSocketText (unwrap_or (text_at (codes "listen") (table_view table.now)) []) listen }
    requires allow { SaysAllow (table_view table.now) allow }
    requires user_data { SaysUserData (text_at (codes "user_data") (table_view table.now)) user_data }
    ensures { SaysCaller (table_view table.entry.now) result }
{
    CallerTable {
        host: text_at(table, "host").unwrap_or(""),
        call: text_at(table, "call").unwrap_or(""),
        at_reset: at_reset_of(text_at(table, "at_reset")),
        linger: number_at(table, "linger").unwrap_or(CALLER_LINGER),
        user_data,
        allow,
        listen,
    }
}

/// Reads up to 16 octets in hexadecimal, none if there is no text.
fn read_user_data(
    alloc: Global,
    out: &mut String,
    place: Place,
    text: Option<&str>,
) -> Result<Vec<u8>, Refusal>
    ensures { Reads (SaysUserData (option_map (λ text. text.now) text.entry)) result }
{
    let Some(text) = text else {
        return Ok(Vec::new(alloc));
    };
    match hex::decode(alloc, text.as_bytes()) {
        Ok(octets) if octets.len() <= MOST_USER_DATA => return Ok(octets),
        Err(FromHexError::OutOfMemory) => return Err(Refusal::OutOfMemory),
        _ => (),
    }
    tell_place(out, place)?;
    write!(
        out,
        "user_data = \"{text}\" has to be up to 16 octets, each as two hexadecimal digits"
    )?;
    Err(Refusal::Told)
}
