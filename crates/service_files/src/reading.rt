//! How a service file is read.
ghost use Rattle.std.specs.Prelude.{◌≡◌, [], IfOk, codes, option_map, unwrap_or};
ghost use Rattle.std.specs.Net.Grammar.{IsSocketText};
ghost use Rattle.toml.specs.View.{view, table_view, items_view};
ghost use Rattle.service_files.specs.Reads.{Reads, ReadsAs};
ghost use Rattle.service_files.specs.Reads.{EachSays, IsDocument, IsTable, text_at};
ghost use Rattle.service_files.specs.Says.{mode_of, SaysControl, SaysConnections, SaysAllow, SaysWeb, IsPage, SaysTerminals, SaysService, SaysCaller};

use crate::addresses::{Allow, is_here};
use crate::file::{CallerTable, ServiceFile, ServiceTable, TerminalsTable};
use crate::hosts::{read_caller, read_host};
use crate::keys::{DOCUMENT, LIMITS, TERMINALS, WEB};
use crate::lines::{read_capture, read_lines};
use crate::places::{Place, look_at, tell_at};
use crate::refusal::Refusal;
use crate::rules::is_apart;
use crate::values::{items_at, number_at, read_address, read_allow, read_table, table_at, text_at};
use network_reasons::{tell_no_toml, text_of};
use service_ports::PortMode;
use std::alloc::Global;
use std::net::SocketAddr;
use toml::{Table, Value};

/// How many connections there may be at once, if the file does not say.
const CONNECTIONS: u16 = 64;

/// Reads the octets of a service file as TOML. If they are none, it is added to `out` where and why.
pub fn read_document(alloc: Global, out: &mut String, octets: &[u8]) -> Result<Table, Refusal>
    ensures { ReadsAs table_view (IsDocument octets.now) result }
{
    let Some(text) = text_of(octets) else {
        out.push_str("the text is no UTF-8")?;
        return Err(Refusal::Told);
    };
    match toml::table_from_str(alloc, text) {
        Ok(document) => Ok(document),
        Err(error) if error.is_memory() => Err(Refusal::OutOfMemory),
        Err(error) => {
            tell_no_toml(alloc, out, &error)?;
            Err(Refusal::Told)
        }
    }
}

/// Reads a service file. If it is refused, what is wrong first is added to `out`: of the document's own keys, of tables
/// of `control`, `[web]`, `[limits]`, `[[terminals]]`, `[[service]]`, `[[caller]]`, `[[line]]`, `[capture]`, in this order.
pub fn read_service<'a>(
    alloc: Global,
    out: &mut String,
    document: &'a Table,
) -> Result<ServiceFile<'a>, Refusal> {
    look_at(alloc, out, Place::Document, &DOCUMENT, document)?;
    let control = read_control(out, text_at(document, "control"))?;
    let web = read_web(alloc, out, control, table_at(document, "web"))?;
    let connections = read_connections(alloc, out, document)?;
    let users = read_users(alloc, out, document)?;
    let lines = read_lines(alloc, out, items_at(document, "line"))?;
    let capture = read_capture(alloc, out, table_at(document, "capture"))?;
    let UserTables {
        terminals,
        services,
        callers,
    } = users;
    Ok(ServiceFile {
        network: text_at(document, "network").unwrap_or(""),
        log: text_at(document, "log"),
        control,
        web,
        connections,
        terminals,
        services,
        callers,
        lines,
        capture,
    })
}

/// The tables of who uses the network.
#[derive(Drop)]
struct UserTables<'a> {
    terminals: Vec<TerminalsTable<'a>>,
    services: Vec<ServiceTable<'a>>,
    callers: Vec<CallerTable<'a>>,
}

fn read_users<'a>(
    alloc: Global,
    out: &mut String,
    document: &'a Table,
) -> Result<UserTables<'a>, Refusal> {
    Ok(UserTables {
        terminals: read_terminals(alloc, out, items_at(document, "terminals"))?,
        services: read_services(alloc, out, items_at(document, "service"))?,
        callers: read_callers(alloc, out, items_at(document, "caller"))?,
    })
}

fn read_control(out: &mut String, text: Option<&str>) -> Result<Option<SocketAddr>, Refusal>
    ensures { Reads (SaysControl (option_map (λ text. text.now) text.entry)) result }
{
    match text {
        Some(text) => Ok(Some(read_address(out, Place::Document, "control", text)?)),
        None => Ok(None),
    }
}

/// Where the page is had, if it is: at an address of this machine alone, and not where the control port is.
fn read_web(
    alloc: Global,
    out: &mut String,
    control: Option<SocketAddr>,
    web: Option<&Table>,
) -> Result<Option<SocketAddr>, Refusal>
    ensures { IfOk result (SaysWeb control (option_map (λ web. table_view web.now) web.entry)) }
{
    let Some(web) = web else {
        return Ok(None);
    };
    look_at(alloc, out, Place::Web, &WEB, web)?;
    let listen = text_at(web, "listen").unwrap_or("");
    Ok(Some(read_page(out, control, listen)?))
}

fn read_page(
    out: &mut String,
    control: Option<SocketAddr>,
    text: &str,
) -> Result<SocketAddr, Refusal>
    ensures { IfOk result (IsPage control text.now) }
{
    let listen = read_address(out, Place::Web, "listen", text)?;
    if !is_here(listen.ip()) {
        tell_at(
            out,
            Place::Web,
            "listen has to be an address of this machine alone, as 127.0.0.1:7080",
        )?;
        return Err(Refusal::Told);
    }
    if !is_apart(listen, control) {
        tell_at(out, Place::Web, "listen is control")?;
        return Err(Refusal::Told);
    }
    Ok(listen)
}

fn read_connections(alloc: Global, out: &mut String, document: &Table) -> Result<u16, Refusal>
    ensures { IfOk result (SaysConnections (table_view document.now)) }
{
    match table_at(document, "limits") {
        Some(limits) => {
            look_at(alloc, out, Place::Limits, &LIMITS, limits)?;
            Ok(number_at(limits, "connections").unwrap_or(CONNECTIONS))
        }
        None => Ok(CONNECTIONS),
    }
}

fn read_terminals<'a>(
    alloc: Global,
    out: &mut String,
    values: &'a [Value],
) -> Result<Vec<TerminalsTable<'a>>, Refusal>
    ensures { IfOk result (λ tables. EachSays TerminalsTable (IsTable SaysTerminals) (items_view values.entry.now) tables.items) }
{
    let mut tables = Vec::new(alloc);
    for value in values {
        let place = Place::Terminals(tables.len());
        tables.push(read_terminals_table(alloc, out, place, value)?)?;
    }
    Ok(tables)
}

fn read_terminals_table<'a>(
    alloc: Global,
    out: &mut String,
    place: Place,
    value: &'a Value,
) -> Result<TerminalsTable<'a>, Refusal>
    ensures { IfOk result (IsTable SaysTerminals (view value.entry.now)) }
{
    let table = read_table(out, place, value)?;
    read_binding(alloc, out, place, table)
}

/// What a table of `[[terminals]]` says.
fn read_binding<'a>(
    alloc: Global,
    out: &mut String,
    place: Place,
    table: &'a Table,
) -> Result<TerminalsTable<'a>, Refusal>
    ensures { IfOk result (SaysTerminals (table_view table.entry.now)) }
{
    look_at(alloc, out, place, &TERMINALS, table)?;
    let allow = read_allow(alloc, out, place, table)?;
    let listen = read_address(out, place, "listen", text_at(table, "listen").unwrap_or(""))?;
    Ok(binding_of(table, listen, allow))
}

/// The binding of a table, at this address and for these clients.
fn binding_of<'a>(table: &'a Table, listen: SocketAddr, allow: Allow) -> TerminalsTable<'a>
    requires listen { IsSocketText (unwrap_or (text_at (codes "listen") (table_view table.now)) []) listen }
    requires allow { SaysAllow (table_view table.now) allow }
    ensures { SaysTerminals (table_view table.entry.now) result }
{
    TerminalsTable {
        pad: text_at(table, "pad").unwrap_or(""),
        first: number_at(table, "first").unwrap_or(0),
        last: number_at(table, "last"),
        mode: mode_of(text_at(table, "mode")),
        greeting: text_at(table, "greeting"),
        idle: number_at(table, "idle").unwrap_or(0),
        allow,
        listen,
    }
}

fn mode_of(word: Option<&str>) -> PortMode
    ensures { result ≡ mode_of (option_map (λ word. word.now) word.entry) }
{
    match word {
        Some("raw") => PortMode::Raw,
        _ => PortMode::Telnet,
    }
}

fn read_services<'a>(
    alloc: Global,
    out: &mut String,
    values: &'a [Value],
) -> Result<Vec<ServiceTable<'a>>, Refusal>
    ensures { IfOk result (λ tables. EachSays ServiceTable (IsTable SaysService) (items_view values.entry.now) tables.items) }
{
    let mut tables = Vec::new(alloc);
    for value in values {
        let place = Place::Service(tables.len());
        tables.push(read_service_table(alloc, out, place, value)?)?;
    }
    Ok(tables)
}

fn read_service_table<'a>(
    alloc: Global,
    out: &mut String,
    place: Place,
    value: &'a Value,
) -> Result<ServiceTable<'a>, Refusal>
    ensures { IfOk result (IsTable SaysService (view value.entry.now)) }
{
    let table = read_table(out, place, value)?;
    read_host(alloc, out, place, table)
}

fn read_callers<'a>(
    alloc: Global,
    out: &mut String,
    values: &'a [Value],
) -> Result<Vec<CallerTable<'a>>, Refusal>
    ensures { IfOk result (λ tables. EachSays CallerTable (IsTable SaysCaller) (items_view values.entry.now) tables.items) }
{
    let mut tables = Vec::new(alloc);
    for value in values {
        let place = Place::Caller(tables.len());
        tables.push(read_caller_table(alloc, out, place, value)?)?;
    }
    Ok(tables)
}

fn read_caller_table<'a>(
    alloc: Global,
    out: &mut String,
    place: Place,
    value: &'a Value,
) -> Result<CallerTable<'a>, Refusal>
    ensures { IfOk result (IsTable SaysCaller (view value.entry.now)) }
{
    let table = read_table(out, place, value)?;
    read_caller(alloc, out, place, table)
}
