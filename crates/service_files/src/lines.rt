//! How the tables of lines are read whose other ends are elsewhere, and that of a capture.
ghost use Rattle.std.specs.Prelude.{◌≡◌, ◌≤◌, IfOk, option_map, unwrap_or};
ghost use Rattle.toml.specs.View.{view, table_view, items_view};
ghost use Rattle.service_files.specs.Reads.{EachSays, IsTable, number_at};
ghost use Rattle.service_files.specs.SaysLine.{end_of, SaysCapture, SaysLine, IsCapture};

use crate::file::{CaptureTable, End, LineTable};
use crate::keys::{CAPTURE, LINE};
use crate::line_ways::read_way;
use crate::places::{Place, look_at, tell_place};
use crate::refusal::Refusal;
use crate::values::{number_at, read_allow, read_table, text_at};
use std::alloc::Global;
use std::fmt::Write;
use toml::{Table, Value};

/// After how many ticks without a connection a link is given up, if the file does not say.
const HOLD: u16 = 200;

/// After how many ticks of silence a connection is closed, if the file does not say.
const SILENCE: u16 = 300;

/// How many MiB a file of a capture has, if the file does not say.
const SIZE: u16 = 64;

/// How many files a capture has, if the file does not say.
const FILES: u16 = 4;

pub(crate) fn read_lines(
    alloc: Global,
    out: &mut String,
    values: &[Value],
) -> Result<Vec<LineTable>, Refusal>
    ensures { IfOk result (λ tables. EachSays LineTable (IsTable SaysLine) (items_view values.now) tables.items) }
{
    let mut tables = Vec::new(alloc);
    for value in values {
        let place = Place::Line(tables.len());
        tables.push(read_line_table(alloc, out, place, value)?)?;
    }
    Ok(tables)
}

fn read_line_table(
    alloc: Global,
    out: &mut String,
    place: Place,
    value: &Value,
) -> Result<LineTable, Refusal>
    ensures { IfOk result (IsTable SaysLine (view value.now)) }
{
    let table = read_table(out, place, value)?;
    read_line(alloc, out, place, table)
}

/// What a table of `[[line]]` says.
fn read_line(
    alloc: Global,
    out: &mut String,
    place: Place,
    table: &Table,
) -> Result<LineTable, Refusal>
    ensures { IfOk result (SaysLine (table_view table.now)) }
{
    look_at(alloc, out, place, &LINE, table)?;
    let way = read_way(out, place, table)?;
    let allow = read_allow(alloc, out, place, table)?;
    Ok(LineTable {
        line: number_at(table, "line").unwrap_or(0),
        here: end_of(text_at(table, "here")),
        way,
        hold: number_at(table, "hold").unwrap_or(HOLD),
        silence: number_at(table, "silence").unwrap_or(SILENCE),
        allow,
    })
}

fn end_of(word: Option<&str>) -> End
    ensures { result ≡ end_of (option_map (λ word. word.now) word.entry) }
{
    match word {
        Some("dce") => End::Dce,
        _ => End::Dte,
    }
}

/// What the table `[capture]` says, if it is there.
pub(crate) fn read_capture<'a>(
    alloc: Global,
    out: &mut String,
    table: Option<&'a Table>,
) -> Result<Option<CaptureTable<'a>>, Refusal>
    ensures { IfOk result (IsCapture (option_map (λ table. table_view table.now) table.entry)) }
{
    match table {
        Some(table) => Ok(Some(read_capture_table(alloc, out, table)?)),
        None => Ok(None),
    }
}

fn read_capture_table<'a>(
    alloc: Global,
    out: &mut String,
    table: &'a Table,
) -> Result<CaptureTable<'a>, Refusal>
    ensures { IfOk result (SaysCapture (table_view table.entry.now)) }
{
    look_at(alloc, out, Place::Capture, &CAPTURE, table)?;
    Ok(CaptureTable {
        file: text_at(table, "file").unwrap_or(""),
        size: read_count(out, table, "size", SIZE)?,
        files: read_count(out, table, "files", FILES)?,
    })
}

/// The number at a key, which is 1 at least; this one if there is none.
fn read_count(out: &mut String, table: &Table, key: &str, other: u16) -> Result<u16, Refusal>
    ensures value { IfOk result (λ count. count ≡ unwrap_or (number_at key.now (table_view table.now)) other) }
    ensures some { IfOk result (λ count. 1 ≤ count) }
{
    match number_at(table, key).unwrap_or(other) {
        0 => {
            tell_place(out, Place::Capture)?;
            write!(out, "{key} = 0 has to be 1 at least")?;
            Err(Refusal::Told)
        }
        count => Ok(count),
    }
}
