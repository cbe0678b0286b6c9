//! What stands at the keys of a table.
ghost use Rattle.std.specs.Prelude.{◌≡◌, Some, option_map};
ghost use Rattle.std.specs.Net.Grammar.{IsSocketText};
ghost use Rattle.toml.specs.Data.{as_table};
ghost use Rattle.toml.specs.View.{view, table_view, items_view};
ghost use Rattle.net_files.specs.Entries.{small};
ghost use Rattle.service_files.specs.Reads.{Reads, ReadsAs, EachSays, text_at, number_at, flag_at, values_at, items_at, table_at};
ghost use Rattle.service_files.specs.Says.{SaysPrefix, SaysAllow};

use crate::addresses::{Allow, Prefix};
use crate::places::{Place, tell_place};
use crate::refusal::Refusal;
use file_tables::value_at;
use std::alloc::Global;
use std::fmt::Write;
use std::net::SocketAddr;
use toml::{Table, Value};

/// The text at a key.
pub(crate) fn text_at<'a>(table: &'a Table, key: &str) -> Option<&'a str>
    ensures { option_map (λ text. text.now) result ≡ text_at key.now (table_view table.entry.now) }
{
    value_at(table, key)?.as_str()
}

/// The number at a key.
pub(crate) fn number_at(table: &Table, key: &str) -> Option<u16>
    ensures { result ≡ number_at key.now (table_view table.now) }
{
    small(value_at(table, key)?.as_integer())
}

/// A number from 0 to 65,535.
fn small(number: Option<i64>) -> Option<u16>
    ensures { result ≡ small number }
{
    match number {
        Some(number) => u16::try_from(number).ok(),
        None => None,
    }
}

/// Whether `true` stands at a key.
pub(crate) fn flag_at(table: &Table, key: &str) -> bool
    ensures { result ≡ flag_at key.now (table_view table.now) }
{
    match value_at(table, key) {
        Some(value) => value.as_bool().unwrap_or(false),
        None => false,
    }
}

/// The values of the array at a key.
fn values_at<'a>(table: &'a Table, key: &str) -> Option<&'a [Value]>
    ensures { option_map (λ values. items_view values.now) result ≡ values_at key.now (table_view table.entry.now) }
{
    match value_at(table, key)?.as_array() {
        Some(values) => Some(values.as_slice()),
        None => None,
    }
}

/// The values of the array at a key, none if there is no array.
pub(crate) fn items_at<'a>(table: &'a Table, key: &str) -> &'a [Value]
    ensures { items_view result.now ≡ items_at key.now (table_view table.entry.now) }
{
    match values_at(table, key) {
        Some(values) => values,
        None => &[],
    }
}

/// The table at a key.
pub(crate) fn table_at<'a>(table: &'a Table, key: &str) -> Option<&'a Table>
    ensures { option_map (λ entry. table_view entry.now) result ≡ table_at key.now (table_view table.entry.now) }
{
    value_at(table, key)?.as_table()
}

/// The table that a value is.
pub(crate) fn read_table<'a>(
    out: &mut String,
    place: Place,
    value: &'a Value,
) -> Result<&'a Table, Refusal>
    ensures { ReadsAs (λ table. table_view table.now) (λ entry. as_table (view value.entry.now) ≡ Some entry) result }
{
    let Some(table) = value.as_table() else {
        tell_place(out, place)?;
        out.push_str("it has to be a table")?;
        return Err(Refusal::Told);
    };
    Ok(table)
}

/// Reads an IP address and a port.
pub(crate) fn read_address(
    out: &mut String,
    place: Place,
    key: &str,
    text: &str,
) -> Result<SocketAddr, Refusal>
    ensures { Reads (IsSocketText text.now) result }
{
    if let Ok(address) = text.parse::<SocketAddr>() {
        return Ok(address);
    }
    tell_place(out, place)?;
    write!(
        out,
        "{key} = \"{text}\" has to be an IP address and a port, as 127.0.0.1:7001"
    )?;
    Err(Refusal::Told)
}

/// Reads who may connect, as the key `allow` of a table says it.
pub(crate) fn read_allow(
    alloc: Global,
    out: &mut String,
    place: Place,
    table: &Table,
) -> Result<Allow, Refusal>
    ensures { Reads (SaysAllow (table_view table.now)) result }
{
    let prefixes = match values_at(table, "allow") {
        Some(values) => Some(read_prefixes(alloc, out, place, values)?),
        None => None,
    };
    Ok(Allow { prefixes })
}

fn read_prefixes(
    alloc: Global,
    out: &mut String,
    place: Place,
    values: &[Value],
) -> Result<Vec<Prefix>, Refusal>
    ensures { Reads (λ prefixes. EachSays Prefix SaysPrefix (items_view values.now) prefixes.items) result }
{
    let mut prefixes = Vec::new(alloc);
    for value in values {
        prefixes.push(read_prefix(out, place, value)?)?;
    }
    Ok(prefixes)
}

fn read_prefix(out: &mut String, place: Place, value: &Value) -> Result<Prefix, Refusal>
    ensures { Reads (SaysPrefix (view value.now)) result }
{
    let Some(text) = value.as_str() else {
        tell_place(out, place)?;
        out.push_str("allow has to be texts in quotes, between brackets")?;
        return Err(Refusal::Told);
    };
    let Some(prefix) = Prefix::read(text) else {
        tell_place(out, place)?;
        write!(
            out,
            "allow = \"{text}\" has to be an IP address, / and how many bits of it count, as 10.0.0.0/8"
        )?;
        return Err(Refusal::Told);
    };
    Ok(prefix)
}
