//! What is at the keys of a table of a network's document.
ghost use Rattle.std.specs.Prelude.{◌≡◌, Some, None, map, option_map, string_bytes};
ghost use Rattle.std.specs.List.{list_all};
ghost use Rattle.std.specs.Char.{is_ascii_alphanumeric};
ghost use Rattle.std.specs.BTreeMap.{keys};
ghost use Rattle.toml.specs.Data.{get_member};
ghost use Rattle.toml.specs.View.{view, table_view, items_view};
ghost use Rattle.net_files.specs.Entries.{is_among, has_only, text_at, small, number_at, flag_at, array_at};
ghost use Rattle.net_files.specs.Entries.{is_name, name_at};
ghost use Rattle.net_files.specs.DocumentAnswers.{Finds, Makes};

use crate::fault::ProgFault;
use std::alloc::Global;
use toml::{Table, Value};

/// Whether each key of a table is one of these.
pub(crate) fn has_only(entry: &Table, known: &[&str]) -> bool
    ensures { result ≡ has_only (map (λ name. name.now) known.now) (table_view entry.now) }
{
    all_among(entry, known)
}

/// Whether each key of the map that a table is in the code is one of these.
fn all_among(entry: &Table, known: &[&str]) -> bool
    ensures { result
        ≡ list_all (λ key. is_among (map (λ name. name.now) known.now) (string_bytes key)) (keys entry.now) }
{
    entry.keys().all(|key| is_among(key.as_str(), known))
}

fn is_among(key: &str, known: &[&str]) -> bool
    ensures { result ≡ is_among (map (λ name. name.now) known.now) key.now }
{
    known.contains(&key)
}

/// The value at a key.
fn value<'a>(entry: &'a Table, key: &str) -> Option<&'a Value>
    ensures { option_map (λ value. view value.now) result ≡ get_member key.now (table_view entry.now) }
{
    entry.get(key)
}

/// The text at a key, or the one that stands for it where it is left out.
pub(crate) fn text<'a>(
    entry: &'a Table,
    key: &str,
    left_out: Option<&'a str>,
) -> Result<&'a str, ProgFault>
    ensures { Finds (λ text. text.now) result
        (text_at key.now (option_map (λ text. text.now) left_out.entry) (table_view entry.now)) }
{
    match value(entry, key) {
        None => left_out.ok_or(ProgFault::NetText),
        Some(value) => value.as_str().ok_or(ProgFault::NetText),
    }
}

/// The number at a key, or the one that stands for it where it is left out.
pub(crate) fn number(entry: &Table, key: &str, left_out: Option<u16>) -> Result<u16, ProgFault>
    ensures { Finds (λ number. number) result (number_at key.now left_out (table_view entry.now)) }
{
    match value(entry, key) {
        None => left_out.ok_or(ProgFault::NetText),
        Some(value) => small(value.as_integer()).ok_or(ProgFault::NetText),
    }
}

/// A number from 0 to 65,535.
fn small(number: Option<i64>) -> Option<u16>
    ensures { result ≡ small number }
{
    match number {
        Some(number) => u16::try_from(number).ok(),
        None => None,
    }
}

/// Whether `true` stands at a key, or what stands for it where it is left out.
pub(crate) fn flag(entry: &Table, key: &str, left_out: Option<bool>) -> Result<bool, ProgFault>
    ensures { Finds (λ flag. flag) result (flag_at key.now left_out (table_view entry.now)) }
{
    match value(entry, key) {
        None => left_out.ok_or(ProgFault::NetText),
        Some(value) => value.as_bool().ok_or(ProgFault::NetText),
    }
}

/// The values of the array at a key, none where it is left out.
pub(crate) fn array<'a>(document: &'a Table, key: &str) -> Result<&'a [Value], ProgFault>
    ensures { Finds (λ values. items_view values.now) result (array_at key.now (table_view document.now)) }
{
    match value(document, key) {
        None => Ok(&[]),
        Some(value) => match value.as_array() {
            Some(values) => Ok(values.as_slice()),
            None => Err(ProgFault::NetText),
        },
    }
}

/// The name at a key.
pub(crate) fn name(alloc: Global, entry: &Table, key: &str) -> Result<String, ProgFault>
    ensures { Makes (λ name. name_at key.now (table_view entry.now) ≡ Some (string_bytes name)) result }
{
    let name = text(entry, key, None)?;
    if !is_name(name) {
        return Err(ProgFault::NetText);
    }
    Ok(String::from_str(alloc, name)?)
}

/// Whether a text has letters and digits, and nothing else.
fn is_name(text: &str) -> bool
    ensures { result ≡ is_name text.now }
{
    !text.is_empty() && are_alphanumeric(text.as_bytes())
}

fn are_alphanumeric(octets: &[u8]) -> bool
    ensures { result ≡ list_all is_ascii_alphanumeric octets.now }
{
    octets.iter().all(|octet| octet.is_ascii_alphanumeric())
}
