//! What is wrong first in a table.
ghost use Rattle.std.specs.Prelude.{◌≡◌, is_none, IfSome, option_map, find, not, string_bytes};
ghost use Rattle.std.specs.BTreeMap.{keys as keys_in};
ghost use Rattle.toml.specs.View.{table_view};
ghost use Rattle.file_tables.specs.Faults.{is_known, first_unknown, keeps, first_unsuited, is_right, IsFault};

use crate::forms::{Key, suits, value_at};
use toml::{Table, Value};

/// What is wrong with a table.
#[derive(Clone, Copy)]
pub enum TableFault<'a> {
    /// It has a key of this name, which is not known.
    Unknown(&'a str),
    /// It lacks this key.
    Missing(Key),
    /// The value at this key is not what it has to be.
    Wrong(Key, &'a Value),
}

/// What is wrong first in a table that may have these keys: the first of its own keys that is none of them, else the
/// first of them that is missing or has a wrong value.
pub fn first_fault<'a>(keys: &[Key], table: &'a Table) -> Option<TableFault<'a>>
    ensures none { is_none result ≡ is_right keys.now (table_view table.entry.now) }
    ensures fault { IfSome result (IsFault keys.now (table_view table.entry.now)) }
{
    if let Some(name) = first_unknown(keys, table) {
        return Some(TableFault::Unknown(name));
    }
    let key = first_unsuited(keys, table)?;
    Some(match value_at(table, key.name) {
        None => TableFault::Missing(key),
        Some(value) => TableFault::Wrong(key, value),
    })
}

/// The first key of a table that is none of these.
fn first_unknown<'a>(keys: &[Key], table: &'a Table) -> Option<&'a str>
    ensures { option_map (λ name. name.now) result ≡ first_unknown keys.now (table_view table.entry.now) }
{
    match find_unknown(keys, table) {
        Some(name) => Some(name.as_str()),
        None => None,
    }
}

/// The first key of a table, as a map in the code, that is none of these.
fn find_unknown<'a>(keys: &[Key], table: &'a Table) -> Option<&'a String>
    ensures { option_map (λ name. name.now) result
        ≡ find (λ name. not (is_known keys.now (string_bytes name))) (keys_in table.entry.now) }
{
    table.keys().find(|name| !is_known(keys, name.as_str()))
}

fn is_known(keys: &[Key], name: &str) -> bool
    ensures { result ≡ is_known keys.now name.now }
{
    keys.iter().any(|key| key.name == name)
}

/// The first of these keys whose value in a table is not what it has to be.
fn first_unsuited(keys: &[Key], table: &Table) -> Option<Key>
    ensures { result ≡ first_unsuited keys.now (table_view table.now) }
{
    keys.iter().copied().find(|key| !suits(key, table))
}
