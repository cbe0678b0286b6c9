//! Where in a service file something stands, and how what is wrong there is told.
ghost use Rattle.std.specs.Prelude.{◌≡◌, false, true, find, is_some};
ghost use Rattle.toml.specs.Data.{get_member};
ghost use Rattle.toml.specs.View.{table_view};
ghost use Rattle.file_tables.specs.Faults.{is_right};
ghost use Rattle.service_files.specs.Reads.{Reads, has_key, has_one};

use crate::refusal::Refusal;
use file_tables::{Key, first_fault, tell_fault, value_at};
use std::alloc::{AllocError, Global};
use std::fmt::Write;
use toml::Table;

/// Where in the file something stands. Tables of an array count from 0.
#[derive(Clone, Copy)]
pub(crate) enum Place {
    Document,
    Limits,
    Web,
    Terminals(usize),
    Service(usize),
    Caller(usize),
    Line(usize),
    Capture,
}

/// Tells where something stands.
pub(crate) fn tell_place(out: &mut String, place: Place) -> Result<(), AllocError> {
    match place {
        Place::Document => Ok(()),
        Place::Limits => out.push_str("limits: "),
        Place::Web => out.push_str("web: "),
        Place::Terminals(place) => write!(out, "terminals {place}: "),
        Place::Service(place) => write!(out, "service {place}: "),
        Place::Caller(place) => write!(out, "caller {place}: "),
        Place::Line(place) => write!(out, "line {place}: "),
        Place::Capture => out.push_str("capture: "),
    }
}

/// Tells what is wrong at a place.
pub(crate) fn tell_at(out: &mut String, place: Place, told: &str) -> Result<(), AllocError> {
    tell_place(out, place)?;
    out.push_str(told)
}

/// Tells what is wrong first in a table that may have these keys, if something is.
pub(crate) fn look_at(
    alloc: Global,
    out: &mut String,
    place: Place,
    keys: &[Key],
    table: &Table,
) -> Result<(), Refusal>
    ensures { Reads (λ _. is_right keys.now (table_view table.now) ≡ true) result }
{
    match first_fault(keys, table) {
        None => Ok(()),
        Some(fault) => {
            tell_place(out, place)?;
            tell_fault(alloc, out, keys, &fault)?;
            Err(Refusal::Told)
        }
    }
}

/// The first of these keys that a table has.
fn first_had<'a>(table: &Table, keys: &'a [&'a str]) -> Option<&'a str>
    ensures { result ≡ find (has_key (table_view table.now)) keys.entry.now }
{
    keys.iter().copied().find(|key| has_key(table, key))
}

fn has_key(table: &Table, key: &str) -> bool
    ensures { result ≡ is_some (get_member key.now (table_view table.now)) }
{
    value_at(table, key).is_some()
}

/// Refuses a table that has one of these keys.
pub(crate) fn refuse_keys(
    out: &mut String,
    place: Place,
    table: &Table,
    keys: &[&str],
    told: &str,
) -> Result<(), Refusal>
    ensures { Reads (λ _. has_one (table_view table.now) keys.now ≡ false) result }
{
    match first_had(table, keys) {
        None => Ok(()),
        Some(key) => {
            tell_place(out, place)?;
            write!(out, "{key} {told}")?;
            Err(Refusal::Told)
        }
    }
}
