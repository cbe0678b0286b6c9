//! What is wrong first in a network's text.
use file_tables::{Form, Key, TableFault, TextForm, first_fault, tell_fault};
use std::alloc::{AllocError, Global};
use std::fmt::Write;
use toml::{Table, Value};

const NAME: Form = Form::Text(TextForm::Name);

const KIND: Form = Form::Text(TextForm::OneOf(&["pad", "host", "switch"]));

const PROFILE: Form = Form::Text(TextForm::OneOf(&["SIMPLE", "TRANSPARENT"]));

const SMALL: Form = Form::Number(u16::MAX);

const DOCUMENT: &[Key] = &[
    Key {
        name: "node",
        form: Form::Tables,
        needed: false,
    },
    Key {
        name: "line",
        form: Form::Tables,
        needed: false,
    },
    Key {
        name: "route",
        form: Form::Tables,
        needed: false,
    },
];

/// The keys of a host or a switch.
const NODE: &[Key] = &[
    Key {
        name: "name",
        form: NAME,
        needed: true,
    },
    Key {
        name: "kind",
        form: KIND,
        needed: true,
    },
];

const PAD: &[Key] = &[
    Key {
        name: "name",
        form: NAME,
        needed: true,
    },
    Key {
        name: "kind",
        form: KIND,
        needed: true,
    },
    Key {
        name: "terminals",
        form: SMALL,
        needed: false,
    },
    Key {
        name: "profile",
        form: PROFILE,
        needed: false,
    },
    Key {
        name: "set",
        form: Form::Text(TextForm::Pairs),
        needed: false,
    },
    Key {
        name: "speed",
        form: SMALL,
        needed: false,
    },
];

const LINE: &[Key] = &[
    Key {
        name: "dte",
        form: NAME,
        needed: true,
    },
    Key {
        name: "dce",
        form: NAME,
        needed: true,
    },
    Key {
        name: "address",
        form: Form::Text(TextForm::DigitsOrNone),
        needed: false,
    },
    Key {
        name: "channels",
        form: SMALL,
        needed: false,
    },
    Key {
        name: "modulo",
        form: SMALL,
        needed: false,
    },
    Key {
        name: "size",
        form: SMALL,
        needed: false,
    },
    Key {
        name: "window",
        form: SMALL,
        needed: false,
    },
    Key {
        name: "k",
        form: SMALL,
        needed: false,
    },
    Key {
        name: "n2",
        form: SMALL,
        needed: false,
    },
    Key {
        name: "standing",
        form: Form::Flag,
        needed: false,
    },
];

const ROUTE: &[Key] = &[
    Key {
        name: "switch",
        form: NAME,
        needed: true,
    },
    Key {
        name: "prefix",
        form: Form::Text(TextForm::Digits),
        needed: true,
    },
    Key {
        name: "line",
        form: SMALL,
        needed: true,
    },
];

/// An array of tables of the text.
#[derive(Clone, Copy)]
enum Array {
    Node,
    Line,
    Route,
}

/// Tells what is wrong first in a network's text, which is known to be no network's.
pub(crate) fn tell_text(alloc: Global, out: &mut String, text: &str) -> Result<(), AllocError> {
    if text.starts_with('\u{FEFF}') {
        return out.push_str("the text begins with a byte order mark: save it without one");
    }
    match toml::table_from_str(alloc, text) {
        Ok(document) => tell_document(alloc, out, &document),
        Err(error) => tell_no_toml(alloc, out, &error),
    }
}

/// Tells at which line and column a text is no TOML, and why. `AllocError` if no memory was left to read it.
pub fn tell_no_toml(
    alloc: Global,
    out: &mut String,
    error: &toml::de::Error,
) -> Result<(), AllocError> {
    if error.is_memory() {
        return Err(AllocError);
    }
    let told = error.to_string(alloc)?;
    match told.trim_end().split_once('\n') {
        Some((place, reason)) => write!(out, "{place}: {reason}"),
        None => out.push_str(told.trim_end()),
    }
}

fn tell_document(alloc: Global, out: &mut String, document: &Table) -> Result<(), AllocError> {
    if let Some(fault) = first_fault(DOCUMENT, document) {
        return tell_fault(alloc, out, DOCUMENT, &fault);
    }
    for array in [Array::Node, Array::Line, Array::Route] {
        if tell_array(alloc, out, document, array)? {
            return Ok(());
        }
    }
    out.push_str("the text is no network")
}

/// Tells what is wrong first in an array of tables, and whether something is.
fn tell_array(
    alloc: Global,
    out: &mut String,
    document: &Table,
    array: Array,
) -> Result<bool, AllocError> {
    let Some(Value::Array(tables)) = document.get(array.name()) else {
        return Ok(false);
    };
    for (place, value) in tables.iter().enumerate() {
        let Value::Table(table) = value else {
            return Ok(false);
        };
        let keys = array.keys(table);
        if let Some(fault) = first_fault(keys, table) {
            tell_place(out, array, place, table)?;
            tell_at(alloc, out, keys, &fault)?;
            return Ok(true);
        }
    }
    Ok(false)
}

fn tell_place(
    out: &mut String,
    array: Array,
    place: usize,
    table: &Table,
) -> Result<(), AllocError> {
    write!(out, "{} {place}", array.name())?;
    if let Some(Value::String(name)) = table.get("name") {
        write!(out, " ({name})")?;
    }
    out.push_str(": ")
}

fn tell_at(
    alloc: Global,
    out: &mut String,
    keys: &[Key],
    fault: &TableFault<'_>,
) -> Result<(), AllocError> {
    tell_fault(alloc, out, keys, fault)?;
    match *fault {
        TableFault::Unknown("terminals" | "profile" | "set" | "speed") => out.push_str(
            " (it belongs to a PAD)",
        ),
        _ => Ok(()),
    }
}

impl Array {
    fn name(self) -> &'static str {
        match self {
            Array::Node => "node",
            Array::Line => "line",
            Array::Route => "route",
        }
    }

    /// The keys that a table of the array may have.
    fn keys(self, table: &Table) -> &'static [Key] {
        match self {
            Array::Node if is_without_terminals(table) => NODE,
            Array::Node => PAD,
            Array::Line => LINE,
            Array::Route => ROUTE,
        }
    }
}

/// Whether a node is a host or a switch.
fn is_without_terminals(table: &Table) -> bool {
    match table.get("kind") {
        Some(Value::String(kind)) => matches!(kind.as_str(), "host" | "switch"),
        _ => false,
    }
}
