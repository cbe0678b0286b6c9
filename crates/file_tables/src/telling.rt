//! How a fault is told.
use crate::faults::TableFault;
use crate::forms::{Form, Key, TextForm};
use std::alloc::{AllocError, Global};
use std::fmt::Write;
use strsim::levenshtein;
use toml::Value;

/// How many letters of a word may differ from the one that is meant.
const MOST_EDITS: usize = 2;

/// Tells what is wrong with a table that may have these keys.
pub fn tell_fault(
    alloc: Global,
    out: &mut String,
    keys: &[Key],
    fault: &TableFault<'_>,
) -> Result<(), AllocError> {
    match *fault {
        TableFault::Unknown(name) => {
            write!(out, "no key '{name}' is known here")?;
            let mut names = Vec::new(alloc);
            for key in keys {
                names.push(key.name)?;
            }
            did_you_mean(alloc, out, name, names.as_slice())
        }
        TableFault::Missing(key) => write!(out, "the key '{}' is missing", key.name),
        TableFault::Wrong(key, value) => {
            write!(out, "{} = ", key.name)?;
            tell_value(out, value)?;
            out.push_str(" has to be ")?;
            tell_form(alloc, out, key.form, value)
        }
    }
}

/// Tells a value, one in one line, of which more than a text, a number or a flag is not told.
pub fn tell_value(out: &mut String, value: &Value) -> Result<(), AllocError> {
    match value {
        Value::String(text) => write!(out, "\"{text}\""),
        Value::Integer(number) => write!(out, "{number}"),
        Value::Boolean(flag) => write!(out, "{flag}"),
        other => write!(out, "({})", other.type_str()),
    }
}

fn tell_form(alloc: Global, out: &mut String, form: Form, value: &Value) -> Result<(), AllocError> {
    match form {
        Form::Text(form) => tell_text_form(alloc, out, form, value.as_str()),
        Form::Number(most) => { write!(out, "a whole number from 0 to {most}, without quotes") }
        Form::Flag => out.push_str("true or false, without quotes"),
        Form::Texts => out.push_str("texts in quotes, between brackets"),
        Form::Tables => out.push_str("tables, each of which begins with [[ and its name and ]]"),
        Form::Table => out.push_str("a table, which begins with [ and its name and ]"),
    }
}

fn tell_text_form(
    alloc: Global,
    out: &mut String,
    form: TextForm,
    text: Option<&str>,
) -> Result<(), AllocError> {
    match form {
        TextForm::Any => out.push_str("a text in quotes"),
        TextForm::Name => out.push_str("letters and digits alone, in quotes"),
        TextForm::Digits => out.push_str("1 to 15 digits, in quotes"),
        TextForm::DigitsOrNone => out.push_str("1 to 15 digits, in quotes, or left out"),
        TextForm::Pairs => out.push_str(
            "pairs without spaces, as \"3:2,15:1\": up to 18, with numbers of 1 to 3 digits up to 255",
        ),
        TextForm::OneOf(words) => {
            out.push_str("one of")?;
            for word in words {
                write!(out, " \"{word}\"")?;
            }
            match text {
                Some(text) => did_you_mean(alloc, out, text, words),
                None => Ok(()),
            }
        }
    }
}

/// Asks whether the known word that is most like this one is meant, if one is like it.
pub fn did_you_mean(
    alloc: Global,
    out: &mut String,
    word: &str,
    known: &[&str],
) -> Result<(), AllocError> {
    match nearest(alloc, word, known)? {
        Some(meant) => write!(out, " (did you mean '{meant}'?)"),
        None => Ok(()),
    }
}

/// The first of the known words that are most like a word, if it differs by letters in capitals, or by one or two
/// letters and not by all.
fn nearest<'a>(
    alloc: Global,
    word: &str,
    known: &[&'a str],
) -> Result<Option<&'a str>, AllocError> {
    let mut best = None;
    let mut least = MOST_EDITS + 1;
    for other in known {
        let edits = edits_between(alloc, word, other)?;
        if edits < least && edits < other.len() && *other != word {
            best = Some(*other);
            least = edits;
        }
    }
    Ok(best)
}

fn edits_between(alloc: Global, word: &str, other: &str) -> Result<usize, AllocError> {
    if word.eq_ignore_ascii_case(other) {
        return Ok(0);
    }
    levenshtein(alloc, word, other)
}
