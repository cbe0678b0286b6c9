//! What the values of the keys of a table may be.
ghost use Rattle.std.specs.Prelude.{◌≡◌, is_some, option_map};
ghost use Rattle.std.specs.List.{list_all};
ghost use Rattle.std.specs.Char.{is_ascii_alphanumeric, is_ascii_digit};
ghost use Rattle.toml.specs.Data.{get_member, as_str, as_table, as_array};
ghost use Rattle.toml.specs.View.{view, table_view, items_view};
ghost use Rattle.file_tables.specs.Forms.{are_digits, are_pairs, is_text_of, is_some_text_of, is_up_to, items_all, is_array_of};
ghost use Rattle.file_tables.specs.Forms.{is_of_form, suits};

use toml::{Table, Value};
use x28_commands::read_pairs;

/// How many octets pairs have at most: 18 pairs of two numbers of three digits.
const MOST_IN_PAIRS: usize = 143;

/// What a text may be.
#[derive(Clone, Copy)]
pub enum TextForm {
    Any,
    /// Letters and digits, at least one.
    Name,
    OneOf(&'static [&'static str]),
    /// 1 to 15 digits.
    Digits,
    /// Up to 15 digits.
    DigitsOrNone,
    /// Up to 18 pairs of a number and a value, as `2:0,3:2`, or nothing.
    Pairs,
}

/// What a value may be.
#[derive(Clone, Copy)]
pub enum Form {
    Text(TextForm),
    /// A whole number from 0 to this one.
    Number(u16),
    /// `true` or `false`.
    Flag,
    /// An array of texts.
    Texts,
    /// An array of tables.
    Tables,
    Table,
}

/// A key that a table may have.
#[derive(Clone, Copy)]
pub struct Key {
    pub name: &'static str,
    pub form: Form,
    /// Whether it has to be there.
    pub needed: bool,
}

/// Whether what stands at a key of a table is what it has to be.
pub(crate) fn suits(key: &Key, table: &Table) -> bool
    ensures { result ≡ suits key.now (get_member key.now.name.now (table_view table.now)) }
{
    match value_at(table, key.name) {
        None => !key.needed,
        Some(value) => is_of_form(key.form, value),
    }
}

/// The value at a key.
pub fn value_at<'a>(table: &'a Table, name: &str) -> Option<&'a Value>
    ensures { option_map (λ value. view value.now) result ≡ get_member name.now (table_view table.now) }
{
    table.get(name)
}

fn is_of_form(form: Form, value: &Value) -> bool
    ensures { result ≡ is_of_form form (view value.now) }
{
    match form {
        Form::Text(form) => is_some_text_of(form, value.as_str()),
        Form::Number(most) => is_up_to(most, value.as_integer()),
        Form::Flag => value.as_bool().is_some(),
        Form::Texts => are_texts(value),
        Form::Tables => are_tables(value),
        Form::Table => value.as_table().is_some(),
    }
}

fn is_some_text_of(form: TextForm, text: Option<&str>) -> bool
    ensures { result ≡ is_some_text_of form (option_map (λ text. text.now) text.entry) }
{
    match text {
        Some(text) => is_text_of(form, text),
        None => false,
    }
}

fn is_text_of(form: TextForm, text: &str) -> bool
    ensures { result ≡ is_text_of form text.now }
{
    match form {
        TextForm::Any => true,
        TextForm::Name => !text.is_empty() && are_alphanumeric(text.as_bytes()),
        TextForm::OneOf(words) => words.contains(&text),
        TextForm::Digits => !text.is_empty() && are_digits(text.as_bytes()),
        TextForm::DigitsOrNone => are_digits(text.as_bytes()),
        TextForm::Pairs => text.is_empty() || are_pairs(text.as_bytes()),
    }
}

fn are_alphanumeric(octets: &[u8]) -> bool
    ensures { result ≡ list_all is_ascii_alphanumeric octets.now }
{
    octets.iter().all(|octet| octet.is_ascii_alphanumeric())
}

/// Whether a text is up to 15 digits.
fn are_digits(octets: &[u8]) -> bool
    ensures { result ≡ are_digits octets.now }
{
    are_all_digits(octets) && octets.len() <= 15
}

fn are_all_digits(octets: &[u8]) -> bool
    ensures { result ≡ list_all is_ascii_digit octets.now }
{
    octets.iter().all(|octet| octet.is_ascii_digit())
}

fn are_pairs(text: &[u8]) -> bool
    ensures { result ≡ are_pairs text.now }
{
    text.len() <= MOST_IN_PAIRS && read_pairs(text).is_ok()
}

fn is_up_to(most: u16, number: Option<i64>) -> bool
    ensures { result ≡ is_up_to most number }
{
    match number {
        Some(number) => match u16::try_from(number) {
            Ok(number) => number <= most,
            Err(_) => false,
        },
        None => false,
    }
}

fn are_texts(value: &Value) -> bool
    ensures { result ≡ is_array_of (λ d. is_some (as_str d)) (as_array (view value.now)) }
{
    match value.as_array() {
        Some(values) => all_texts(values),
        None => false,
    }
}

fn all_texts(values: &[Value]) -> bool
    ensures { result ≡ list_all (λ v. is_some (as_str (view v))) values.now }
{
    values.iter().all(|value| value.as_str().is_some())
}

fn are_tables(value: &Value) -> bool
    ensures { result ≡ is_array_of (λ d. is_some (as_table d)) (as_array (view value.now)) }
{
    match value.as_array() {
        Some(values) => all_tables(values),
        None => false,
    }
}

fn all_tables(values: &[Value]) -> bool
    ensures { result ≡ list_all (λ v. is_some (as_table (view v))) values.now }
{
    values.iter().all(|value| value.as_table().is_some())
}
