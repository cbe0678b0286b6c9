//! What a check of a service file says.
ghost use Rattle.std.specs.Prelude.{◌≡◌, IfOk, codes, string_bytes, option_map};
ghost use Rattle.toml.specs.View.{table_view};
ghost use Rattle.service_files.specs.Reads.{text_at};
ghost use Rattle.service_files.specs.Checks.{Names};

use crate::file::ServiceFile;
use crate::line_rules::{first_broken_line, own_nodes};
use crate::line_telling::tell_broken_line;
use crate::reading::{read_document, read_service};
use crate::refusal::Refusal;
use crate::rules::first_broken_binding;
use crate::telling::{tell_bindings, tell_broken};
use crate::values::text_at;
use net_config::Config;
use network_reasons::{Checked, read_network};
use std::alloc::{AllocError, Global};
use std::fmt::Write;
use toml::Table;

/// The name of the network's file that a service file's octets have, if they are a document that has one.
pub fn network_name(alloc: Global, octets: &[u8]) -> Result<Option<String>, AllocError>
    ensures { IfOk result (Names octets.now) }
{
    let mut told = String::new(alloc);
    match read_document(alloc, &mut told, octets) {
        Ok(document) => name_in(alloc, &document),
        Err(Refusal::Told) => Ok(None),
        Err(Refusal::OutOfMemory) => Err(AllocError),
    }
}

fn name_in(alloc: Global, document: &Table) -> Result<Option<String>, AllocError>
    ensures { IfOk result (λ name. option_map string_bytes name ≡ text_at (codes "network") (table_view document.now)) }
{
    match text_at(document, "network") {
        Some(name) => Ok(Some(String::from_str(alloc, name)?)),
        None => Ok(None),
    }
}

/// Checks the octets of a service file, and those of the network's file that it names. What is wrong first is told in
/// one line: of the service file's form, of the network, else of how they fit. If nothing is, each binding has a line.
pub fn check_service(alloc: Global, octets: &[u8], network: &[u8]) -> Result<Checked, AllocError> {
    let mut text = String::new(alloc);
    let is_right = match tell_service(alloc, &mut text, octets, network) {
        Ok(()) => true,
        Err(Refusal::Told) => false,
        Err(Refusal::OutOfMemory) => return Err(AllocError),
    };
    text.push_str("\n")?;
    Ok(Checked { text, is_right })
}

fn tell_service(
    alloc: Global,
    out: &mut String,
    octets: &[u8],
    network: &[u8],
) -> Result<(), Refusal> {
    let document = read_document(alloc, out, octets)?;
    let file = read_service(alloc, out, &document)?;
    let config = config_of(alloc, out, network)?;
    tell_fit(alloc, out, &config, &file)
}

/// The network of a file. What is wrong with it first is told.
fn config_of(alloc: Global, out: &mut String, network: &[u8]) -> Result<Config, Refusal> {
    let mut told = String::new(alloc);
    match read_network(alloc, &mut told, network)? {
        Some(config) => Ok(config),
        None => {
            write!(out, "network: {told}")?;
            Err(Refusal::Told)
        }
    }
}

/// Tells what does not fit first; if all fits, what each binding is.
fn tell_fit(
    alloc: Global,
    out: &mut String,
    config: &Config,
    file: &ServiceFile<'_>,
) -> Result<(), Refusal> {
    if let Some(broken) = first_broken_binding(config, file) {
        tell_broken(alloc, out, config, file, broken)?;
        return Err(Refusal::Told);
    }
    let own = own_nodes(alloc, config, file)?;
    match first_broken_line(config, file, own.as_slice()) {
        None => Ok(tell_bindings(out, config, file)?),
        Some(broken) => {
            tell_broken_line(out, config, file, broken)?;
            Err(Refusal::Told)
        }
    }
}
