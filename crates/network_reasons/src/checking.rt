//! What a check of a network's file says.
ghost use Rattle.std.specs.Prelude.{◌≡◌, IfOk, IsUtf8, MatchOption, true, false};
ghost use Rattle.net_config.specs.Served.{is_served};
ghost use Rattle.net_files.specs.Networks.{Spells};
ghost use Rattle.network_reasons.specs.Checks.{Checks, IsRefused, IsRead};

use crate::reasons::tell_text;
use crate::rules::tell_rule;
use net_config::{Config, first_broken_rule};
use net_files::{ProgFault, read_net};
use std::alloc::{AllocError, Global};
use std::fmt::Write;
use std::str;

/// What a check of a file says: a text of whole lines, and whether nothing is wrong.
#[derive(Drop)]
pub struct Checked {
    pub text: String,
    pub is_right: bool,
}

/// Checks the octets of a network's file: it is right exactly if `x25net` makes the network. What is wrong first is
/// told in one line, else how many nodes, lines and routes there are.
pub fn check_network(alloc: Global, octets: &[u8]) -> Result<Checked, AllocError>
    ensures { IfOk result (λ checked. Checks octets.now checked.is_right) }
{
    let mut text = String::new(alloc);
    let is_right = tell_network(alloc, &mut text, octets)?;
    text.push_str("\n")?;
    Ok(Checked { text, is_right })
}

/// Tells what is wrong first, or what there is, and whether nothing is wrong.
fn tell_network(alloc: Global, out: &mut String, octets: &[u8]) -> Result<bool, AllocError>
    ensures { IfOk result (Checks octets.now) }
{
    match read_network(alloc, out, octets)? {
        Some(config) => {
            tell_counts(out, &config)?;
            Ok(true)
        }
        None => Ok(false),
    }
}

/// The network of a file's octets, if they spell one that is served. If not, what is wrong first is added to `out`.
pub fn read_network(
    alloc: Global,
    out: &mut String,
    octets: &[u8],
) -> Result<Option<Config>, AllocError>
    ensures { IfOk result (λ config. MatchOption config (IsRefused octets.now) (IsRead octets.now)) }
{
    match text_of(octets) {
        Some(text) => read_text(alloc, out, text),
        None => {
            out.push_str("the text is no UTF-8")?;
            Ok(None)
        }
    }
}

/// The text that octets are, if they are one.
pub fn text_of(octets: &[u8]) -> Option<&str>
    ensures { MatchOption result (¬ IsUtf8 octets.entry.now) (λ text. text.now ≡ octets.entry.now) }
{
    match str::from_utf8(octets) {
        Ok(text) => Some(text),
        Err(_) => None,
    }
}

/// Reads a network's text, and tells why it is refused if it is.
fn read_text(alloc: Global, out: &mut String, text: &str) -> Result<Option<Config>, AllocError>
    ensures { IfOk result (λ config. MatchOption config (IsRefused text.now) (IsRead text.now)) }
{
    match read_net(alloc, text) {
        Ok(config) => served(alloc, out, config),
        Err(ProgFault::NetText) => {
            tell_text(alloc, out, text)?;
            Ok(None)
        }
        Err(_) => Err(AllocError),
    }
}

/// A network, if it is served. If not, the rule that does not hold is told.
fn served(alloc: Global, out: &mut String, config: Config) -> Result<Option<Config>, AllocError>
    ensures { IfOk result (λ served. MatchOption served (is_served config ≡ false)
        (λ same. (same ≡ config) × (is_served config ≡ true))) }
{
    match first_broken_rule(&config) {
        None => Ok(Some(config)),
        Some(broken) => {
            tell_rule(alloc, out, &config, broken)?;
            Ok(None)
        }
    }
}

fn tell_counts(out: &mut String, config: &Config) -> Result<(), AllocError> {
    let nodes = config.nodes.len();
    let lines = config.lines.len();
    let routes = config.routes.len();
    write!(
        out,
        "a network of {nodes} nodes, {lines} lines and {routes} routes"
    )
}
