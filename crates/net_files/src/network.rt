//! The text of a network, in TOML.
ghost use Rattle.std.specs.Prelude.{◌≡◌, Some, None, IsErrOf, true, string_bytes};
ghost use Rattle.toml.specs.View.{view, table_view, items_view};
ghost use Rattle.toml.specs.Data.{as_table};
ghost use Rattle.net_config.specs.declared.config.NodeConfig.{NodeConfig};
ghost use Rattle.net_config.specs.declared.config.LineConfig.{LineConfig};
ghost use Rattle.net_config.specs.declared.config.RouteConfig.{RouteConfig};
ghost use Rattle.net_files.specs.Marks.{begins_with_mark};
ghost use Rattle.net_files.specs.Entries.{passing};
ghost use Rattle.net_files.specs.Networks.{profile_word, kind_word, IsOfKind, IsPad, IsNode, is_address};
ghost use Rattle.net_files.specs.Networks.{is_address_or_none, IsLine, IsRoute, TablesForm, IsNetwork, Spells};
ghost use Rattle.net_files.specs.DocumentAnswers.{Finds, Makes};

use crate::entries::{array, flag, has_only, name, number, text};
use crate::fault::ProgFault;
use crate::settings::read_settings;
use net_config::{Config, LineConfig, NodeConfig, NodeKind, RouteConfig, TerminalsConfig};
use packet_codec::Address;
use std::alloc::Global;
use toml::{Table, Value};
use x3_params::Profile;

/// The built-in network: a PAD and a host, and a standing call on the one channel of their line.
pub const FIRST: &str = r#"
[[node]]
name = "pad"
kind = "pad"
set = "3:2,15:1"

[[node]]
name = "host"
kind = "host"

[[line]]
dte = "pad"
dce = "host"
channels = 1
standing = true
"#;

/// The byte order mark, which some editors write before a text.
const BYTE_ORDER_MARK: &str = "\u{FEFF}";

/// Reads a network: the tables `node`, `line` and `route`, in order.
///
/// `OutOfMemory` comes for want of memory. What the values mean is tested when the network is made. `NetText` comes if
/// one of these holds:
///
/// - The text is no TOML document, or begins with a byte order mark.
/// - A key is unknown, missing or of the wrong type.
/// - A number is not 0 to 65,535.
/// - A name, address, kind, profile or list of parameters has another form.
pub fn read_net(alloc: Global, text: &str) -> Result<Config, ProgFault>
    ensures spelled { Makes (Spells text.now) result }
    ensures marked { begins_with_mark text.now ≡ true → IsErrOf result ProgFault.NetText }
{
    if text.starts_with(BYTE_ORDER_MARK) {
        return Err(ProgFault::NetText);
    }
    match toml::table_from_str(alloc, text) {
        Ok(document) => read_document(alloc, &document),
        Err(error) if error.is_memory() => Err(ProgFault::OutOfMemory),
        Err(_) => Err(ProgFault::NetText),
    }
}

/// The network of a document.
fn read_document(alloc: Global, document: &Table) -> Result<Config, ProgFault>
    ensures { Makes (IsNetwork (table_view document.now)) result }
{
    if !has_only(document, &["node", "line", "route"]) {
        return Err(ProgFault::NetText);
    }
    let nodes = array(document, "node")?;
    let lines = array(document, "line")?;
    let routes = array(document, "route")?;
    Ok(Config {
        nodes: read_nodes(alloc, nodes)?,
        lines: read_lines(alloc, lines)?,
        routes: read_routes(alloc, routes)?,
    })
}

/// The nodes of the tables of an array.
fn read_nodes(alloc: Global, tables: &[Value]) -> Result<Vec<NodeConfig>, ProgFault>
    ensures { Makes (λ nodes. TablesForm NodeConfig IsNode (items_view tables.now) nodes.items) result }
{
    let mut nodes = Vec::new(alloc);
    for value in tables {
        nodes.push(read_node(alloc, table(value)?)?)?;
    }
    Ok(nodes)
}

/// The lines of the tables of an array.
fn read_lines(alloc: Global, tables: &[Value]) -> Result<Vec<LineConfig>, ProgFault>
    ensures { Makes (λ lines. TablesForm LineConfig IsLine (items_view tables.now) lines.items) result }
{
    let mut lines = Vec::new(alloc);
    for value in tables {
        lines.push(read_line(alloc, table(value)?)?)?;
    }
    Ok(lines)
}

/// The routes of the tables of an array.
fn read_routes(alloc: Global, tables: &[Value]) -> Result<Vec<RouteConfig>, ProgFault>
    ensures { Makes (λ routes. TablesForm RouteConfig IsRoute (items_view tables.now) routes.items) result }
{
    let mut routes = Vec::new(alloc);
    for value in tables {
        routes.push(read_route(alloc, table(value)?)?)?;
    }
    Ok(routes)
}

/// The table that a value is.
fn table(value: &Value) -> Result<&Table, ProgFault>
    ensures { Finds (λ entry. table_view entry.now) result (as_table (view value.now)) }
{
    value.as_table().ok_or(ProgFault::NetText)
}

/// The node of a table.
fn read_node(alloc: Global, entry: &Table) -> Result<NodeConfig, ProgFault>
    ensures { Makes (IsNode (table_view entry.now)) result }
{
    Ok(NodeConfig {
        name: name(alloc, entry, "name")?,
        kind: read_kind(alloc, entry, text(entry, "kind", None)?)?,
    })
}

/// The kind of a node, which has this word, and what the node has beside.
fn read_kind(alloc: Global, entry: &Table, word: &str) -> Result<NodeKind, ProgFault>
    ensures { Makes (λ kind. (word.now ≡ kind_word kind) × IsOfKind (table_view entry.now) kind) result }
{
    match word {
        "pad" => Ok(NodeKind::Pad(read_pad(alloc, entry)?)),
        "host" if has_only(entry, &["name", "kind"]) => Ok(NodeKind::Host),
        "switch" if has_only(entry, &["name", "kind"]) => Ok(NodeKind::Switch),
        _ => Err(ProgFault::NetText),
    }
}

/// What a PAD has beside its name and its kind.
fn read_pad(alloc: Global, entry: &Table) -> Result<TerminalsConfig, ProgFault>
    ensures { Makes (IsPad (table_view entry.now)) result }
{
    if !has_only(
        entry,
        &["name", "kind", "terminals", "profile", "set", "speed"],
    ) {
        return Err(ProgFault::NetText);
    }
    Ok(TerminalsConfig {
        terminals: number(entry, "terminals", Some(1))?,
        profile: read_profile(text(entry, "profile", Some("SIMPLE"))?)?,
        speed: number(entry, "speed", Some(14))?,
        settings: read_settings(alloc, text(entry, "set", Some(""))?)?,
    })
}

/// The profile of this word.
fn read_profile(word: &str) -> Result<Profile, ProgFault>
    ensures { Makes (λ profile. word.now ≡ profile_word profile) result }
{
    match word {
        "SIMPLE" => Ok(Profile::Simple),
        "TRANSPARENT" => Ok(Profile::Transparent),
        _ => Err(ProgFault::NetText),
    }
}

/// The line of a table.
fn read_line(alloc: Global, entry: &Table) -> Result<LineConfig, ProgFault>
    ensures { Makes (IsLine (table_view entry.now)) result }
{
    if !has_only(
        entry,
        &[
            "dte", "dce", "address", "channels", "modulo", "size", "window", "k", "n2", "standing",
        ],
    ) {
        return Err(ProgFault::NetText);
    }
    Ok(LineConfig {
        channels: number(entry, "channels", Some(4))?,
        modulo: number(entry, "modulo", Some(8))?,
        size: number(entry, "size", Some(128))?,
        window: number(entry, "window", Some(2))?,
        k: number(entry, "k", Some(7))?,
        n2: number(entry, "n2", Some(3))?,
        standing: flag(entry, "standing", Some(false))?,
        dte: name(alloc, entry, "dte")?,
        dce: name(alloc, entry, "dce")?,
        address: read_address(alloc, text(entry, "address", Some(""))?)?,
    })
}

/// The route of a table.
fn read_route(alloc: Global, entry: &Table) -> Result<RouteConfig, ProgFault>
    ensures { Makes (IsRoute (table_view entry.now)) result }
{
    if !has_only(entry, &["switch", "prefix", "line"]) {
        return Err(ProgFault::NetText);
    }
    Ok(RouteConfig {
        line: number(entry, "line", None)?,
        switch: name(alloc, entry, "switch")?,
        prefix: read_prefix(alloc, text(entry, "prefix", None)?)?,
    })
}

/// An address, or no text.
fn read_address(alloc: Global, text: &str) -> Result<String, ProgFault>
    ensures { Makes (λ address. passing is_address_or_none (Some text.now) ≡ Some (string_bytes address)) result }
{
    if !text.is_empty() && !is_address(text) {
        return Err(ProgFault::NetText);
    }
    Ok(String::from_str(alloc, text)?)
}

/// A prefix, which has the form of an address.
fn read_prefix(alloc: Global, text: &str) -> Result<String, ProgFault>
    ensures { Makes (λ prefix. passing is_address (Some text.now) ≡ Some (string_bytes prefix)) result }
{
    if !is_address(text) {
        return Err(ProgFault::NetText);
    }
    Ok(String::from_str(alloc, text)?)
}

/// Whether a text is 1 to 15 digits.
fn is_address(text: &str) -> bool
    ensures { result ≡ is_address text.now }
{
    Address::read(text.as_bytes()).is_ok()
}
