//! Which networks are served.
ghost use Rattle.std.specs.Prelude.{◌≡◌, length, slice_get, string_bytes};
ghost use Rattle.net_config.specs.Served.{is_from, is_named, has_dte, has_end, place_of, is_accepted};
ghost use Rattle.net_config.specs.Served.{is_pad_served, is_kind_served, most_lines, is_route_of, is_node_served};
ghost use Rattle.net_config.specs.Served.{is_numbered, is_sized, is_within, is_pad, is_switch, is_dce_named};
ghost use Rattle.net_config.specs.Served.{is_pad_named, is_switch_named, suits_pad};
ghost use Rattle.net_config.specs.Served.{joins_nodes, leads_back, is_in_tree};
ghost use Rattle.net_config.specs.Served.{is_address, has_own_address, may_stand, is_line_served, ends_at};
ghost use Rattle.net_config.specs.Served.{same_route, is_route_served, is_served};
ghost use Rattle.std.specs.List.{list_all, list_any, filter, position};

use crate::config::{
    Config, LineConfig, NodeConfig, NodeKind, RouteConfig, Setting, TerminalsConfig,
};
use packet_codec::Address;
use x3_params::{Params, Profile};

pub(crate) fn is_from(least: u16, most: u16, value: u16) -> bool
    ensures { result ≡ is_from least most value }
{
    least <= value && value <= most
}

/// Whether the node has the name.
fn is_named(name: &str, node: &NodeConfig) -> bool
    ensures { result ≡ is_named name.now node.now }
{
    node.name.as_str() == name
}

/// Whether the node of this name is the line's DTE.
pub(crate) fn has_dte(name: &str, line: &LineConfig) -> bool
    ensures { result ≡ has_dte name.now line.now }
{
    line.dte.as_str() == name
}

/// Whether the node of this name is at an end of the line.
pub(crate) fn has_end(name: &str, line: &LineConfig) -> bool
    ensures { result ≡ has_end name.now line.now }
{
    has_dte(name, line) || line.dce.as_str() == name
}

fn find_node(nodes: &[NodeConfig], name: &str) -> Option<usize>
    ensures { result ≡ position (is_named name.now) nodes.now }
{
    nodes.iter().position(|node| is_named(name, node))
}

/// The place of the node of this name, 0 if there is none.
pub(crate) fn place_of(nodes: &[NodeConfig], name: &str) -> usize
    ensures { result ≡ place_of (is_named name.now) nodes.now }
{
    find_node(nodes, name).unwrap_or(0)
}

/// Whether the parameter may be set to the value, as it may whatever the others are.
fn is_accepted(setting: Setting) -> bool
    ensures { result ≡ is_accepted setting }
{
    let mut params = Params::profile(Profile::Simple, 0);
    params.set(setting.number, setting.value).is_ok()
}

fn is_pad_served(pad: &TerminalsConfig) -> bool
    ensures { result ≡ is_pad_served pad.now }
{
    is_from(1, 16, pad.terminals) && pad.speed <= 255 && are_accepted(&pad.settings)
}

pub(crate) fn are_accepted(settings: &[Setting]) -> bool
    ensures { result ≡ list_all is_accepted settings.now }
{
    settings.iter().all(|setting| is_accepted(*setting))
}

fn is_kind_served(kind: &NodeKind) -> bool
    ensures { result ≡ is_kind_served kind.now }
{
    match kind {
        NodeKind::Pad(pad) => is_pad_served(pad),
        NodeKind::Host => true,
        NodeKind::Switch => true,
    }
}

/// How many lines a node of this kind may have.
pub(crate) fn most_lines(kind: &NodeKind) -> usize
    ensures { result ≡ most_lines kind.now }
{
    match kind {
        NodeKind::Pad(_) => 1,
        NodeKind::Host => 1,
        NodeKind::Switch => 64,
    }
}

pub(crate) fn is_node_served(config: &Config, node: &NodeConfig) -> bool
    ensures { result ≡ is_node_served config.now node.now }
{
    count_nodes(&config.nodes, &node.name) == 1
        && has_lines(&config.lines, node)
        && is_kind_served(&node.kind)
        && count_routes(&config.routes, &node.name) <= 256
}

/// How many nodes have the name.
pub(crate) fn count_nodes(nodes: &[NodeConfig], name: &str) -> usize
    ensures { result ≡ length (filter (is_named name.now) nodes.now) }
{
    nodes.iter().filter(|node| is_named(name, node)).count()
}

/// Whether the node has a line, and no more than one of its kind may have.
fn has_lines(lines: &[LineConfig], node: &NodeConfig) -> bool
    ensures { result ≡ is_from 1 (most_lines node.now.kind)
        (length (filter (has_end (string_bytes node.now.name)) lines.now)) }
{
    let count = count_lines(lines, &node.name);
    1 <= count && count <= most_lines(&node.kind)
}

/// How many lines have an end at the node of this name.
pub(crate) fn count_lines(lines: &[LineConfig], name: &str) -> usize
    ensures { result ≡ length (filter (has_end name.now) lines.now) }
{
    lines.iter().filter(|line| has_end(name, line)).count()
}

/// How many routes the switch of this name has.
pub(crate) fn count_routes(routes: &[RouteConfig], name: &str) -> usize
    ensures { result ≡ length (filter (is_route_of name.now) routes.now) }
{
    routes
        .iter()
        .filter(|route| is_route_of(name, route))
        .count()
}

/// Whether the route is one of the switch of this name.
pub(crate) fn is_route_of(name: &str, route: &RouteConfig) -> bool
    ensures { result ≡ is_route_of name.now route.now }
{
    route.switch.as_str() == name
}

/// Whether a line may have its numbering and window.
pub(crate) fn is_numbered(line: &LineConfig) -> bool
    ensures { result ≡ is_numbered line.now }
{
    (line.modulo == 8 && is_from(1, 7, line.window))
        || (line.modulo == 128 && is_from(1, 32, line.window))
}

/// Whether a line may have its packet size.
pub(crate) fn is_sized(line: &LineConfig) -> bool
    ensures { result ≡ is_sized line.now }
{
    line.size == 128 || line.size == 256 || line.size == 512 || line.size == 1024
}

fn is_within(line: &LineConfig) -> bool
    ensures { result ≡ is_within line.now }
{
    is_from(1, 32, line.channels)
        && is_numbered(line)
        && is_sized(line)
        && is_from(1, 7, line.k)
        && is_from(1, 20, line.n2)
}

fn is_pad(kind: &NodeKind) -> bool
    ensures { result ≡ is_pad kind.now }
{
    match kind {
        NodeKind::Pad(_) => true,
        NodeKind::Host => false,
        NodeKind::Switch => false,
    }
}

fn is_switch(kind: &NodeKind) -> bool
    ensures { result ≡ is_switch kind.now }
{
    match kind {
        NodeKind::Pad(_) => false,
        NodeKind::Host => false,
        NodeKind::Switch => true,
    }
}

/// Whether a node has the name.
pub(crate) fn has_node(nodes: &[NodeConfig], name: &str) -> bool
    ensures { result ≡ list_any (is_named name.now) nodes.now }
{
    nodes.iter().any(|node| is_named(name, node))
}

/// Whether a host or a switch, which may be a DCE, has the name.
pub(crate) fn has_dce_node(nodes: &[NodeConfig], name: &str) -> bool
    ensures { result ≡ list_any (is_dce_named name.now) nodes.now }
{
    nodes
        .iter()
        .any(|node| is_named(name, node) && !is_pad(&node.kind))
}

fn has_pad(nodes: &[NodeConfig], name: &str) -> bool
    ensures { result ≡ list_any (is_pad_named name.now) nodes.now }
{
    nodes
        .iter()
        .any(|node| is_named(name, node) && is_pad(&node.kind))
}

pub(crate) fn has_switch(nodes: &[NodeConfig], name: &str) -> bool
    ensures { result ≡ list_any (is_switch_named name.now) nodes.now }
{
    nodes
        .iter()
        .any(|node| is_named(name, node) && is_switch(&node.kind))
}

fn joins_nodes(nodes: &[NodeConfig], line: &LineConfig) -> bool
    ensures { result ≡ joins_nodes nodes.now line.now }
{
    !has_dte(&line.dce, line) && has_node(nodes, &line.dte) && has_dce_node(nodes, &line.dce)
}

/// Whether the line's DCE comes earlier than its DTE.
pub(crate) fn leads_back(nodes: &[NodeConfig], line: &LineConfig) -> bool
    ensures { result ≡ leads_back nodes.now line.now }
{
    place_of(nodes, &line.dce) < place_of(nodes, &line.dte)
}

/// How many lines have the node of this name as their DTE.
pub(crate) fn count_as_dte(lines: &[LineConfig], name: &str) -> usize
    ensures { result ≡ length (filter (has_dte name.now) lines.now) }
{
    lines.iter().filter(|line| has_dte(name, line)).count()
}

/// Whether the line is a trunk to a switch that comes earlier, if it is from a switch, and no other line has its DTE.
fn is_in_tree(config: &Config, line: &LineConfig) -> bool
    ensures { result ≡ is_in_tree config.now line.now }
{
    let nodes = &config.nodes;
    (!has_switch(nodes, &line.dte) || (has_switch(nodes, &line.dce) && leads_back(nodes, line)))
        && count_as_dte(&config.lines, &line.dte) == 1
}

/// Whether the packets of the line have 128 octets, if it is from a PAD.
pub(crate) fn suits_pad(nodes: &[NodeConfig], line: &LineConfig) -> bool
    ensures { result ≡ suits_pad nodes.now line.now }
{
    !has_pad(nodes, &line.dte) || line.size == 128
}

/// Whether a text is an address: 1 to 15 digits.
pub(crate) fn is_address(text: &str) -> bool
    ensures { result ≡ is_address text.now }
{
    Address::read(text.as_bytes()).is_ok()
}

/// Whether the line has an address where it is from a PAD or a host to a switch, and else none.
fn has_own_address(nodes: &[NodeConfig], line: &LineConfig) -> bool
    ensures { result ≡ has_own_address nodes.now line.now }
{
    if has_switch(nodes, &line.dce) && !has_switch(nodes, &line.dte) {
        is_address(&line.address)
    } else {
        line.address.is_empty()
    }
}

pub(crate) fn may_stand(config: &Config, line: &LineConfig) -> bool
    ensures { result ≡ may_stand config.now line.now }
{
    config.lines.len() == 1
        && has_pad(&config.nodes, &line.dte)
        && !has_switch(&config.nodes, &line.dce)
}

pub(crate) fn is_line_served(config: &Config, line: &LineConfig) -> bool
    ensures { result ≡ is_line_served config.now line.now }
{
    joins_nodes(&config.nodes, line)
        && is_in_tree(config, line)
        && is_within(line)
        && suits_pad(&config.nodes, line)
        && has_own_address(&config.nodes, line)
        && (!line.standing || may_stand(config, line))
}

/// Whether the line of this number is there and ends at the node of this name.
pub(crate) fn ends_at(lines: &[LineConfig], number: u16, name: &str) -> bool
    ensures { result ≡ ends_at name.now (slice_get lines.now number) }
{
    match lines.get(number as usize) {
        Some(line) => has_end(name, line),
        None => false,
    }
}

/// Whether two routes are of the same switch and for the same prefix.
fn same_route(route: &RouteConfig, other: &RouteConfig) -> bool
    ensures { result ≡ same_route route.now other.now }
{
    is_route_of(&route.switch, other) && other.prefix == route.prefix
}

/// How many routes are of the switch and for the prefix of this one.
pub(crate) fn count_same(routes: &[RouteConfig], route: &RouteConfig) -> usize
    ensures { result ≡ length (filter (same_route route.now) routes.now) }
{
    routes
        .iter()
        .filter(|other| same_route(route, other))
        .count()
}

pub(crate) fn is_route_served(config: &Config, route: &RouteConfig) -> bool
    ensures { result ≡ is_route_served config.now route.now }
{
    has_switch(&config.nodes, &route.switch)
        && is_address(&route.prefix)
        && ends_at(&config.lines, route.line, &route.switch)
        && count_same(&config.routes, route) == 1
}

/// How many nodes are switches.
pub(crate) fn count_switches(nodes: &[NodeConfig]) -> usize
    ensures { result ≡ length (filter (λ node. is_switch node.kind) nodes.now) }
{
    nodes.iter().filter(|node| is_switch(&node.kind)).count()
}

/// Whether the network is served: PADs and hosts, each at one end of one line, and up to 16 switches, each with its
/// routes and at an end of up to 64; trunks between the switches make trees of them; all values in their limits. One
/// that is not served is refused as `BadConfig` when it is planned.
pub fn is_served(config: &Config) -> bool
    ensures { result ≡ is_served config.now }
{
    are_nodes_served(config)
        && are_lines_served(config)
        && are_routes_served(config)
        && count_switches(&config.nodes) <= 16
}

fn are_nodes_served(config: &Config) -> bool
    ensures { result ≡ list_all (is_node_served config.now) config.now.nodes.items }
{
    config.nodes.iter().all(|node| is_node_served(config, node))
}

fn are_lines_served(config: &Config) -> bool
    ensures { result ≡ list_all (is_line_served config.now) config.now.lines.items }
{
    config.lines.iter().all(|line| is_line_served(config, line))
}

fn are_routes_served(config: &Config) -> bool
    ensures { result ≡ list_all (is_route_served config.now) config.now.routes.items }
{
    config
        .routes
        .iter()
        .all(|route| is_route_served(config, route))
}
