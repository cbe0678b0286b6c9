//! The first rule of networks that does not hold of one.
ghost use Rattle.std.specs.Prelude.{◌≡◌, IfSome, is_none, nat_le, not};
ghost use Rattle.std.specs.List.{list_all, position};
ghost use Rattle.net_config.specs.Served.{is_from, is_accepted, is_line_served, is_node_served, is_route_served, is_served};
ghost use Rattle.net_config.specs.Rules.{if_pad, node_keeps, node_rules, line_keeps, line_rules, route_keeps, route_rules};
ghost use Rattle.net_config.specs.Rules.{is_access, first_of, broken_name, broken_line, broken_node, broken_route};
ghost use Rattle.net_config.specs.Rules.{broken_count, first_broken, Breaks};

use crate::config::{Config, LineConfig, NodeConfig, NodeKind, RouteConfig};
use crate::served::{
    are_accepted, count_as_dte, count_lines, count_nodes, count_routes, count_same, count_switches,
    ends_at, has_dce_node, has_dte, has_node, has_switch, is_address, is_from, is_line_served,
    is_node_served, is_numbered, is_route_served, is_sized, leads_back, may_stand, most_lines,
    suits_pad,
};

/// A rule of networks that does not hold, and of which node, line or route, by its place.
#[derive(Clone, Copy)]
pub enum BrokenRule {
    Node(usize, NodeRule),
    Line(usize, LineRule),
    Route(usize, RouteRule),
    /// At most 16 nodes are switches.
    FewSwitches,
}

/// A rule for a node.
#[derive(Clone, Copy)]
pub enum NodeRule {
    /// No other node has its name.
    NameOnce,
    /// It is at a line.
    AtALine,
    /// It is at no more than one line, a switch at no more than 64.
    AtFewLines,
    /// A PAD has 1 to 16 terminals.
    Terminals,
    /// The speed of a PAD is at most 255.
    Speed,
    /// The parameters of a PAD are set to values that they may have.
    Settings,
    /// It has at most 256 routes.
    FewRoutes,
}

/// A rule for a line.
#[derive(Clone, Copy)]
pub enum LineRule {
    /// Its `dte` is the name of a node.
    DteIsNode,
    /// Its `dce` is the name of a node.
    DceIsNode,
    /// It is between two nodes.
    TwoNodes,
    /// Its DCE is a host or a switch.
    DceNoPad,
    /// If its DTE is a switch, its DCE is one too.
    TrunkToSwitch,
    /// If its DTE is a switch, its DCE comes earlier.
    TrunkBack,
    /// Its DTE is that of no other line.
    DteOnce,
    /// It has 1 to 32 channels.
    Channels,
    /// Its packets are numbered modulo 8 with a window of 1 to 7, or modulo 128 with one of 1 to 32.
    Numbered,
    /// Its packets have 128, 256, 512 or 1024 octets.
    Sized,
    /// Its k is 1 to 7.
    K,
    /// Its n2 is 1 to 20.
    N2,
    /// If its DTE is a PAD, its packets have 128 octets.
    SizeAtPad,
    /// If it is from a PAD or a host to a switch, it has an address of 1 to 15 digits.
    Address,
    /// If it is not, it has none.
    NoAddress,
    /// If it is standing, it is the only line, from a PAD to a host.
    StandsAlone,
}

/// A rule for a route.
#[derive(Clone, Copy)]
pub enum RouteRule {
    /// Its `switch` is the name of a switch.
    OfASwitch,
    /// Its prefix is 1 to 15 digits.
    Prefix,
    /// Its line is there and ends at the switch.
    ToOwnLine,
    /// No other route of the switch has its prefix.
    PrefixOnce,
}

const NODE_RULES: [NodeRule; 7] = [
    NodeRule::NameOnce,
    NodeRule::AtALine,
    NodeRule::AtFewLines,
    NodeRule::Terminals,
    NodeRule::Speed,
    NodeRule::Settings,
    NodeRule::FewRoutes,
];

const LINE_RULES: [LineRule; 16] = [
    LineRule::DteIsNode,
    LineRule::DceIsNode,
    LineRule::TwoNodes,
    LineRule::DceNoPad,
    LineRule::TrunkToSwitch,
    LineRule::TrunkBack,
    LineRule::DteOnce,
    LineRule::Channels,
    LineRule::Numbered,
    LineRule::Sized,
    LineRule::K,
    LineRule::N2,
    LineRule::SizeAtPad,
    LineRule::Address,
    LineRule::NoAddress,
    LineRule::StandsAlone,
];

const ROUTE_RULES: [RouteRule; 4] = [
    RouteRule::OfASwitch,
    RouteRule::Prefix,
    RouteRule::ToOwnLine,
    RouteRule::PrefixOnce,
];

fn node_keeps(config: &Config, node: &NodeConfig, rule: NodeRule) -> bool
    ensures { result ≡ node_keeps config.now node.now rule }
{
    match rule {
        NodeRule::NameOnce => count_nodes(&config.nodes, &node.name) == 1,
        NodeRule::AtALine => 1 <= count_lines(&config.lines, &node.name),
        NodeRule::AtFewLines => count_lines(&config.lines, &node.name) <= most_lines(&node.kind),
        NodeRule::Terminals => has_right_terminals(&node.kind),
        NodeRule::Speed => has_right_speed(&node.kind),
        NodeRule::Settings => has_right_settings(&node.kind),
        NodeRule::FewRoutes => count_routes(&config.routes, &node.name) <= 256,
    }
}

fn has_right_terminals(kind: &NodeKind) -> bool
    ensures { result ≡ if_pad (λ p. is_from 1 16 p.terminals) kind.now }
{
    match kind {
        NodeKind::Pad(pad) => is_from(1, 16, pad.terminals),
        _ => true,
    }
}

fn has_right_speed(kind: &NodeKind) -> bool
    ensures { result ≡ if_pad (λ p. nat_le p.speed 255) kind.now }
{
    match kind {
        NodeKind::Pad(pad) => pad.speed <= 255,
        _ => true,
    }
}

fn has_right_settings(kind: &NodeKind) -> bool
    ensures { result ≡ if_pad (λ p. list_all is_accepted p.settings.items) kind.now }
{
    match kind {
        NodeKind::Pad(pad) => are_accepted(&pad.settings),
        _ => true,
    }
}

fn line_keeps(config: &Config, line: &LineConfig, rule: LineRule) -> bool
    ensures { result ≡ line_keeps config.now line.now rule }
{
    let nodes = &config.nodes;
    match rule {
        LineRule::DteIsNode => has_node(nodes, &line.dte),
        LineRule::DceIsNode => has_node(nodes, &line.dce),
        LineRule::TwoNodes => !has_dte(&line.dce, line),
        LineRule::DceNoPad => has_dce_node(nodes, &line.dce),
        LineRule::TrunkToSwitch => !has_switch(nodes, &line.dte) || has_switch(nodes, &line.dce),
        LineRule::TrunkBack => !has_switch(nodes, &line.dte) || leads_back(nodes, line),
        LineRule::DteOnce => count_as_dte(&config.lines, &line.dte) == 1,
        LineRule::Channels => is_from(1, 32, line.channels),
        LineRule::Numbered => is_numbered(line),
        LineRule::Sized => is_sized(line),
        LineRule::K => is_from(1, 7, line.k),
        LineRule::N2 => is_from(1, 20, line.n2),
        LineRule::SizeAtPad => suits_pad(nodes, line),
        LineRule::Address => !is_access(nodes, line) || is_address(&line.address),
        LineRule::NoAddress => is_access(nodes, line) || line.address.is_empty(),
        LineRule::StandsAlone => !line.standing || may_stand(config, line),
    }
}

/// Whether the line is from a PAD or a host to a switch.
fn is_access(nodes: &[NodeConfig], line: &LineConfig) -> bool
    ensures { result ≡ is_access nodes.now line.now }
{
    has_switch(nodes, &line.dce) && !has_switch(nodes, &line.dte)
}

fn route_keeps(config: &Config, route: &RouteConfig, rule: RouteRule) -> bool
    ensures { result ≡ route_keeps config.now route.now rule }
{
    match rule {
        RouteRule::OfASwitch => has_switch(&config.nodes, &route.switch),
        RouteRule::Prefix => is_address(&route.prefix),
        RouteRule::ToOwnLine => ends_at(&config.lines, route.line, &route.switch),
        RouteRule::PrefixOnce => count_same(&config.routes, route) == 1,
    }
}

fn first_of_node(config: &Config, node: &NodeConfig) -> Option<NodeRule>
    ensures { result ≡ first_of (node_keeps config.now) node_rules node.now }
{
    NODE_RULES
        .iter()
        .copied()
        .find(|rule| !node_keeps(config, node, *rule))
}

fn first_of_line(config: &Config, line: &LineConfig) -> Option<LineRule>
    ensures { result ≡ first_of (line_keeps config.now) line_rules line.now }
{
    LINE_RULES
        .iter()
        .copied()
        .find(|rule| !line_keeps(config, line, *rule))
}

fn first_of_route(config: &Config, route: &RouteConfig) -> Option<RouteRule>
    ensures { result ≡ first_of (route_keeps config.now) route_rules route.now }
{
    ROUTE_RULES
        .iter()
        .copied()
        .find(|rule| !route_keeps(config, route, *rule))
}

/// The first node whose name is another one's too.
fn find_same_name(config: &Config) -> Option<usize>
    ensures { result ≡ position (λ n. not (node_keeps config.now n NodeRule.NameOnce)) config.now.nodes.items }
{
    config
        .nodes
        .iter()
        .position(|node| !node_keeps(config, node, NodeRule::NameOnce))
}

fn find_unserved_node(config: &Config) -> Option<usize>
    ensures { result ≡ position (λ n. not (is_node_served config.now n)) config.now.nodes.items }
{
    config
        .nodes
        .iter()
        .position(|node| !is_node_served(config, node))
}

fn find_unserved_line(config: &Config) -> Option<usize>
    ensures { result ≡ position (λ l. not (is_line_served config.now l)) config.now.lines.items }
{
    config
        .lines
        .iter()
        .position(|line| !is_line_served(config, line))
}

fn find_unserved_route(config: &Config) -> Option<usize>
    ensures { result ≡ position (λ r. not (is_route_served config.now r)) config.now.routes.items }
{
    config
        .routes
        .iter()
        .position(|route| !is_route_served(config, route))
}

fn broken_name(config: &Config) -> Option<BrokenRule>
    ensures { result ≡ broken_name config.now }
{
    let place = find_same_name(config)?;
    let rule = first_of_node(config, config.nodes.get(place)?)?;
    Some(BrokenRule::Node(place, rule))
}

fn broken_node(config: &Config) -> Option<BrokenRule>
    ensures { result ≡ broken_node config.now }
{
    let place = find_unserved_node(config)?;
    let rule = first_of_node(config, config.nodes.get(place)?)?;
    Some(BrokenRule::Node(place, rule))
}

fn broken_line(config: &Config) -> Option<BrokenRule>
    ensures { result ≡ broken_line config.now }
{
    let place = find_unserved_line(config)?;
    let rule = first_of_line(config, config.lines.get(place)?)?;
    Some(BrokenRule::Line(place, rule))
}

fn broken_route(config: &Config) -> Option<BrokenRule>
    ensures { result ≡ broken_route config.now }
{
    let place = find_unserved_route(config)?;
    let rule = first_of_route(config, config.routes.get(place)?)?;
    Some(BrokenRule::Route(place, rule))
}

fn broken_count(config: &Config) -> Option<BrokenRule>
    ensures { result ≡ broken_count config.now }
{
    if count_switches(&config.nodes) <= 16 {
        None
    } else {
        Some(BrokenRule::FewSwitches)
    }
}

/// The first rule that does not hold of a network: of the names of its nodes, else of its lines, its nodes, its routes,
/// or of the number of its switches. None exactly if the network is served.
pub fn first_broken_rule(config: &Config) -> Option<BrokenRule>
    ensures first { result ≡ first_broken config.now }
    ensures none { is_none result ≡ is_served config.now }
    ensures broken { IfSome result (Breaks config.now) }
{
    broken_name(config)
        .or_else(|| broken_line(config))
        .or_else(|| broken_node(config))
        .or_else(|| broken_route(config))
        .or_else(|| broken_count(config))
}
