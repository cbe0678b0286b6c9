//! The first rule that a service file breaks with its network.
ghost use Rattle.std.specs.Prelude.{◌≡◌, ◌-◌, IfSome, is_none, not, length, find, option_map};
ghost use Rattle.std.specs.List.{list_any, filter, position};
ghost use Rattle.net_config.specs.Served.{has_end, is_named, is_pad, is_pad_named, same_text};
ghost use Rattle.net_config.specs.Rules.{first_of};
ghost use Rattle.service_files.specs.Addresses.{same_place};
ghost use Rattle.service_files.specs.Bindings as spec;

use crate::addresses::{is_here, same_place};
use crate::file::{CallerTable, ServiceFile, ServiceTable, TerminalsTable};
use net_config::{Config, LineConfig, NodeConfig, NodeKind};
use std::net::SocketAddr;

/// A rule that does not hold, and of which table, by its place.
#[derive(Clone, Copy)]
pub enum BrokenBinding {
    Terminals(usize, TerminalsRule),
    Service(usize, ServiceRule),
    Caller(usize, CallerRule),
    /// The control port is one of this machine alone.
    ControlBeyond,
}

/// A rule for `[[terminals]]`.
#[derive(Clone, Copy)]
pub enum TerminalsRule {
    /// Its `pad` is the name of a node.
    PadIsNode,
    /// The node is a PAD.
    PadIsPad,
    /// The PAD has its first terminal.
    FirstIsThere,
    /// The PAD has its last terminal, which does not come before the first one.
    LastIsThere,
    /// No terminal stands in another table.
    Apart,
    /// No other table has its `listen`, nor has `control` or `[web]`.
    ListenOnce,
    /// A greeting is said to telnet clients alone.
    GreetingAtTelnet,
    /// If it listens beyond this machine, it says who may connect.
    AllowBeyond,
}

/// A rule for `[[service]]`.
#[derive(Clone, Copy)]
pub enum ServiceRule {
    /// Its `host` is the name of a node.
    HostIsNode,
    /// The node is a host.
    HostIsHost,
    /// The host has no other service.
    HostOnce,
}

/// A rule for `[[caller]]`.
#[derive(Clone, Copy)]
pub enum CallerRule {
    /// Its `host` is the name of a node.
    HostIsNode,
    /// The node is a host.
    HostIsHost,
    /// No other table has its `listen`, nor has `control` or `[web]`.
    ListenOnce,
    /// If it listens beyond this machine, it says who may connect.
    AllowBeyond,
}

const TERMINALS_RULES: [TerminalsRule; 8] = [
    TerminalsRule::PadIsNode,
    TerminalsRule::PadIsPad,
    TerminalsRule::FirstIsThere,
    TerminalsRule::LastIsThere,
    TerminalsRule::Apart,
    TerminalsRule::ListenOnce,
    TerminalsRule::GreetingAtTelnet,
    TerminalsRule::AllowBeyond,
];

const SERVICE_RULES: [ServiceRule; 3] = [
    ServiceRule::HostIsNode,
    ServiceRule::HostIsHost,
    ServiceRule::HostOnce,
];

const CALLER_RULES: [CallerRule; 4] = [
    CallerRule::HostIsNode,
    CallerRule::HostIsHost,
    CallerRule::ListenOnce,
    CallerRule::AllowBeyond,
];

fn is_named(name: &str, node: &NodeConfig) -> bool
    ensures { result ≡ is_named name.now node.now }
{
    node.name.as_str() == name
}

fn find_node<'a>(nodes: &'a [NodeConfig], name: &str) -> Option<&'a NodeConfig>
    ensures { option_map (λ node. node.now) result ≡ find (is_named name.now) nodes.entry.now }
{
    nodes.iter().find(|node| is_named(name, node))
}

/// The number in the network of the node of this name.
pub fn node_of(nodes: &[NodeConfig], name: &str) -> Option<usize>
    ensures { result ≡ position (is_named name.now) nodes.now }
{
    nodes.iter().position(|node| is_named(name, node))
}

fn has_end(name: &str, line: &LineConfig) -> bool
    ensures { result ≡ has_end name.now line.now }
{
    line.dte.as_str() == name || line.dce.as_str() == name
}

fn find_line<'a>(lines: &'a [LineConfig], name: &str) -> Option<&'a LineConfig>
    ensures { option_map (λ line. line.now) result ≡ find (has_end name.now) lines.entry.now }
{
    lines.iter().find(|line| has_end(name, line))
}

/// How many logical channels the first line has at which the node of this name is; none if it is at none.
pub fn channels_of(config: &Config, name: &str) -> u16
    ensures { result ≡ spec.channels_of config.now name.now }
{
    match find_line(&config.lines, name) {
        Some(line) => line.channels,
        None => 0,
    }
}

/// How many terminals the node of this name has, none if it is no PAD.
pub fn terminals_in(nodes: &[NodeConfig], name: &str) -> u16
    ensures { result ≡ spec.terminals_in nodes.now name.now }
{
    match find_node(nodes, name) {
        Some(node) => terminals_of(&node.kind),
        None => 0,
    }
}

fn terminals_of(kind: &NodeKind) -> u16
    ensures { result ≡ spec.terminals_of kind.now }
{
    match kind {
        NodeKind::Pad(pad) => pad.terminals,
        _ => 0,
    }
}

fn is_host(kind: &NodeKind) -> bool
    ensures { result ≡ spec.is_host kind.now }
{
    match kind {
        NodeKind::Host => true,
        _ => false,
    }
}

fn is_pad(kind: &NodeKind) -> bool
    ensures { result ≡ is_pad kind.now }
{
    match kind {
        NodeKind::Pad(_) => true,
        _ => false,
    }
}

fn has_node(nodes: &[NodeConfig], name: &str) -> bool
    ensures { result ≡ list_any (is_named name.now) nodes.now }
{
    nodes.iter().any(|node| is_named(name, node))
}

fn has_pad(nodes: &[NodeConfig], name: &str) -> bool
    ensures { result ≡ list_any (is_pad_named name.now) nodes.now }
{
    nodes
        .iter()
        .any(|node| is_named(name, node) && is_pad(&node.kind))
}

fn has_host(nodes: &[NodeConfig], name: &str) -> bool
    ensures { result ≡ list_any (spec.is_host_named name.now) nodes.now }
{
    nodes
        .iter()
        .any(|node| is_named(name, node) && is_host(&node.kind))
}

/// The last terminal of a table.
pub fn last_of(config: &Config, table: &TerminalsTable<'_>) -> u16
    ensures { result ≡ spec.last_of config.now table.now }
{
    match table.last {
        Some(last) => last,
        None => terminals_in(&config.nodes, table.pad).saturating_sub(1),
    }
}

/// Whether a terminal of the one table is a terminal of the other.
fn overlaps(config: &Config, table: &TerminalsTable<'_>, other: &TerminalsTable<'_>) -> bool
    ensures { result ≡ spec.overlaps config.now table.now other.now }
{
    table.pad == other.pad
        && other.first <= last_of(config, table)
        && table.first <= last_of(config, other)
}

/// How many tables have a terminal of this one.
fn count_overlaps(config: &Config, file: &ServiceFile<'_>, table: &TerminalsTable<'_>) -> usize
    ensures { result ≡ length (filter (spec.overlaps config.now table.now) file.now.terminals.items) }
{
    file.terminals
        .iter()
        .filter(|other| overlaps(config, table, other))
        .count()
}

/// Whether no two tables listen there, nor the control port or the page.
fn listens_once(file: &ServiceFile<'_>, listen: SocketAddr) -> bool
    ensures { result ≡ spec.listens_once file.now listen }
{
    let terminals = count_terminals(file, listen);
    let callers = count_callers(file, listen);
    is_apart(listen, file.control)
        && is_apart(listen, file.web)
        && terminals <= 1
        && callers <= 1
        && (terminals == 0 || callers == 0)
}

fn count_terminals(file: &ServiceFile<'_>, listen: SocketAddr) -> usize
    ensures { result ≡ length (filter (λ other. same_place listen other.listen) file.now.terminals.items) }
{
    file.terminals
        .iter()
        .filter(|other| same_place(listen, other.listen))
        .count()
}

fn count_callers(file: &ServiceFile<'_>, listen: SocketAddr) -> usize
    ensures { result ≡ length (filter (λ other. same_place listen other.listen) file.now.callers.items) }
{
    file.callers
        .iter()
        .filter(|other| same_place(listen, other.listen))
        .count()
}

/// How many tables have the host.
fn count_host(file: &ServiceFile<'_>, host: &str) -> usize
    ensures { result ≡ length (filter (λ other. same_text host.now other.host.now) file.now.services.items) }
{
    file.services
        .iter()
        .filter(|other| other.host == host)
        .count()
}

pub(crate) fn is_apart(listen: SocketAddr, other: Option<SocketAddr>) -> bool
    ensures { result ≡ spec.is_apart listen other }
{
    match other {
        Some(other) => !same_place(listen, other),
        None => true,
    }
}

fn is_control_here(control: Option<SocketAddr>) -> bool
    ensures { result ≡ spec.is_control_here control }
{
    match control {
        Some(control) => is_here(control.ip()),
        None => true,
    }
}

fn terminals_keep(
    config: &Config,
    file: &ServiceFile<'_>,
    table: &TerminalsTable<'_>,
    rule: TerminalsRule,
) -> bool
    ensures { result ≡ spec.terminals_keep config.now file.now table.now rule }
{
    match rule {
        TerminalsRule::PadIsNode => has_node(&config.nodes, table.pad),
        TerminalsRule::PadIsPad => has_pad(&config.nodes, table.pad),
        TerminalsRule::FirstIsThere => table.first < terminals_in(&config.nodes, table.pad),
        TerminalsRule::LastIsThere => has_last(config, table),
        TerminalsRule::Apart => count_overlaps(config, file, table) == 1,
        TerminalsRule::ListenOnce => listens_once(file, table.listen),
        TerminalsRule::GreetingAtTelnet => table.mode.is_telnet() || table.greeting.is_none(),
        TerminalsRule::AllowBeyond => is_here(table.listen.ip()) || table.allow.prefixes.is_some(),
    }
}

fn has_last(config: &Config, table: &TerminalsTable<'_>) -> bool
    ensures { result ≡ spec.has_last config.now table.now }
{
    let last = last_of(config, table);
    table.first <= last && last < terminals_in(&config.nodes, table.pad)
}

fn service_keeps(
    config: &Config,
    file: &ServiceFile<'_>,
    table: &ServiceTable<'_>,
    rule: ServiceRule,
) -> bool
    ensures { result ≡ spec.service_keeps config.now file.now table.now rule }
{
    match rule {
        ServiceRule::HostIsNode => has_node(&config.nodes, table.host),
        ServiceRule::HostIsHost => has_host(&config.nodes, table.host),
        ServiceRule::HostOnce => count_host(file, table.host) == 1,
    }
}

fn caller_keeps(
    config: &Config,
    file: &ServiceFile<'_>,
    table: &CallerTable<'_>,
    rule: CallerRule,
) -> bool
    ensures { result ≡ spec.caller_keeps config.now file.now table.now rule }
{
    match rule {
        CallerRule::HostIsNode => has_node(&config.nodes, table.host),
        CallerRule::HostIsHost => has_host(&config.nodes, table.host),
        CallerRule::ListenOnce => listens_once(file, table.listen),
        CallerRule::AllowBeyond => is_here(table.listen.ip()) || table.allow.prefixes.is_some(),
    }
}

fn first_of_terminals(
    config: &Config,
    file: &ServiceFile<'_>,
    table: &TerminalsTable<'_>,
) -> Option<TerminalsRule>
    ensures { result ≡ first_of (spec.terminals_keep config.now file.now) spec.terminals_rules table.now }
{
    TERMINALS_RULES
        .iter()
        .copied()
        .find(|rule| !terminals_keep(config, file, table, *rule))
}

fn first_of_service(
    config: &Config,
    file: &ServiceFile<'_>,
    table: &ServiceTable<'_>,
) -> Option<ServiceRule>
    ensures { result ≡ first_of (spec.service_keeps config.now file.now) spec.service_rules table.now }
{
    SERVICE_RULES
        .iter()
        .copied()
        .find(|rule| !service_keeps(config, file, table, *rule))
}

fn first_of_caller(
    config: &Config,
    file: &ServiceFile<'_>,
    table: &CallerTable<'_>,
) -> Option<CallerRule>
    ensures { result ≡ first_of (spec.caller_keeps config.now file.now) spec.caller_rules table.now }
{
    CALLER_RULES
        .iter()
        .copied()
        .find(|rule| !caller_keeps(config, file, table, *rule))
}

fn terminals_fit(config: &Config, file: &ServiceFile<'_>, table: &TerminalsTable<'_>) -> bool
    ensures { result ≡ spec.terminals_fit config.now file.now table.now }
{
    TERMINALS_RULES
        .iter()
        .all(|rule| terminals_keep(config, file, table, *rule))
}

fn service_fits(config: &Config, file: &ServiceFile<'_>, table: &ServiceTable<'_>) -> bool
    ensures { result ≡ spec.service_fits config.now file.now table.now }
{
    SERVICE_RULES
        .iter()
        .all(|rule| service_keeps(config, file, table, *rule))
}

fn caller_fits(config: &Config, file: &ServiceFile<'_>, table: &CallerTable<'_>) -> bool
    ensures { result ≡ spec.caller_fits config.now file.now table.now }
{
    CALLER_RULES
        .iter()
        .all(|rule| caller_keeps(config, file, table, *rule))
}

fn find_terminals(config: &Config, file: &ServiceFile<'_>) -> Option<usize>
    ensures { result ≡ position (λ t. not (spec.terminals_fit config.now file.now t)) file.now.terminals.items }
{
    file.terminals
        .iter()
        .position(|table| !terminals_fit(config, file, table))
}

fn find_service(config: &Config, file: &ServiceFile<'_>) -> Option<usize>
    ensures { result ≡ position (λ s. not (spec.service_fits config.now file.now s)) file.now.services.items }
{
    file.services
        .iter()
        .position(|table| !service_fits(config, file, table))
}

fn find_caller(config: &Config, file: &ServiceFile<'_>) -> Option<usize>
    ensures { result ≡ position (λ t. not (spec.caller_fits config.now file.now t)) file.now.callers.items }
{
    file.callers
        .iter()
        .position(|table| !caller_fits(config, file, table))
}

fn broken_terminals(config: &Config, file: &ServiceFile<'_>) -> Option<BrokenBinding>
    ensures { result ≡ spec.broken_terminals config.now file.now }
{
    let place = find_terminals(config, file)?;
    let rule = first_of_terminals(config, file, file.terminals.get(place)?)?;
    Some(BrokenBinding::Terminals(place, rule))
}

fn broken_service(config: &Config, file: &ServiceFile<'_>) -> Option<BrokenBinding>
    ensures { result ≡ spec.broken_service config.now file.now }
{
    let place = find_service(config, file)?;
    let rule = first_of_service(config, file, file.services.get(place)?)?;
    Some(BrokenBinding::Service(place, rule))
}

fn broken_caller(config: &Config, file: &ServiceFile<'_>) -> Option<BrokenBinding>
    ensures { result ≡ spec.broken_caller config.now file.now }
{
    let place = find_caller(config, file)?;
    let rule = first_of_caller(config, file, file.callers.get(place)?)?;
    Some(BrokenBinding::Caller(place, rule))
}

fn broken_control(file: &ServiceFile<'_>) -> Option<BrokenBinding>
    ensures { result ≡ spec.broken_control file.now }
{
    if is_control_here(file.control) {
        None
    } else {
        Some(BrokenBinding::ControlBeyond)
    }
}

/// The first rule that a service file breaks with a network: of its terminals, its services, its callers or its
/// control port, in this order. None exactly if it fits the network.
pub fn first_broken_binding(config: &Config, file: &ServiceFile<'_>) -> Option<BrokenBinding>
    ensures first { result ≡ spec.first_broken config.now file.now }
    ensures none { is_none result ≡ spec.fits config.now file.now }
    ensures broken { IfSome result (spec.Breaks config.now file.now) }
{
    broken_terminals(config, file)
        .or(broken_service(config, file))
        .or(broken_caller(config, file))
        .or(broken_control(file))
}
