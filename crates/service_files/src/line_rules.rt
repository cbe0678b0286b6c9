//! Which nodes of a network are in this process, and the first rule that lines break whose other ends are elsewhere.
ghost use Rattle.std.specs.Prelude.{◌≡◌, ◌<◌, true, IfOk, not, length, option_map, set};
ghost use Rattle.std.specs.List.{filter, position, list_all};
ghost use Rattle.net_config.specs.Rules.{first_of};
ghost use Rattle.service_files.specs.Addresses.{same_place};
ghost use Rattle.service_files.specs.Lines as spec;

use crate::addresses::{is_here, same_place};
use crate::file::{End, LineTable, ServiceFile, Way};
use crate::rules::{is_apart, node_of};
use net_config::{Config, LineConfig, NodeConfig, NodeKind};
use std::alloc::{AllocError, Global};
use std::net::SocketAddr;

/// What does not hold of lines whose other ends are elsewhere, or of what is bound at nodes that are elsewhere.
#[derive(Clone, Copy)]
pub enum BrokenLine {
    /// This rule, of the table of this place.
    Line(usize, LineRule),
    /// The PAD of this table of terminals is in this process.
    PadElsewhere(usize),
    /// The host of this service is.
    ServiceElsewhere(usize),
    /// The host of this caller is.
    CallerElsewhere(usize),
}

/// A rule for `[[line]]`.
#[derive(Clone, Copy)]
pub enum LineRule {
    /// The network has the line.
    LineIsThere,
    /// No other table has it.
    LineOnce,
    /// It has no standing call.
    NotStanding,
    /// The node at its other end is in another process.
    OtherEndElsewhere,
    /// If calls of equipment come over it, the end here is the DCE.
    DceHere,
    /// If equipment is at its other end, a switch is at the end here.
    SwitchHere,
    /// The node at its other end may be equipment: a host, or for datagrams a switch too.
    EquipmentThere,
    /// No table of terminals or of a caller has its `listen`, nor has `control`. If calls of equipment come there, no
    /// other line has it either.
    ListenApart,
    /// No other table has its `bind`.
    BindOnce,
    /// If it listens beyond this machine, it says who may connect.
    AllowBeyond,
    /// There is time to hear from the partner.
    SilenceLong,
}

const LINE_RULES: [LineRule; 11] = [
    LineRule::LineIsThere,
    LineRule::LineOnce,
    LineRule::NotStanding,
    LineRule::OtherEndElsewhere,
    LineRule::DceHere,
    LineRule::SwitchHere,
    LineRule::EquipmentThere,
    LineRule::ListenApart,
    LineRule::BindOnce,
    LineRule::AllowBeyond,
    LineRule::SilenceLong,
];

/// The fewest ticks of silence after which a connection may be closed.
const LEAST_SILENCE: u16 = 3;

// ---- which nodes are here

/// The end of a line that is not this one.
fn other_end(end: End) -> End
    ensures { result ≡ spec.other_end end }
{
    match end {
        End::Dte => End::Dce,
        End::Dce => End::Dte,
    }
}

/// The number of the node at an end of a line.
fn node_at(config: &Config, line: &LineConfig, end: End) -> Option<usize>
    ensures { result ≡ spec.node_at config.now line.now end }
{
    match end {
        End::Dte => node_of(&config.nodes, line.dte.as_str()),
        End::Dce => node_of(&config.nodes, line.dce.as_str()),
    }
}

/// The number of the node at an end of the line of a table.
fn node_of_table(config: &Config, table: &LineTable, end: End) -> Option<usize>
    ensures { result ≡ spec.node_of_table config.now table.now end }
{
    match config.lines.get(usize::from(table.line)) {
        Some(line) => node_at(config, line, end),
        None => None,
    }
}

/// Whether a table has the line of this number.
fn is_remote(file: &ServiceFile<'_>, line: usize) -> bool
    ensures { result ≡ spec.is_remote file.now line }
{
    file.lines
        .iter()
        .any(|table| usize::from(table.line) == line)
}

/// Whether a node is marked.
fn is_marked(marks: &[bool], node: Option<usize>) -> bool
    ensures { result ≡ spec.is_marked marks.now node }
{
    match node {
        Some(node) => marks.get(node).copied().unwrap_or(false),
        None => false,
    }
}

/// Marks a node, if there is one.
fn mark(marks: &mut [bool], node: Option<usize>)
    ensures { marks.new ≡ spec.marked node marks.old }
{
    if let Some(node) = node {
        mark_at(marks, node);
    }
}

/// Marks the node of a place, if there is one.
#[tactic(auto, using(std::proofs::lemmas::List::set_past))]
fn mark_at(marks: &mut [bool], node: usize)
    ensures { marks.new ≡ set marks.old node true }
{
    if node < marks.len() {
        marks[node] = true;
    }
}

/// Marks both nodes of a line, if one of them is marked and the other end is not elsewhere.
fn mark_line(config: &Config, file: &ServiceFile<'_>, number: usize, marks: &mut [bool])
    ensures { marks.new ≡ spec.line_marked config.now file.now number marks.old }
{
    let Some(line) = config.lines.get(number) else {
        return;
    };
    if is_remote(file, number) {
        return;
    }
    let dte = node_at(config, line, End::Dte);
    let dce = node_at(config, line, End::Dce);
    if is_marked(marks, dte) {
        mark(marks, dce);
    } else if is_marked(marks, dce) {
        mark(marks, dte);
    }
}

fn mark_lines(config: &Config, file: &ServiceFile<'_>, marks: &mut [bool])
    ensures { marks.new ≡ spec.lines_marked config.now file.now (length config.now.lines.items) marks.old }
{
    for number in 0..config.lines.len() {
        mark_line(config, file, number, marks);
    }
}

fn mark_ends(config: &Config, file: &ServiceFile<'_>, marks: &mut [bool])
    ensures { marks.new ≡ spec.ends_marked config.now file.now (length file.now.lines.items) marks.old }
{
    for place in 0..file.lines.len() {
        mark_end(config, file, place, marks);
    }
}

fn mark_end(config: &Config, file: &ServiceFile<'_>, place: usize, marks: &mut [bool])
    ensures { marks.new ≡ spec.end_marked config.now file.now place marks.old }
{
    if let Some(table) = file.lines.get(place) {
        mark(marks, node_of_table(config, table, table.here));
    }
}

/// For each node whether it is in this process: one at the end here of a line whose other end is elsewhere, and each that
/// is reached from it without such a line. If there is no such line, all are.
pub fn own_nodes(
    alloc: Global,
    config: &Config,
    file: &ServiceFile<'_>,
) -> Result<Vec<bool>, AllocError>
    ensures { IfOk result (λ own. own.items ≡ spec.own_nodes config.now file.now) }
{
    let mut marks = vec![in alloc; file.lines.is_empty(); config.nodes.len()]?;
    mark_ends(config, file, &mut marks);
    mark_rounds(config, file, config.nodes.len(), &mut marks);
    Ok(marks)
}

/// Goes over all lines, so many times.
fn mark_rounds(config: &Config, file: &ServiceFile<'_>, rounds: usize, marks: &mut [bool])
    ensures { marks.new ≡ spec.rounds_marked config.now file.now rounds marks.old }
{
    for round in 0..rounds {
        mark_lines(config, file, marks);
    }
}

// ---- rules

/// How many tables have the line of this one.
fn count_line(file: &ServiceFile<'_>, table: &LineTable) -> usize
    ensures { result ≡ length (filter (spec.has_line table.now) file.now.lines.items) }
{
    file.lines
        .iter()
        .filter(|other| other.line == table.line)
        .count()
}

/// Whether the line of a table has a standing call.
fn is_standing(config: &Config, table: &LineTable) -> bool
    ensures { result ≡ spec.is_standing config.now table.now }
{
    match config.lines.get(usize::from(table.line)) {
        Some(line) => line.standing,
        None => false,
    }
}

/// Whether no table of another kind listens there, nor the control port, nor the page.
fn listens_apart(file: &ServiceFile<'_>, listen: SocketAddr) -> bool
    ensures { result ≡ spec.listens_apart file.now listen }
{
    is_apart(listen, file.control)
        && is_apart(listen, file.web)
        && is_no_terminals(file, listen)
        && is_no_caller(file, listen)
}

/// Whether no table of terminals listens there.
fn is_no_terminals(file: &ServiceFile<'_>, listen: SocketAddr) -> bool
    ensures { result ≡ list_all (λ t. not (same_place listen t.listen)) file.now.terminals.items }
{
    file.terminals
        .iter()
        .all(|table| !same_place(listen, table.listen))
}

/// Whether no caller listens there.
fn is_no_caller(file: &ServiceFile<'_>, listen: SocketAddr) -> bool
    ensures { result ≡ list_all (λ t. not (same_place listen t.listen)) file.now.callers.items }
{
    file.callers
        .iter()
        .all(|table| !same_place(listen, table.listen))
}

/// Where connections come over a line, if they do.
fn listen_of(way: Way) -> Option<SocketAddr>
    ensures { result ≡ spec.listen_of way }
{
    match way {
        Way::Listen(at) => Some(at),
        Way::Xot(way) => way.listen(),
        Way::Connect(_) | Way::Udp(_) => None,
    }
}

/// Whether it is this place, if it is one.
fn is_place(place: SocketAddr, other: Option<SocketAddr>) -> bool
    ensures { result ≡ spec.is_place place other }
{
    match other {
        Some(other) => same_place(place, other),
        None => false,
    }
}

/// How many lines have connections that come there.
fn count_listening(file: &ServiceFile<'_>, listen: SocketAddr) -> usize
    ensures { result ≡ length (filter (spec.listens_at listen) file.now.lines.items) }
{
    file.lines
        .iter()
        .filter(|table| is_place(listen, listen_of(table.way)))
        .count()
}

/// Whether connections of calls come to a place to which nothing else comes.
fn xot_is_apart(file: &ServiceFile<'_>, listen: Option<SocketAddr>) -> bool
    ensures { result ≡ spec.xot_is_apart file.now listen }
{
    match listen {
        Some(at) => listens_apart(file, at) && count_listening(file, at) <= 1,
        None => true,
    }
}

fn way_is_apart(file: &ServiceFile<'_>, way: Way) -> bool
    ensures { result ≡ spec.way_is_apart file.now way }
{
    match way {
        Way::Listen(at) => listens_apart(file, at),
        Way::Xot(way) => xot_is_apart(file, way.listen()),
        Way::Connect(_) | Way::Udp(_) => true,
    }
}

fn is_way_here(way: Way) -> bool
    ensures { result ≡ spec.is_way_here way }
{
    match listen_of(way) {
        Some(at) => is_here(at.ip()),
        None => true,
    }
}

/// Where datagrams come over a line, if they do.
fn bind_of(way: Way) -> Option<SocketAddr>
    ensures { result ≡ spec.bind_of way }
{
    match way {
        Way::Udp(way) => Some(way.bind),
        Way::Listen(_) | Way::Connect(_) | Way::Xot(_) => None,
    }
}

/// How many lines have datagrams that come there.
fn count_bound(file: &ServiceFile<'_>, bind: SocketAddr) -> usize
    ensures { result ≡ length (filter (spec.binds_at bind) file.now.lines.items) }
{
    file.lines
        .iter()
        .filter(|table| is_place(bind, bind_of(table.way)))
        .count()
}

fn binds_once(file: &ServiceFile<'_>, bind: Option<SocketAddr>) -> bool
    ensures { result ≡ spec.binds_once file.now bind }
{
    match bind {
        Some(at) => count_bound(file, at) <= 1,
        None => true,
    }
}

/// Whether the end here of a line is a DCE, if calls of equipment come over it.
fn is_dce_here(table: &LineTable) -> bool
    ensures { result ≡ spec.is_dce_here table.now.way table.now.here }
{
    match (table.way, table.here) {
        (Way::Xot(_), End::Dte) => false,
        _ => true,
    }
}

/// The node at an end of the line of a table.
fn node_in<'a>(config: &'a Config, table: &LineTable, end: End) -> Option<&'a NodeConfig>
    ensures { option_map (λ node. node.now) result ≡ spec.node_there config.entry.now table.now end }
{
    config.nodes.get(node_of_table(config, table, end)?)
}

fn is_switch(node: Option<&NodeConfig>) -> bool
    ensures { result ≡ spec.is_switch (option_map (λ node. node.now) node.entry) }
{
    match node {
        Some(node) => matches!(node.kind, NodeKind::Switch),
        None => false,
    }
}

fn is_host(node: Option<&NodeConfig>) -> bool
    ensures { result ≡ spec.is_host (option_map (λ node. node.now) node.entry) }
{
    match node {
        Some(node) => matches!(node.kind, NodeKind::Host),
        None => false,
    }
}

/// Whether a node may be at the end here of a line.
fn may_be_here(way: Way, node: Option<&NodeConfig>) -> bool
    ensures { result ≡ spec.may_be_here way (option_map (λ node. node.now) node.entry) }
{
    match way {
        Way::Listen(_) | Way::Connect(_) => true,
        Way::Xot(_) | Way::Udp(_) => is_switch(node),
    }
}

/// Whether a node may be at the other end of a line.
fn may_be_there(way: Way, node: Option<&NodeConfig>) -> bool
    ensures { result ≡ spec.may_be_there way (option_map (λ node. node.now) node.entry) }
{
    match way {
        Way::Listen(_) | Way::Connect(_) => true,
        Way::Xot(_) => is_host(node),
        Way::Udp(_) => is_host(node) || is_switch(node),
    }
}

fn line_keeps(
    config: &Config,
    file: &ServiceFile<'_>,
    own: &[bool],
    table: &LineTable,
    rule: LineRule,
) -> bool
    ensures { result ≡ spec.line_keeps config.now file.now own.now table.now rule }
{
    match rule {
        LineRule::LineIsThere => usize::from(table.line) < config.lines.len(),
        LineRule::LineOnce => count_line(file, table) == 1,
        LineRule::NotStanding => !is_standing(config, table),
        LineRule::OtherEndElsewhere => {
            !is_marked(own, node_of_table(config, table, other_end(table.here)))
        }
        LineRule::DceHere => is_dce_here(table),
        LineRule::SwitchHere => may_be_here(table.way, node_in(config, table, table.here)),
        LineRule::EquipmentThere => may_be_there(
            table.way,
            node_in(config, table, other_end(table.here)),
        ),
        LineRule::ListenApart => way_is_apart(file, table.way),
        LineRule::BindOnce => binds_once(file, bind_of(table.way)),
        LineRule::AllowBeyond => is_way_here(table.way) || table.allow.prefixes.is_some(),
        LineRule::SilenceLong => table.silence >= LEAST_SILENCE,
    }
}

fn line_fits(config: &Config, file: &ServiceFile<'_>, own: &[bool], table: &LineTable) -> bool
    ensures { result ≡ spec.line_fits config.now file.now own.now table.now }
{
    LINE_RULES
        .iter()
        .all(|rule| line_keeps(config, file, own, table, *rule))
}

fn first_of_line(
    config: &Config,
    file: &ServiceFile<'_>,
    own: &[bool],
    table: &LineTable,
) -> Option<LineRule>
    ensures { result ≡ first_of (spec.line_keeps config.now file.now own.now) spec.line_rules table.now }
{
    LINE_RULES
        .iter()
        .copied()
        .find(|rule| !line_keeps(config, file, own, table, *rule))
}

fn find_line(config: &Config, file: &ServiceFile<'_>, own: &[bool]) -> Option<usize>
    ensures { result ≡ position (λ t. not (spec.line_fits config.now file.now own.now t)) file.now.lines.items }
{
    file.lines
        .iter()
        .position(|table| !line_fits(config, file, own, table))
}

fn broken_line(config: &Config, file: &ServiceFile<'_>, own: &[bool]) -> Option<BrokenLine>
    ensures { result ≡ spec.broken_line config.now file.now own.now }
{
    let place = find_line(config, file, own)?;
    let rule = first_of_line(config, file, own, file.lines.get(place)?)?;
    Some(BrokenLine::Line(place, rule))
}

/// Whether the node of a name is in this process.
fn is_own(config: &Config, own: &[bool], name: &str) -> bool
    ensures { result ≡ spec.is_own config.now own.now name.now }
{
    is_marked(own, node_of(&config.nodes, name))
}

fn pad_elsewhere(config: &Config, file: &ServiceFile<'_>, own: &[bool]) -> Option<BrokenLine>
    ensures { result ≡ spec.pad_elsewhere config.now file.now own.now }
{
    let place = find_pad_elsewhere(config, file, own)?;
    Some(BrokenLine::PadElsewhere(place))
}

fn find_pad_elsewhere(config: &Config, file: &ServiceFile<'_>, own: &[bool]) -> Option<usize>
    ensures { result ≡ position (λ t. not (spec.is_own config.now own.now t.pad.now)) file.now.terminals.items }
{
    file.terminals
        .iter()
        .position(|table| !is_own(config, own, table.pad))
}

fn service_elsewhere(config: &Config, file: &ServiceFile<'_>, own: &[bool]) -> Option<BrokenLine>
    ensures { result ≡ spec.service_elsewhere config.now file.now own.now }
{
    let place = find_service_elsewhere(config, file, own)?;
    Some(BrokenLine::ServiceElsewhere(place))
}

fn find_service_elsewhere(config: &Config, file: &ServiceFile<'_>, own: &[bool]) -> Option<usize>
    ensures { result ≡ position (λ t. not (spec.is_own config.now own.now t.host.now)) file.now.services.items }
{
    file.services
        .iter()
        .position(|table| !is_own(config, own, table.host))
}

fn caller_elsewhere(config: &Config, file: &ServiceFile<'_>, own: &[bool]) -> Option<BrokenLine>
    ensures { result ≡ spec.caller_elsewhere config.now file.now own.now }
{
    let place = find_caller_elsewhere(config, file, own)?;
    Some(BrokenLine::CallerElsewhere(place))
}

fn find_caller_elsewhere(config: &Config, file: &ServiceFile<'_>, own: &[bool]) -> Option<usize>
    ensures { result ≡ position (λ t. not (spec.is_own config.now own.now t.host.now)) file.now.callers.items }
{
    file.callers
        .iter()
        .position(|table| !is_own(config, own, table.host))
}

/// The first rule that lines break whose other ends are elsewhere, or the first binding at a node that is not one of its
/// own: of lines, of terminals, of services, of callers, in this order.
pub fn first_broken_line(
    config: &Config,
    file: &ServiceFile<'_>,
    own: &[bool],
) -> Option<BrokenLine>
    ensures { result ≡ spec.first_broken_line config.now file.now own.now }
{
    broken_line(config, file, own)
        .or(pad_elsewhere(config, file, own))
        .or(service_elsewhere(config, file, own))
        .or(caller_elsewhere(config, file, own))
}
