//! What a network is made with.
ghost use Rattle.std.specs.Prelude.{◌≡◌, ◌≤◌, true, false, List, length, map, IfOk, OnOk, IfErr, ◌↔◌};
ghost use Rattle.std.specs.Prelude.{string_bytes};
ghost use Rattle.net_config.specs.Served.{has_dte, has_end, is_served};
ghost use Rattle.net_config.specs.Served.{is_kind_served, is_pad_served, is_within};
ghost use Rattle.std.specs.List.{list_any, position};
ghost use Rattle.packet_codec.specs.Digits.{digits_or_none};
ghost use Rattle.packet_codec.specs.Address.{address_of};
ghost use Rattle.net_config.specs.Plan.{set_one, initial_params, role_of, new_user, lines_from, is_line, own_number};
ghost use Rattle.net_config.specs.Plan.{with_prefix, new_routes, new_switch, planned_node};
ghost use Rattle.net_config.specs.Plan.{digits_in, numbering_of, flow_of, new_line, plan_of, StandsAlone};
ghost use Rattle.net_config.specs.PlanView.{kind_value, routes_value, HasDigits};
ghost use Rattle.net_config.specs.PlannedView.{planned_value};
ghost use Rattle.net_config.specs.NetPlan.{IsPlan};
ghost use Rattle.net_config.specs.declared.fault.MakeFault.TheVariants as fault_is;
ghost use Rattle.net_config.specs.declared.plan.PlannedKind.TheVariants as planned_is;

use crate::config::{
    Config, LineConfig, NodeConfig, NodeKind, RouteConfig, Setting, TerminalsConfig,
};
use crate::fault::MakeFault;
use crate::parts::{NewKind, NewLine, NewNode, NewRoute, NewSwitch};
use crate::served::{has_dte, has_end, is_route_of, is_served, place_of};
use address_routes::LineNo;
use link_timers::Role;
use packet_codec::{Address, Numbering};
use packet_end::EndParams;
use packet_layer::Flow;
use std::alloc::Global;
use std::marker::Model;
use x3_params::Params;

/// What a node is made with: one with users, or a switch.
#[derive(Drop)]
pub enum PlannedKind {
    User(NewNode),
    Switch(NewSwitch),
}

/// A node as it is planned.
#[derive(Drop)]
pub struct Planned {
    pub kind: PlannedKind,
}

/// What a network is made with. Nodes and lines count from 0, in the order of the configuration.
#[derive(Drop)]
pub struct NetPlan {
    pub nodes: Vec<Planned>,
    pub lines: Vec<NewLine>,
}

impl Model for Planned {
    ghost use Rattle.std.specs.FinMap as map;
    ghost use Rattle.address_routes.specs.Routes.{by_digits};
    ghost use Rattle.std.specs.Coded.{codes, coded_list, coded_ℕ};
    ghost use Rattle.net_config.specs.NetPlan as plan;
    ghost use Rattle.net_config.specs.PlannedView.{planned_value};

    ghost Value = { plan.Planned };

    ghost coded = { Prim.hlevel (codes, map.code {R = by_digits} (coded_list coded_ℕ) coded_ℕ) };

    ghost view = { λ n. planned_value n.kind };
}

impl Model for NetPlan {
    ghost use Rattle.std.specs.FinMap as routes;
    ghost use Rattle.address_routes.specs.Routes.{by_digits};
    ghost use Rattle.std.specs.Coded.{codes, coded_list, coded_ℕ};
    ghost use Rattle.net_config.specs.NetPlan as plan;

    ghost Value = { plan.NetPlan };

    ghost coded = { Prim.hlevel (codes, routes.code {R = by_digits} (coded_list coded_ℕ) coded_ℕ) };

    ghost view = { λ p. record { nodes = p.nodes.items; lines = p.lines.items } };
}

/// A setting that is refused changes nothing.
fn set_one(params: &mut Params, setting: &Setting)
    ensures { params.new ≡ set_one params.old setting.now }
{
    let _ = params.set(setting.number, setting.value);
}

/// The initial parameters of a PAD: those of its profile, with the settings made in order.
fn initial_params(pad: &TerminalsConfig) -> Params
    requires { is_pad_served pad.now ≡ true }
    ensures { result ≡ initial_params pad.now }
{
    let mut params = Params::profile(pad.profile, pad.speed as u8);
    for setting in &pad.settings {
        set_one(&mut params, setting);
    }
    params
}

/// The number of the line that ends at the node of this name.
fn find_line(lines: &[LineConfig], name: &str) -> Option<usize>
    ensures { result ≡ position (has_end name.now) lines.now }
{
    lines.iter().position(|line| has_end(name, line))
}

/// Whether the node of this name is the DTE of a line.
fn is_dte(lines: &[LineConfig], name: &str) -> bool
    ensures { result ≡ list_any (has_dte name.now) lines.now }
{
    lines.iter().any(|line| has_dte(name, line))
}

/// Which end of its line the node of this name is.
fn role_of(lines: &[LineConfig], name: &str) -> Role
    ensures { result ≡ role_of lines.now name.now }
{
    if is_dte(lines, name) {
        Role::Dte
    } else {
        Role::Dce
    }
}

/// Plans a PAD or host at its line. `kind` counts only if it is the DTE.
fn new_user(lines: &[LineConfig], name: &str, kind: NewKind) -> Planned
    ensures { result ≡ planned_value (planned_is.User (new_user lines.now name.now (kind_value kind))) }
{
    let node = NewNode {
        line: find_line(lines, name).unwrap_or(0),
        role: role_of(lines, name),
        kind,
    };
    Planned {
        kind: PlannedKind::User(node),
    }
}

/// The numbers of the lines that end at the node of this name.
fn lines_at(alloc: Global, lines: &[LineConfig], name: &str) -> Result<Vec<usize>, MakeFault>
    ensures ok { IfOk result (λ own. own.items ≡ lines_from 0 name.now lines.now) }
    ensures err { IfErr result (λ fault. fault ≡ fault_is.OutOfMemory) }
{
    let mut own = Vec::new(alloc);
    for number in 0..lines.len() {
        if has_end(name, &lines[number]) {
            own.push(number)?;
        }
    }
    Ok(own)
}

fn is_line(line: usize, number: &usize) -> bool
    ensures { result ≡ is_line line number.now }
{
    *number == line
}

/// Which own line of a switch a line of the network is, if it is one.
pub fn find_own(own: &[usize], line: usize) -> Option<usize>
    ensures { result ≡ position (is_line line) own.now }
{
    own.iter().position(|number| is_line(line, number))
}

/// Which own line of a switch a line is.
fn own_number(own: &[usize], line: u16) -> LineNo
    requires { length own.now ≤ 64 }
    ensures { result.0 ≡ own_number own.now line }
{
    let number = find_own(own, line as usize).unwrap_or(0);
    LineNo(number as u16)
}

/// The routes of the switch of this name to its own lines.
fn new_routes(
    alloc: Global,
    name: &str,
    own: &[usize],
    routes: &[RouteConfig],
) -> Result<Vec<NewRoute>, MakeFault>
    requires { length own.now ≤ 64 }
    ensures ok { IfOk result (λ added. routes_value added.items ≡ new_routes name.now own.now routes.now) }
    ensures err { IfErr result (λ fault. fault ≡ fault_is.OutOfMemory) }
{
    let mut added = Vec::new(alloc);
    for route in routes {
        if is_route_of(name, route) {
            let line = own_number(own, route.line);
            add_prefix(&mut added, &route.prefix, line)?;
        }
    }
    Ok(added)
}

/// Adds a route for the digits that a text names, if it names some.
fn add_prefix(routes: &mut Vec<NewRoute>, text: &str, line: LineNo) -> Result<(), MakeFault>
    ensures ok { OnOk result (routes_value routes.new.items
        ≡ with_prefix (routes_value routes.old.items) (address_of text.now) line.0) }
    ensures err { IfErr result (λ fault. fault ≡ fault_is.OutOfMemory) }
{
    if let Ok(prefix) = Address::read(text.as_bytes()) {
        routes.push(NewRoute { prefix, line })?;
    }
    Ok(())
}

/// The switch of this name, with all lines that end there.
fn new_switch(alloc: Global, config: &Config, name: &str) -> Result<NewSwitch, MakeFault>
    requires { length (lines_from 0 name.now config.now.lines.items) ≤ 64 }
    ensures ok { IfOk result (λ switch. switch ≡ new_switch config.now name.now) }
    ensures err { IfErr result (λ fault. fault ≡ fault_is.OutOfMemory) }
{
    let lines = lines_at(alloc, &config.lines, name)?;
    let routes = new_routes(alloc, name, &lines, &config.routes)?;
    Ok(NewSwitch { lines, routes })
}

fn planned_node(alloc: Global, config: &Config, node: &NodeConfig) -> Result<Planned, MakeFault>
    requires kind { is_kind_served node.now.kind ≡ true }
    requires lines { length (lines_from 0 (string_bytes node.now.name) config.now.lines.items) ≤ 64 }
    ensures ok { IfOk result (λ planned. planned ≡ planned_node config.now node.now) }
    ensures err { IfErr result (λ fault. fault ≡ fault_is.OutOfMemory) }
{
    let kind = match &node.kind {
        NodeKind::Pad(pad) => NewKind::Pad {
            params: initial_params(pad),
            terminals: pad.terminals as u8,
        },
        NodeKind::Host => NewKind::Host,
        NodeKind::Switch => {
            let switch = new_switch(alloc, config, &node.name)?;
            return Ok(Planned {
                kind: PlannedKind::Switch(switch),
            });
        }
    };
    Ok(new_user(&config.lines, &node.name, kind))
}

fn numbering_of(modulo: u16) -> Numbering
    ensures { result ≡ numbering_of modulo }
{
    if modulo == 128 {
        Numbering::Modulo128
    } else {
        Numbering::Modulo8
    }
}

fn flow_of(line: &LineConfig) -> Flow
    requires { is_within line.now ≡ true }
    ensures { result ≡ flow_of line.now }
{
    Flow {
        window: line.window as u8,
        numbering: numbering_of(line.modulo),
        size: line.size,
    }
}

fn new_line(nodes: &[NodeConfig], line: &LineConfig) -> NewLine
    requires { is_within line.now ≡ true }
    ensures { result ≡ new_line nodes.now line.now }
{
    NewLine {
        dte: place_of(nodes, &line.dte),
        dce: place_of(nodes, &line.dce),
        address: address_in(&line.address),
        params: EndParams {
            k: line.k as u8,
            n2: line.n2 as u8,
            channels: line.channels as u8,
            flow: flow_of(line),
            standing: line.standing,
        },
    }
}

/// The address that a text names, if it names one.
fn address_in(text: &str) -> Option<Address>
    ensures value { digits_or_none result ≡ digits_in (address_of text.now) }
    ensures digits { HasDigits result }
{
    match Address::read(text.as_bytes()) {
        Ok(address) => Some(address),
        Err(_) => None,
    }
}

fn new_nodes(alloc: Global, config: &Config) -> Result<Vec<Planned>, MakeFault>
    requires { is_served config.now ≡ true }
    ensures ok { IfOk result (λ v. v.items ≡ map (planned_node config.now) config.now.nodes.items) }
    ensures err { IfErr result (λ fault. fault ≡ fault_is.OutOfMemory) }
{
    let mut nodes = Vec::new(alloc);
    for node in &config.nodes {
        nodes.push(planned_node(alloc, config, node)?)?;
    }
    Ok(nodes)
}

fn new_lines(alloc: Global, config: &Config) -> Result<Vec<NewLine>, MakeFault>
    requires { is_served config.now ≡ true }
    ensures ok { IfOk result (λ v. v.items ≡ (plan_of config.now).lines) }
    ensures err { IfErr result (λ fault. fault ≡ fault_is.OutOfMemory) }
{
    let mut lines = Vec::new(alloc);
    for line in &config.lines {
        lines.push(new_line(&config.nodes, line))?;
    }
    Ok(lines)
}

fn new_plan(alloc: Global, config: &Config) -> Result<NetPlan, MakeFault>
    requires { is_served config.now ≡ true }
    ensures ok { IfOk result (λ plan. plan ≡ plan_of config.now) }
    ensures err { IfErr result (λ fault. fault ≡ fault_is.OutOfMemory) }
{
    let nodes = new_nodes(alloc, config)?;
    let lines = new_lines(alloc, config)?;
    Ok(NetPlan { nodes, lines })
}

/// What a network is made with.
///
/// A network that is not served is BadConfig, which is found before any memory is taken; after that, want of memory is
/// OutOfMemory.
pub fn plan_of(alloc: Global, config: &Config) -> Result<NetPlan, MakeFault>
    ensures served { OnOk result (is_served config.now ≡ true) }
    ensures value { IfOk result (λ plan. plan ≡ plan_of config.now) }
    ensures plan { IfOk result IsPlan }
    ensures alone { IfOk result StandsAlone }
    ensures faults { IfErr result (λ fault. (fault ≡ fault_is.BadConfig) ↔ (is_served config.now ≡ false)) }
{
    if !is_served(config) {
        return Err(MakeFault::BadConfig);
    }
    new_plan(alloc, config)
}
