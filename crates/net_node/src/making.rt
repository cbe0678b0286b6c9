//! How the nodes of a plan and the register of its calls are made.
ghost use Rattle.std.specs.Prelude.{◌≡◌, ◌≤◌, Some, IfOk, IfErr, OnOk, map, slice_get};
ghost use Rattle.packet_end.specs.Params.{AreParams};
ghost use Rattle.packet_host.specs.Making as host_made;
ghost use Rattle.x25_pad.specs.Making as pad_made;
ghost use Rattle.call_records.specs.Register.{made_register};
ghost use Rattle.call_records.specs.RegisterView.{register_of};
ghost use Rattle.user_nodes.specs.Node.{Host as host_node, Pad as pad_node};
ghost use Rattle.user_nodes.specs.NodeView.{node_of};
ghost use Rattle.net_events.specs.Network as network;
ghost use Rattle.net_config.specs.NetPlan as planned;
ghost use Rattle.net_config.specs.NetPlan.{IsPlan, IsNewDte, PlannedUser};
ghost use Rattle.net_events.specs.Opening.{line_plan, new_node};
ghost use Rattle.net_events.specs.Opening.{role_on_line, line_config, own_configs};
ghost use Rattle.link_timers.specs.declared.role.Role.TheVariants as role_is;
ghost use Rattle.net_config.specs.declared.fault.MakeFault.TheVariants as make_fault_is;
ghost use Rattle.net_config.specs.Plan.{StandsAlone};
ghost use Rattle.net_node.specs.Making.{AreNew, waiting, waiting_switch, IsNewNode, IsOfPlan, CanMakeLines};
ghost use Rattle.net_node.specs.Making.{AreFree, stands};
ghost use Rattle.net_node.specs.NodeView.{kind_of};
ghost use Rattle.net_config.specs.PlanView.{add_route, routes_value};

use crate::node::{Equipment, NetNode};
use address_routes::{RouteFault, Routes};
use call_records::Register;
use link_timers::Role;
use net_config::{
    MakeFault, NetPlan, NewKind, NewLine, NewNode, NewRoute, NewSwitch, Planned, PlannedKind,
};
use net_events::network_line;
use packet_end::{EndFault, EndParams};
use packet_host::{Host, HostConfig};
use std::alloc::Global;
use user_nodes::Node;
use x3_params::Params;
use x25_pad::{Pad, PadConfig};
use x25_switch::{Switch, SwitchConfig, SwitchLineConfig};

#[inline(never)]
fn new_host(alloc: Global, role: Role, line: EndParams) -> Result<Node, MakeFault>
    requires { AreParams line }
    ensures ok { IfOk result (λ node. node_of node ≡ host_node (host_made.made (record { role = role; line = line }))) }
    ensures err { IfErr result (λ fault. fault ≡ make_fault_is.OutOfMemory) }
{
    match Host::new(alloc, HostConfig { role, line }) {
        Ok(host) => Ok(Node::Host(host)),
        Err(EndFault::OutOfMemory) => Err(MakeFault::OutOfMemory),
        Err(EndFault::BadConfig) => unreachable!(),
    }
}

#[inline(never)]
fn new_pad(alloc: Global, params: Params, terminals: u8, line: EndParams) -> Result<Node, MakeFault>
    requires line { AreParams line }
    requires least { 1 ≤ terminals }
    requires most { terminals ≤ 16 }
    requires size { line.flow.size ≡ 128 }
    ensures ok { IfOk result (λ node. node_of node ≡ pad_node (pad_made.made
        (record { line = line; params = params; terminals = terminals }))) }
    ensures err { IfErr result (λ fault. fault ≡ make_fault_is.OutOfMemory) }
{
    let config = PadConfig {
        line,
        params,
        terminals,
    };
    match Pad::new(alloc, config) {
        Ok(pad) => Ok(Node::Pad(pad)),
        Err(EndFault::OutOfMemory) => Err(MakeFault::OutOfMemory),
        Err(EndFault::BadConfig) => unreachable!(),
    }
}

/// A node in the state in which it is made.
#[inline(never)]
fn new_node(alloc: Global, node: &NewNode, line: EndParams) -> Result<Node, MakeFault>
    requires line { AreParams line }
    requires dte { node.now.role ≡ role_is.Dte → IsNewDte node.now.as_dte line }
    ensures ok { IfOk result (λ made. node_of made ≡ new_node node.now line) }
    ensures err { IfErr result (λ fault. fault ≡ make_fault_is.OutOfMemory) }
{
    match node.role {
        Role::Dce => new_host(alloc, Role::Dce, line),
        Role::Dte => match &node.kind {
            NewKind::Pad { params, terminals } => new_pad(alloc, *params, *terminals, line),
            NewKind::Host => new_host(alloc, Role::Dte, line),
        },
    }
}

/// A node with users, at its line.
#[inline(never)]
fn new_user(alloc: Global, plan: &NetPlan, node: &NewNode) -> Result<Equipment, MakeFault>
    requires plan { IsPlan plan.now }
    requires there { IsOfPlan plan.now (PlannedUser node.now) }
    ensures ok { IfOk result (λ kind. (line : planned.NewLine) → slice_get plan.now.lines node.now.line ≡ Some line
        → kind_of kind ≡ network.User (waiting node.now line.params)) }
    ensures err { IfErr result (λ fault. fault ≡ make_fault_is.OutOfMemory) }
{
    let line = &plan.lines[node.line];
    Ok(Equipment::User {
        line: node.line,
        node: new_node(alloc, node, line.params)?,
    })
}

/// The role of the switch of a place on one of its lines.
fn role_on_line(place: usize, line: &NewLine) -> Role
    ensures { result ≡ role_on_line place line.now }
{
    if line.dce == place {
        Role::Dce
    } else {
        Role::Dte
    }
}

/// How an own line of the switch of a place is made.
fn line_config(place: usize, line: &NewLine) -> SwitchLineConfig
    ensures { result ≡ line_config place line.now }
{
    SwitchLineConfig {
        params: line.params,
        role: role_on_line(place, line),
        address: line.address,
    }
}

/// How the own lines of the switch of a place are made.
fn own_configs(
    alloc: Global,
    place: usize,
    own: &[usize],
    plan: &NetPlan,
) -> Result<Vec<SwitchLineConfig>, MakeFault>
    requires { CanMakeLines place own.now plan.now.lines }
    ensures ok { IfOk result (λ configs. configs.items ≡ own_configs place own.now plan.now.lines) }
    ensures err { IfErr result (λ fault. fault ≡ make_fault_is.OutOfMemory) }
{
    let mut configs = Vec::new(alloc);
    for at in 0..own.len() {
        let number = network_line(own, at);
        configs.push(line_config(place, &plan.lines[number]))?;
    }
    Ok(configs)
}

/// A route that is refused adds nothing.
fn add_route(routes: &mut Routes, route: &NewRoute) -> Result<(), MakeFault>
    ensures ok { OnOk result (routes.new ≡ add_route routes.old route.now) }
    ensures err { IfErr result (λ fault. fault ≡ make_fault_is.OutOfMemory) }
{
    match routes.add(&route.prefix, route.line) {
        Err(RouteFault::OutOfMemory) => Err(MakeFault::OutOfMemory),
        Err(RouteFault::Duplicate) => Ok(()),
        Err(RouteFault::Full) => Ok(()),
        Ok(()) => Ok(()),
    }
}

/// The routes of a switch.
fn new_routes(alloc: Global, routes: &[NewRoute]) -> Result<Routes, MakeFault>
    ensures ok { IfOk result (λ made. made ≡ routes_value routes.now) }
    ensures err { IfErr result (λ fault. fault ≡ make_fault_is.OutOfMemory) }
{
    let mut made = Routes::new(alloc)?;
    for route in routes {
        add_route(&mut made, route)?;
    }
    Ok(made)
}

/// The switch of a place, at its lines.
#[inline(never)]
fn new_switch(
    alloc: Global,
    plan: &NetPlan,
    place: usize,
    switch: &NewSwitch,
) -> Result<Equipment, MakeFault>
    requires { CanMakeLines place switch.now.lines plan.now.lines }
    ensures ok { IfOk result (λ kind. kind_of kind
        ≡ network.Switching (waiting_switch place switch.now plan.now.lines)) }
    ensures err { IfErr result (λ fault. fault ≡ make_fault_is.OutOfMemory) }
{
    let own = switch.lines.clone()?;
    let configs = own_configs(alloc, place, &switch.lines, plan)?;
    let routes = new_routes(alloc, &switch.routes)?;
    let config = SwitchConfig {
        lines: &configs,
        routes,
    };
    match Switch::new(alloc, config) {
        Ok(switch) => Ok(Equipment::Switching { lines: own, switch }),
        Err(EndFault::OutOfMemory) => Err(MakeFault::OutOfMemory),
        Err(EndFault::BadConfig) => unreachable!(),
    }
}

/// The node of a place of the plan.
fn new_kind(
    alloc: Global,
    plan: &NetPlan,
    place: usize,
    node: &Planned,
) -> Result<Equipment, MakeFault>
    requires plan { IsPlan plan.now }
    requires there { slice_get plan.now.nodes place ≡ Some node.now }
    ensures ok { IfOk result (λ kind. IsNewNode plan.now place node.now (kind_of kind)) }
    ensures err { IfErr result (λ fault. fault ≡ make_fault_is.OutOfMemory) }
{
    match &node.kind {
        PlannedKind::User(user) => new_user(alloc, plan, user),
        PlannedKind::Switch(switch) => new_switch(alloc, plan, place, switch),
    }
}

/// The nodes of a plan, in their order, each with its first frames waiting. It is refused for want of memory.
pub fn new_nodes(alloc: Global, plan: &NetPlan) -> Result<Vec<NetNode>, MakeFault>
    requires { IsPlan plan.now }
    ensures ok { IfOk result (λ nodes. AreNew 0 plan.now nodes.items) }
    ensures err { IfErr result (λ fault. fault ≡ make_fault_is.OutOfMemory) }
{
    let mut nodes = Vec::new(alloc);
    for place in 0..plan.nodes.len() {
        let kind = new_kind(alloc, plan, place, &plan.nodes[place])?;
        nodes.push(NetNode { kind })?;
    }
    Ok(nodes)
}

/// Whether a call stands on the first line.
fn stands(lines: &[NewLine]) -> bool
    ensures { result ≡ stands lines.now }
{
    if lines.is_empty() {
        return false;
    }
    let line = &lines[0];
    line.params.standing
}

/// The register of lines on which no call stands.
fn free_register(alloc: Global, lines: &[NewLine]) -> Result<Register, MakeFault>
    requires { AreFree lines.now }
    ensures ok { IfOk result (λ register. register_of register ≡ made_register (map line_plan lines.now)) }
    ensures err { IfErr result (λ fault. fault ≡ make_fault_is.OutOfMemory) }
{
    let mut register = Register::new(alloc)?;
    for line in lines {
        let channels = line.params.channels;
        register.add_line(alloc, line.dte, line.dce, line.address, channels)?;
    }
    Ok(register)
}

/// The register of a network as it begins. A network with a standing line has no other. It is refused for want of
/// memory.
pub fn new_register(alloc: Global, plan: &NetPlan) -> Result<Register, MakeFault>
    requires plan { IsPlan plan.now }
    requires alone { StandsAlone plan.now }
    ensures ok { IfOk result (λ register. register_of register ≡ made_register (map line_plan plan.now.lines)) }
    ensures err { IfErr result (λ fault. fault ≡ make_fault_is.OutOfMemory) }
{
    if !stands(&plan.lines) {
        return free_register(alloc, &plan.lines);
    }
    let line = &plan.lines[0];
    let channels = line.params.channels;
    Ok(Register::standing(alloc, line.dte, line.dce, channels)?)
}
