//! How the lines of a network begin, whose nodes are made.
ghost use Rattle.std.specs.Prelude.{◌≡◌, ◌≤◌, [], Some, IfOk, IfErr, OnOk, length, slice_get, vec_len};
ghost use Rattle.net_events.specs.Network as network;
ghost use Rattle.net_config.specs.NetPlan.{IsPlan};
ghost use Rattle.net_events.specs.Opening.{IsMade};
ghost use Rattle.net_config.specs.declared.fault.MakeFault.TheVariants as make_fault_is;
ghost use Rattle.net_config.specs.Plan.{StandsAlone};
ghost use Rattle.line_sim.specs.Making.{HaveBegun, HasEnds, PutsFirst, Begins, CanBegin, SwitchBegins, IsMadeOf};
ghost use Rattle.net_node.specs.Making.{AreNew};

use frame_lines::{Direction, Line};
use line_end::MOST_FRAMES;
use net_config::{MakeFault, NetPlan, NewLine};
use net_events::Puts;
use net_node::{Equipment, NetNode, new_nodes, new_register};
use net_nodes::Nodes;
use node_events::{NetLine, put_frames, put_lines};
use std::alloc::{AllocError, Global};

/// Puts all frames that wait at a node with users on its line; those of a switch wait.
fn put_user_frames<L: Line>(
    node: &mut NetNode,
    number: usize,
    line: &mut L,
    direction: Direction,
    puts: &mut Puts,
)
    requires empty { puts.old.items ≡ [] }
    requires room { MOST_FRAMES ≤ puts.old.room }
    ensures { PutsFirst L.service direction node.old (L.flights line.old) node.new (L.flights line.new) }
{
    match &mut node.kind {
        Equipment::User { node, .. } => put_frames(node, number, line, direction, puts),
        Equipment::Switching { .. } => {}
    }
}

/// Empties a line, and puts what its nodes with users have to send, that of the DTE first.
fn begin<L: Line>(
    alloc: Global,
    nodes: &mut Vec<NetNode>,
    number: usize,
    plan: &NewLine,
    line: &mut L,
) -> Result<(), AllocError>
    requires { HasEnds plan.now nodes.old.items }
    ensures { (dte dce : network.NetNode) → slice_get nodes.old.items plan.now.dte ≡ Some dte
        → slice_get nodes.old.items plan.now.dce ≡ Some dce
        → OnOk result (Begins L.service plan.now dte dce nodes.old.items nodes.new.items (L.flights line.new)) }
{
    let mut first = Puts::with_room(alloc, MOST_FRAMES)?;
    let mut second = Puts::with_room(alloc, MOST_FRAMES)?;
    line.empty();
    put_user_frames(
        &mut nodes[plan.dte],
        number,
        line,
        Direction::FromDte,
        &mut first,
    );
    put_user_frames(
        &mut nodes[plan.dce],
        number,
        line,
        Direction::FromDce,
        &mut second,
    );
    Ok(())
}

/// The lines of a plan, each of which begins.
fn begin_lines<L: Line>(
    alloc: Global,
    plan: &NetPlan,
    nodes: &mut Vec<NetNode>,
    lines: Vec<L>,
) -> Result<Vec<NetLine<L>>, MakeFault>
    requires plan { IsPlan plan.now }
    requires count { vec_len lines ≡ length plan.now.lines }
    requires made { AreNew 0 plan.now nodes.old.items }
    ensures nodes { OnOk result (AreNew (length plan.now.lines) plan.now nodes.new.items) }
    ensures lines { IfOk result (λ lines. HaveBegun L.service 0 (length plan.now.lines) plan.now lines.items) }
    ensures err { IfErr result (λ fault. fault ≡ make_fault_is.OutOfMemory) }
{
    let mut begun = Vec::new(alloc);
    for line in lines {
        let mut line = line;
        let number = begun.len();
        let planned = &plan.lines[number];
        begin(alloc, nodes, number, planned, &mut line)?;
        begun.push(NetLine {
            dte: planned.dte,
            dce: planned.dce,
            channels: planned.params.channels,
            line,
        })?;
    }
    Ok(begun)
}

/// Puts what a node has to send on its lines if it is a switch.
fn begin_switch<L: Line>(
    alloc: Global,
    node: &mut NetNode,
    lines: &mut Vec<NetLine<L>>,
) -> Result<(), MakeFault>
    requires { (n : network.PlacedSwitch) → node.old ≡ network.Switching n → CanBegin n lines.old.items }
    ensures user { (n : network.PlacedNode) → node.old ≡ network.User n
        → (node.new ≡ node.old) × (lines.new.items ≡ lines.old.items) }
    ensures switch { (n : network.PlacedSwitch) → node.old ≡ network.Switching n
        → OnOk result (SwitchBegins L.service n lines.old.items node.new lines.new.items) }
    ensures err { IfErr result (λ fault. fault ≡ make_fault_is.OutOfMemory) }
{
    match &mut node.kind {
        Equipment::User { .. } => {}
        Equipment::Switching {
            lines: own,
            switch,
            ..
        } => {
            let mut puts = Puts::with_room(alloc, switch.lines() * MOST_FRAMES)?;
            put_lines(switch, own, lines, false, &mut puts);
        }
    }
    Ok(())
}

/// Puts what the switches of a network have to send on their lines, one switch after the other.
fn begin_switches<L: Line>(
    alloc: Global,
    plan: &NetPlan,
    nodes: &mut Vec<NetNode>,
    lines: &mut Vec<NetLine<L>>,
) -> Result<(), MakeFault>
    requires plan { IsPlan plan.now }
    requires nodes { AreNew (length plan.now.lines) plan.now nodes.old.items }
    requires lines { HaveBegun L.service 0 (length plan.now.lines) plan.now lines.old.items }
    ensures ok { OnOk result (IsMadeOf L.service plan.now nodes.new.items lines.new.items) }
    ensures err { IfErr result (λ fault. fault ≡ make_fault_is.OutOfMemory) }
{
    for place in 0..nodes.len() {
        begin_switch(alloc, &mut nodes[place], lines)?;
    }
    Ok(())
}

/// Makes the nodes of a plan on these lines, each of which is emptied first. Both ends of a line that is not standing
/// send a first frame. It is refused for want of memory.
pub(crate) fn made_nodes<L: Line>(
    alloc: Global,
    plan: &NetPlan,
    lines: Vec<L>,
) -> Result<Nodes<L>, MakeFault>
    requires plan { IsPlan plan.now }
    requires alone { StandsAlone plan.now }
    requires count { vec_len lines ≡ length plan.now.lines }
    ensures ok { IfOk result (IsMade L.service plan.now) }
    ensures err { IfErr result (λ fault. fault ≡ make_fault_is.OutOfMemory) }
{
    let mut nodes = new_nodes(alloc, plan)?;
    let mut lines = begin_lines(alloc, plan, &mut nodes, lines)?;
    begin_switches(alloc, plan, &mut nodes, &mut lines)?;
    let register = new_register(alloc, plan)?;
    Ok(Nodes::new(nodes, lines, register))
}
