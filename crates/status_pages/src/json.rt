//! A status as JSON.
ghost use Rattle.std.specs.Prelude.{◌≡◌, Some, IfOk, OnOk, map, codes, string_bytes};
ghost use Rattle.serde_json.specs.Data.{array, number, string, put as with_member};
ghost use Rattle.serde_json.specs.Find.{of_integer};
ghost use Rattle.serde_json.specs.Read.{read};
ghost use Rattle.serde_json.specs.View.{view, items_of, members_view};
ghost use Rattle.status_pages.specs.Data.{status_data, node_data, line_data, counts_data, call_data, octets_data, port_data, numbers_data, count_data};

use serde_json::{Map, Value, json, put};
use status_texts::{
    CallLine, CallOctets, Counts, NetLine, NodeLine, PortLine, Status, kind_word, line_state_word,
    node_state_word,
};
use std::alloc::{AllocError, Global};

/// A status as JSON: an object of `version`, `seconds`, `nodes`, `lines`, `counts`, `calls` and `ports`.
pub fn status_json(alloc: Global, status: &Status<'_>) -> Result<String, AllocError>
    ensures { IfOk result (λ text. read (string_bytes text) ≡ Some (status_data status.now)) }
{
    status_value(alloc, status)?.to_string(alloc)
}

fn status_value(alloc: Global, status: &Status<'_>) -> Result<Value, AllocError>
    ensures { IfOk result (λ value. view value ≡ status_data status.now) }
{
    let mut members = Map::new(alloc);
    add_network(&mut members, alloc, status)?;
    add_use(&mut members, alloc, status)?;
    Ok(Value::Object(members))
}

/// Adds what a status tells of the service and of its network.
fn add_network(
    members: &mut Map<String, Value>,
    alloc: Global,
    status: &Status<'_>,
) -> Result<(), AllocError>
    ensures { OnOk result (members_view members.new.entries
        ≡ with_member (codes "lines") (array (items_of (map line_data status.now.lines.items)))
        (with_member (codes "nodes") (array (items_of (map node_data status.now.nodes.items)))
        (with_member (codes "seconds") (count_data status.now.seconds)
        (with_member (codes "version") (string status.now.version.now) (members_view members.old.entries))))) }
{
    let version = Value::try_from_str(alloc, status.version)?;
    put(members, alloc, "version", version)?;
    put(members, alloc, "seconds", Value::from(status.seconds))?;
    put(members, alloc, "nodes", nodes_value(alloc, &status.nodes)?)?;
    put(members, alloc, "lines", lines_value(alloc, &status.lines)?)
}

/// Adds what a status tells of the clients, calls and ports.
fn add_use(
    members: &mut Map<String, Value>,
    alloc: Global,
    status: &Status<'_>,
) -> Result<(), AllocError>
    ensures { OnOk result (members_view members.new.entries
        ≡ with_member (codes "ports") (array (items_of (map port_data status.now.ports.items)))
        (with_member (codes "calls") (array (items_of (map call_data status.now.calls.items)))
        (with_member (codes "counts") (counts_data status.now.counts) (members_view members.old.entries)))) }
{
    put(
        members,
        alloc,
        "counts",
        counts_value(alloc, status.counts)?,
    )?;
    put(members, alloc, "calls", calls_value(alloc, &status.calls)?)?;
    put(members, alloc, "ports", ports_value(alloc, &status.ports)?)
}

fn nodes_value(alloc: Global, nodes: &[NodeLine<'_>]) -> Result<Value, AllocError>
    ensures { IfOk result (λ value. view value ≡ array (items_of (map node_data nodes.now))) }
{
    let mut values = Vec::new(alloc);
    for node in nodes {
        values.push(node_value(alloc, *node)?)?;
    }
    Ok(Value::Array(values))
}

fn node_value(alloc: Global, node: NodeLine<'_>) -> Result<Value, AllocError>
    ensures { IfOk result (λ value. view value ≡ node_data node.entry) }
{
    let (name, kind) = (node.name, kind_word(node.kind));
    let state = node_state_word(node.state);
    json!(in alloc; {"name": name, "kind": kind, "state": state})
}

fn lines_value(alloc: Global, lines: &[NetLine<'_>]) -> Result<Value, AllocError>
    ensures { IfOk result (λ value. view value ≡ array (items_of (map line_data lines.now))) }
{
    let mut values = Vec::new(alloc);
    for line in lines {
        values.push(line_value(alloc, *line)?)?;
    }
    Ok(Value::Array(values))
}

fn line_value(alloc: Global, line: NetLine<'_>) -> Result<Value, AllocError>
    ensures { IfOk result (λ value. view value ≡ line_data line.entry) }
{
    let (dte, dce, address) = (line.dte, line.dce, line.address);
    let state = line_state_word(line.state);
    json!(in alloc; {"dte": dte, "dce": dce, "address": address, "state": state})
}

fn counts_value(alloc: Global, counts: Counts) -> Result<Value, AllocError>
    ensures { IfOk result (λ value. view value ≡ counts_data counts) }
{
    let (clients, refused) = (counts.clients, counts.refused);
    let (lost, withheld) = (counts.lost, counts.withheld);
    json!(in alloc; {"clients": clients, "refused": refused, "lines_lost": lost, "lines_withheld": withheld})
}

fn calls_value(alloc: Global, calls: &[CallLine<'_>]) -> Result<Value, AllocError>
    ensures { IfOk result (λ value. view value ≡ array (items_of (map call_data calls.now))) }
{
    let mut values = Vec::new(alloc);
    for call in calls {
        values.push(call_value(alloc, call)?)?;
    }
    Ok(Value::Array(values))
}

fn call_value(alloc: Global, call: &CallLine<'_>) -> Result<Value, AllocError>
    ensures { IfOk result (λ value. view value ≡ call_data call.now) }
{
    let mut members = Map::new(alloc);
    add_ends(&mut members, alloc, call)?;
    add_course(&mut members, alloc, call)?;
    Ok(Value::Object(members))
}

/// Adds the ends of a call: the addresses, and the channel of a node.
fn add_ends(
    members: &mut Map<String, Value>,
    alloc: Global,
    call: &CallLine<'_>,
) -> Result<(), AllocError>
    ensures { OnOk result (members_view members.new.entries
        ≡ with_member (codes "channel") (count_data call.now.channel)
        (with_member (codes "node") (string call.now.node.now)
        (with_member (codes "to") (string (string_bytes call.now.to))
        (with_member (codes "from") (string (string_bytes call.now.from)) (members_view members.old.entries))))) }
{
    let from = Value::try_from_str(alloc, call.from.as_str())?;
    put(members, alloc, "from", from)?;
    let to = Value::try_from_str(alloc, call.to.as_str())?;
    put(members, alloc, "to", to)?;
    let node = Value::try_from_str(alloc, call.node)?;
    put(members, alloc, "node", node)?;
    put(members, alloc, "channel", Value::from(call.channel))
}

/// Adds when a call began, its octets and the lines that it passes over.
fn add_course(
    members: &mut Map<String, Value>,
    alloc: Global,
    call: &CallLine<'_>,
) -> Result<(), AllocError>
    ensures { OnOk result (members_view members.new.entries
        ≡ with_member (codes "over") (numbers_data call.now.over.items)
        (with_member (codes "octets") (octets_data call.now.octets)
        (with_member (codes "since") (number (of_integer call.now.since)) (members_view members.old.entries)))) }
{
    put(members, alloc, "since", Value::from(call.since))?;
    put(members, alloc, "octets", octets_value(alloc, call.octets)?)?;
    put(members, alloc, "over", numbers_value(alloc, &call.over)?)
}

fn octets_value(alloc: Global, octets: Option<CallOctets>) -> Result<Value, AllocError>
    ensures { IfOk result (λ value. view value ≡ octets_data octets) }
{
    match octets {
        Some(CallOctets { taken, said }) => json!(in alloc; {"taken": taken, "said": said}),
        None => Ok(Value::Null),
    }
}

fn numbers_value(alloc: Global, numbers: &[usize]) -> Result<Value, AllocError>
    ensures { IfOk result (λ value. view value ≡ numbers_data numbers.now) }
{
    let mut values = Vec::new(alloc);
    for number in numbers {
        values.push(Value::from(*number))?;
    }
    Ok(Value::Array(values))
}

fn ports_value(alloc: Global, ports: &[PortLine]) -> Result<Value, AllocError>
    ensures { IfOk result (λ value. view value ≡ array (items_of (map port_data ports.now))) }
{
    let mut values = Vec::new(alloc);
    for port in ports {
        values.push(port_value(alloc, *port)?)?;
    }
    Ok(Value::Array(values))
}

fn port_value(alloc: Global, port: PortLine) -> Result<Value, AllocError>
    ensures { IfOk result (λ value. view value ≡ port_data port) }
{
    let (in_use, keys) = (port.in_use, port.keys);
    let (octets, overtaken) = (port.octets, port.overtaken);
    json!(in alloc; {"in_use": in_use, "keys": keys, "octets": octets, "overtaken": overtaken})
}
