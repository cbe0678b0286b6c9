//! A status as lines of text.
use crate::status::{CallLine, CallOctets, Counts, LineState, NetLine, NodeLine, PortLine, Status};
use crate::words::{kind_word, line_state_word, node_state_word};
use clock_texts::utc_text;
use std::alloc::{AllocError, Global};
use std::fmt::Write;

/// The status as lines of text: how long the service runs, a line for each node and for each line of the network, what it
/// counts, a line for each call and one for each port, by its number.
pub fn status_text(alloc: Global, status: &Status<'_>) -> Result<String, AllocError> {
    let (version, seconds) = (status.version, status.seconds);
    let mut text = format!(in alloc; "x25d {version} up {seconds} s\n")?;
    for node in &status.nodes {
        add_node(&mut text, *node)?;
    }
    for (number, line) in status.lines.iter().enumerate() {
        add_line(&mut text, number, *line)?;
    }
    add_counts(&mut text, status.counts)?;
    for call in &status.calls {
        add_call(alloc, &mut text, call)?;
    }
    for (number, port) in status.ports.iter().enumerate() {
        add_port(&mut text, number, *port)?;
    }
    Ok(text)
}

fn add_node(text: &mut String, node: NodeLine<'_>) -> Result<(), AllocError> {
    let (name, kind, state) = (node.name, kind_word(node.kind), node_state_word(node.state));
    writeln!(text, "node {name} {kind} {state}")
}

fn add_line(text: &mut String, number: usize, line: NetLine<'_>) -> Result<(), AllocError> {
    let (dte, dce, state) = (line.dte, line.dce, line_state_word(line.state));
    writeln!(text, "line {number} dte {dte} dce {dce} {state}")
}

fn add_counts(text: &mut String, counts: Counts) -> Result<(), AllocError> {
    let (clients, refused) = (counts.clients, counts.refused);
    let (lost, withheld) = (counts.lost, counts.withheld);
    writeln!(
        text,
        "clients {clients} refused {refused} lines-lost {lost} lines-withheld {withheld}"
    )
}

fn add_call(alloc: Global, text: &mut String, call: &CallLine<'_>) -> Result<(), AllocError> {
    let (from, to) = (call.from.as_str(), call.to.as_str());
    let (node, channel) = (call.node, call.channel);
    let since = utc_text(alloc, call.since)?;
    write!(
        text,
        "call from {from} to {to} node {node} channel {channel} since {since}"
    )?;
    if let Some(CallOctets { taken, said }) = call.octets {
        write!(text, " taken {taken} said {said}")?;
    }
    text.push_str("\n")
}

fn add_port(text: &mut String, number: usize, port: PortLine) -> Result<(), AllocError> {
    if !port.in_use {
        return writeln!(text, "port {number} free");
    }
    let (keys, octets, overtaken) = (port.keys, port.octets, port.overtaken);
    writeln!(
        text,
        "port {number} in use keys {keys} octets {octets} overtaken {overtaken}"
    )
}
