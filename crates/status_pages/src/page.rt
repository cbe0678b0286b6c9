//! The page: a picture of the network, which it draws from `/status.json` and renews each second.

/// The page. It takes nothing from outside but the status.
pub const PAGE: &str = r##"<!DOCTYPE html>
<html lang="en">
<head>
<meta charset="utf-8">
<meta name="viewport" content="width=device-width">
<title>x25d</title>
<style>
:root { color-scheme: light dark; --ink: #1d2733; --soft: #687684; --paper: #ffffff; --card: #f3f6f9; --edge: #b9c4cf;
  --pad: #2f6f4f; --host: #2c5f9e; --switch: #8a5a12; --call: #d1495b; --good: #4d8f6b; --bad: #c0392b; }
@media (prefers-color-scheme: dark) { :root { --ink: #e6ebf0; --soft: #95a3b1; --paper: #14191f; --card: #1e252d;
  --edge: #46535f; --pad: #63b88d; --host: #72a7e6; --switch: #d8a24a; --call: #ff8091; --good: #5aa37c; --bad: #ff6b5e; } }
body { margin: 0 auto; max-width: 60rem; padding: 1rem; font: 15px/1.45 system-ui, sans-serif; color: var(--ink);
  background: var(--paper); }
h1 { font-size: 1.3rem; margin: 0; }
h2 { font-size: 1rem; margin: 1.4rem 0 .4rem; }
#told { color: var(--soft); margin: .1rem 0 .8rem; }
#told.lost { color: var(--bad); }
svg { width: 100%; height: auto; background: var(--card); border-radius: 8px; }
.line { stroke: var(--edge); stroke-width: 2.5; }
.line.up { stroke: var(--good); }
.line.down { stroke: var(--bad); stroke-dasharray: 3 6; }
.line.elsewhere { stroke-dasharray: 9 5; }
.address { fill: var(--soft); font-size: 12px; text-anchor: middle; }
.node rect { fill: var(--paper); stroke-width: 2.5; }
.node.pad rect { stroke: var(--pad); }
.node.host rect { stroke: var(--host); }
.node.switch rect { stroke: var(--switch); }
.node.starting rect { stroke: var(--bad); stroke-dasharray: 3 6; }
.node.elsewhere rect { stroke-dasharray: 9 5; }
.node text { fill: var(--ink); text-anchor: middle; font-size: 15px; }
.node.elsewhere text { fill: var(--soft); }
.node .kind { fill: var(--soft); font-size: 11px; }
.call path { fill: none; stroke: var(--call); stroke-width: 3; stroke-dasharray: 2 8; stroke-linecap: round;
  animation: passing 1s linear infinite; }
.call text { fill: var(--call); font-size: 12px; text-anchor: middle; paint-order: stroke; stroke: var(--card);
  stroke-width: 4px; }
@keyframes passing { to { stroke-dashoffset: -10; } }
@media (prefers-reduced-motion: reduce) { .call path { animation: none; } }
table { border-collapse: collapse; width: 100%; font-variant-numeric: tabular-nums; }
th, td { text-align: left; padding: .2rem .7rem .2rem 0; border-bottom: 1px solid var(--card); }
th { color: var(--soft); font-weight: 500; }
.none { color: var(--soft); }
</style>
</head>
<body>
<h1>x25d</h1>
<p id="told">The status is fetched.</p>
<svg id="picture" viewBox="0 0 900 420" role="img" aria-label="The network"></svg>
<h2>Calls</h2>
<table id="calls"></table>
<h2>Ports</h2>
<table id="ports"></table>
<h2>Lines</h2>
<table id="lines"></table>
<noscript><p>The picture needs scripts. <a href="status.json">status.json</a> says the same.</p></noscript>
<script>
"use strict";
const WIDTH = 900, ROW = 74, SVG = "http://www.w3.org/2000/svg";

function byId(name) { return document.getElementById(name); }

function drawn(parent, name, marks, text) {
  const element = document.createElementNS(SVG, name);
  for (const [key, value] of Object.entries(marks)) element.setAttribute(key, value);
  if (text !== undefined) element.textContent = text;
  parent.append(element);
  return element;
}

/* PADs stand at the left, hosts at the right, switches between them: each at its place in the file. */
function placesOf(status) {
  const columns = { pad: [], switch: [], host: [] };
  for (const node of status.nodes) columns[node.kind].push(node.name);
  const rows = Math.max(columns.pad.length, columns.host.length, Math.ceil(columns.switch.length / 2), 3);
  const height = rows * ROW + 60, places = new Map();
  const put = (names, x) => names.forEach((name, number) =>
    places.set(name, { x: x(number), y: (number + 0.5) * height / names.length }));
  put(columns.pad, () => 100);
  put(columns.host, () => WIDTH - 100);
  const several = columns.switch.length > 2;
  put(columns.switch, number => WIDTH / 2 + (several ? (number % 2 ? 120 : -120) : 0));
  return { places, height };
}

function drawLine(picture, line, number, places) {
  const from = places.get(line.dte), to = places.get(line.dce);
  if (!from || !to) return;
  const mark = drawn(picture, "line", { class: "line " + line.state, x1: from.x, y1: from.y, x2: to.x, y2: to.y });
  drawn(mark, "title", {}, `line ${number}: ${line.dte} to ${line.dce}, ${line.state}`);
  if (line.address) drawn(picture, "text", { class: "address", x: from.x * 0.72 + to.x * 0.28,
    y: from.y * 0.72 + to.y * 0.28 - 15 }, line.address);
}

function drawNode(picture, node, places) {
  const { x, y } = places.get(node.name), width = Math.max(84, node.name.length * 9 + 24);
  const group = drawn(picture, "g", { class: `node ${node.kind} ${node.state}` });
  drawn(group, "rect", { x: x - width / 2, y: y - 22, width, height: 44, rx: node.kind === "switch" ? 4 : 12 });
  drawn(group, "text", { x, y: y + 1 }, node.name);
  drawn(group, "text", { class: "kind", x, y: y + 15 }, node.kind === "pad" ? "PAD" : node.kind);
  drawn(group, "title", {}, `${node.name}: ${node.state}`);
}

/* The nodes that a call passes, from the caller on. */
function nodesOf(call, lines) {
  const passed = [];
  for (const number of call.over) {
    const line = lines[number];
    if (!passed.length) passed.push(line.dte);
    passed.push(line.dce === passed[passed.length - 1] ? line.dte : line.dce);
  }
  return passed;
}

function drawCall(picture, call, rank, lines, places) {
  const shift = 6 * (rank % 4) - 9;
  const points = nodesOf(call, lines).map(name => places.get(name)).filter(Boolean);
  if (points.length < 2) return;
  const group = drawn(picture, "g", { class: "call" });
  drawn(group, "path", { d: "M" + points.map(point => `${point.x} ${point.y + shift}`).join(" L") });
  const end = points[points.length - 1], before = points[points.length - 2];
  drawn(group, "text", { x: (end.x + before.x) / 2, y: (end.y + before.y) / 2 + 15 * (rank + 1) },
    `${call.from} to ${call.to}`);
}

/* Where both ends are hosts here, both tell of the call: it is drawn as the called one tells of it. */
function callsOnce(status) {
  const hosts = new Set(status.nodes.filter(node => node.kind === "host" && node.state !== "elsewhere")
    .map(node => node.name));
  return status.calls.filter(call => {
    const called = nodesOf(call, status.lines).pop();
    return !hosts.has(called) || called === call.node;
  });
}

function draw(status) {
  const picture = byId("picture"), { places, height } = placesOf(status);
  picture.setAttribute("viewBox", `0 0 ${WIDTH} ${height}`);
  picture.replaceChildren();
  status.lines.forEach((line, number) => drawLine(picture, line, number, places));
  callsOnce(status).forEach((call, rank) => drawCall(picture, call, rank % 6, status.lines, places));
  for (const node of status.nodes) drawNode(picture, node, places);
}

function fill(name, heads, rows, none) {
  const table = byId(name);
  table.replaceChildren();
  const add = (words, kind) => {
    const row = table.insertRow();
    for (const word of words) {
      const cell = document.createElement(kind);
      cell.textContent = word;
      row.append(cell);
    }
    return row;
  };
  if (rows.length) add(heads, "th");
  else add([none], "td").className = "none";
  for (const row of rows) add(row, "td");
}

function list(status) {
  fill("calls", ["from", "to", "at", "channel", "since", "octets in", "octets out"], status.calls.map(call =>
    [call.from, call.to, call.node, call.channel, new Date(call.since * 1000).toISOString().slice(0, 19).replace("T", " "),
     call.octets ? call.octets.taken : "", call.octets ? call.octets.said : ""]), "There is no call.");
  const used = status.ports.map((port, number) => ({ port, number })).filter(({ port }) => port.in_use);
  fill("ports", ["port", "waits to be taken", "waits to be written", "keys dropped"], used.map(({ port, number }) =>
    [number, port.keys, port.octets, port.overtaken]), `All ${status.ports.length} ports are free.`);
  fill("lines", ["line", "DTE", "DCE", "address", "state"], status.lines.map((line, number) =>
    [number, line.dte, line.dce, line.address || "none", line.state]), "There is no line.");
}

function tell(text, lost) {
  byId("told").textContent = text;
  byId("told").className = lost ? "lost" : "";
}

function summary(status) {
  const { clients, refused, lines_lost, lines_withheld } = status.counts;
  return `${status.version}, up ${status.seconds} s. Clients ${clients}, refused ${refused}. `
    + `Lines of the log lost ${lines_lost}, withheld ${lines_withheld}.`;
}

async function renew() {
  try {
    const answer = await fetch("status.json", { cache: "no-store" });
    if (!answer.ok) throw new Error(answer.status);
    const status = await answer.json();
    draw(status);
    list(status);
    tell(summary(status), false);
  } catch (error) {
    tell("The service does not answer. What stands here is of before.", true);
  }
  setTimeout(renew, 1000);
}

renew();
</script>
</body>
</html>
"##;
