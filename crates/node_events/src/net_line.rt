//! A line of a network.
use frame_lines::Line;
use std::marker::Model;

/// A line between two nodes, which go by their places.
#[derive(Drop)]
pub struct NetLine<L: Line> {
    pub dte: usize,
    pub dce: usize,
    pub channels: u8,
    pub line: L,
}

impl<L: Line> Model for NetLine<L> {
    ghost use Rattle.net_events.specs.Network as network;

    ghost Value = { network.NetLine };

    ghost view = { λ l. record { dte = l.dte; dce = l.dce; channels = l.channels; flights = L.flights l.line } };
}
