//! Worked examples of the layers and the nodes: of the link, of packets and their state tables, of what a terminal of a
//! PAD types and is shown, of hosts, PADs and switches, of routes, and of the books of lines.
#![tactic(auto)]

#[cfg(test)]
mod books;
#[cfg(test)]
mod hosts;
#[cfg(test)]
mod lines;
mod link;
#[cfg(test)]
mod nodes;
mod packet;
#[cfg(test)]
mod pads;
#[cfg(test)]
mod presence;
#[cfg(test)]
mod routes;
#[cfg(test)]
mod switch_steps;
#[cfg(test)]
mod switches;
#[cfg(test)]
mod terminal;

pub use link::{LinkFault, Terminus};
