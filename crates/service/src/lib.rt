//! Terminals for clients, and services for calls, on a network: no socket and no clock.
#![tactic(auto)]

mod absent;
mod bridges;
mod bridging;
mod builtin;
mod call_address;
mod calls;
mod exchange;
mod hello;
mod hosts;
mod law;
mod lines;
mod mail;
mod passing;
mod place;
mod rounds;
mod seats;
mod service;
mod terminal;

pub use absent::PadBinding;
pub use bridge_ports::{AtReset, BridgeTerms};
pub use bridges::{BridgeBindings, CallerBinding, ServiceBinding};
pub use builtin::BuiltIn;
pub use call_address::CallAddress;
pub use calls::{CallChange, CallOctets, CallStatus, NotedCall};
pub use hosts::HostBinding;
pub use law::{bridge_calls_law, port_law};
pub use net_process::{Process, Share};
pub use seats::TerminalsBinding;
pub use service::{Bindings, Order, PortStatus, Service};
pub use service_ports::PortMode;
