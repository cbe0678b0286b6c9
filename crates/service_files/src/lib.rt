//! The service file: how people and programs come to the nodes of a network, whether that fits the network, and why not.
#![tactic(auto)]

mod addresses;
mod checking;
mod file;
mod hosts;
mod keys;
mod line_rules;
mod line_telling;
mod line_ways;
mod lines;
mod places;
mod reading;
mod refusal;
mod rules;
mod telling;
mod values;

pub use addresses::{Allow, Prefix};
pub use checking::{check_service, network_name};
pub use file::{
    BuiltInName, CallerTable, CaptureTable, Connect, End, HostService, LineTable, ServiceFile,
    ServiceTable, TerminalsTable, UdpWay, Way, XotWay,
};
pub use line_rules::{BrokenLine, LineRule, first_broken_line, own_nodes};
pub use reading::{read_document, read_service};
pub use refusal::Refusal;
pub use rules::{
    BrokenBinding, CallerRule, ServiceRule, TerminalsRule, channels_of, first_broken_binding,
    last_of, node_of, terminals_in,
};
