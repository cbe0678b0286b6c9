//! How a network is configured, whether it is served, and what a network that is served is made with.
#![tactic(auto)]

mod config;
mod fault;
mod parts;
mod plan;
mod rules;
mod served;

pub use config::{Config, LineConfig, NodeConfig, NodeKind, RouteConfig, Setting, TerminalsConfig};
pub use fault::MakeFault;
pub use parts::{NewKind, NewLine, NewNode, NewRoute, NewSwitch};
pub use plan::{NetPlan, Planned, PlannedKind, find_own, plan_of};
pub use rules::{BrokenRule, LineRule, NodeRule, RouteRule, first_broken_rule};
pub use served::is_served;
