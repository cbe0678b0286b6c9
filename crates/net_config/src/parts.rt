//! What the nodes and the lines of a network are made with.
use address_routes::LineNo;
use link_timers::Role;
use packet_codec::Address;
use packet_end::EndParams;
use std::marker::Model;
use x3_params::Params;

/// What a node with users is made as: a PAD of so many terminals, each with these initial parameters, or a host.
#[derive(Drop)]
pub enum NewKind {
    Pad { params: Params, terminals: u8 },
    Host,
}

/// What a node with users is made with: its line and which end of it the node is, and its kind.
#[derive(Drop)]
pub struct NewNode {
    pub line: usize,
    pub role: Role,
    pub kind: NewKind,
}

/// A route of a switch: the digits that an address begins with, and the own line that leads there.
#[derive(Clone, Copy)]
pub struct NewRoute {
    pub prefix: Address,
    pub line: LineNo,
}

/// What a switch is made with: the lines of the network that are its own lines, in order, and its routes to these,
/// which go by their order. A route that is refused after those before it adds nothing.
#[derive(Drop)]
pub struct NewSwitch {
    pub lines: Vec<usize>,
    pub routes: Vec<NewRoute>,
}

/// What a line is made with: the places of its nodes, the address that it has at a switch, and the parameters that both
/// ends share.
#[derive(Drop)]
pub struct NewLine {
    pub dte: usize,
    pub dce: usize,
    pub address: Option<Address>,
    pub params: EndParams,
}

impl Model for NewNode {
    ghost use Rattle.net_config.specs.NetPlan as plan;
    ghost use Rattle.net_config.specs.PlanView.{kind_value};

    ghost Value = { plan.NewNode };

    ghost view = { λ n. record { line = n.line; role = n.role; as_dte = kind_value n.kind } };
}

impl Model for NewSwitch {
    ghost use Rattle.net_config.specs.PlanView.{routes_value};
    ghost use Rattle.std.specs.FinMap as map;
    ghost use Rattle.address_routes.specs.Routes.{by_digits};
    ghost use Rattle.std.specs.Coded.{codes, coded_list, coded_ℕ};
    ghost use Rattle.net_config.specs.NetPlan as plan;

    ghost Value = { plan.NewSwitch };

    ghost coded = { Prim.hlevel (codes, map.code {R = by_digits} (coded_list coded_ℕ) coded_ℕ) };

    ghost view = { λ s. record { lines = s.lines.items; routes = routes_value s.routes.items } };
}

impl Model for NewLine {
    ghost use Rattle.packet_codec.specs.Digits.{digits_or_none};
    ghost use Rattle.net_config.specs.NetPlan as plan;
    ghost use Rattle.net_config.specs.PlanView.{HasDigits};

    ghost Value = { plan.NewLine };

    ghost view = { λ l. record { dte = l.dte; dce = l.dce; address = digits_or_none l.address; params = l.params } };

    ghost invariant = { λ l. HasDigits l.address };
}
