//! One process of a network in several.
ghost use Rattle.std.specs.Prelude.{◌≡◌, [], true, false, Err, IfOk, vec_len, length, replicate};
ghost use Rattle.net_config.specs.Served.{is_served};
ghost use Rattle.net_config.specs.declared.fault.MakeFault.TheVariants as make_fault_is;
ghost use Rattle.net_process.specs.Process.{is_set, runs, end_runs};
ghost use Rattle.net_process.specs.Making.{IsNew};

use line_sim::{Config, Line, MakeFault};
use link_timers::Role;
use live_net::LivePart;
use net_config::{NewLine, plan_of};
use remote_lines::RemoteLine;
use std::alloc::{AllocError, Global};
use std::marker::Model;

/// What of a network is a process's own: for each node whether it is of this process, and its ends of the lines to nodes
/// of other processes.
#[derive(Drop)]
pub struct Share {
    pub own: Vec<bool>,
    pub remote: Vec<RemoteLine>,
}

impl Share {
    /// The whole of a network of so many nodes.
    pub fn whole(alloc: Global, nodes: usize) -> Result<Self, AllocError>
        ensures own { IfOk result (λ share. share.own.items ≡ replicate nodes true) }
        ensures remote { IfOk result (λ share. share.remote.items ≡ []) }
    {
        Ok(Share {
            own: vec![in alloc; true; nodes]?,
            remote: Vec::new(alloc),
        })
    }
}

/// One process of several that run a network together. Each has the network file, and lets events come to its own nodes
/// alone. A line between nodes of two processes is a remote line in both. Places of remote lines count from 0, as they
/// were given.
///
/// A process with remote lines begins with nodes that have not started. A node starts when all its remote lines let it.
/// Until then nothing happens at it. Without remote lines all nodes have started.
#[derive(Drop)]
pub struct Process<L: Line> {
    pub(crate) part: LivePart<L>,
    pub(crate) plan: Vec<NewLine>,
    pub(crate) own: Vec<bool>,
    pub(crate) started: Vec<bool>,
    pub(crate) lines: Vec<RemoteLine>,
}

impl<L: Line> Model for Process<L> {
    ghost use Rattle.std.specs.FinMap as map;
    ghost use Rattle.address_routes.specs.Routes.{by_digits};
    ghost use Rattle.std.specs.Coded.{codes, coded_list, coded_ℕ};
    ghost use Rattle.net_process.specs.Process.{ProcessState};

    ghost Value = { ProcessState };

    ghost coded = { Prim.hlevel (codes, map.code {R = by_digits} (coded_list coded_ℕ) coded_ℕ) };

    ghost view = { λ p. record {
      part = p.part;
      plan = p.plan.items;
      own = p.own.items;
      started = p.started.items;
      lines = p.lines.items;
    } };

    ghost invariant = { λ p. L.service.faithful };
}

impl<L: Line> Process<L> {
    /// Makes the whole network of a configuration on these lines, which are to be faithful, for a process that has this
    /// share of it. The first frames on remote lines are lost.
    ///
    /// `BadConfig` comes if the configuration is outside its limits or of a kind that is not served, and then
    /// `OutOfMemory` for want of memory.
    pub fn new(
        alloc: Global,
        config: &Config,
        lines: Vec<L>,
        share: Share,
    ) -> Result<Self, MakeFault>
        requires faithful { L.service.faithful }
        requires lines { vec_len lines ≡ vec_len config.now.lines }
        ensures bad { is_served config.now ≡ false → result ≡ Err make_fault_is.BadConfig }
        ensures ok { IfOk result (IsNew L.service config.now share.own.items share.remote.items) }
    {
        let plan = plan_of(alloc, config)?;
        let part = LivePart::new(alloc, config, lines)?;
        let Share { own, remote } = share;
        let started = vec![in alloc; remote.is_empty(); own.len()]?;
        let mut process = Process {
            part,
            plan: plan.lines,
            own,
            started,
            lines: remote,
        };
        process.carry();
        Ok(process)
    }

    /// Whether the node of this place is of this process.
    pub fn owns(&self, node: usize) -> bool
        ensures { result ≡ is_set self.now.own node }
    {
        is_set(self.own.as_slice(), node)
    }

    /// Whether the node of this place is of this process and has started.
    pub fn runs(&self, node: usize) -> bool
        ensures { result ≡ runs self.now node }
    {
        self.owns(node) && is_set(self.started.as_slice(), node)
    }

    /// Whether the node at the end of this role of a line is of this process and has started.
    pub(crate) fn end_runs(&self, line: usize, role: Role) -> bool
        ensures { result ≡ end_runs self.now line role }
    {
        match self.plan.get(line) {
            None => false,
            Some(ends) => match role {
                Role::Dte => self.runs(ends.dte),
                Role::Dce => self.runs(ends.dce),
            },
        }
    }
}

/// Whether a flag is set; one that is not there is not.
pub(crate) fn is_set(flags: &[bool], place: usize) -> bool
    ensures { result ≡ is_set flags.now place }
{
    flags.get(place).copied().unwrap_or(false)
}
