//! How the nodes of a process start.
ghost use Rattle.std.specs.Prelude.{◌≡◌, ◌≢◌, ℕ, true, false, map, slice_get, IfOk, MatchOption, Err};
ghost use Rattle.net_events.specs.declared.event.StepFault.TheVariants as step_fault_is;
ghost use Rattle.node_events.specs.AnswerRoom.{IsWithinLimits};
ghost use Rattle.net_process.specs.Process.{may_start, is_clear_in};
ghost use Rattle.net_process.specs.Starting.{started_at, IsFirstToStart};

use crate::process::{Process, is_set};
use line_sim::{Answer, Event, Line, StepFault};
use remote_lines::{RemoteLine, may_start};

impl<L: Line> Process<L> {
    ghost use Rattle.std.specs.Borrow.{sem};
    ghost use Rattle.std.specs.Io.BufRead.{Rests};
    ghost use Rattle.line_sim.specs.Stepping.{lent};
    ghost use Rattle.net_process.specs.Starting.{HasRestarted};
    ghost use Rattle.net_process.specs.contracts.process.Process.{the_row};

    /// The first node here that has not started and whose remote lines all let it.
    pub fn next_to_start(&self) -> Option<usize>
        ensures { MatchOption result ((node : ℕ) → may_start self.now node ≡ false) (λ node. IsFirstToStart node self.now) }
    {
        for node in 0..self.own.len() {
            if self.may_start(node) {
                return Some(node);
            }
        }
        None
    }

    /// Starts a node that may start: it restarts, and its ends of remote lines open. Lends the answer, which the process
    /// keeps until the next event. What the node sends on remote lines is in flight then, until [`Process::carry`].
    #[inline(always)]
    pub fn start(&mut self, node: usize) -> Result<&Answer, StepFault>
        requires { may_start self.old node ≡ true }
        ensures memory { lent result ≢ Err step_fault_is.OutOfMemory }
        ensures limits { IfOk (lent result) IsWithinLimits }

        // The process once the answer is given back.
        ensures* after { sem 𝓛 (Rests (the_row L.row L.Line) self.entry (λ process.
            HasRestarted L.service node self.old (lent result) process)) }
    {
        self.started[node] = true;
        start_lines(&mut self.lines, node);
        self.part.step(&Event::Restart { node })
    }

    fn may_start(&self, node: usize) -> bool
        ensures { result ≡ may_start self.now node }
    {
        is_set(self.own.as_slice(), node)
            && is_clear(self.started.as_slice(), node)
            && may_start(self.lines.as_slice(), node)
    }
}

/// Whether a flag is there and not set.
fn is_clear(flags: &[bool], place: usize) -> bool
    ensures { result ≡ is_clear_in (slice_get flags.now place) }
{
    match flags.get(place) {
        Some(flag) => !*flag,
        None => false,
    }
}

/// Opens the ends of a node's remote lines.
fn start_lines(lines: &mut Vec<RemoteLine>, node: usize)
    ensures { lines.new.items ≡ map (started_at node) lines.old.items }
{
    for line in lines.iter_mut() {
        start_line(line, node);
    }
}

/// Opens the end of a remote line, if it is a node's.
fn start_line(line: &mut RemoteLine, node: usize)
    ensures { line.new ≡ started_at node line.old }
{
    if line.end().node != node {
        return;
    }
    line.start();
}
