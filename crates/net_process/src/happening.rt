//! What happens at the nodes of a process.
ghost use Rattle.std.specs.Prelude.{◌<◌, length, IfSome, ◌≡◌, ◌≢◌, ℕ, true, false, map, Err, None, IfOk, MatchOption};
ghost use Rattle.net_events.specs.declared.event.StepFault.TheVariants as step_fault_is;
ghost use Rattle.net_nodes.specs.Faults.{step_fault};
ghost use Rattle.net_nodes.specs.Happening.{IsRefusedSo};
ghost use Rattle.net_nodes.specs.Steps.{hearer};
ghost use Rattle.std.specs.List.{position};
ghost use Rattle.node_events.specs.AnswerRoom.{IsWithinLimits};
ghost use Rattle.net_process.specs.Process.{runs, may_be, due_here, IsDueFirst};
ghost use Rattle.net_process.specs.Carrying.{elapsed};
ghost use Rattle.net_process.specs.Remote.{given_up_at, given_up, after_given_up, is_given_up};
ghost use Rattle.remote_lines.specs.RemoteLine.{elapsed as line_elapsed};

use crate::process::Process;
use line_sim::{Answer, Direction, Event, Line, StepFault};
use link_timers::Role;
use remote_lines::{LineEnd, RemoteLine};

/// The end that hears what is sent in a direction.
fn hearer(direction: Direction) -> Role
    ensures { result ≡ hearer direction }
{
    match direction {
        Direction::FromDte => Role::Dce,
        Direction::FromDce => Role::Dte,
    }
}

/// The event that the link at an end is given up.
fn gives_up(end: LineEnd) -> Event
    ensures { result ≡ given_up_at end }
{
    match end.role {
        Role::Dte => Event::Relink { line: end.line },
        Role::Dce => Event::GivesUp { line: end.line },
    }
}

impl<L: Line> Process<L> {
    ghost use Rattle.std.specs.Borrow.{sem};
    ghost use Rattle.std.specs.Io.BufRead.{Rests};
    ghost use Rattle.line_sim.specs.Stepping.{lent};
    ghost use Rattle.net_process.specs.Stepping.{HasStepped};
    ghost use Rattle.net_process.specs.contracts.process.Process.{the_row};

    /// Whether an event may happen here: the node at which it is is of this process and has started. A node starts by
    /// [`Process::start`] alone.
    fn may_be(&self, event: &Event) -> bool
        ensures { result ≡ may_be self.now event.now }
    {
        match event {
            Event::AtTerminal { node, .. }
            | Event::Call { node, .. }
            | Event::Ask { node, .. }
            | Event::Take { node, .. }
            | Event::Expire { node, .. } => self.runs(*node),
            Event::Deliver { line, direction } => self.end_runs(*line, hearer(*direction)),
            Event::Lose { .. } => true,
            Event::Relink { line } => self.end_runs(*line, Role::Dte),
            Event::GivesUp { line } => self.end_runs(*line, Role::Dce),
            Event::Restart { .. } => false,
        }
    }

    /// Handles an event at a node here, and lends the answer, which the process keeps until the next event. What the node
    /// sends on remote lines is in flight then, until [`Process::carry`].
    ///
    /// `NoSuchNode` comes first, if the node is of another process or has not started. Then all refusals are those of
    /// [`live_net::LivePart::step`]. No event wants memory.
    #[inline(always)]
    pub fn step(&mut self, event: &Event) -> Result<&Answer, StepFault>
        ensures elsewhere { may_be self.old event.now ≡ false → lent result ≡ Err step_fault_is.NoSuchNode }
        ensures faults { may_be self.old event.now ≡ true
            → IsRefusedSo (step_fault event.now self.old.part) (lent result) }
        ensures memory { lent result ≢ Err step_fault_is.OutOfMemory }
        ensures limits { IfOk (lent result) IsWithinLimits }

        // The process once the answer is given back.
        ensures* after { sem 𝓛 (Rests (the_row L.row L.Line) self.entry (λ process.
            HasStepped L.service event.now self.old (lent result) process)) }
    {
        if !self.may_be(event) {
            return Err(StepFault::NoSuchNode);
        }
        self.part.step(event)
    }

    /// Lets ticks pass, each a twentieth of a second, at the nodes here and on remote lines. A connection that was silent
    /// for too long is closed.
    pub fn elapse(&mut self, ticks: u16)
        ensures { self.new ≡ elapsed ticks self.old }
    {
        self.part.elapse(ticks);
        elapse_all(&mut self.lines, ticks);
        self.carry();
    }

    /// The expiry of the first timer that runs with no tick left, of the first node here that has one.
    pub fn next_due(&self) -> Option<Event>
        ensures { MatchOption result ((place : ℕ) → due_here self.now place ≡ None) (λ event. IsDueFirst event self.now) }
    {
        for place in 0..self.own.len() {
            if let Some(event) = self.due_here(place) {
                return Some(event);
            }
        }
        None
    }

    fn due_here(&self, place: usize) -> Option<Event>
        ensures { result ≡ due_here self.now place }
    {
        if self.runs(place) {
            self.part.next_due_at(place)
        } else {
            None
        }
    }

    /// The event by which an end here gives its link up, as its partner was away for too long: that of the first remote
    /// line for which it is due. Each is given once.
    pub fn next_given_up(&mut self) -> Option<Event>
        ensures event { result ≡ given_up self.old }
        ensures after { self.new ≡ after_given_up self.old }
    {
        let place = first_given_up(self.lines.as_slice())?;
        let end = self.lines[place].end();
        self.lines[place].gave_up();
        Some(gives_up(end))
    }
}

/// The first remote line on which a link is to be given up.
fn first_given_up(lines: &[RemoteLine]) -> Option<usize>
    ensures first { result ≡ position is_given_up lines.now }
    ensures within { IfSome result (λ place. place < length lines.now) }
{
    lines.iter().position(|line| line.gives_up())
}

/// Lets ticks pass on each remote line.
fn elapse_all(lines: &mut Vec<RemoteLine>, ticks: u16)
    ensures { lines.new.items ≡ map (λ line. line_elapsed line ticks) lines.old.items }
{
    for line in lines.iter_mut() {
        line.elapse(ticks);
    }
}
