//! The network, and what it promises.
ghost use Rattle.std.specs.Prelude.{◌≡◌, ◌≢◌, ◌≤◌, ◌↔◌, true, false, map, Err, IsTrue, IsOkUnless, IfOk, vec_len};
ghost use Rattle.call_records.specs.RecordView.{shown, pair_of};
ghost use Rattle.call_records.specs.Pairs.{AllMatch};
ghost use Rattle.net_events.specs.Network.{all_elapsed};
ghost use Rattle.network_laws.specs.Switched.InnerPromise.{PromisesCalls, InnerPromise};
ghost use Rattle.network_laws.specs.Switched.SwitchedRest.{MissesNothing, IsDelivered};
ghost use Rattle.net_config.specs.declared.fault.MakeFault.TheVariants as make_fault_is;
ghost use Rattle.net_config.specs.Served.{is_served};
ghost use Rattle.net_events.specs.declared.event.StepFault.TheVariants as step_fault_is;
ghost use Rattle.net_nodes.specs.Faults.{step_fault, takes_memory};
ghost use Rattle.net_nodes.specs.Happening.{IsRefusedSo, FindNoFrames};
ghost use Rattle.net_nodes.specs.Due.{net_due};
ghost use Rattle.line_sim.specs.Receipts.{IsTakenBeyond};
ghost use Rattle.net_nodes.specs.Questions.{net_confirmed, net_shows, net_room_to_say, net_rests};
ghost use Rattle.net_nodes.specs.Questions.{MaySay, PrintsNothing};
ghost use Rattle.line_sim.specs.Courses.{HaveNoEvent, CoursesPass};
ghost use Rattle.line_sim.specs.Runs.{IsMadeBy};

use crate::busy_lines::note_frames;
use crate::making::made_nodes;
use call_records::{Pair, Record, all_match};
use frame_codec::FrameBuf;
use frame_lines::Line;
use net_config::{Config, MakeFault, plan_of};
use net_events::{Answer, Event, Outcome, Puts, StepFault};
use net_nodes::Nodes;
use std::alloc::Global;
use std::marker::Model;
use std::ops::Deref;
use wide_set::WideSet;

/// A network of PADs and hosts, each at one end of one line, and of at most 16 switches. A line is between a PAD or a
/// host, as DTE, and a host or a switch, as DCE, or it is a trunk between two switches; the trunks make trees of them.
/// The network may fall into parts. A line from a PAD to a host may have a standing call if it is the only line. What
/// asks about the nodes, without a change, is a call of [`Nodes`], if the network does not promise more.
#[derive(Drop)]
pub struct Net<L: Line> {
    nodes: Nodes<L>,
    /// Lines on which frames may be in flight: on all others none is.
    busy: WideSet,
    arrived: FrameBuf,
    answer: Answer,
}

impl<L: Line> Model for Net<L> {
    ghost use Rattle.std.specs.FinMap as map;
    ghost use Rattle.address_routes.specs.Routes.{by_digits};
    ghost use Rattle.std.specs.Coded.{codes, coded_list, coded_ℕ};
    ghost use Rattle.net_events.specs.Network.{Network};

    ghost Value = { Network };

    ghost coded = { Prim.hlevel (codes, map.code {R = by_digits} (coded_list coded_ℕ) coded_ℕ) };

    ghost use Rattle.line_sim.specs.InFlight.{IsKept};

    ghost view = { λ n. n.nodes };

    ghost invariant = { λ n. IsKept L.service n.busy n.nodes };
}

/// An answer without frames, notes and text, which takes no memory.
fn bare_answer(alloc: Global) -> Answer {
    Answer {
        frames: Puts::new(alloc),
        notes: Vec::new(alloc),
        text: Vec::new(alloc),
        outcome: Outcome::Done,
    }
}

impl<L: Line> Deref for Net<L> {
    type Target = Nodes<L>;

    fn deref(&self) -> &Nodes<L>
        ensures { result.now ≡ self.now }
    {
        &self.nodes
    }
}

impl<L: Line> Net<L> {
    ghost use Rattle.std.specs.Borrow.{sem};
    ghost use Rattle.std.specs.Io.BufRead.{Rests};
    ghost use Rattle.line_sim.specs.contracts.net.Net.{the_row};
    ghost use Rattle.line_sim.specs.Between.{IsBetweenEvents};
    ghost use Rattle.line_sim.specs.Stepping.{lent, HasStepped};

    /// Makes a network on these lines, each of which is emptied first. Both ends of a line that is not standing send a
    /// first frame.
    ///
    /// `BadConfig` comes if the configuration is outside its limits or of a kind that is not served, and then
    /// `OutOfMemory` for want of memory.
    pub fn new(alloc: Global, config: &Config, lines: Vec<L>) -> Result<Self, MakeFault>
        requires { vec_len lines ≡ vec_len config.now.lines }
        ensures bad { is_served config.now ≡ false → result ≡ Err make_fault_is.BadConfig }
        ensures served { is_served config.now ≡ true → IsOkUnless result make_fault_is.OutOfMemory }
        ensures ok { IfOk result (IsMadeBy L.service config.now) }
        ensures courses { IfOk result (HaveNoEvent config.now) }
        ensures headline { IfOk result (λ net. L.service.faithful → PromisesCalls net) }
        ensures inner { IfOk result (λ net. L.service.faithful → InnerPromise net) }
    {
        let plan = plan_of(alloc, config)?;
        let nodes = made_nodes(alloc, &plan, lines)?;
        let busy = WideSet::full(alloc, config.lines.len())?;
        Ok(Net {
            nodes,
            busy,
            arrived: FrameBuf::new(),
            answer: bare_answer(alloc),
        })
    }

    /// The nodes and lines of the network, and its register.
    pub fn into_nodes(self) -> Nodes<L>
        ensures same { result ≡ self }
        ensures between { IsBetweenEvents L.service result }
    {
        let Net { nodes, .. } = self;
        nodes
    }

    /// What the network keeps of each end's part in each call, in the order of making.
    pub fn records(&self) -> &[Record]
        ensures { map shown result.now ≡ self.now.register.records }
    {
        self.nodes.records()
    }

    /// The calls, each by the records of its two ends.
    pub fn pairs(&self) -> &[Pair]
        ensures { map pair_of result.now ≡ self.now.register.pairs }
    {
        self.nodes.pairs()
    }

    /// Whether in each call what each end took matches what the other one sent, both ways. On faithful lines it does.
    pub fn all_match(&self) -> bool
        ensures exact { IsTrue result ↔ AllMatch self.now.register.records self.now.register.pairs }
        ensures faithful { L.service.faithful → result ≡ true }
    {
        all_match(self.nodes.records(), self.nodes.pairs())
    }

    /// Whether nothing is in flight, unacknowledged, owed or gathered, and nothing waits to be sent, passed on or
    /// taken. What waits at a terminal does not count, and what is in flight is what the lines say. If so, nothing is
    /// missing on faithful lines: in each call that is open at both ends, each end took all that the other one sent
    /// since the last reset.
    pub fn at_rest(&self) -> bool
        ensures exact { result ≡ net_rests self.now }
        ensures nothing_missing { L.service.faithful → result ≡ true → MissesNothing self.now }
    {
        self.nodes.is_at_rest()
    }

    /// Whether the host of this place has a call in data transfer on the channel in which each packet with D = 1 since
    /// the last reset was covered (X.25 4.3.3). At any other node the answer is no. If the answer is yes, on faithful
    /// lines, the record of that call has all these packets as covered. The other end of the call then took all that
    /// was sent up to the last of them.
    pub fn confirmed(&self, node: usize, channel: u16) -> bool
        ensures exact { result ≡ net_confirmed node channel self.now }
        ensures delivered { L.service.faithful → result ≡ true → IsDelivered node channel self.now }
        ensures taken { L.service.faithful → result ≡ true → IsTakenBeyond node channel self.now }
    {
        self.nodes.confirmed(node, channel)
    }

    /// Whether the node of this place is a PAD, and the terminal has anything to show. If not, to print there shows
    /// nothing and takes nothing.
    pub fn shows(&self, node: usize, terminal: u16) -> bool
        ensures exact { result ≡ net_shows node terminal self.now }
        ensures nothing { result ≡ false → PrintsNothing node terminal self.now }
    {
        self.nodes.shows(node, terminal)
    }

    /// How many octets a message without Q may have now on the channel of the host of this place, at most 1,024: so many
    /// are not refused, if there are any. At any other node it is 0.
    pub fn room_to_say(&self, node: usize, channel: u16) -> usize
        ensures exact { result ≡ net_room_to_say node channel self.now }
        ensures said { MaySay node channel result self.now }
    {
        self.nodes.room_to_say(node, channel)
    }

    /// Lets ticks pass, each a twentieth of a second: each timer that runs has so many less, not below 0.
    pub fn elapse(&mut self, ticks: u16)
        ensures passes { self.new ≡ all_elapsed ticks self.old }
        ensures courses { CoursesPass ticks self.old self.new }
        ensures headline { L.service.faithful → PromisesCalls self.new }
        ensures inner { L.service.faithful → InnerPromise self.new }
    {
        self.nodes.elapse(ticks);
    }

    /// The expiry of the first timer that runs with no tick left, of the first node that has one; at a switch on the
    /// first of its lines that has one.
    pub fn next_due(&self) -> Option<Event>
        ensures { result ≡ net_due self.now }
    {
        self.nodes.next_due()
    }

    /// A number from this one on: it is certain that deliveries on the lines before it find no frame, either way. It is
    /// that of the first line of which this is not certain, if there is one. That it is the first is not promised.
    pub fn next_with_frames(&self, from: usize) -> usize
        ensures onward { from ≤ result }
        ensures none { FindNoFrames L.service from result self.now }
    {
        self.nodes.next_with_frames(self.busy.next(from))
    }

    /// Handles an event, and lends the answer, which the network keeps until the next event. A refused event changes
    /// nothing, nor does an expiry of a timer that does not run.
    ///
    /// `NoSuchNode` comes if no node or line has the number, the line is not the node's or the node is of another kind.
    /// Then comes `NoSuchTerminal` if the PAD has no such terminal, and `NoSuchCall` if the channel is 0 or beyond
    /// those of the line. `OutOfMemory` comes after these, before the node is called; the loss of a frame takes no
    /// memory. Last, `Refused` comes if the node refuses what it is asked.
    #[inline(always)]
    pub fn step(&mut self, event: &Event) -> Result<&Answer, StepFault>
        ensures faults { IsRefusedSo (step_fault event.now self.old) (lent result) }
        ensures memory { takes_memory event.now ≡ false → lent result ≢ Err step_fault_is.OutOfMemory }

        // The network once the answer is given back.
        ensures* after { sem 𝓛 (Rests (the_row L.row L.Line) self.entry (λ net.
            HasStepped L.service event.now self.old (lent result) net)) }
    {
        self.nodes
            .happen(event, &mut self.arrived, &mut self.answer)?;
        note_frames(&mut self.busy, &self.nodes, event, &self.answer);
        Ok(&self.answer)
    }
}
