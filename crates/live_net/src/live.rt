//! The network on which a service runs.
ghost use Rattle.std.specs.Prelude.{◌≡◌, ◌≢◌, true, false, Err, IsOkUnless, IfOk, vec_len};
ghost use Rattle.call_records.specs.Register.{Register, HasNoRecords};
ghost use Rattle.net_config.specs.declared.fault.MakeFault.TheVariants as make_fault_is;
ghost use Rattle.net_config.specs.Served.{is_served};
ghost use Rattle.net_events.specs.Network.{all_elapsed};
ghost use Rattle.net_events.specs.declared.event.StepFault.TheVariants as step_fault_is;
ghost use Rattle.net_nodes.specs.Faults.{step_fault};
ghost use Rattle.net_nodes.specs.Happening.{IsRefusedSo};
ghost use Rattle.net_nodes.specs.Questions.{net_confirmed, net_shows, net_room_to_say, net_rests};
ghost use Rattle.net_nodes.specs.Questions.{MaySay, PrintsNothing};
ghost use Rattle.network_laws.specs.Switched.InnerPromise.{PromisesCalls, InnerPromise};
ghost use Rattle.network_laws.specs.Switched.SwitchedRest.{MissesNothing, IsDelivered};
ghost use Rattle.line_sim.specs.Between.{IsBetweenEvents};
ghost use Rattle.line_sim.specs.Courses.{HaveNoEvent, CoursesPass};
ghost use Rattle.line_sim.specs.Receipts.{IsTakenBeyond};
ghost use Rattle.node_events.specs.AnswerRoom.{IsWithinLimits};
ghost use Rattle.line_sim.specs.Runs.{IsMadeBy};
ghost use Rattle.live_laws.specs.Registers.{on};
ghost use Rattle.live_net.specs.Making.{register_made};

use crate::making::{bare_nodes, roomy_answer};
use frame_codec::FrameBuf;
use frame_lines::Line;
use net_config::{Config, MakeFault};
use net_events::{Answer, Event, StepFault};
use net_nodes::Nodes;
use std::alloc::Global;
use std::marker::Model;
use std::ops::Deref;

/// A network as [`line_sim::Net`] is, that keeps no records: what an event writes of calls is forgotten at its end.
///
/// Its promise is that of `Net`, with registers that nobody stores. With each register with which all holds before an
/// event, there is one with which all holds after it. With these two the network stepped as `Net` does. What asks about
/// the nodes, without a change, is a call of [`Nodes`], if the network does not promise more.
#[derive(Drop)]
pub struct LiveNet<L: Line> {
    nodes: Nodes<L>,
    arrived: FrameBuf,
    answer: Answer,
}

impl<L: Line> Model for LiveNet<L> {
    ghost use Rattle.std.specs.FinMap as map;
    ghost use Rattle.address_routes.specs.Routes.{by_digits};
    ghost use Rattle.std.specs.Coded.{codes, coded_list, coded_ℕ};
    ghost use Rattle.net_events.specs.Network.{Network};

    ghost Value = { Network };

    ghost coded = { Prim.hlevel (codes, map.code {R = by_digits} (coded_list coded_ℕ) coded_ℕ) };

    ghost use Rattle.node_events.specs.AnswerRoom.{IsRoomy};
    ghost use Rattle.live_laws.specs.Living.{IsLive};

    ghost view = { λ n. n.nodes };

    ghost invariant = { λ n. IsLive L.service n.nodes × IsRoomy n.answer };
}

impl<L: Line> Deref for LiveNet<L> {
    type Target = Nodes<L>;

    fn deref(&self) -> &Nodes<L>
        ensures { result.now ≡ self.now }
    {
        &self.nodes
    }
}

impl<L: Line> LiveNet<L> {
    ghost use Rattle.std.specs.Borrow.{sem};
    ghost use Rattle.std.specs.Io.BufRead.{Rests};
    ghost use Rattle.line_sim.specs.Stepping.{lent};
    ghost use Rattle.live_laws.specs.Living.{HasLived};
    ghost use Rattle.live_net.specs.contracts.live.LiveNet.{the_row};

    /// Makes a network on these lines, each of which is emptied first. Both ends of a line that is not standing send a
    /// first frame. With the register that `Net` has then, it is such a network.
    ///
    /// `BadConfig` comes if the configuration is outside its limits or of a kind that is not served, and then
    /// `OutOfMemory` for want of memory.
    pub fn new(alloc: Global, config: &Config, lines: Vec<L>) -> Result<Self, MakeFault>
        requires { vec_len lines ≡ vec_len config.now.lines }
        ensures bad { is_served config.now ≡ false → result ≡ Err make_fault_is.BadConfig }
        ensures served { is_served config.now ≡ true → IsOkUnless result make_fault_is.OutOfMemory }
        ensures ok { IfOk result (λ net. IsMadeBy L.service config.now (on (register_made config.now) net)) }
        ensures between { IfOk result (λ net. IsBetweenEvents L.service (on (register_made config.now) net)) }
        ensures courses { IfOk result (λ net. HaveNoEvent config.now (on (register_made config.now) net)) }
        ensures headline { IfOk result (λ net. L.service.faithful
            → PromisesCalls (on (register_made config.now) net)) }
        ensures inner { IfOk result (λ net. L.service.faithful
            → InnerPromise (on (register_made config.now) net)) }
        ensures stored { IfOk result (λ net. HasNoRecords net.register) }
    {
        Ok(LiveNet {
            nodes: bare_nodes(alloc, config, lines)?,
            arrived: FrameBuf::new(),
            answer: roomy_answer(alloc)?,
        })
    }

    /// Whether nothing is in flight, unacknowledged, owed or gathered, and nothing waits to be sent, passed on or
    /// taken. If so, nothing is missing on faithful lines, with each register with which all holds.
    pub fn at_rest(&self) -> bool
        ensures exact { result ≡ net_rests self.now }
        ensures nothing_missing { (g : Register) → IsBetweenEvents L.service (on g self.now) → L.service.faithful
            → result ≡ true → MissesNothing (on g self.now) }
    {
        self.nodes.is_at_rest()
    }

    /// Whether the host of this place has a call in data transfer on the channel in which each packet with D = 1 since
    /// the last reset was covered (X.25 4.3.3). If so, on faithful lines, the other end took all that was sent up to the
    /// last of them, with each register with which all holds.
    pub fn confirmed(&self, node: usize, channel: u16) -> bool
        ensures exact { result ≡ net_confirmed node channel self.now }
        ensures delivered { (g : Register) → IsBetweenEvents L.service (on g self.now) → L.service.faithful
            → result ≡ true → IsDelivered node channel (on g self.now) }
        ensures taken { (g : Register) → IsBetweenEvents L.service (on g self.now) → L.service.faithful
            → result ≡ true → IsTakenBeyond node channel (on g self.now) }
    {
        self.nodes.confirmed(node, channel)
    }

    /// Whether the node of this place is a PAD, and the terminal has anything to show. If not, to print there shows
    /// nothing and takes nothing.
    pub fn shows(&self, node: usize, terminal: u16) -> bool
        ensures exact { result ≡ net_shows node terminal self.now }
        ensures nothing { result ≡ false → PrintsNothing node terminal self.now }
    {
        self.nodes.shows(node, terminal)
    }

    /// How many octets a message without Q may have now on the channel of the host of this place, at most 1,024: so many
    /// are not refused, if there are any. At any other node it is 0.
    pub fn room_to_say(&self, node: usize, channel: u16) -> usize
        ensures exact { result ≡ net_room_to_say node channel self.now }
        ensures said { MaySay node channel result self.now }
    {
        self.nodes.room_to_say(node, channel)
    }

    /// Lets ticks pass, each a twentieth of a second: each timer that runs has so many less, not below 0.
    pub fn elapse(&mut self, ticks: u16)
        ensures passes { self.new ≡ all_elapsed ticks self.old }
        ensures between { (g : Register) → IsBetweenEvents L.service (on g self.old)
            → IsBetweenEvents L.service (on g self.new) }
        ensures courses { (g : Register) → CoursesPass ticks (on g self.old) (on g self.new) }
        ensures headline { (g : Register) → IsBetweenEvents L.service (on g self.old) → L.service.faithful
            → PromisesCalls (on g self.new) }
        ensures inner { (g : Register) → IsBetweenEvents L.service (on g self.old) → L.service.faithful
            → InnerPromise (on g self.new) }
    {
        self.nodes.elapse(ticks);
    }

    /// Handles an event, lends the answer, which the network keeps until the next event, and keeps no record of it. A
    /// refused event changes nothing, nor does an expiry of a timer that does not run.
    ///
    /// `NoSuchNode`, `NoSuchTerminal`, `NoSuchCall` and `Refused` come when they come of [`line_sim::Net::step`], in this
    /// order. No event wants memory: all of it was taken when the network was made. An answer has at most 576 frames,
    /// 104 notes and 3,200 octets of text.
    #[inline(always)]
    pub fn step(&mut self, event: &Event) -> Result<&Answer, StepFault>
        ensures faults { IsRefusedSo (step_fault event.now self.old) (lent result) }
        ensures memory { lent result ≢ Err step_fault_is.OutOfMemory }
        ensures limits { IfOk (lent result) IsWithinLimits }

        // The network once the answer is given back.
        ensures* after { sem 𝓛 (Rests (the_row L.row L.Line) self.entry (λ net.
            HasLived L.service event.now self.old (lent result) net)) }
    {
        self.nodes
            .happen(event, &mut self.arrived, &mut self.answer)?;
        self.nodes.forget();
        Ok(&self.answer)
    }
}
