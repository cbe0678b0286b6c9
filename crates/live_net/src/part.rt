//! One process of a network in several.
ghost use Rattle.std.specs.Prelude.{◌≡◌, ◌≢◌, true, false, Err, Some, None, IsOkUnless, IfOk, slice_get, vec_len};
ghost use Rattle.std.specs.Bool.{OnFalse};
ghost use Rattle.call_records.specs.Register.{HasNoRecords};
ghost use Rattle.net_config.specs.declared.fault.MakeFault.TheVariants as make_fault_is;
ghost use Rattle.net_config.specs.Served.{is_served};
ghost use Rattle.net_events.specs.Network.{all_elapsed};
ghost use Rattle.net_events.specs.declared.event.StepFault.TheVariants as step_fault_is;
ghost use Rattle.net_nodes.specs.Carrying.{HandedOn, PutAt};
ghost use Rattle.net_nodes.specs.Faults.{step_fault};
ghost use Rattle.net_nodes.specs.Happening.{IsRefusedSo};
ghost use Rattle.net_nodes.specs.Questions.{net_shows, net_room_to_say, MaySay, PrintsNothing};
ghost use Rattle.node_events.specs.AnswerRoom.{IsWithinLimits};
ghost use Rattle.line_sim.specs.Runs.{IsMadeBy};
ghost use Rattle.live_laws.specs.Registers.{on};
ghost use Rattle.live_net.specs.Making.{register_made};

use crate::making::{bare_nodes, roomy_answer};
use frame_codec::FrameBuf;
use frame_lines::{Direction, Line};
use net_config::{Config, MakeFault};
use net_events::{Answer, Event, StepFault};
use net_nodes::Nodes;
use std::alloc::Global;
use std::marker::Model;
use std::ops::Deref;

/// One process of several that run a network together. It has the whole network, as each of the others, and lets events
/// come to its own nodes alone. On a line to a node of another process, frames that wait are carried off, and frames of
/// the other process are brought. It keeps no records.
///
/// What happens in it is exact, and alone it promises nothing of calls. If its lines are faithful, all processes
/// together are one network, whose promise holds at each step.
///
/// What asks about the nodes, without a change, is a call of [`Nodes`]. It answers of the copies of other processes'
/// nodes too. They have timers that are not to expire here, so ask for what is due node by node (`next_due_at`).
#[derive(Drop)]
pub struct LivePart<L: Line> {
    nodes: Nodes<L>,
    arrived: FrameBuf,
    answer: Answer,
}

impl<L: Line> Model for LivePart<L> {
    ghost use Rattle.std.specs.FinMap as map;
    ghost use Rattle.address_routes.specs.Routes.{by_digits};
    ghost use Rattle.std.specs.Coded.{codes, coded_list, coded_ℕ};
    ghost use Rattle.net_events.specs.Network.{Network};

    ghost Value = { Network };

    ghost coded = { Prim.hlevel (codes, map.code {R = by_digits} (coded_list coded_ℕ) coded_ℕ) };

    ghost use Rattle.net_nodes.specs.Carrying.{blind};
    ghost use Rattle.node_events.specs.AnswerRoom.{IsRoomy};
    ghost use Rattle.live_laws.specs.Living.{IsLive};

    ghost view = { λ n. n.nodes };

    ghost invariant = { λ n. IsLive (blind L.service) n.nodes × IsRoomy n.answer };
}

impl<L: Line> Deref for LivePart<L> {
    type Target = Nodes<L>;

    fn deref(&self) -> &Nodes<L>
        ensures { result.now ≡ self.now }
    {
        &self.nodes
    }
}

impl<L: Line> LivePart<L> {
    ghost use Rattle.std.specs.Borrow.{sem};
    ghost use Rattle.std.specs.Io.BufRead.{Rests};
    ghost use Rattle.line_sim.specs.Stepping.{lent};
    ghost use Rattle.live_net.specs.Parting.{HasLivedApart};
    ghost use Rattle.live_net.specs.contracts.part.LivePart.{the_row};

    /// Makes the whole network on these lines, each of which is emptied first. All nodes send their first frames. Those
    /// of nodes that are not its own are to be lost before anything is delivered.
    ///
    /// `BadConfig` comes if the configuration is outside its limits or of a kind that is not served, and then
    /// `OutOfMemory` for want of memory.
    pub fn new(alloc: Global, config: &Config, lines: Vec<L>) -> Result<Self, MakeFault>
        requires { vec_len lines ≡ vec_len config.now.lines }
        ensures bad { is_served config.now ≡ false → result ≡ Err make_fault_is.BadConfig }
        ensures served { is_served config.now ≡ true → IsOkUnless result make_fault_is.OutOfMemory }
        ensures ok { IfOk result (λ part. IsMadeBy L.service config.now (on (register_made config.now) part)) }
        ensures stored { IfOk result (λ part. HasNoRecords part.register) }
    {
        Ok(LivePart {
            nodes: bare_nodes(alloc, config, lines)?,
            arrived: FrameBuf::new(),
            answer: roomy_answer(alloc)?,
        })
    }

    /// Lets ticks pass, each a twentieth of a second, at the copies of other processes' nodes too.
    pub fn elapse(&mut self, ticks: u16)
        ensures { self.new ≡ all_elapsed ticks self.old }
    {
        self.nodes.elapse(ticks);
    }

    /// Whether the node of this place, which is to be one of its own, is a PAD, and the terminal has anything to show. If
    /// not, to print there shows nothing and takes nothing.
    pub fn shows(&self, node: usize, terminal: u16) -> bool
        ensures exact { result ≡ net_shows node terminal self.now }
        ensures nothing { result ≡ false → PrintsNothing node terminal self.now }
    {
        self.nodes.shows(node, terminal)
    }

    /// How many octets a message without Q may have now on the channel of the host of this place, which is to be one of
    /// its own, at most 1,024: so many are not refused, if there are any. At any other node it is 0.
    pub fn room_to_say(&self, node: usize, channel: u16) -> usize
        ensures exact { result ≡ net_room_to_say node channel self.now }
        ensures said { MaySay node channel result self.now }
    {
        self.nodes.room_to_say(node, channel)
    }

    /// Takes the first frame in flight in a direction of a line, to carry it to another process, and says whether there
    /// was one. If there was none, or no such line, `frame` stays as it is. This is for the direction in which the node
    /// at this process sends.
    pub fn carry_off(&mut self, line: usize, direction: Direction, frame: &mut FrameBuf) -> bool
        ensures handed { (l : _) → slice_get self.old.lines line ≡ Some l
            → HandedOn L.service line direction l self.old result frame.new self.new }
        ensures beyond { slice_get self.old.lines line ≡ None → result ≡ false }
        ensures untouched { slice_get self.old.lines line ≡ None → self.new ≡ self.old }
        ensures same { OnFalse result (frame.new ≡ frame.old) }
    {
        self.nodes.hand_on(line, direction, frame)
    }

    /// Puts a frame of another process on a line: it comes after those in flight, or is lost if the line may lose it. If
    /// there is no such line, nothing changes. This is for the direction in which the node at this process hears.
    pub fn bring(&mut self, line: usize, direction: Direction, frame: &FrameBuf)
        ensures put { (l : _) → slice_get self.old.lines line ≡ Some l
            → PutAt L.service line direction frame.now l self.old self.new }
        ensures untouched { slice_get self.old.lines line ≡ None → self.new ≡ self.old }
    {
        self.nodes.put_on(line, direction, frame);
    }

    /// Handles an event at one of its own nodes, lends the answer, which it keeps until the next event, and keeps no
    /// record of it. A refused event changes nothing, nor does an expiry of a timer that does not run.
    ///
    /// `NoSuchNode`, `NoSuchTerminal`, `NoSuchCall` and `Refused` come when they come of [`line_sim::Net::step`], in this
    /// order. No event wants memory: all of it was taken when the process was made. An answer has at most 576 frames,
    /// 104 notes and 3,200 octets of text.
    #[inline(always)]
    pub fn step(&mut self, event: &Event) -> Result<&Answer, StepFault>
        ensures faults { IsRefusedSo (step_fault event.now self.old) (lent result) }
        ensures memory { lent result ≢ Err step_fault_is.OutOfMemory }
        ensures limits { IfOk (lent result) IsWithinLimits }

        // The process once the answer is given back.
        ensures* after { sem 𝓛 (Rests (the_row L.row L.Line) self.entry (λ part.
            HasLivedApart L.service event.now self.old (lent result) part)) }
    {
        self.nodes
            .happen(event, &mut self.arrived, &mut self.answer)?;
        self.nodes.forget();
        Ok(&self.answer)
    }
}
