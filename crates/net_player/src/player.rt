//! The player: does what a script says, and prints the answers.
ghost use Rattle.std.specs.Prelude.{◌≡◌, ◌≤◌, ◌<◌, [], Some, Ok, OnOk, IfOk, IfErr};
ghost use Rattle.std.specs.Bool.{OnTrue};
ghost use Rattle.std.specs.Io.KnownBytes.{Appends};
ghost use Rattle.answer_texts.specs.Answers.{answer_text};
ghost use Rattle.net_events.specs.declared.event.Event.{Event};
ghost use Rattle.net_events.specs.declared.event.Event.TheVariants.{Deliver};
ghost use Rattle.net_events.specs.Network.{Network, all_elapsed};
ghost use Rattle.network_laws.specs.DueCount.{all_due};
ghost use Rattle.net_nodes.specs.Due.{net_due};
ghost use Rattle.net_player.specs.InTurn.{InTurn, StopsInTurn};
ghost use Rattle.octet_streams.specs.Written.{Writes};
ghost use Rattle.net_player.specs.Playing.{has_arrived, key_events, Tells, TellsEvent, Passes, Flows, Ticks};
ghost use Rattle.net_player.specs.Playing.{DoesCommand, Plays, end_line};
ghost use Rattle.net_files.specs.Commands.{view_of};
ghost use Rattle.net_player.specs.Stopping.{IsPlayFault, IsPartOf, StopsAt, TriesDelivery, PassStops, FlowStops};
ghost use Rattle.net_player.specs.Stopping.{ExpiryStops, CommandStops, PlayStops};

use crate::output::{write, write_octets};
use answer_texts::{add_answer, check_line, prints_nothing, refusal_text};
use line_sim::{Answer, Direction, Event, Line, Net, Outcome, StepFault};
use net_files::{Keys, ProgFault, Script, ScriptCommand};
use std::alloc::Global;
use std::io::Write;
use user_nodes::TerminalEvent;

/// A delivery of the first frame in flight on a line.
#[derive(Clone, Copy)]
struct Delivery {
    line: usize,
    direction: Direction,
}

/// How many frames a `flow` delivers at most.
const FLOW_LIMIT: u32 = 100_000;

/// Plays a script on a network, and prints the answer to each event, and at the end whether the network is at rest.
///
/// It stops early with `OutOfMemory` for want of memory, and with `Write` if the output refuses a part of a text. What
/// it printed then is the text of the events before, and a front of that of the next. Nothing is said of the network
/// then.
pub fn play<L: Line, W: Write>(
    alloc: Global,
    net: &mut Net<L>,
    script: &Script,
    out: &mut W,
) -> Result<(), ProgFault>
    ensures writes { OnOk result (Writes (W.contents out.old) (W.contents out.new)
        (λ text. Plays L.service script.now net.old text net.new)) }
    ensures stops { IfErr result (λ fault. Writes (W.contents out.old) (W.contents out.new)
        (PlayStops L.service script.now fault net.old)) }
    ensures faults { IfErr result IsPlayFault }
{
    let mut text = Vec::new(alloc);
    let mut player = Player {
        names: script.names.as_slice(),
        lines: script.lines,
        traces: false,
    };
    for command in script.commands.iter() {
        player.traces = player.play_command(net, &command, &mut text, out)?;
    }
    write(out, end_line(net.at_rest()))?;
    Ok(())
}

/// The last line.
fn end_line(at_rest: bool) -> &'static str
    ensures { result.now ≡ end_line at_rest }
{
    if at_rest { "end rest\n" } else { "end busy\n" }
}

/// Plays commands, one after the other: the names of the network's nodes, how many lines it has, and whether frames are
/// traced. The text of an answer is made in a list that is lent, and keeps its room from one to the next.
#[derive(Drop)]
struct Player<'a> {
    names: &'a [String],
    lines: usize,
    traces: bool,
}

impl Player<'_> {
    /// Does a command, and gives whether frames are traced from then on.
    fn play_command<L: Line, W: Write>(
        &self,
        net: &mut Net<L>,
        command: &ScriptCommand<'_>,
        text: &mut Vec<u8>,
        out: &mut W,
    ) -> Result<bool, ProgFault>
        ensures writes { IfOk result (λ after. Writes (W.contents out.old) (W.contents out.new)
            (λ text. DoesCommand L.service self.now.names.now self.now.lines (view_of command.now)
            (record { net = net.old; traces = self.now.traces }) text (record { net = net.new; traces = after }))) }
        ensures stops { IfErr result (λ fault. Writes (W.contents out.old) (W.contents out.new)
            (CommandStops L.service self.now.names.now self.now.lines fault (view_of command.now)
            (record { net = net.old; traces = self.now.traces }))) }
        ensures faults { IfErr result IsPlayFault }
    {
        match command {
            ScriptCommand::Keys(keys) => {
                self.play_keys(net, *keys, text, out)?;
                Ok(self.traces)
            }
            ScriptCommand::Event(event) => {
                self.play_event(net, event, text, out)?;
                Ok(self.traces)
            }
            ScriptCommand::Flow => {
                self.flow(net, text, out)?;
                Ok(self.traces)
            }
            ScriptCommand::Tick(ticks) => {
                self.tick(net, *ticks, text, out)?;
                Ok(self.traces)
            }
            ScriptCommand::Trace(on) => Ok(*on),
            ScriptCommand::Check => {
                write(out, check_line(net.all_match()))?;
                Ok(self.traces)
            }
        }
    }

    /// Types keys, one after the other.
    fn play_keys<L: Line, W: Write>(
        &self,
        net: &mut Net<L>,
        keys: Keys<'_>,
        text: &mut Vec<u8>,
        out: &mut W,
    ) -> Result<(), ProgFault>
        ensures writes { OnOk result (Writes (W.contents out.old) (W.contents out.new)
            (λ text. InTurn Event Network (TellsEvent L.service self.now.names.now self.now.traces)
            (key_events keys.entry.node keys.entry.terminal keys.entry.octets.now) net.old text net.new)) }
        ensures stops { IfErr result (λ fault. Writes (W.contents out.old) (W.contents out.new)
            (StopsInTurn Event Network (TellsEvent L.service self.now.names.now self.now.traces)
            (StopsAt L.service self.now.names.now self.now.traces fault)
            (key_events keys.entry.node keys.entry.terminal keys.entry.octets.now) net.old)) }
        ensures faults { IfErr result IsPlayFault }
    {
        for octet in keys.octets {
            let key = Event::AtTerminal {
                node: keys.node,
                terminal: keys.terminal,
                event: TerminalEvent::Key(*octet),
            };
            self.play_event(net, &key, text, out)?;
        }
        Ok(())
    }

    /// Delivers frames, pass after pass over the lines, until a pass brings none.
    fn flow<L: Line, W: Write>(
        &self,
        net: &mut Net<L>,
        text: &mut Vec<u8>,
        out: &mut W,
    ) -> Result<(), ProgFault>
        ensures writes { OnOk result (Writes (W.contents out.old) (W.contents out.new)
            (λ text. Flows L.service self.now.names.now self.now.traces self.now.lines
            (record { left = 100000; net = net.old }) text net.new)) }
        ensures stops { IfErr result (λ fault. Writes (W.contents out.old) (W.contents out.new)
            (FlowStops L.service self.now.names.now self.now.traces self.now.lines fault
            (record { left = 100000; net = net.old }))) }
        ensures faults { IfErr result IsPlayFault }
    {
        let mut left = FLOW_LIMIT;
        loop {
            let still_left = self.pass(net, left, text, out)?;
            if still_left == left {
                return Ok(());
            }
            left = still_left;
        }
    }

    /// Delivers at most one frame from each end of each line, in order, and gives how many may then still be delivered.
    fn pass<L: Line, W: Write>(
        &self,
        net: &mut Net<L>,
        left: u32,
        text: &mut Vec<u8>,
        out: &mut W,
    ) -> Result<u32, ProgFault>
        ensures passes { IfOk result (λ still_left. Writes (W.contents out.old) (W.contents out.new)
            (λ text. Passes L.service self.now.names.now self.now.traces self.now.lines
            (record { left = left; net = net.old }) text (record { left = still_left; net = net.new }))) }
        ensures at_most { IfOk result (λ still_left. still_left ≤ left) }
        ensures stops { IfErr result (λ fault. Writes (W.contents out.old) (W.contents out.new)
            (PassStops L.service self.now.names.now self.now.traces self.now.lines fault
            (record { left = left; net = net.old }))) }
        ensures faults { IfErr result IsPlayFault }
    {
        let mut still_left = left;
        let mut passed = 0;
        loop {
            let line = net.next_with_frames(passed);
            if line >= self.lines {
                return Ok(still_left);
            }
            let first = Delivery {
                line,
                direction: Direction::FromDte,
            };
            still_left = self.deliver(net, first, still_left, text, out)?;
            let second = Delivery {
                line,
                direction: Direction::FromDce,
            };
            still_left = self.deliver(net, second, still_left, text, out)?;
            passed = line + 1;
        }
    }

    /// Delivers a frame where there is one and it may still be delivered, and gives how many may then still be.
    fn deliver<L: Line, W: Write>(
        &self,
        net: &mut Net<L>,
        delivery: Delivery,
        left: u32,
        text: &mut Vec<u8>,
        out: &mut W,
    ) -> Result<u32, ProgFault>
        ensures { TriesDelivery L.service self.now.names.now self.now.traces (Deliver delivery.line delivery.direction)
            (record { left = left; net = net.old }) (W.contents out.old) (W.contents out.new) result net.new }
    {
        if left == 0 {
            return Ok(0);
        }
        if net.finds_none(delivery.line, delivery.direction) {
            return Ok(left);
        }
        self.deliver_first(net, delivery, left, text, out)
    }

    /// Delivers the first frame, if there is one, where one may still be delivered.
    #[inline(never)]
    fn deliver_first<L: Line, W: Write>(
        &self,
        net: &mut Net<L>,
        delivery: Delivery,
        left: u32,
        text: &mut Vec<u8>,
        out: &mut W,
    ) -> Result<u32, ProgFault>
        requires { 0 < left }
        ensures { TriesDelivery L.service self.now.names.now self.now.traces (Deliver delivery.line delivery.direction)
            (record { left = left; net = net.old }) (W.contents out.old) (W.contents out.new) result net.new }
    {
        let event = Event::Deliver {
            line: delivery.line,
            direction: delivery.direction,
        };
        if self.play_event(net, &event, text, out)? {
            Ok(left - 1)
        } else {
            Ok(left)
        }
    }

    /// Lets time go by, and then each timer that is due expires, one after the other, until none is.
    fn tick<L: Line, W: Write>(
        &self,
        net: &mut Net<L>,
        ticks: u16,
        text: &mut Vec<u8>,
        out: &mut W,
    ) -> Result<(), ProgFault>
        ensures writes { OnOk result (Writes (W.contents out.old) (W.contents out.new)
            (λ text. Ticks L.service self.now.names.now self.now.traces ticks net.old text net.new)) }
        ensures stops { IfErr result (λ fault. Writes (W.contents out.old) (W.contents out.new)
            (ExpiryStops L.service self.now.names.now self.now.traces fault (all_elapsed ticks net.old))) }
        ensures faults { IfErr result IsPlayFault }
    {
        net.elapse(ticks);
        while let Some(expiry) = net.next_due() {
            self.play_event(net, &expiry, text, out)?;
        }
        Ok(())
    }

    /// One event: prints its answer, and gives whether a frame arrived.
    #[inline(always)]
    fn play_event<L: Line, W: Write>(
        &self,
        net: &mut Net<L>,
        event: &Event,
        text: &mut Vec<u8>,
        out: &mut W,
    ) -> Result<bool, ProgFault>
        ensures tells { IfOk result (λ arrived. Writes (W.contents out.old) (W.contents out.new)
            (λ text. Tells L.service self.now.names.now self.now.traces arrived event.now net.old text net.new)) }
        ensures fewer_due { OnOk result
            (net_due net.old ≡ Some event.now → all_due net.new.nodes < all_due net.old.nodes) }
        ensures stops { IfErr result (λ fault. Writes (W.contents out.old) (W.contents out.new)
            (StopsAt L.service self.now.names.now self.now.traces fault event.now net.old)) }
        ensures faults { IfErr result IsPlayFault }
    {
        match net.step(event) {
            Ok(answer) => {
                self.write_answer(event, answer, text, out)?;
                Ok(has_arrived(&answer.outcome))
            }
            Err(StepFault::OutOfMemory) => Err(ProgFault::OutOfMemory),
            Err(fault) => {
                write(out, refusal_text(fault))?;
                Ok(false)
            }
        }
    }

    /// Whether nothing is printed of an answer, as mostly.
    fn is_silent(&self, event: &Event, answer: &Answer) -> bool
        ensures { OnTrue result (answer_text self.now.names.now self.now.traces event.now (Ok answer.now) ≡ []) }
    {
        !self.traces && answer.notes.is_empty() && prints_nothing(event, &answer.outcome)
    }

    /// Prints an answer.
    #[tactic(auto, using(crate::proofs::Turns::appends_nothing))]
    #[inline(always)]
    fn write_answer<W: Write>(
        &self,
        event: &Event,
        answer: &Answer,
        text: &mut Vec<u8>,
        out: &mut W,
    ) -> Result<(), ProgFault>
        ensures writes { OnOk result (Appends (W.contents out.old) (W.contents out.new)
            (answer_text self.now.names.now self.now.traces event.now (Ok answer.now))) }
        ensures stops { IfErr result (λ fault. Writes (W.contents out.old) (W.contents out.new)
            (IsPartOf (answer_text self.now.names.now self.now.traces event.now (Ok answer.now)) fault)) }
        ensures faults { IfErr result IsPlayFault }
    {
        if self.is_silent(event, answer) {
            return Ok(());
        }
        self.write_lines(event, answer, text, out)
    }

    /// Prints the lines of an answer.
    #[inline(never)]
    fn write_lines<W: Write>(
        &self,
        event: &Event,
        answer: &Answer,
        text: &mut Vec<u8>,
        out: &mut W,
    ) -> Result<(), ProgFault>
        ensures writes { OnOk result (Appends (W.contents out.old) (W.contents out.new)
            (answer_text self.now.names.now self.now.traces event.now (Ok answer.now))) }
        ensures stops { IfErr result (λ fault. Writes (W.contents out.old) (W.contents out.new)
            (IsPartOf (answer_text self.now.names.now self.now.traces event.now (Ok answer.now)) fault)) }
        ensures faults { IfErr result IsPlayFault }
    {
        text.clear();
        add_answer(text, self.names, self.traces, event, answer)?;
        write_octets(out, text.as_slice())
    }
}

/// Whether a frame arrived.
fn has_arrived(outcome: &Outcome) -> bool
    ensures { result ≡ has_arrived outcome.now }
{
    matches!(outcome, Outcome::Delivered(true))
}
