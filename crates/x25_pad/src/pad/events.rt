//! What the packet layer tells, and the end of an event.
ghost use Rattle.std.specs.Prelude.{◌≡◌, ◌≤◌, ◌+◌, ◌<◌, [], ◌∷◌, ◌++◌, None, length, drop, map, IfSome};
ghost use Rattle.packet_channel.specs.NoteView.{note_of};
ghost use Rattle.packet_end.specs.PacketEnd as end;
ghost use Rattle.packet_end.specs.Sending.{EndsWhole, ending_frames};
ghost use Rattle.packet_layer.specs.LayerTimers.{TimersAgree};
ghost use Rattle.pad_ports.specs.PadLine as line;
ghost use Rattle.pad_ports.specs.Ports.{settled};
ghost use Rattle.x25_pad.specs.Pad as spec;
ghost use Rattle.x25_pad.specs.Settling.{NothingElseToSettle};

use crate::pad::Pad;
use number_set::NumberSet;
use packet_layer::LayerNote;
use pad_ports::{
    ChannelNote, EARLY_NOTES, MOST_NOTES, PadLine, PadNote, Port, PortNote, TOLD_NOTES,
};

impl Pad {
    /// Begins an event: what was not taken of the last one is dropped.
    pub(super) fn begin(&mut self)
        ensures { self.new ≡ spec.begun self.old }
    {
        self.line.end.begin();
        self.line.notes.clear();
        self.line.terminal = None;
    }

    /// Ends an event that came from the line: the terminals learn what became of their calls, and a call that came in is
    /// answered.
    pub(super) fn end_line_event(&mut self)
        requires told { length self.old.line.end.notes ≤ TOLD_NOTES }
        requires empty { self.old.line.notes ≡ [] }
        ensures pad { self.new ≡ spec.line_event self.old }
        ensures frames { length self.old.line.end.line.frames ≤ 1 → self.new.line.end.line.frames
            ≡ self.old.line.end.line.frames ++ ending_frames (spec.heeded self.old).line.end }
        ensures nothing_kept_back { end.KeepsNothingBack self.new.line.end }
        ensures timers { TimersAgree self.new.line.end.layer self.new.line.end.timers }
    {
        let incoming = self.hear();
        self.answer(incoming);
        self.finish();
    }

    /// Ends an event: a relink where it is due, then all packets that may go, and the link sends what may go. Then the
    /// terminals learn of that, and may go on.
    #[inline(always)]
    pub(super) fn finish(&mut self)
        requires told { self.old.line.end.notes ≡ [] }
        requires room { length self.old.line.notes ≤ EARLY_NOTES }
        ensures pad { self.new ≡ spec.ended self.old }
        ensures frames { EndsWhole self.old.line.end self.new.line.end }
        ensures nothing_kept_back { end.KeepsNothingBack self.new.line.end }
        ensures timers { TimersAgree self.new.line.end.layer self.new.line.end.timers }
    {
        self.line.end.finish();
        let _ = self.hear();
        self.settle();
    }

    /// Takes over what the packet layer told, if anything. The terminals learn what became of their calls; the last call
    /// that came in is the result.
    #[tactic(auto, using(crate::proofs::Hearing::told_none))]
    fn hear(&mut self) -> Option<u8>
        requires room { length self.old.line.notes + length self.old.line.end.notes ≤ MOST_NOTES }
        ensures pad { self.new ≡ spec.told self.old }
        ensures incoming { result ≡ line.last_incoming None self.old.line.end.notes }
    {
        if self.line.end.waiting_notes() == 0 {
            return None;
        }
        self.hear_notes()
    }

    #[inline(never)]
    fn hear_notes(&mut self) -> Option<u8>
        requires room { length self.old.line.notes + length self.old.line.end.notes ≤ MOST_NOTES }
        ensures pad { self.new ≡ spec.told self.old }
        ensures incoming { result ≡ line.last_incoming None self.old.line.end.notes }
    {
        let mut incoming = None;
        for _ in 0..self.line.end.waiting_notes() {
            incoming = self.hear_note(incoming);
        }
        incoming
    }

    /// Takes over the first note of the packet layer, if there is one: it is of the terminal that has the call. The
    /// channel is that of the last call that came in.
    #[tactic(auto, using(crate::proofs::Hearing::told_first, crate::proofs::Hearing::last_first))]
    fn hear_note(&mut self, incoming: Option<u8>) -> Option<u8>
        requires room { length self.old.line.notes + length self.old.line.end.notes ≤ MOST_NOTES }
        ensures pad { spec.told self.new ≡ spec.told self.old }
        ensures incoming { line.last_incoming result self.new.line.end.notes
            ≡ line.last_incoming incoming self.old.line.end.notes }
        ensures rest { self.new.line.end.notes ≡ drop 1 self.old.line.end.notes }
        ensures room { length self.new.line.notes + length self.new.line.end.notes ≤ MOST_NOTES }
    {
        let Some(note) = self.line.end.notes() else {
            return incoming;
        };
        let last = last_call(incoming, &note);
        let terminal = terminal_with(self.ports.as_slice(), about(&note));
        tell(&mut self.ports, &mut self.touched, &note);
        self.line.notes.add(PadNote {
            terminal,
            note: ChannelNote::Told(note),
        });
        last
    }

    fn first_free(&self) -> Option<usize>
        ensures number { result ≡ spec.first_free self.now.ports }
        ensures within { IfSome result (λ number. number < length self.now.ports) }
        ensures most { IfSome result (λ number. number < 16) }
    {
        self.ports.iter().position(|port| port.is_free())
    }

    /// Accepts a call that came in, if one did, for the first terminal that is present and has no call, or else clears it.
    fn answer(&mut self, incoming: Option<u8>)
        requires room { length self.old.line.notes < MOST_NOTES }
        ensures pad { self.new ≡ spec.answered incoming self.old }
        ensures room { length self.new.line.notes ≤ length self.old.line.notes + 1 }
    {
        let Some(channel) = incoming else {
            return;
        };
        let Some(number) = self.first_free() else {
            self.line.at_terminal(None);
            self.line.clear(channel);
            return;
        };
        self.line.at_terminal(Some(number as u8));
        self.line.accept(channel);
        self.touched.insert(number);
        self.ports[number].connect(channel);
    }

    /// The terminals may go on, and their idle timers run as they want them.
    fn settle(&mut self)
        ensures { self.new ≡ spec.all_settled self.old }
    {
        self.touched = settle_ports(&mut self.ports, self.touched, &self.line);
    }
}

/// Settles the ports that were touched, and answers which of them are to be settled again: their terminals wait to go on.
fn settle_ports(ports: &mut [Port], mut touched: NumberSet, line: &PadLine) -> NumberSet
    requires { NothingElseToSettle touched ports.old }
    ensures ports { ports.new ≡ map (settled line.now) ports.old }
    ensures rest { NothingElseToSettle result ports.new }
{
    let mut waiting = NumberSet::new();
    while let Some(number) = touched.take_first() {
        if !ports[number].settle(line) {
            waiting.insert(number);
        }
    }
    waiting
}

/// The channel of the call that came in last, where this note is told after others.
fn last_call(before: Option<u8>, note: &LayerNote) -> Option<u8>
    ensures { result ≡ line.last_incoming before (note_of note.now ∷ []) }
{
    match note {
        LayerNote::Incoming(channel, _) => Some(*channel),
        _ => before,
    }
}

/// The terminal whose call a note is of, if there is one, learns what became of it.
#[tactic(auto, unfolding(crate::specs::Pad::all_heard))]
fn tell(ports: &mut Vec<Port>, touched: &mut NumberSet, note: &LayerNote)
    requires most { length ports.old.items ≤ 16 }
    requires rest { NothingElseToSettle touched.old ports.old.items }
    ensures ports { ports.new.items ≡ spec.all_heard (line.learnt_of (note_of note.now)) ports.old.items }
    ensures count { length ports.new.items ≡ length ports.old.items }
    ensures rest { NothingElseToSettle touched.new ports.new.items }
{
    match note {
        LayerNote::Connected(channel) => learn(ports, touched, PortNote::Connected(*channel)),
        LayerNote::Closed { channel, cause, .. } => {
            learn(ports, touched, PortNote::Cleared(*channel, *cause));
        }
        LayerNote::Reset { channel, cause, .. } => {
            learn(ports, touched, PortNote::Reset(*channel, *cause));
        }
        LayerNote::Incoming(_, _) | LayerNote::InterruptConfirmed(_) | LayerNote::Covered { .. } =>
            {}
    }
}

/// The terminal whose call is on the channel, if there is one, learns what became of it.
fn learn(ports: &mut Vec<Port>, touched: &mut NumberSet, note: PortNote)
    requires most { length ports.old.items ≤ 16 }
    requires rest { NothingElseToSettle touched.old ports.old.items }
    ensures ports { ports.new.items ≡ spec.one_learnt ports.old.items note }
    ensures count { length ports.new.items ≡ length ports.old.items }
    ensures rest { NothingElseToSettle touched.new ports.new.items }
{
    let Some(number) = holder(ports.as_slice(), note.channel()) else {
        return;
    };
    touched.insert(number);
    if let Some(port) = ports.get_mut(number) {
        port.learn(note);
    }
}

/// The terminal whose call is on the channel, if there is one.
fn terminal_with(ports: &[Port], channel: u8) -> Option<u8>
    requires { length ports.now ≤ 16 }
    ensures { result ≡ spec.holder channel ports.now }
{
    match holder(ports, channel) {
        Some(number) => Some(number as u8),
        None => None,
    }
}

/// The channel that a note is about.
fn about(note: &LayerNote) -> u8
    ensures { result ≡ line.about (note_of note.now) }
{
    match note {
        LayerNote::Incoming(channel, _)
        | LayerNote::Connected(channel)
        | LayerNote::Closed { channel, .. }
        | LayerNote::Reset { channel, .. }
        | LayerNote::InterruptConfirmed(channel)
        | LayerNote::Covered { channel, .. } => *channel,
    }
}

fn holder(ports: &[Port], channel: u8) -> Option<usize>
    ensures number { result ≡ spec.holder channel ports.now }
    ensures within { IfSome result (λ number. number < length ports.now) }
{
    ports.iter().position(|port| port.has_channel(channel))
}
