//! One end of a line with its packet layer, in a pool that it is lent.
ghost use Rattle.std.specs.Prelude.{true, ◌≡◌, ◌≤◌, ◌<◌, ◌+◌, ◌++◌, [], ◌∷◌, length, drop, MatchOption, MatchResult, Some, None, slice_get};
ghost use Rattle.std.specs.Bool.{OnTrue, OnFalse};
ghost use Rattle.flow_window.specs.Pool.{Balances};
ghost use Rattle.data_transfer.specs.Flow.{is_size};
ghost use Rattle.packet_layer.specs.Layer.{unread};
ghost use Rattle.packet_end.specs.Params.{AreParams, info_of};
ghost use Rattle.packet_end.specs.Pooled.{Serves, share_with};
ghost use Rattle.packet_end.specs.PacketEnd.{made, begun, heeded, received, runs_at, after_timer, relinked};
ghost use Rattle.packet_end.specs.PacketEnd.{restarted, elapsed, due, at_rest, without_first_frame};
ghost use Rattle.packet_end.specs.PacketEnd.{without_first_note};
ghost use Rattle.packet_end.specs.declared.fault.EndFault.TheVariants as fault_is;

mod asking;
mod ending;

use crate::fault::EndFault;
use crate::notes::{EventNotes, MOST_NOTES};
use crate::params::EndParams;
use crate::touched::Touched;
use flow_window::pool::Pool;
use frame_codec::FrameBuf;
use lapb::Note;
use line_end::{LineEnd, MOST_FRAMES};
use link_timers::{Role, TimerId};
use packet_codec::PacketBuf;
use packet_layer::{Layer, LayerNote, LayerTimers};
use std::alloc::{AllocError, Global};
use std::marker::Model;
use std::ops::Deref;

/// One end of a line with its packet layer, as [`PacketEnd`](crate::PacketEnd) has it, but without a pool of its own:
/// the packets of its link and its layer lie in one that it shares with other ends. Each call that puts packets there,
/// gives them up or reads them is lent the pool. What asks the packet layer alone, without a change, is a call of
/// [`Layer`].
#[derive(Drop)]
pub struct PooledEnd {
    /// On the heap, since it has room for the frames of an event.
    line: Box<LineEnd>,
    layer: Layer,
    timers: LayerTimers,
    notes: EventNotes,
    touched: Touched,
    /// The place of a packet that goes from the layer to the link.
    packet: PacketBuf,
}

impl Model for PooledEnd {
    ghost use Rattle.packet_end.specs.Pooled as pooled;

    ghost Value = { pooled.PooledEnd };

    ghost use Rattle.packet_end.specs.PooledView.{pooled_of, IsPooled};

    ghost view = { pooled_of };

    ghost invariant = { IsPooled };
}

impl Deref for PooledEnd {
    type Target = Layer;

    fn deref(&self) -> &Layer
        ensures { result.now.layer ≡ self.now.end.layer }
    {
        &self.layer
    }
}

impl PooledEnd {
    ghost use Rattle.packet_channel.specs.NoteView.{maybe_note, note_of};

    /// The end of this role of a line, as `PacketEnd::new` makes it. It takes all the memory that it ever uses, but for
    /// the pool. `OutOfMemory` comes for want of memory.
    #[inline(never)]
    pub fn new(
        alloc: Global,
        role: Role,
        params: EndParams,
        pool: &mut Pool,
    ) -> Result<PooledEnd, EndFault>
        requires { AreParams params }
        ensures end { MatchResult result
            (λ end. end ≡ record {
              end = made role params;
              held = [];
              share = share_with params;
              info = info_of params.flow;
            })
            (λ fault. fault ≡ fault_is.OutOfMemory) }
        ensures pool { Balances pool.old [] pool.new [] }
    {
        let layer = Layer::new(alloc, role, params.layer())?;
        let notes = EventNotes::new(alloc)?;
        let line = LineEnd::new(role, params.link(), pool)?;
        let line = Box::new(alloc, line).map_err(AllocError::from)?;
        Ok(PooledEnd {
            line,
            layer,
            timers: LayerTimers::new(),
            notes,
            touched: Touched::Everything,
            packet: PacketBuf::new(),
        })
    }

    /// The most octets of a Data packet on the line.
    pub fn size(&self) -> u16
        ensures size { result ≡ self.now.end.layer.flow.size }
        ensures allowed { is_size result ≡ true }
        ensures fits { result ≤ self.now.info }
    {
        self.layer.flow().size
    }

    /// Begins an event of the node: drops the frames, as lost, and the notes that were not taken.
    pub fn begin(&mut self)
        ensures { self.new ≡ record self.old { end = begun self.old.end } }
    {
        self.line.drop_frames();
        self.notes.clear();
    }

    /// Takes the octets of a received frame, and hands what it tells to the packet layer (X.25 2.4, 3 to 5).
    pub fn on_frame(&mut self, octets: &[u8], pool: &mut Pool)
        requires notes { self.old.end.notes ≡ [] }
        requires pool { Serves pool.old self.old.held self.old.share self.old.info }
        ensures end { self.new ≡ record self.old { end = received self.old.end octets.now; held = self.new.held } }
        ensures notes { length self.new.end.notes ≤ 64 }
        ensures pool { Balances pool.old self.old.held pool.new self.new.held }
        ensures within { length self.new.held < self.new.share }
    {
        self.touched.touch();
        let received = self.line.on_frame(octets, pool);
        self.heed(received.note, pool);
        if let Some(packet) = received.packet {
            self.touched.insert_named(packet);
            self.layer.on_packet(packet, pool);
            gather(&mut self.layer, &mut self.notes);
        }
    }

    /// Whether a timer runs, also with no tick left.
    pub fn is_running(&self, id: TimerId) -> bool
        ensures { result ≡ runs_at self.now.end id }
    {
        if let TimerId::T1 = id {
            return self.line.runs_t1();
        }
        match self.layer.timer_named(id) {
            Some(timer) => self.timers.is_running(timer),
            None => false,
        }
    }

    /// Takes an expiry of a timer. If the timer does not run, nothing happens.
    pub fn on_timer(&mut self, id: TimerId, pool: &mut Pool)
        requires notes { self.old.end.notes ≡ [] }
        requires pool { Serves pool.old self.old.held self.old.share self.old.info }
        ensures end { self.new ≡ record self.old { end = after_timer self.old.end id; held = self.new.held } }
        ensures notes { length self.new.end.notes ≤ 64 }
        ensures pool { Balances pool.old self.old.held pool.new self.new.held }
        ensures within { length self.new.held < self.new.share }
    {
        if let TimerId::T1 = id {
            self.touched.touch();
            if let Some(note) = self.line.on_t1(pool) {
                self.heed(note, pool);
            }
            return;
        }
        let Some(timer) = self.layer.timer_named(id) else {
            return;
        };
        if !self.timers.is_running(timer) {
            return;
        }
        self.timers.stop(timer);
        self.touched = Touched::Everything;
        self.layer.on_timer(id, pool);
        gather(&mut self.layer, &mut self.notes);
    }

    /// Gives the link up and sets it up again: all calls close.
    pub fn relink(&mut self, pool: &mut Pool)
        requires notes { length self.old.end.notes ≤ 64 }
        requires pool { Serves pool.old self.old.held self.old.share self.old.info }
        ensures end { self.new ≡ record self.old { end = relinked self.old.end; held = self.new.held } }
        ensures notes { length self.new.end.notes ≤ length self.old.end.notes + 32 }
        ensures pool { Balances pool.old self.old.held pool.new self.new.held }
        ensures within { length self.new.held < self.new.share }
    {
        self.touched.touch();
        self.line.relink(pool);
        self.heed(Note::Down, pool);
    }

    /// Restarts the end of the line with its node, as on a line that is not standing. All that went before is
    /// forgotten, frames and notes too.
    pub fn restart(&mut self, pool: &mut Pool)
        requires { Serves pool.old self.old.held self.old.share self.old.info }
        ensures end { self.new ≡ record self.old { end = restarted self.old.end; held = self.new.held } }
        ensures pool { Balances pool.old self.old.held pool.new self.new.held }
        ensures within { length self.new.held < self.new.share }
    {
        self.touched.touch();
        self.notes.clear();
        self.line.restart(pool);
        self.heed(Note::Down, pool);
        self.notes.clear();
    }

    /// Takes the next frame that goes out, if there is one. If there is none, `frame` stays as it is.
    pub fn out(&mut self, frame: &mut FrameBuf) -> bool
        ensures frame { OnTrue result (self.old.end.line.frames ≡ frame.new ∷ self.new.end.line.frames) }
        ensures nothing { OnFalse result (self.old.end.line.frames ≡ []) }
        ensures same { OnFalse result (frame.new ≡ frame.old) }
        ensures end { self.new ≡ record self.old { end = without_first_frame self.old.end } }
    {
        self.line.out(frame)
    }

    /// The next note, if there is one.
    pub fn first_note(&self) -> Option<&LayerNote>
        ensures { MatchOption result (slice_get self.now.end.notes 0 ≡ None)
            (λ note. slice_get self.now.end.notes 0 ≡ Some (note_of note.now)) }
    {
        self.notes.first()
    }

    /// Takes the next note, if there is one.
    pub fn notes(&mut self) -> Option<LayerNote>
        ensures note { maybe_note result ≡ slice_get self.old.end.notes 0 }
        ensures end { self.new ≡ record self.old { end = without_first_note self.old.end } }
    {
        self.notes.take()
    }

    /// Lets ticks pass, each a twentieth of a second: each timer that runs has so many less, not below 0.
    pub fn elapse(&mut self, ticks: u16)
        ensures { self.new ≡ record self.old { end = elapsed self.old.end ticks } }
    {
        self.touched.touch();
        self.line.elapse(ticks);
        self.timers.elapse(ticks);
    }

    /// The first timer that runs with no tick left, in the order of [`TimerId`] and then by number.
    pub fn due(&self) -> Option<TimerId>
        ensures { result ≡ due self.now.end }
    {
        if self.line.is_due() {
            return Some(TimerId::T1);
        }
        Some(self.timers.due()?.name(self.layer.role()))
    }

    /// How many frames wait to be taken, at most [`MOST_FRAMES`].
    pub fn waiting_frames(&self) -> usize
        ensures count { result ≡ length self.now.end.line.frames }
        ensures most { result ≤ MOST_FRAMES }
    {
        self.line.waiting()
    }

    /// How many notes wait to be taken, at most [`MOST_NOTES`].
    pub fn waiting_notes(&self) -> usize
        ensures count { result ≡ length self.now.end.notes }
        ensures most { result ≤ MOST_NOTES }
    {
        self.notes.len()
    }

    /// Whether the link is up with nothing unacknowledged and nothing to be said, no packet is owed, and nothing waits
    /// to be sent or taken on any channel.
    pub fn is_at_rest(&self) -> bool
        ensures { result ≡ at_rest self.now.end }
    {
        self.line.at_rest() && self.layer.is_at_rest()
    }

    /// What a note of the link is for the packet layer.
    #[inline(always)]
    fn heed(&mut self, note: Note, pool: &mut Pool)
        requires notes { length self.old.end.notes ≤ 64 }
        requires pool { Serves pool.old self.old.held self.old.share self.old.info }
        ensures end { self.new ≡ record self.old { end = heeded note self.old.end; held = self.new.held } }
        ensures notes { length self.new.end.notes ≤ length self.old.end.notes + 32 }
        ensures pool { Balances pool.old self.old.held pool.new self.new.held }
        ensures within { length self.new.held < self.new.share }
    {
        match note {
            Note::Nothing => return,
            Note::Up => self.layer.link_up(pool),
            Note::Down => self.layer.link_down(pool),
        }
        self.timers = LayerTimers::new();
        self.touched = Touched::Everything;
        gather(&mut self.layer, &mut self.notes);
    }
}

/// Takes the notes of a packet layer over.
#[inline(always)]
fn gather(layer: &mut Layer, notes: &mut EventNotes)
    requires { length notes.old ≤ 64 }
    ensures layer { layer.new ≡ record layer.old { layer = unread layer.old.layer } }
    ensures notes { notes.new ≡ notes.old ++ layer.old.layer.notes }
    ensures most { length notes.new ≤ length notes.old + 32 }
{
    for _ in 0..layer.unread_notes() {
        if let Some(note) = layer.notes() {
            notes.add(note);
        }
    }
}
