//! What the calls of a link give: frames, a note, and what becomes of T1.
ghost use Rattle.std.specs.Prelude.{◌≡◌, ◌∷◌, [], length, take, drop, true, false, ◌≤◌};
ghost use Rattle.frame_codec.specs.Spelling.{spelling, most_information, HasSpelling};
ghost use Rattle.frame_codec.specs.Views.{value_of};
ghost use Rattle.lapb.specs.Out.{most_frames, no_out, with_frames, timing_by};
ghost use Rattle.lapb.specs.Machine.{timing_after};

use crate::note::{Note, Timing};
use frame_codec::{Frame, FrameBuf, write_frame};
use link_timers::Role;
use std::marker::Model;

/// How many frames an event has room for: one of each of two calls, and the seven I frames of the widest window.
pub const MOST_FRAMES: usize = 9;

/// What the calls of a link give: up to [`MOST_FRAMES`] frames in order, the note and whether a packet was accepted by
/// the last call, and what becomes of T1.
///
/// The packet that is accepted is the information field of the I frame that was taken: its octets from the third on.
/// Each frame is written in its place, and stays there until it is taken or all is cleared.
#[derive(Drop)]
pub struct LinkOut {
    taken: usize,
    end: usize,
    places: [FrameBuf; MOST_FRAMES],
    note: Note,
    accepted: bool,
    timer: Timing,
}

impl Model for LinkOut {
    ghost use Rattle.lapb.specs.Out as out;

    ghost Value = { out.Out };

    ghost use Rattle.lapb.specs.OutView.{out_of, IsOut};

    ghost view = { out_of };

    ghost invariant = { IsOut };
}

impl LinkOut {
    /// Nothing is to be done.
    pub fn new() -> Self
        ensures { result ≡ no_out }
    {
        LinkOut {
            taken: 0,
            end: 0,
            places: [
                FrameBuf::new(),
                FrameBuf::new(),
                FrameBuf::new(),
                FrameBuf::new(),
                FrameBuf::new(),
                FrameBuf::new(),
                FrameBuf::new(),
                FrameBuf::new(),
                FrameBuf::new(),
            ],
            note: Note::Nothing,
            accepted: false,
            timer: Timing::Keep,
        }
    }

    /// Forgets all, before the next event.
    pub fn clear(&mut self)
        ensures { self.new ≡ no_out }
    {
        self.clear_frames();
        self.tell(Note::Nothing);
        self.timer = Timing::Keep;
    }

    /// Forgets the frames that were not taken.
    pub fn clear_frames(&mut self)
        ensures { self.new ≡ record self.old { frames = [] } }
    {
        self.taken = 0;
        self.end = 0;
    }

    /// Takes the first frame away, if there is one.
    pub fn drop_first(&mut self)
        ensures { self.new ≡ record self.old { frames = drop 1 self.old.frames } }
    {
        if self.taken < self.end {
            self.taken += 1;
        }
    }

    /// What becomes of T1 by all calls since the last clearing or the last such question.
    pub fn take_timer(&mut self) -> Timing
        ensures timer { result ≡ self.old.timer }
        ensures out { self.new ≡ record self.old { timer = Timing.Keep } }
    {
        let timer = self.timer;
        self.timer = Timing::Keep;
        timer
    }

    /// The frames that are to be sent, in order.
    pub fn frames(&self) -> &[FrameBuf]
        ensures value { result.now ≡ self.now.frames }
        ensures most { length result.now ≤ most_frames }
    {
        let places = &self.places[..];
        &places[self.taken..self.end]
    }

    /// What the last call tells of the link.
    pub fn note(&self) -> Note
        ensures { result ≡ self.now.note }
    {
        self.note
    }

    /// Whether the information field of the frame that the last call took is the next packet.
    pub fn accepted(&self) -> bool
        ensures { result ≡ self.now.accepted }
    {
        self.accepted
    }

    /// What a call tells of the link. It accepts no packet, unless `accept` follows.
    pub(crate) fn tell(&mut self, note: Note)
        ensures { self.new ≡ record self.old { note = note; accepted = false } }
    {
        self.note = note;
        self.accepted = false;
    }

    /// The frame that the call took carries the next packet.
    pub(crate) fn accept(&mut self)
        ensures { self.new ≡ record self.old { accepted = true } }
    {
        self.accepted = true;
    }

    /// Ends a call that tells nothing of the link. T1 ran before it, and is to run now.
    pub(crate) fn end(&mut self, ran: bool, runs: bool)
        ensures { self.new ≡ record self.old {
          note = Note.Nothing;
          accepted = false;
          timer = timing_after
              self.old.timer (timing_by ran runs false);
        } }
    {
        self.tell(Note::Nothing);
        self.set_timer(ran, runs, false);
    }

    /// What becomes of T1, which ran before or not and is to run now or not, perhaps from its start.
    pub(crate) fn set_timer(&mut self, ran: bool, runs: bool, anew: bool)
        ensures { self.new ≡ record self.old { timer = timing_after self.old.timer (timing_by ran runs anew) } }
    {
        if !runs {
            self.timer = Timing::Stop;
        } else if anew || !ran {
            self.timer = Timing::Start;
        }
    }

    /// Appends a frame. One for which there is no room is dropped, as a lost frame.
    #[inline(always)]
    pub(crate) fn put(&mut self, role: Role, frame: &Frame<'_>)
        requires { HasSpelling most_information (value_of frame.now) }
        ensures { self.new ≡ record self.old {
          frames = with_frames self.old.frames (spelling role (value_of frame.now) ∷ []);
        } }
    {
        if self.end == MOST_FRAMES {
            make_room(&mut self.places, &mut self.taken, &mut self.end);
            if self.end == MOST_FRAMES {
                return;
            }
        }
        write_frame(frame, role, &mut self.places[self.end]);
        self.end += 1;
    }
}

/// Moves the frames that were not taken to the front.
#[cold]
#[inline(never)]
fn make_room(places: &mut [FrameBuf], taken: &mut usize, end: &mut usize)
    requires taken { taken.old ≤ end.old }
    requires end { end.old ≤ most_frames }
    requires places { length places.old ≡ most_frames }
    ensures frames { drop taken.new (take end.new places.new) ≡ drop taken.old (take end.old places.old) }
    ensures taken { taken.new ≤ end.new }
    ensures end { end.new ≤ most_frames }
    ensures full { end.new ≡ most_frames → taken.new ≡ 0 }
{
    places.rotate_left(*taken);
    *end -= *taken;
    *taken = 0;
}
