//! What a link sends at the end of a node's event (X.25 2.4.5.1, 2.4.5.2.2).
ghost use Rattle.std.specs.Prelude.{◌≡◌, ◌<◌, ◌≤◌, ◌+◌, [], drop, length, map, max, false};
ghost use Rattle.flow_window.specs.Pool.{Holds};
ghost use Rattle.frame_codec.specs.Spelling.{spelling, most_information};
ghost use Rattle.lapb.specs.Machine as machine;
ghost use Rattle.lapb.specs.Named.{Keeps};
ghost use Rattle.lapb.specs.Unsent.{HasSentAll};
ghost use Rattle.lapb.specs.Out.{gathered, with_frames};

use crate::link::Link;
use crate::out::LinkOut;
use crate::phase::Phase;
use crate::queue::Queue;
use crate::sent::response;
use flow_window::pool::Pool;
use flow_window::{Mod8, SendWindow};
use frame_codec::{Frame, FrameKind};
use link_timers::Role;

impl Link {
    /// Ends a node's event: all I frames that may go are sent in order. If none goes, RR goes if an acknowledgement is
    /// owed.
    pub fn settle(&mut self, out: &mut LinkOut, pool: &mut Pool)
        requires holds { Holds pool.old self.old.held }
        requires size { pool.old.size ≤ most_information }
        ensures link { self.new ≡ record self.old { link = (machine.settle self.old.link).link } }
        ensures out { out.new ≡ gathered out.old self.old.link (machine.settle self.old.link) }

        // The buffers stay.
        ensures pool { pool.new ≡ pool.old }

        // No packet that may go now stays unsent.
        ensures all_sent { HasSentAll self.new.link }

        // For every session that agrees with the link.
        ensures named { Keeps self.old.link (machine.settle self.old.link) }
    {
        if self.phase == Phase::Up {
            self.settle_up(out, pool);
        } else {
            self.stay(out);
        }
    }

    /// T1 goes on as it is.
    #[cold]
    #[inline(never)]
    fn stay(&self, out: &mut LinkOut)
        ensures { out.new ≡ gathered out.old self.now.link (machine.still self.now.link) }
    {
        let runs = self.runs();
        out.end(runs, runs);
    }

    fn settle_up(&mut self, out: &mut LinkOut, pool: &Pool)
        requires up { self.old.link.phase ≡ Phase.Up }
        requires holds { Holds pool.now self.old.held }
        requires size { pool.now.size ≤ most_information }
        ensures link { self.new ≡ record self.old {
          link = (machine.send_all self.old.link (machine.sendable
              self.old.link)).link;
        } }
        ensures out { out.new ≡ gathered out.old self.old.link (machine.send_all self.old.link (machine.sendable
            self.old.link)) }
    {
        if self.heard
            && !self.polling
            && !self.busy
            && self.window.unacknowledged() < self.queue.len()
        {
            self.end_by_packets(out, pool);
        } else {
            self.end_by_acknowledgement(out);
        }
    }

    /// The packets take more registers than all else, so they are sent apart. T1 runs then.
    #[inline(never)]
    fn end_by_packets(&mut self, out: &mut LinkOut, pool: &Pool)
        requires up { self.old.link.phase ≡ Phase.Up }
        requires polling { self.old.link.polling ≡ false }
        requires busy { self.old.link.busy ≡ false }
        requires holds { Holds pool.now self.old.held }
        requires size { pool.now.size ≤ most_information }
        requires unsent { self.old.link.next < length self.old.link.queue }
        ensures link { self.new ≡ record self.old {
          link = (machine.send_all self.old.link (drop self.old.link.next
              self.old.link.queue)).link;
        } }
        ensures out { out.new ≡ gathered out.old self.old.link (machine.send_all self.old.link (drop
            self.old.link.next self.old.link.queue)) }
    {
        let ran = self.window.used() > 0;
        self.send_packets(out, pool);
        out.end(ran, true);
    }

    #[inline(never)]
    fn end_by_acknowledgement(&mut self, out: &mut LinkOut)
        ensures link { self.new ≡ record self.old { link = (machine.send_all self.old.link []).link } }
        ensures out { out.new ≡ gathered out.old self.old.link (machine.send_all self.old.link []) }
    {
        self.send_acknowledgement(out);
        let runs = self.runs();
        out.end(runs, runs);
    }

    /// RR, if an acknowledgement is owed.
    fn send_acknowledgement(&mut self, out: &mut LinkOut)
        ensures link { self.new ≡ record self.old { link = (machine.send_all self.old.link []).link } }
        ensures out { out.new ≡ record out.old {
          frames = with_frames out.old.frames
              (map (spelling self.old.link.role) (machine.send_all self.old.link []).frames);
        } }
    {
        if !self.owed {
            return;
        }
        self.owed = false;
        let nr = self.receive.expected();
        out.put(self.role, &response(FrameKind::Rr { nr }, false));
    }

    /// The packets from V(S) on, in I frames.
    fn send_packets(&mut self, out: &mut LinkOut, pool: &Pool)
        requires holds { Holds pool.now self.old.held }
        requires size { pool.now.size ≤ most_information }
        requires unsent { self.old.link.next < length self.old.link.queue }
        ensures link { self.new ≡ record self.old {
          link = (machine.send_all self.old.link (drop self.old.link.next
              self.old.link.queue)).link;
        } }
        ensures out { out.new ≡ record out.old {
          frames = with_frames out.old.frames
              (map (spelling self.old.link.role) (machine.send_all self.old.link (drop self.old.link.next
              self.old.link.queue)).frames);
        } }
    {
        let nr = self.receive.expected();
        send_from(&mut self.window, &self.queue, nr, self.role, out, pool);
        self.owed = false;
    }
}

fn send_from(
    window: &mut SendWindow<Mod8>,
    queue: &Queue,
    nr: u8,
    role: Role,
    out: &mut LinkOut,
    pool: &Pool,
)
    requires nr { nr < 8 }
    requires next { window.old.next < length queue.now.packets }
    requires size { length queue.now.packets ≤ window.old.size }
    requires holds { Holds pool.now queue.now.held }
    requires octets { pool.now.size ≤ most_information }
    ensures window { window.new ≡ record window.old {
      next = length queue.now.packets;
      top = max window.old.top (length
          queue.now.packets);
    } }
    ensures out { out.new ≡ record out.old {
      frames = with_frames out.old.frames
          (map (spelling role) (machine.numbered (window.old.oldest + window.old.next) nr (drop window.old.next
          queue.now.packets)));
    } }
{
    let mut ns = window.next_number();
    for place in window.unacknowledged()..queue.len() {
        let information = queue.packet(place, pool);
        out.put(
            role,
            &Frame {
                kind: FrameKind::I {
                    ns,
                    nr,
                    information,
                },
                response: false,
                pf: false,
            },
        );
        ns = (ns + 1) % 8;
    }
    window.send_up_to(queue.len());
}
