//! How an event ends: packets go from the packet layer to the link, the timers are brought into line, and the link
//! sends what may go.
ghost use Rattle.std.specs.Prelude.{◌≡◌, ◌≤◌, ◌<◌, ◌+◌, ◌&&◌, length, is_some};
ghost use Rattle.flow_window.specs.Pool.{Balances};
ghost use Rattle.lapb.specs.Machine.{can_offer, settle};
ghost use Rattle.lapb.specs.Unsent.{HasSentAll};
ghost use Rattle.packet_layer.specs.Layer.{next_packet};
ghost use Rattle.packet_end.specs.PacketEnd.{offered, all_offered, HasOfferedAll, settled, finished};
ghost use Rattle.packet_end.specs.PacketEnd.{relinked_if_due, KeepsNothingBack};
ghost use Rattle.packet_end.specs.Pooled.{Serves};
ghost use Rattle.packet_end.specs.Sending.{EndsWhole};
ghost use Rattle.packet_layer.specs.LayerTimers.{TimersAgree};

use crate::pooled::PooledEnd;
use crate::timing::bring_into_line;
use crate::touched::Touched;
use flow_window::pool::Pool;

/// The most packets that a link has unacknowledged.
const MOST_PACKETS: usize = 7;

impl PooledEnd {
    /// Offers packets to the link, as long as it takes one and the packet layer has one that may go, and answers
    /// whether it took any.
    pub fn offer_packets(&mut self, pool: &mut Pool) -> bool
        requires { Serves pool.old self.old.held self.old.share self.old.info }
        ensures offered { result
            ≡ (can_offer self.old.end.line.link && is_some (next_packet self.old.end.layer).packet) }
        ensures end { self.new ≡ record self.old { end = all_offered self.old.end; held = self.new.held } }
        ensures notes { self.new.end.notes ≡ self.old.end.notes }
        ensures all_offered { HasOfferedAll self.new.end }
        ensures pool { Balances pool.old self.old.held pool.new self.new.held }
        ensures within { length self.new.held < self.new.share }
    {
        for count in 0..MOST_PACKETS {
            if !self.offer_next(pool) {
                return count > 0;
            }
        }
        true
    }

    /// Offers the layer's next packet to the link, if the link takes one and the layer has one, and answers whether it
    /// did.
    fn offer_next(&mut self, pool: &mut Pool) -> bool
        requires { Serves pool.old self.old.held self.old.share self.old.info }
        ensures said { result
            ≡ (can_offer self.old.end.line.link && is_some (next_packet self.old.end.layer).packet) }
        ensures end { self.new ≡ record self.old { end = offered 1 self.old.end; held = self.new.held } }
        ensures most { self.new.end.line.link.k ≤ 7 }
        ensures pool { Balances pool.old self.old.held pool.new self.new.held }
        ensures within { length self.new.held < self.new.share }
    {
        if !self.line.can_offer() || self.layer.is_certainly_silent() {
            return false;
        }
        self.touched.touch();
        if !self.layer.next_packet(&mut self.packet, pool) {
            return false;
        }
        let packet = self.packet.as_slice();
        let _ = self.line.offer(packet, pool);
        true
    }

    /// Ends an event: the timers run as the packet layer wants them, and the link sends what may go.
    pub fn settle(&mut self, pool: &mut Pool)
        requires { Serves pool.old self.old.held self.old.share self.old.info }
        ensures end { self.new ≡ record self.old { end = settled self.old.end } }

        // No packet that the link holds and may send stays unsent.
        ensures all_sent { HasSentAll self.new.end.line.link }
        ensures few { length (settle self.old.end.line.link).frames ≤ 7 }
        ensures timers { TimersAgree self.new.end.layer self.new.end.timers }
        ensures pool { pool.new ≡ pool.old }
    {
        bring_into_line(&mut self.timers, &self.layer, self.touched);
        self.touched = Touched::NoTimer;
        self.line.settle(pool);
    }

    /// Ends an event of a node with one line: a relink if it is due, all packets that may go, and `settle`. No frame of
    /// the event is lost.
    #[inline(always)]
    pub fn finish(&mut self, pool: &mut Pool)
        requires notes { length self.old.end.notes ≤ 64 }
        requires pool { Serves pool.old self.old.held self.old.share self.old.info }
        ensures end { self.new ≡ record self.old { end = finished self.old.end; held = self.new.held } }
        ensures notes { length self.new.end.notes ≤ length self.old.end.notes + 32 }
        ensures nothing_kept_back { KeepsNothingBack self.new.end }
        ensures frames { EndsWhole self.old.end self.new.end }
        ensures timers { TimersAgree self.new.end.layer self.new.end.timers }
        ensures pool { Balances pool.old self.old.held pool.new self.new.held }
    {
        if let Touched::Nothing = self.touched {
            return;
        }
        self.finish_touched(pool);
    }

    /// Ends an event in which something happened.
    #[inline(never)]
    fn finish_touched(&mut self, pool: &mut Pool)
        requires notes { length self.old.end.notes ≤ 64 }
        requires pool { Serves pool.old self.old.held self.old.share self.old.info }
        ensures end { self.new ≡ record self.old { end = finished self.old.end; held = self.new.held } }
        ensures notes { length self.new.end.notes ≤ length self.old.end.notes + 32 }
        ensures nothing_kept_back { KeepsNothingBack self.new.end }
        ensures frames { EndsWhole self.old.end self.new.end }
        ensures timers { TimersAgree self.new.end.layer self.new.end.timers }
        ensures pool { Balances pool.old self.old.held pool.new self.new.held }
    {
        self.relink_if_due(pool);
        let _ = self.offer_packets(pool);
        self.settle(pool);
        self.touched = Touched::Nothing;
    }

    /// Relinks the link if the packet layer asks for it.
    fn relink_if_due(&mut self, pool: &mut Pool)
        requires notes { length self.old.end.notes ≤ 64 }
        requires pool { Serves pool.old self.old.held self.old.share self.old.info }
        ensures end { self.new ≡ record self.old { end = relinked_if_due self.old.end; held = self.new.held } }
        ensures notes { length self.new.end.notes ≤ length self.old.end.notes + 32 }
        ensures pool { Balances pool.old self.old.held pool.new self.new.held }
    {
        if self.layer.must_relink() {
            self.relink(pool);
        }
    }
}
