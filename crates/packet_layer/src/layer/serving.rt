//! What goes to the link.
ghost use Rattle.std.specs.Bool.{OnFalse};
ghost use Rattle.std.specs.Prelude.{◌≡◌, ℕ, ◌<◌, ◌≤◌, ◌+◌, ◌-◌, ◌==◌, if◌then◌else◌, length, is_some};
ghost use Rattle.number_set.specs.NumberSet.{has};
ghost use Rattle.flow_window.specs.Pool.{Holds, Balances};
ghost use Rattle.packet_layer.specs.Held.{most_held};
ghost use Rattle.packet_layer.specs.Layer as machine;
ghost use Rattle.packet_layer.specs.Events.{written_packet, ReadsBack, IsHeard};
ghost use Rattle.packet_layer.specs.Unsent.{LayerHasSaidAll};

use crate::layer::Layer;
use crate::restart::{Phase, write_restart};
use flow_window::pool::Pool;
use number_set::NumberSet;
use packet_codec::PacketBuf;

impl Layer {
    /// Writes the packet that goes to the link next, if there is one, in place of what the buffer has. Restart packets
    /// go first. Then the channels take turns, from the one after the channel that was served last. A channel sends, in
    /// this order:
    ///
    /// - the control packets that it owes;
    /// - the interrupt confirmation;
    /// - the interrupt;
    /// - data within the window;
    /// - RR or RNR, if the partner does not know the present P(R) or whether this end is stopped.
    ///
    /// If there is none, nothing that may go stays unsent.
    pub fn next_packet(&mut self, buf: &mut PacketBuf, pool: &mut Pool) -> bool
        requires holds { Holds pool.old self.old.held }
        ensures layer { self.new.layer ≡ (machine.next_packet self.old.layer).layer }
        ensures said { result ≡ is_some (machine.next_packet self.old.layer).packet }
        ensures octets { buf.new.items ≡ written_packet self.old.layer.flow (machine.next_packet self.old.layer).packet buf.old.items }
        // The far end hears that packet in them.
        ensures heard { IsHeard self.old.layer.flow (machine.next_packet self.old.layer).packet buf.new.items }
        ensures pool { Balances pool.old self.old.held pool.new self.new.held }
        ensures most { most_held self.new.layer ≡ most_held self.old.layer }
        ensures few { length self.new.held ≤ most_held self.new.layer }
        ensures unsent { OnFalse result (LayerHasSaidAll self.new.layer) }
    {
        if matches!(self.phase, Phase::NoSession) || self.relink {
            return false;
        }
        if let Some(packet) = self.owed.first() {
            write_restart(self.flow, *packet, buf);
            self.owed.drop_first();
            return true;
        }
        self.serve(buf, pool)
    }

    /// The first channel that has anything, round.
    fn serve(&mut self, buf: &mut PacketBuf, pool: &mut Pool) -> bool
        requires few { length self.old.held ≤ most_held self.old.layer }
        requires holds { Holds pool.old self.old.held }
        ensures layer { self.new.layer
            ≡ (machine.serve (length self.old.layer.channels) self.old.layer
            (machine.next_number self.old.layer self.old.layer.served_last)).layer }
        ensures said { result
            ≡ is_some (machine.serve (length self.old.layer.channels) self.old.layer
            (machine.next_number self.old.layer self.old.layer.served_last)).packet }
        ensures octets { buf.new.items
            ≡ written_packet self.old.layer.flow (machine.serve (length self.old.layer.channels) self.old.layer
            (machine.next_number self.old.layer self.old.layer.served_last)).packet buf.old.items }
        ensures reads_back { ReadsBack self.old.layer.flow
            (machine.serve (length self.old.layer.channels) self.old.layer
            (machine.next_number self.old.layer self.old.layer.served_last)).packet buf.new.items }
        ensures pool { Balances pool.old self.old.held pool.new self.new.held }
        ensures most { most_held self.new.layer ≡ most_held self.old.layer }
        ensures few { length self.new.held ≤ most_held self.new.layer }
    {
        let next = self.next_place();
        let count = self.channels.len();
        self.serve_between(next, count, buf, pool) || self.serve_between(0, next, buf, pool)
    }

    /// The place of the channel after that which was served last, round.
    fn next_place(&self) -> usize
        ensures place { result + 1 ≡ machine.next_number self.now.layer self.now.layer.served_last }
        ensures most { result ≤ length self.now.layer.channels }
    {
        let next = usize::from(self.served_last);
        if next < self.channels.len() { next } else { 0 }
    }

    /// The first of the channels from one place up to another that has anything.
    #[inline(always)]
    fn serve_between(
        &mut self,
        first: usize,
        end: usize,
        buf: &mut PacketBuf,
        pool: &mut Pool,
    ) -> bool
        requires order { first ≤ end }
        requires within { end ≤ length self.old.layer.channels }
        requires few { length self.old.held ≤ most_held self.old.layer }
        requires holds { Holds pool.old self.old.held }
        ensures layer { self.new.layer ≡ (machine.serve (end - first) self.old.layer (first + 1)).layer }
        ensures said { result ≡ is_some (machine.serve (end - first) self.old.layer (first + 1)).packet }
        ensures octets { buf.new.items
            ≡ written_packet self.old.layer.flow (machine.serve (end - first) self.old.layer (first + 1)).packet buf.old.items }
        ensures reads_back { ReadsBack self.old.layer.flow (machine.serve (end - first) self.old.layer (first + 1)).packet buf.new.items }
        ensures pool { Balances pool.old self.old.held pool.new self.new.held }
        ensures most { most_held self.new.layer ≡ most_held self.old.layer }
        ensures few { length self.new.held ≤ most_held self.new.layer }
    {
        let mut places = self.to_serve.between(first, end);
        while let Some(place) = places.take_first() {
            if self.serve_channel(place, buf, pool) {
                return true;
            }
        }
        false
    }

    /// What one channel has. If nothing is left then, the channel need not be served again.
    #[tactic(auto, using(data_transfer::proofs::Windows::window_small))]
    fn serve_channel(&mut self, place: usize, buf: &mut PacketBuf, pool: &mut Pool) -> bool
        requires place { place < length self.old.layer.channels }
        requires holds { Holds pool.old self.old.held }
        ensures layer { self.new.layer ≡ (machine.serve 1 self.old.layer (place + 1)).layer }
        ensures said { result ≡ is_some (machine.serve 1 self.old.layer (place + 1)).packet }
        ensures octets { buf.new.items
            ≡ written_packet self.old.layer.flow (machine.serve 1 self.old.layer (place + 1)).packet buf.old.items }
        ensures reads_back { ReadsBack self.old.layer.flow (machine.serve 1 self.old.layer (place + 1)).packet buf.new.items }
        ensures pool { Balances pool.old self.old.held pool.new self.new.held }
        ensures most { most_held self.new.layer ≡ most_held self.old.layer }
        ensures few { length self.new.held ≤ most_held self.new.layer }
    {
        let flow = self.flow;
        let number = place as u8 + 1;
        let channel = &mut self.channels[place];
        if channel.next_packet(flow, number, buf, pool) {
            keep_if(&mut self.to_serve, place, channel.has_packet(flow));
            self.served_last = number;
            true
        } else {
            self.to_serve.remove(place);
            false
        }
    }
}

/// Keeps a number in a set, or takes it out.
pub(super) fn keep_if(numbers: &mut NumberSet, number: usize, is_kept: bool)
    requires { number < 64 }
    ensures { (n : ℕ) → has numbers.new n ≡ (if n == number then is_kept else has numbers.old n) }
{
    if is_kept {
        numbers.insert(number);
    } else {
        numbers.remove(number);
    }
}
