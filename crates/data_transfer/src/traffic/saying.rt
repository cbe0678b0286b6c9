//! What goes to the link in data transfer: the interrupt confirmation, the interrupt, data within the window, RR or RNR
//! if the partner does not know the present P(R) or whether this end is stopped (X.25 4.3, 4.4).
ghost use Rattle.std.specs.Bool.{OnTrue, OnFalse};
ghost use Rattle.std.specs.Prelude.{◌≡◌, ℕ, ◌<◌, ◌≤◌, ◌+◌, true, false, length, Some, None, is_some};
ghost use Rattle.flow_window.specs.Pool.{Holds, Balances};
ghost use Rattle.data_transfer.specs.Held.{are_short};
ghost use Rattle.data_transfer.specs.Traffic as machine;
ghost use Rattle.data_transfer.specs.Octets.{written, ReadsAs};
ghost use Rattle.data_transfer.specs.Packets.Body.{InterruptConfirmation};
ghost use Rattle.data_transfer.specs.Unsent.{HasSaidAll};

use crate::flow::Flow;
use crate::traffic::Traffic;
use crate::traffic::numbers::shown;
use flow_window::pool::Pool;
use packet_codec::{Content, DataPacket, Packet, PacketBuf, write_packet};

impl Traffic {
    /// Writes the next packet, if there is one, with a window of at most 32. If there is none, nothing that may go stays
    /// unsent.
    pub fn next_packet(
        &mut self,
        flow: Flow,
        channel: u8,
        buf: &mut PacketBuf,
        pool: &mut Pool,
    ) -> bool
        requires window { flow.window ≤ 32 }
        requires channel { 0 < channel }
        requires holds { Holds pool.old self.old.held }
        ensures traffic { self.new.traffic ≡ (machine.says flow self.old.traffic).traffic }
        ensures said { result ≡ is_some (machine.says flow self.old.traffic).body }
        ensures octets { buf.new.items ≡ written flow channel (machine.says flow self.old.traffic).body buf.old.items }
        ensures reads_back { are_short flow.size self.old.traffic.waiting ≡ true
            → ReadsAs flow channel (machine.says flow self.old.traffic).body buf.new.items }
        ensures pool { Balances pool.old self.old.held pool.new self.new.held }
        ensures most { length self.new.held ≤ 8 + length self.new.traffic.arrived }
        ensures arrived { self.new.traffic.arrived ≡ self.old.traffic.arrived }
        ensures short { (size : ℕ) → are_short size self.old.traffic.waiting ≡ true
            → are_short size self.new.traffic.waiting ≡ true }
        ensures same { OnFalse result (self.new ≡ self.old) }
        ensures unsent { OnFalse result (HasSaidAll flow self.new.traffic) }
    {
        if self.say_confirmation(flow, channel, buf) {
            return true;
        }
        if self.say_interrupt(flow, channel, buf) {
            return true;
        }
        if self.say_data(flow, channel, buf, pool) {
            return true;
        }
        self.say_flow(flow, channel, buf)
    }

    /// Whether `next_packet` has a packet.
    pub fn has_packet(&self, flow: Flow) -> bool
        ensures { result ≡ is_some (machine.says flow self.now.traffic).body }
    {
        self.confirmation_due
            || self.interrupt_waiting.is_some()
            || (self.window_is_open(flow) && !self.waiting.is_empty())
            || !self.flow_is_told()
    }

    /// Whether the window has room for a Data packet, and the partner is ready.
    fn window_is_open(&self, flow: Flow) -> bool
        ensures { result ≡ machine.window_open flow self.now.traffic }
    {
        self.send.unacknowledged() < flow.window && !self.partner_busy
    }

    /// Whether the partner knows the present P(R) and whether this end is stopped.
    pub(super) fn flow_is_told(&self) -> bool
        ensures { result ≡ machine.flow_told self.now.traffic }
    {
        !self.untold && self.told_stopped == self.stopped
    }

    /// Writes the interrupt confirmation, if it is owed.
    fn say_confirmation(&mut self, flow: Flow, channel: u8, buf: &mut PacketBuf) -> bool
        requires { 0 < channel }
        ensures due { result ≡ self.old.traffic.confirmation_due }
        ensures traffic { OnTrue result (self.new ≡ record self.old {
          traffic = record self.old.traffic { confirmation_due = false };
        }) }
        ensures octets { OnTrue result (buf.new.items ≡ written flow channel (Some InterruptConfirmation) buf.old.items) }
        ensures reads_back { OnTrue result (ReadsAs flow channel (Some InterruptConfirmation) buf.new.items) }
        ensures most { length self.new.held ≤ 8 + length self.new.traffic.arrived }
        ensures same { OnFalse result ((self.new ≡ self.old) × (buf.new ≡ buf.old)) }
    {
        if !self.confirmation_due {
            return false;
        }
        let packet = Packet {
            numbering: flow.numbering,
            channel: u16::from(channel),
            content: Content::InterruptConfirmation,
        };
        write_packet(&packet, buf);
        self.confirmation_due = false;
        true
    }

    /// Writes the interrupt, if one waits.
    fn say_interrupt(&mut self, flow: Flow, channel: u8, buf: &mut PacketBuf) -> bool
        requires { 0 < channel }
        ensures waits { result ≡ is_some self.old.traffic.interrupt_waiting }
        ensures traffic { OnTrue result (self.new ≡ record self.old {
          traffic = (machine.says_interrupt flow self.old.traffic.interrupt_waiting self.old.traffic).traffic;
        }) }
        ensures octets { OnTrue result (buf.new.items
            ≡ written flow channel (machine.says_interrupt flow self.old.traffic.interrupt_waiting self.old.traffic).body
            buf.old.items) }
        ensures reads_back { OnTrue result (ReadsAs flow channel
            (machine.says_interrupt flow self.old.traffic.interrupt_waiting self.old.traffic).body buf.new.items) }
        ensures most { length self.new.held ≤ 8 + length self.new.traffic.arrived }
        ensures same { OnFalse result ((self.new ≡ self.old) × (buf.new ≡ buf.old)) }
    {
        let Some(interrupt) = &self.interrupt_waiting else {
            return false;
        };
        let packet = Packet {
            numbering: flow.numbering,
            channel: u16::from(channel),
            content: Content::Interrupt(interrupt.octets()),
        };
        write_packet(&packet, buf);
        self.interrupt_waiting = None;
        self.interrupt_unconfirmed = true;
        true
    }

    /// Writes the Data packet that waits first, if one waits and may go.
    #[tactic(auto, using(crate::proofs::Short::short_rest, crate::proofs::Short::short_first))]
    fn say_data(&mut self, flow: Flow, channel: u8, buf: &mut PacketBuf, pool: &mut Pool) -> bool
        requires window { flow.window ≤ 32 }
        requires channel { 0 < channel }
        requires holds { Holds pool.old self.old.held }
        ensures none { OnFalse result (machine.says_data flow self.old.traffic.waiting self.old.traffic
            ≡ machine.says_flow flow self.old.traffic) }
        ensures said { OnTrue result
            (is_some (machine.says_data flow self.old.traffic.waiting self.old.traffic).body ≡ true) }
        ensures traffic { OnTrue result (self.new.traffic
            ≡ (machine.says_data flow self.old.traffic.waiting self.old.traffic).traffic) }
        ensures octets { OnTrue result (buf.new.items
            ≡ written flow channel (machine.says_data flow self.old.traffic.waiting self.old.traffic).body buf.old.items) }
        ensures reads_back { are_short flow.size self.old.traffic.waiting ≡ true → OnTrue result
            (ReadsAs flow channel (machine.says_data flow self.old.traffic.waiting self.old.traffic).body buf.new.items) }
        ensures pool { Balances pool.old self.old.held pool.new self.new.held }
        ensures most { length self.new.held ≤ 8 + length self.new.traffic.arrived }
        ensures arrived { self.new.traffic.arrived ≡ self.old.traffic.arrived }
        ensures short { (size : ℕ) → are_short size self.old.traffic.waiting ≡ true
            → are_short size self.new.traffic.waiting ≡ true }
        ensures same { OnFalse result ((self.new ≡ self.old) × (buf.new ≡ buf.old)) }
    {
        if !self.window_is_open(flow) {
            return false;
        }
        let Some(data) = self.waiting.front() else {
            return false;
        };
        let packet = DataPacket {
            qualified: data.qualified(),
            delivery: data.delivery(),
            more: data.more(),
            send: shown(flow.numbering, self.send.next_number()),
            receive: shown(flow.numbering, self.released.number()),
            user_data: pool.octets(data.buffer()),
        };
        let packet = Packet {
            numbering: flow.numbering,
            channel: u16::from(channel),
            content: Content::Data(packet),
        };
        write_packet(&packet, buf);
        let _ = self.send.take_number();
        self.waiting.drop_front(pool);
        self.untold = false;
        true
    }

    /// Writes RR, or RNR where this end is stopped, if the partner has to be told.
    fn say_flow(&mut self, flow: Flow, channel: u8, buf: &mut PacketBuf) -> bool
        requires { 0 < channel }
        ensures traffic { self.new ≡ record self.old { traffic = (machine.says_flow flow self.old.traffic).traffic } }
        ensures said { result ≡ is_some (machine.says_flow flow self.old.traffic).body }
        ensures octets { buf.new.items ≡ written flow channel (machine.says_flow flow self.old.traffic).body buf.old.items }
        ensures reads_back { ReadsAs flow channel (machine.says_flow flow self.old.traffic).body buf.new.items }
        ensures same { OnFalse result (self.new ≡ self.old) }
    {
        if self.flow_is_told() {
            return false;
        }
        let receive = shown(flow.numbering, self.released.number());
        let content = if self.stopped {
            Content::ReceiveNotReady(receive)
        } else {
            Content::ReceiveReady(receive)
        };
        let packet = Packet {
            numbering: flow.numbering,
            channel: u16::from(channel),
            content,
        };
        write_packet(&packet, buf);
        self.untold = false;
        self.told_stopped = self.stopped;
        true
    }
}
