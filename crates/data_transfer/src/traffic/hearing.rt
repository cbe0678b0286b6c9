//! What comes from the link in data transfer (X.25 4.3, 4.4).
ghost use Rattle.std.specs.Prelude.{◌≡◌, ◌<◌, ◌≤◌, ◌+◌, true, length};
ghost use Rattle.flow_window.specs.Pool.{Balances, in_use};
ghost use Rattle.packet_codec.specs.Packet.{IsDataValue, modulus};
ghost use Rattle.packet_codec.specs.View.{data_view};
ghost use Rattle.data_transfer.specs.Held.{are_short};
ghost use Rattle.data_transfer.specs.Packets.{Body as body};
ghost use Rattle.data_transfer.specs.Traffic as machine;
ghost use Rattle.data_transfer.specs.Octets.{datum_of};
ghost use Rattle.data_transfer.specs.HeardView.{heard_of};

use crate::flow::Flow;
use crate::heard::Heard;
use crate::kept::KeptPacket;
use crate::traffic::Traffic;
use crate::traffic::numbers::shown;
use crate::user_data::InterruptData;
use flow_window::pool::Pool;
use packet_codec::{DataPacket, Numbering, diagnostic};

impl Traffic {
    /// Takes a Data packet, with a window of at most 32. One in order is kept in a buffer.
    #[tactic(auto, using(flow_window::proofs::Weights::weight_append, crate::proofs::Short::short_append))]
    pub fn hear_data(&mut self, flow: Flow, packet: &DataPacket<'_>, pool: &mut Pool) -> Heard
        requires window { flow.window ≤ 32 }
        requires most { flow.size ≤ 1024 }
        requires fits { IsDataValue flow.numbering flow.size (data_view packet.now) }
        requires size { flow.size ≤ pool.old.size }
        requires room { in_use pool.old < length pool.old.places }
        ensures heard { heard_of result self.new.traffic ≡ machine.hears flow self.old.traffic
            (body.Data packet.now.send packet.now.receive (datum_of (data_view packet.now))) }
        ensures pool { Balances pool.old self.old.held pool.new self.new.held }
        ensures most { length self.new.held ≤ 8 + length self.new.traffic.arrived }
        ensures arrived { length self.old.traffic.arrived ≤ flow.window → length self.new.traffic.arrived ≤ flow.window }
        ensures short { are_short flow.size self.old.traffic.arrived ≡ true
            → are_short flow.size self.new.traffic.arrived ≡ true }
        ensures waiting { self.new.traffic.waiting ≡ self.old.traffic.waiting }
    {
        let expected = shown(flow.numbering, self.expected.number());
        let unreleased = self.expected.ahead_of(&self.released);
        if packet.send != expected || unreleased >= flow.window {
            return Heard::Wrong(diagnostic::INVALID_SEND_NUMBER);
        }
        let Some(newly) = self.cover(flow.numbering, packet.receive) else {
            return Heard::Wrong(diagnostic::INVALID_RECEIVE_NUMBER);
        };
        self.expected = self.expected.next();
        let buffer = pool.place(packet.user_data);
        self.arrived.push(KeptPacket::new(buffer, packet.more, packet.qualified, packet.delivery));
        Heard::Keeps(newly)
    }

    /// Takes RR, or RNR if the partner is busy.
    pub fn hear_ready(&mut self, flow: Flow, receive: u8, busy: bool) -> Heard
        requires { receive < modulus flow.numbering }
        ensures heard { heard_of result self.new.traffic
            ≡ machine.keeps (λ u. machine.partner_says busy u) (machine.covers flow receive self.old.traffic) }
        ensures held { self.new.held ≡ self.old.held }
        ensures arrived { self.new.traffic.arrived ≡ self.old.traffic.arrived }
        ensures waiting { self.new.traffic.waiting ≡ self.old.traffic.waiting }
    {
        let Some(newly) = self.cover(flow.numbering, receive) else {
            return Heard::Wrong(diagnostic::INVALID_RECEIVE_NUMBER);
        };
        self.partner_busy = busy;
        Heard::Keeps(newly)
    }

    /// Takes an interrupt.
    pub fn hear_interrupt(&mut self, octets: &[u8]) -> Heard
        requires least { 1 ≤ length octets.now }
        requires most { length octets.now ≤ 32 }
        ensures heard { heard_of result self.new.traffic
            ≡ machine.hears_interrupt octets.now self.old.traffic }
        ensures held { self.new.held ≡ self.old.held }
        ensures arrived { self.new.traffic.arrived ≡ self.old.traffic.arrived }
        ensures waiting { self.new.traffic.waiting ≡ self.old.traffic.waiting }
    {
        if self.interrupt_arrived.is_some() || self.interrupt_taken || self.confirmation_due {
            return Heard::Wrong(diagnostic::NO_INFORMATION);
        }
        self.interrupt_arrived = Some(InterruptData::new(octets));
        Heard::Keeps(0)
    }

    /// Takes the confirmation of an interrupt.
    pub fn hear_interrupt_confirmation(&mut self) -> Heard
        ensures heard { heard_of result self.new.traffic
            ≡ machine.hears_confirmation self.old.traffic }
        ensures held { self.new.held ≡ self.old.held }
        ensures arrived { self.new.traffic.arrived ≡ self.old.traffic.arrived }
        ensures waiting { self.new.traffic.waiting ≡ self.old.traffic.waiting }
    {
        if !self.interrupt_unconfirmed {
            return Heard::Wrong(diagnostic::NO_INFORMATION);
        }
        self.interrupt_unconfirmed = false;
        Heard::Confirms
    }
}
