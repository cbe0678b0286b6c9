//! Packets from the link (X.25 5, tables C-1 to C-4).
ghost use Rattle.std.specs.Prelude.{◌≤◌, ◌+◌, ◌≡◌, [], length};
ghost use Rattle.flow_window.specs.Pool.{Holds, Balances};
ghost use Rattle.packet_layer.specs.Held.{HasRoom, most_held};
ghost use Rattle.packet_codec.specs.Packet.{IsContentOn};
ghost use Rattle.packet_codec.specs.Reading.{named_channel};
ghost use Rattle.packet_codec.specs.View.{content_view};
ghost use Rattle.packet_layer.specs.Layer as machine;
ghost use Rattle.packet_channel.specs.Channel.{received};
ghost use Rattle.data_transfer.specs.Octets.{body_of, unreadable_as};
ghost use Rattle.packet_layer.specs.Events.{on_octets, after_hearing};

use crate::layer::Layer;
use crate::layer::serving::keep_if;
use crate::restart::{Phase, RestartPacket};
use flow_window::pool::Pool;
use packet_channel::{Reason, error_cause};
use packet_codec::{
    Content, Packet, PacketFault, diagnostic, logical_channel, read_packet, restart_cause,
};

impl Layer {
    /// Takes the octets that the link brings as a packet (X.25 5).
    ///
    /// Fewer than three octets, octets of another format and packets of channels beyond the line's are ignored.
    /// Octets of another kind that are no packet count as a packet that the state of their channel does not allow.
    #[tactic(auto, using(crate::proofs::Placed::own_few, crate::proofs::Placed::few))]
    pub fn on_packet(&mut self, octets: &[u8], pool: &mut Pool)
        requires holds { Holds pool.old self.old.held }
        requires size { self.old.layer.flow.size ≤ pool.old.size }
        requires room { HasRoom pool.old self.old.held (most_held self.old.layer + 1) }
        ensures layer { self.new.layer ≡ on_octets self.old.layer octets.now }
        ensures pool { Balances pool.old self.old.held pool.new self.new.held }
        ensures most { most_held self.new.layer ≡ most_held self.old.layer }
        ensures few { length self.new.held ≤ most_held self.new.layer }
    {
        self.notes.clear();
        match read_packet(octets, self.flow.numbering, self.flow.size) {
            Ok(packet) => self.take_packet(&packet, pool),
            Err(PacketFault::TooShort | PacketFault::BadFormatId) => {}
            Err(PacketFault::UnknownType) => self.take_unreadable(octets, true, pool),
            Err(PacketFault::BadLength | PacketFault::BadAddress | PacketFault::DataTooLong) => {
                self.take_unreadable(octets, false, pool);
            }
        }
    }

    fn take_packet(&mut self, packet: &Packet<'_>, pool: &mut Pool)
        requires read { self.old.layer.notes ≡ [] }
        requires fits { IsContentOn self.old.layer.flow.numbering self.old.layer.flow.size packet.now.channel (content_view packet.now.content) }
        requires holds { Holds pool.old self.old.held }
        requires size { self.old.layer.flow.size ≤ pool.old.size }
        requires room { HasRoom pool.old self.old.held (most_held self.old.layer + 1) }
        ensures layer { self.new.layer ≡ machine.packet_in self.old.layer
            (record { channel = packet.now.channel; body = body_of (content_view packet.now.content) }) }
        ensures pool { Balances pool.old self.old.held pool.new self.new.held }
        ensures most { most_held self.new.layer ≡ most_held self.old.layer }
        ensures few { length self.new.held ≤ most_held self.new.layer }
    {
        if packet.channel == 0 {
            self.take_restart(packet, pool);
        } else {
            self.take_on_channel(packet, pool);
        }
    }

    #[tactic(auto, using(crate::proofs::Placed::own_few, crate::proofs::Placed::few))]
    fn take_restart(&mut self, packet: &Packet<'_>, pool: &mut Pool)
        requires read { self.old.layer.notes ≡ [] }
        requires holds { Holds pool.old self.old.held }
        ensures layer { self.new.layer ≡ machine.restart_packet self.old.layer.phase
            (body_of (content_view packet.now.content)) self.old.layer }
        ensures pool { Balances pool.old self.old.held pool.new self.new.held }
        ensures most { most_held self.new.layer ≡ most_held self.old.layer }
        ensures few { length self.new.held ≤ most_held self.new.layer }
    {
        match (self.phase, &packet.content) {
            (Phase::PacketReady, Content::RestartRequest { .. }) => {
                self.close_all(Reason::FarRestart, pool);
                self.served_last = 0;
                self.owe_restart(RestartPacket::Confirmation);
            }
            (Phase::PacketReady, Content::RestartConfirmation) => {
                self.close_all(Reason::LocalFault, pool);
                let cause = error_cause(self.role, restart_cause::LOCAL_PROCEDURE_ERROR);
                self.restart(cause, diagnostic::NOT_ALLOWED_IN_R1);
            }
            (Phase::OwnRestart, Content::RestartRequest { .. } | Content::RestartConfirmation) => {
                self.phase = Phase::PacketReady;
                self.served_last = 0;
            }
            _ => {}
        }
    }

    #[tactic(auto, using(crate::proofs::Placed::own_few, crate::proofs::Placed::few))]
    fn take_on_channel(&mut self, packet: &Packet<'_>, pool: &mut Pool)
        requires read { self.old.layer.notes ≡ [] }
        requires fits { IsContentOn self.old.layer.flow.numbering self.old.layer.flow.size packet.now.channel (content_view packet.now.content) }
        requires holds { Holds pool.old self.old.held }
        requires size { self.old.layer.flow.size ≤ pool.old.size }
        requires room { HasRoom pool.old self.old.held (most_held self.old.layer + 1) }
        ensures layer { self.new.layer ≡ machine.on_channel self.old.layer.phase self.old.layer packet.now.channel
            (λ ch. received self.old.layer.role self.old.layer.flow packet.now.channel ch
            (body_of (content_view packet.now.content))) }
        ensures pool { Balances pool.old self.old.held pool.new self.new.held }
        ensures most { most_held self.new.layer ≡ most_held self.old.layer }
        ensures few { length self.new.held ≤ most_held self.new.layer }
    {
        let Phase::PacketReady = self.phase else {
            return;
        };
        let Some(place) = self.place(packet.channel) else {
            return;
        };
        let end = self.end(place);
        let channel = &mut self.channels[place];
        let relink = channel.take_packet(end, packet, pool, &mut self.notes);
        keep_if(&mut self.to_serve, place, channel.has_packet(end.flow));
        self.relink_if(relink);
    }

    #[tactic(auto, using(crate::proofs::Placed::own_few, crate::proofs::Placed::few))]
    fn take_unreadable(&mut self, octets: &[u8], unknown: bool, pool: &mut Pool)
        requires read { self.old.layer.notes ≡ [] }
        requires holds { Holds pool.old self.old.held }
        ensures layer { self.new.layer
            ≡ after_hearing self.old.layer (unreadable_as unknown (named_channel octets.now)) }
        ensures pool { Balances pool.old self.old.held pool.new self.new.held }
        ensures most { most_held self.new.layer ≡ most_held self.old.layer }
        ensures few { length self.new.held ≤ most_held self.new.layer }
    {
        let Phase::PacketReady = self.phase else {
            return;
        };
        let Some(channel) = logical_channel(octets) else {
            return;
        };
        let Some(place) = self.place(channel) else {
            return;
        };
        let end = self.end(place);
        self.to_serve.insert(place);
        let channel = &mut self.channels[place];
        let relink = channel.take_unreadable(end, unknown, pool, &mut self.notes);
        self.relink_if(relink);
    }
}
