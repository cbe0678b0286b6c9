//! A packet layer with a pool of its own.
use flow_window::pool::Pool;
use link_timers::Role;
use packet_codec::{MAX_USER_DATA, PacketBuf};
use packet_layer::{ChannelFault, Layer, LayerFault, LayerParams, SEND_QUEUE, Taken};
use std::alloc::Global;
use std::marker::Model;

#[derive(Drop)]
pub(crate) struct Station {
    layer: Layer,
    pool: Pool,
}

impl Model for Station {
    ghost use Rattle.packet_layer.specs.Layer as machine;

    ghost Value = { machine.Layer };

    ghost use Rattle.layer_tests.specs.Packets.Station.{layer_of, IsStation};

    ghost view = { layer_of };

    ghost invariant = { IsStation };
}

impl Station {
    pub(crate) fn new(alloc: Global, role: Role, params: LayerParams) -> Result<Self, LayerFault> {
        let layer = Layer::new(alloc, role, params)?;
        let LayerParams { channels, flow, .. } = params;
        let buffers = usize::from(channels) * (usize::from(flow.window) + SEND_QUEUE) + 1;
        let pool = Pool::new(alloc, buffers, MAX_USER_DATA)?;
        Ok(Station { layer, pool })
    }

    pub(crate) fn layer(&self) -> &Layer {
        &self.layer
    }

    #[tactic(auto, using(packet_layer::proofs::Flows::flow_on_octets))]
    pub(crate) fn on_packet(&mut self, octets: &[u8]) {
        self.layer.on_packet(octets, &mut self.pool);
    }

    #[tactic(auto, using(packet_layer::proofs::Flows::flow_next))]
    pub(crate) fn next_packet(&mut self, buf: &mut PacketBuf) -> bool {
        self.layer.next_packet(buf, &mut self.pool)
    }

    pub(crate) fn accept(&mut self, channel: u8) -> Result<(), ChannelFault> {
        self.layer.accept(channel)
    }

    #[tactic(auto, using(packet_layer::proofs::Flows::flow_request))]
    pub(crate) fn clear(&mut self, channel: u8) -> Result<(), ChannelFault> {
        self.layer.clear(channel, 0, 0, &mut self.pool)
    }

    #[tactic(auto, using(packet_layer::proofs::Flows::flow_request))]
    pub(crate) fn reset(&mut self, channel: u8) -> Result<(), ChannelFault> {
        self.layer.reset(channel, 0, 0, &mut self.pool)
    }

    #[tactic(auto, using(packet_layer::proofs::Flows::flow_request))]
    pub(crate) fn send(
        &mut self,
        channel: u8,
        octets: &[u8],
        delivery: bool,
    ) -> Result<(), ChannelFault> {
        self.layer
            .send(channel, octets, false, false, delivery, &mut self.pool)
    }

    pub(crate) fn interrupt(&mut self, channel: u8, octets: &[u8]) -> Result<(), ChannelFault> {
        self.layer.interrupt(channel, octets)
    }

    pub(crate) fn stop(&mut self, channel: u8) -> Result<(), ChannelFault> {
        self.layer.stop(channel)
    }

    pub(crate) fn go(&mut self, channel: u8) -> Result<(), ChannelFault> {
        self.layer.go(channel)
    }

    pub(crate) fn release(&mut self, channel: u8, count: u8) {
        self.layer.release(channel, count);
    }

    pub(crate) fn confirm_interrupt(&mut self, channel: u8) {
        self.layer.confirm_interrupt(channel);
    }

    #[tactic(auto, using(packet_layer::proofs::Flows::flow_request))]
    pub(crate) fn take(&mut self, channel: u8) -> Option<Taken> {
        self.layer.take(channel, &mut self.pool)
    }
}
