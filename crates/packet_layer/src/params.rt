//! How a packet layer is to be made.
ghost use Rattle.std.specs.Prelude.{◌≡◌, MatchResult};
ghost use Rattle.packet_layer.specs.Params.{AreParams};
ghost use Rattle.packet_layer.specs.declared.fault.LayerFault.TheVariants as make_fault;

use crate::fault::LayerFault;
use data_transfer::Flow;
use packet_channel::MOST_CHANNELS;

/// How the packet layer of a line is to be made.
#[derive(Clone, Copy, PartialEq, Eq)]
pub struct LayerParams {
    /// How many logical channels the line has, from 1 to 32: they are numbered from 1.
    pub channels: u8,
    /// The window, the numbering and the packet size (X.25 4.4.1).
    pub flow: Flow,
    /// Whether the line is standing: from the start the restart procedure is done, and channel 1 has a call in data
    /// transfer.
    pub standing: bool,
}

impl LayerParams {
    /// `BadParams` comes if the channels are not 1 to 32 or the flow control parameters none that a line may have.
    pub fn check(&self) -> Result<(), LayerFault>
        ensures { MatchResult result
            (λ _. AreParams self.now.channels self.now.flow)
            (λ fault. (fault ≡ make_fault.BadParams) × (AreParams self.now.channels self.now.flow → ⊥)) }
    {
        if self.channels < 1 || self.channels > MOST_CHANNELS || !self.flow.is_allowed() {
            return Err(LayerFault::BadParams);
        }
        Ok(())
    }
}
