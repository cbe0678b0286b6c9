//! The parameters of an end of a line.
ghost use Rattle.std.specs.Prelude.{◌≡◌, ◌≤◌, MatchResult};
ghost use Rattle.packet_end.specs.Params.{AreParams, info_of, link_params};
ghost use Rattle.packet_end.specs.Pooled.{share_with};
ghost use Rattle.packet_end.specs.declared.fault.EndFault.TheVariants as fault_is;

use crate::fault::EndFault;
use lapb::LinkParams;
use packet_layer::{Flow, LayerParams, SEND_QUEUE};

/// The octets of the longest Call Request: a header, addresses of 15 digits, 109 octets of facilities and 16 of user
/// data.
const CALL_REQUEST: u16 = 145;

/// The octets in front of the user data of a Data packet modulo 128, which are 3 modulo 8.
const MOST_HEADER: u16 = 4;

/// How one end of a line is to be made.
#[derive(Clone, Copy, PartialEq, Eq)]
pub struct EndParams {
    /// How many packets the link may have unacknowledged, from 1 to 7 (X.25 2.4.8.6, parameter k).
    pub k: u8,
    /// How many polls the link sends without an answer, from 1 to 20 (X.25 2.4.8.4, parameter N2).
    pub n2: u8,
    /// How many logical channels the line has, from 1 to 32: they are numbered from 1.
    pub channels: u8,
    /// The window, the numbering and the packet size (X.25 4.4.1).
    pub flow: Flow,
    /// Whether the line is standing: from the start its link is up, and channel 1 has a call in data transfer.
    pub standing: bool,
}

impl EndParams {
    /// `BadConfig` comes if a parameter is out of its range.
    pub fn check(&self) -> Result<(), EndFault>
        ensures { MatchResult result
            (λ _. AreParams self.now)
            (λ fault. (fault ≡ fault_is.BadConfig) × (AreParams self.now → ⊥)) }
    {
        self.layer().check()?;
        self.link().check()?;
        Ok(())
    }

    /// The most octets of information of an I frame on the line, which are those of a packet: 145 of a Call Request, or
    /// the packet size and 4 of a Data packet.
    pub fn info(&self) -> u16
        requires { self.now.flow.size ≤ 1024 }
        ensures { result ≡ info_of self.now.flow }
    {
        (self.flow.size + MOST_HEADER).max(CALL_REQUEST)
    }

    /// How the link is to be made.
    pub(crate) fn link(&self) -> LinkParams
        requires { self.now.flow.size ≤ 1024 }
        ensures { result ≡ link_params self.now }
    {
        LinkParams {
            k: self.k,
            n2: self.n2,
            info: self.info(),
            standing: self.standing,
        }
    }

    /// How the packet layer is to be made.
    pub(crate) fn layer(&self) -> LayerParams
        ensures { result ≡ record {
          channels = self.now.channels;
          flow = self.now.flow;
          standing = self.now.standing;
        } }
    {
        LayerParams {
            channels: self.channels,
            flow: self.flow,
            standing: self.standing,
        }
    }

    /// How many buffers the end needs of a pool: for the packets that the link may have unacknowledged, for both queues
    /// of each channel, and one for the packet that goes from one to the other.
    pub fn buffers(&self) -> usize
        ensures { result ≡ share_with self.now }
    {
        let of_channel = usize::from(self.flow.window) + SEND_QUEUE;
        usize::from(self.k) + usize::from(self.channels) * of_channel + 1
    }
}
