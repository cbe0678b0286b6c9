//! The restart procedure and its packets.
ghost use Rattle.std.specs.Prelude.{◌≡◌, Some};
ghost use Rattle.data_transfer.specs.Octets.{written, ReadsAs};
ghost use Rattle.packet_layer.specs.RestartView.{restart_body};

use data_transfer::Flow;
use packet_codec::{Content, Packet, PacketBuf, write_packet};

/// Where the restart procedure stands (X.25 table C-1).
#[derive(Clone, Copy)]
pub(crate) enum Phase {
    /// The link has no session.
    NoSession,
    /// r2 of a DTE, r3 of a DCE.
    OwnRestart,
    /// r1.
    PacketReady,
}

/// A packet of the restart procedure (X.25 5.5).
#[derive(Clone, Copy)]
pub(crate) enum RestartPacket {
    Restart { cause: u8, diagnostic: u8 },
    Confirmation,
}

impl Default for RestartPacket {
    fn default() -> Self {
        RestartPacket::Confirmation
    }
}

/// Writes a restart packet.
pub(crate) fn write_restart(flow: Flow, packet: RestartPacket, buf: &mut PacketBuf)
    ensures octets { buf.new.items ≡ written flow 0 (Some (restart_body packet)) buf.old.items }
    ensures reads_back { ReadsAs flow 0 (Some (restart_body packet)) buf.new.items }
{
    let content = match packet {
        RestartPacket::Restart { cause, diagnostic } => Content::RestartRequest {
            cause,
            diagnostic,
        },
        RestartPacket::Confirmation => Content::RestartConfirmation,
    };
    let packet = Packet {
        numbering: flow.numbering,
        channel: 0,
        content,
    };
    write_packet(&packet, buf);
}
