//! Control packets of a channel.
ghost use Rattle.std.specs.Prelude.{◌≡◌, ◌<◌, Some};
ghost use Rattle.data_transfer.specs.Octets.{written, ReadsAs};
ghost use Rattle.packet_channel.specs.ControlView.{control_body};

use data_transfer::Flow;
use packet_codec::{CallBuf, Content, Packet, PacketBuf, write_packet};

/// A packet of call set-up, clearing or reset (X.25 5.2, 5.4.3).
#[derive(Drop)]
pub(crate) enum Control {
    Call(CallBuf),
    Accepted,
    Clear { cause: u8, diagnostic: u8 },
    ClearConfirmation,
    Reset { cause: u8, diagnostic: u8 },
    ResetConfirmation,
}

impl Default for Control {
    fn default() -> Self {
        Control::Accepted
    }
}

/// Writes the packet of a channel.
pub(crate) fn write_control(flow: Flow, channel: u8, control: &Control, buf: &mut PacketBuf)
    requires { 0 < channel }
    ensures octets { buf.new.items ≡ written flow channel (Some (control_body control.now)) buf.old.items }
    ensures reads_back { ReadsAs flow channel (Some (control_body control.now)) buf.new.items }
{
    let content = match control {
        Control::Call(call) => Content::CallRequest(call.data()),
        Control::Accepted => Content::CallAccepted,
        Control::Clear { cause, diagnostic } => Content::ClearRequest {
            cause: *cause,
            diagnostic: *diagnostic,
        },
        Control::ClearConfirmation => Content::ClearConfirmation,
        Control::Reset { cause, diagnostic } => Content::ResetRequest {
            cause: *cause,
            diagnostic: *diagnostic,
        },
        Control::ResetConfirmation => Content::ResetConfirmation,
    };
    let packet = Packet {
        numbering: flow.numbering,
        channel: u16::from(channel),
        content,
    };
    write_packet(&packet, buf);
}
