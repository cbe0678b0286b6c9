//! All calls of a line close (X.25 3.3, 4.6).
ghost use Rattle.std.specs.Prelude.{◌≡◌, ◌≤◌, [], map, length};
ghost use Rattle.flow_window.specs.Pool.{Holds, Balances};
ghost use Rattle.packet_layer.specs.Held.{plain, buffers};
ghost use Rattle.packet_channel.specs.Channel.{closed_channel};
ghost use Rattle.packet_layer.specs.Layer.{closing_notes};
ghost use Rattle.packet_channel.specs.NoteView.{reason_of};

use flow_window::pool::Pool;
use packet_channel::{Channel, LayerNote, Notes, Reason};
use packet_codec::{clear_cause, diagnostic};

/// Closes all channels, and notes each call that there was, in rising order of channels.
pub(crate) fn close_channels(
    channels: &mut [Channel],
    notes: &mut Notes,
    reason: Reason,
    pool: &mut Pool,
)
    requires many { length channels.old ≤ 32 }
    requires read { notes.old ≡ [] }
    requires holds { Holds pool.old (buffers channels.old) }
    ensures channels { channels.new ≡ map (λ ch. record { channel = closed_channel; held = [] }) channels.old }
    ensures pool { Balances pool.old (buffers channels.old) pool.new [] }
    ensures notes { notes.new ≡ closing_notes 1 (reason_of reason) (plain channels.old) }
    ensures most { length notes.new ≤ length channels.old }
{
    for place in 0..channels.len() {
        let channel = &mut channels[place];
        if channel.state().has_call() {
            notes.add(LayerNote::Closed {
                channel: place as u8 + 1,
                cause: clear_cause::OUT_OF_ORDER,
                diagnostic: diagnostic::NO_INFORMATION,
                reason,
            });
        }
        channel.close(pool);
    }
}
