//! Which timers of the packet layer run after an event (X.25 annex D).
ghost use Rattle.std.specs.Prelude.{◌≡◌};
ghost use Rattle.packet_layer.specs.LayerTimers.{brought, TimersAgree};
ghost use Rattle.packet_end.specs.Touched.{OthersAgree};

use crate::touched::Touched;
use packet_layer::{Layer, LayerTimers, MOST_CHANNELS};

/// Starts the timers that are to run and do not, and stops those that are not to run: only timers of the channels that
/// are touched.
#[tactic(auto, using(crate::proofs::Untouched::one_agrees))]
pub(crate) fn bring_into_line(timers: &mut LayerTimers, layer: &Layer, touched: Touched)
    requires { OthersAgree layer.now.layer timers.old touched }
    ensures timers { timers.new ≡ brought layer.now.layer timers.old }
    ensures agree { TimersAgree layer.now.layer timers.new }
{
    match touched {
        Touched::Nothing | Touched::NoTimer => {}
        Touched::Channel(channel) if 1 <= channel && channel <= MOST_CHANNELS => {
            timers.bring_channel(layer, channel);
        }
        _ => timers.bring_all(layer),
    }
}
