//! How a network without records is made.
ghost use Rattle.std.specs.Prelude.{◌≡◌, true, false, Err, IsOkUnless, IfOk, vec_len};
ghost use Rattle.net_config.specs.declared.fault.MakeFault.TheVariants as make_fault_is;
ghost use Rattle.net_config.specs.Served.{is_served};
ghost use Rattle.node_events.specs.AnswerRoom.{IsRoomy};
ghost use Rattle.live_net.specs.Making.{IsMadeBare};

use frame_lines::Line;
use line_sim::Net;
use net_config::{Config, MakeFault};
use net_events::{Answer, Outcome, Puts};
use net_nodes::Nodes;
use node_events::MOST_PUTS;
use std::alloc::{AllocError, Global};
use user_nodes::MOST_NOTES;
use x25_pad::MOST_TEXT;

/// The nodes and lines of a network as it is made, without its records.
pub(crate) fn bare_nodes<L: Line>(
    alloc: Global,
    config: &Config,
    lines: Vec<L>,
) -> Result<Nodes<L>, MakeFault>
    requires { vec_len lines ≡ vec_len config.now.lines }
    ensures bad { is_served config.now ≡ false → result ≡ Err make_fault_is.BadConfig }
    ensures served { is_served config.now ≡ true → IsOkUnless result make_fault_is.OutOfMemory }
    ensures ok { IfOk result (IsMadeBare L.service config.now) }
{
    let mut nodes = Net::new(alloc, config, lines)?.into_nodes();
    nodes.forget();
    Ok(nodes)
}

/// An answer without frames, notes and text, with room for those of any event.
pub(crate) fn roomy_answer(alloc: Global) -> Result<Answer, AllocError>
    ensures { IfOk result IsRoomy }
{
    let mut frames = Puts::new(alloc);
    frames.reserve(MOST_PUTS)?;
    Ok(Answer {
        frames,
        notes: Vec::with_capacity(alloc, MOST_NOTES)?,
        text: Vec::with_capacity(alloc, MOST_TEXT)?,
        outcome: Outcome::Done,
    })
}
