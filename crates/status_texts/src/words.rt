//! What kinds and states are called.
ghost use Rattle.std.specs.Prelude.{◌≡◌};
ghost use Rattle.status_texts.specs.Words.{kind_word, node_state_word, line_state_word};

use crate::status::{LineState, NodeKind, NodeState};

/// The kind of a node as a word.
pub fn kind_word(kind: NodeKind) -> &'static str
    ensures { result.now ≡ kind_word kind }
{
    match kind {
        NodeKind::Pad => "pad",
        NodeKind::Host => "host",
        NodeKind::Switch => "switch",
    }
}

/// The state of a node as a word.
pub fn node_state_word(state: NodeState) -> &'static str
    ensures { result.now ≡ node_state_word state }
{
    match state {
        NodeState::Up => "up",
        NodeState::Starting => "starting",
        NodeState::Elsewhere => "elsewhere",
    }
}

/// The state of a line as a word.
pub fn line_state_word(state: LineState) -> &'static str
    ensures { result.now ≡ line_state_word state }
{
    match state {
        LineState::Up => "up",
        LineState::Down => "down",
        LineState::Elsewhere => "elsewhere",
    }
}
