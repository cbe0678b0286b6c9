//! How far the nodes and lines of a network are, as this process knows.
use crate::serving::Running;
use remote_lines::LineState as RemoteState;
use status_texts::{LineState, NodeState};

/// How far the node of this number is.
pub(crate) fn node_state(service: &Running, node: usize) -> NodeState {
    if service.net().runs(node) {
        NodeState::Up
    } else if service.net().owns(node) {
        NodeState::Starting
    } else {
        NodeState::Elsewhere
    }
}

/// How far the line of this number is, which has these nodes at its ends.
pub(crate) fn line_state(service: &Running, number: usize, dte: usize, dce: usize) -> LineState {
    match remote_state(service, number) {
        Some(RemoteState::Open) => LineState::Up,
        Some(_) => LineState::Down,
        None if service.net().runs(dte) && service.net().runs(dce) => LineState::Up,
        None if service.net().owns(dte) || service.net().owns(dce) => LineState::Down,
        None => LineState::Elsewhere,
    }
}

/// How far the line of this number is, if its other end is in another process.
fn remote_state(service: &Running, number: usize) -> Option<RemoteState> {
    for place in 0..service.net().remote_lines() {
        if let Some((end, state)) = service.net().remote_line(place)
            && end.line == number
        {
            return Some(state);
        }
    }
    None
}
