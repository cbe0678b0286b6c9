//! What holds of the relay of a switch, whatever its partners send.
#![tactic(auto)]

mod relay;

pub use relay::{
    concern_law, isolation_law, join_law, pair_law, relay_law, sent_law, switch_events_law,
    switch_law, turn_law,
};
