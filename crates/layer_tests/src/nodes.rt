//! The faults of nodes by their words.
use packet_layer::{CallFault, ChannelFault};
use std::alloc::Global;
use user_nodes::NodeFault;

fn has_words(alloc: Global, fault: NodeFault, words: &str) -> bool {
    match format!(in alloc; "{fault}") {
        Ok(text) => text.as_str() == words,
        Err(_) => false,
    }
}

#[test]
fn a_fault_has_the_words_of_its_cause(rt: HostRuntime) {
    let full = NodeFault::from(ChannelFault::QueueFull);
    assert!(rt; has_words(rt.alloc(), full, "send queue full"));
    let narrow = NodeFault::from(CallFault::NoChannel);
    assert!(rt; has_words(rt.alloc(), narrow, "no free channel"));
}
