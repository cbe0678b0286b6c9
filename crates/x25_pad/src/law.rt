//! The law of the blocks that a PAD sends.
ghost use Rattle.x25_pad.specs.BlocksTaken.{KeyBlocksAreTaken, IdleBlocksAreTaken};

/// The editor and the packet layer of a PAD stay in step. If a key or an idle time ends a block that fits into a packet
/// of the line, the send queue of the call takes it. The law is the contract of this function, which does nothing.
pub fn block_law()
    ensures keys { KeyBlocksAreTaken }
    ensures idle_times { IdleBlocksAreTaken }
{}
