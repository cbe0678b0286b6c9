//! What connections make of what their channels bring, over definitions alone.
ghost use Rattle.xot_gateway.specs.Laws.{CarryLaw, ChannelLaw};

/// The law of calls over TCP, over all that is done at a connection from when it began. What is written to it came in on
/// the channel of its call, in order and each packet once at most; nothing else is but the gateway's own Clears and their
/// confirmations. A packet of the line comes to no connection whose call has another channel.
pub fn xot_calls_law()
    ensures carried { CarryLaw }
    ensures own { ChannelLaw }
{}
