//! What becomes of the packets that a gateway has for its line, over definitions alone.
ghost use Rattle.gateway_end.specs.Laws.{PassLaw};

/// The law of the line of a gateway, over any list of calls. What the link took and what waits are the packets that the
/// calls gave, in order and each once, but for those that waited while a session of the link began or ended.
pub fn gateway_law()
    ensures { PassLaw }
{}
