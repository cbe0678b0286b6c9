//! What becomes of what a client sends and is shown, and of what is said and taken for a bridge, over definitions alone.
ghost use Rattle.service.specs.AllBridges.{CallsAreCarried};
ghost use Rattle.service.specs.Clients.{ClientsAreServed};

/// The law of ports, over all that is done at a port from when a client came. What is written to the client is read by it,
/// as its mode has it, as the greeting and all that was shown at its terminal, in order, with nothing left out. What it typed
/// was typed at the terminal in order, each key once, but for those that were overtaken and those that wait. Only an XON may
/// be typed before keys that wait.
pub fn port_law()
    ensures { ClientsAreServed }
{}

/// The law of a call that a bridge keeps, over all that becomes of the bridge in steps of the network, until the call is over.
/// What these steps say on the channel of the call is what waited to be said at the bridge, from the first octet on, each
/// once. Each packet without Q that they take there goes to the bridge, in order, each once. Nothing else changes what waits.
pub fn bridge_calls_law()
    ensures { CallsAreCarried }
{}
