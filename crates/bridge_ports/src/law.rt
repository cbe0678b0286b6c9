//! What becomes of a call and its connection, over definitions alone.
ghost use Rattle.bridge_ports.specs.Laws.{BlocksAreWritten, BridgesCarry, OctetsInAreSaid, OctetsTakenAreWritten};
ghost use Rattle.bridge_ports.specs.Rows.{BrokenConnections, ClearsWhenConfirmed, ComingCalls, EndsOfFarSides, EndsOfPeers, FailedConnections, FreeOnceClosed, OtherEnds, PlacedCalls, SaysOctetsFirst, WholeEnds};

/// The law of one bridge, over all that is done at it. What was said is what came from the peer, and what was written is
/// what was taken of the call, in order, each octet once; the rest waits.
pub fn bridge_port_law()
    ensures said { OctetsInAreSaid }
    ensures written { OctetsTakenAreWritten }
{}

/// The rows of a bridge's table: what becomes of calls that come and are placed, of the ends of both sides, of ends of a
/// call, and of broken connections.
pub fn bridge_port_rows()
    ensures coming { ComingCalls }
    ensures failed { FailedConnections }
    ensures placed { PlacedCalls }
    ensures peer_ends { EndsOfPeers }
    ensures octets_first { SaysOctetsFirst }
    ensures confirmed { ClearsWhenConfirmed }
    ensures far_ends { EndsOfFarSides }
    ensures whole { WholeEnds }
    ensures other { OtherEnds }
    ensures broken { BrokenConnections }
    ensures closed { FreeOnceClosed }
{}

/// The law of bridges, with the promise of the network for what is taken at one end of a call and said at the other. Between
/// two resets, what comes out at one connection is the beginning of what went in at the other, and with a PAD at the other
/// end, of its blocks.
pub fn bridge_law()
    ensures bridges { BridgesCarry }
    ensures blocks { BlocksAreWritten }
{}
