//! What is read of what is written, over definitions alone.
ghost use Rattle.xot_codec.specs.Laws.{OwnAreTaken, ReadsWritten, WaitsForWhole};

/// The laws of X.25 over TCP. What is read first of a packet as it is written is this packet, whatever follows. As long
/// as a part of its octets is missing, nothing is read and nothing is at fault. The facilities that are put into a call for a line are
/// taken for it.
pub fn xot_law()
    ensures whole { ReadsWritten }
    ensures part { WaitsForWhole }
    ensures own { OwnAreTaken }
{}
