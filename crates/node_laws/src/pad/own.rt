//! The law of the text of each terminal.
ghost use Rattle.node_laws.specs.Pads.Own.{OwnPacketLaw, OwnTextLaw, OthersStayLaw, LearnsOwnLaw};
ghost use Rattle.node_laws.specs.Pads.Noting.{OwnNotesLaw};

/// That a terminal sees nothing of another terminal's call, over definitions alone. What is printed at it is the text
/// that waits there, and what was taken of its own call. That text is its own: what happens at a terminal changes no
/// other one, and of what the packet layer tells each learns what is about its own call (X.28 3.5, 4). What is noted of
/// what happens at a terminal is about its own call too.
pub fn own_text_law()
    ensures packets { OwnPacketLaw }
    ensures texts { OwnTextLaw }
    ensures others { OthersStayLaw }
    ensures learns { LearnsOwnLaw }
    ensures notes { OwnNotesLaw }
{}
