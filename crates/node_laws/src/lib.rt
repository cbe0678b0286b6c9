//! The laws of nodes: of a line between two ends, of a line with the book of its calls, of a PAD, and of each node.
//! Each event at a PAD or a host keeps what is kept of its line and of that book.
#![tactic(auto)]

mod expiry;
mod line;
mod line_record;
mod pad;
mod quiet;

ghost use Rattle.node_laws.specs.NodeClauses.{HearsLaw, ExpiresLaw, RelinksLaw, RestartsLaw, CallsLaw, AsksLaw, RefusesLaw};
ghost use Rattle.node_laws.specs.NodeClauses.{SaysLaw, TakesLaw, TerminalsLaw, ElapsesLaw, MakingLaw, NodesLaw};
ghost use Rattle.node_laws.specs.Opening.{HearingOpens, ExpiryOpens, RelinkOpens, CallOpens, AskingOpens, RefusalOpens};
ghost use Rattle.node_laws.specs.Opening.{SayingOpens, TakingOpens};
ghost use Rattle.node_laws.specs.Rooms.{HearingRoom, ExpiryRoom, RelinkRoom, RestartRoom, TerminalRoom};

pub use expiry::expiry_law;
pub use line::{line_ends_law, rest_law};
pub use line_record::{event_law, host_law, line_record_law, opening_law};
pub use pad::{
    event_course_law, occasion_law, own_text_law, pad_expiry_law, pad_line_law, pad_records_law,
    pad_room_law, presence_law, typed_law,
};
pub use quiet::quiet_law;

/// The law of the nodes of a line, over definitions alone. From the making on, whatever comes to a node and whatever
/// its user asks or types: the book has what its layer was asked and told, its frames go onto the line or are lost
/// there, and the same is kept as before (X.25 2.4, 3, 4; X.3).
pub fn node_law()
    // What comes from the line.
    ensures hears { HearsLaw }
    ensures expires { ExpiresLaw }
    ensures relinks { RelinksLaw }
    ensures restarts { RestartsLaw }

    // What the user of a host asks.
    ensures calls { CallsLaw }
    ensures asks { AsksLaw }
    ensures refuses { RefusesLaw }
    ensures says { SaysLaw }
    ensures takes { TakesLaw }

    // What happens at a terminal of a PAD, and time.
    ensures terminals { TerminalsLaw }
    ensures elapses { ElapsesLaw }

    // The making.
    ensures made { MakingLaw }
    ensures nodes { NodesLaw }
{}

/// The notes of a turn open at most one record or epoch in the book, and only if a frame arrives. What a user asks is
/// no note.
pub fn turn_opening_law()
    ensures hearing { HearingOpens }
    ensures expiry { ExpiryOpens }
    ensures relink { RelinkOpens }
    ensures call { CallOpens }
    ensures asking { AskingOpens }
    ensures refusal { RefusalOpens }
    ensures saying { SayingOpens }
    ensures taking { TakingOpens }
{}

/// The notes of a turn need room for two writes and for a pair at most in the book of its line, so that it can be made
/// before.
pub fn room_law()
    ensures hearing { HearingRoom }
    ensures expiry { ExpiryRoom }
    ensures relink { RelinkRoom }
    ensures restart { RestartRoom }
    ensures terminal { TerminalRoom }
{}
