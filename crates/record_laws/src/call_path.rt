//! What the register of a network with switches has of its calls, over paths of any length.
ghost use Rattle.record_laws.specs.CallPaths.Forwards.{MadeForwardLaw, ForwardLaw, RelayedLaw};
ghost use Rattle.record_laws.specs.CallPaths.PathLaws.{MadeLaw, EventLaw, PromiseLaw, PathLaw, MadeAlikeLaw, WithoutSwitchLaw};
ghost use Rattle.record_laws.specs.CallPaths.PathLaws.{OwnedLaw, RecordsLaw, PresentLaw, CameLaw, PairedLaw};
ghost use Rattle.record_laws.specs.CallPaths.Ends.{EndLaw, UserLaw, OpenLaw};
ghost use Rattle.record_laws.specs.CallPaths.Lines.{MadeLinesLaw, TraceLaw, LinesLaw, WrittenLaw, BookCallsLaw, RecordedLaw};
ghost use Rattle.record_laws.specs.CallPaths.OwnAddresses.{MadeOwnLaw, WriteOwnLaw, HandedOwnLaw, OwnRun};
ghost use Rattle.record_laws.specs.CallPaths.PathRest.{RestLaw};
ghost use Rattle.record_laws.specs.CallPaths.Tree.{HopsLaw, RoomLaw};
ghost use Rattle.record_laws.specs.CallPaths.Paths.{MadePathsLaw, PathsLaw};

/// The law of calls through switches, over definitions alone. Besides the register there is a whole one, which has a
/// record of each leg of each switch too. Whatever happens, the register has what the whole one has of the ends with
/// users. If all lines hold and all joins relay, each pair of the register holds over a path of any length.
pub fn path_law()
    ensures made { MadeLaw }
    ensures events { EventLaw }
    ensures promise { PromiseLaw }
    ensures path { PathLaw }
    ensures alike { MadeAlikeLaw }
    ensures without { WithoutSwitchLaw }

    // The register's records are among those of the whole one, and open where they are present; a channel at a user's
    // end has in both what is known of its call.
    ensures owned { OwnedLaw }
    ensures records { RecordsLaw }
    ensures present { PresentLaw }
    ensures came { CameLaw }
    ensures paired { PairedLaw }

    // Where nothing is missing in the whole register, and each join of an open call handed on all that it took, nothing
    // is missing in the register.
    ensures rest { RestLaw }
{}

/// At the ends with users the register has what the books of the lines have, but for numbers and for the own addresses
/// of callers. These are channels, present and open records, and pairs of calls that came in. Each record of the
/// register is one of such an end.
pub fn end_law()
    ensures ends { EndLaw }
    ensures users { UserLaw }
    ensures open_records { OpenLaw }
{}

/// If no call that is placed gives a calling address, the own address of each caller is that of its line, or none if
/// the line has none. This holds from the making on, whatever is written at the lines, and when a switch hands a call
/// on. Two calls meet what these clauses ask for, by computation.
pub fn own_address_law()
    ensures made { MadeOwnLaw }
    ensures writes { WriteOwnLaw }
    ensures handed_on { HandedOwnLaw }
    ensures run { OwnRun }
{}

/// The addresses of the two records of each join. Let a switch place a call onward on the line of its route, with the
/// called address that the call has, and with the address of the line that it came on as the calling one. Then the
/// records of the join have these addresses from then on, whatever is written. So of the joins the relay alone has to
/// be shown.
pub fn forward_law()
    ensures made { MadeForwardLaw }
    ensures events { ForwardLaw }
    ensures joins { RelayedLaw }
{}

/// The whole register and the books of the lines, from free lines on and whatever is written at one of them. Each
/// record of the whole register comes from the place from which that of the line's book comes. If the calls of each
/// line hold, so do those of the whole register.
pub fn lines_law()
    ensures made { MadeLinesLaw }
    ensures traces { TraceLaw }
    ensures holds { LinesLaw }

    // Whatever happens on a line, the calls of its book hold: what an event writes is a list of writes, and each call
    // that came in by them holds as a pair does, accepted or not, and came in once.
    ensures written { WrittenLaw }
    ensures calls { BookCallsLaw }

    // So they do with any origins that have the callers of the book's records.
    ensures recorded { RecordedLaw }
{}

/// In a tree of switches a way has at most 16 hops, one for each switch; so if a switch may join a call, there is room
/// for its hop in the path. The path of each record has the hops of its call's way.
pub fn tree_law()
    ensures hops { HopsLaw }
    ensures room { RoomLaw }
    ensures made { MadePathsLaw }
    ensures events { PathsLaw }
{}
