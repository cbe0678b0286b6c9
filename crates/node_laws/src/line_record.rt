//! What a network keeps of a line with both its ends and of the book of its calls, and that whatever happens keeps it.
ghost use Rattle.node_laws.specs.LineRecords.LineRecordClauses.{MadeLaw, TellsLaw, SilentLaw, RestartLaw, CallLaw, RequestLaw};
ghost use Rattle.node_laws.specs.LineRecords.LineRecordClauses.{LossLaw, EditLaw, LikeLaw, HoldsLaw, PresentLaw, TransferLaw};
ghost use Rattle.node_laws.specs.LineRecords.LineRecordClauses.{AskedLaw, FrontLaw, ChannelsLaw, ClosingLaw};
ghost use Rattle.node_laws.specs.LineRecords.LineRecordsRest.{RestLaw, SettledLaw};
ghost use Rattle.node_laws.specs.LineRecords.Confirmed.{ConfirmedLaw};
ghost use Rattle.node_laws.specs.LineRecords.Counted.{ShownLaw, CountsLaw};
ghost use Rattle.node_laws.specs.LineRecords.Histories.{HistoryLaw};
ghost use Rattle.node_laws.specs.LineRecords.Happens.{FrameLaw, ExpiryLaw, RelinkLaw, RestartedLaw, CalledLaw, RequestedLaw};
ghost use Rattle.node_laws.specs.LineRecords.Hosts.{HostExpiryLaw, HostCallLaw, HostRequestLaw, HostSayLaw, HostRefuseLaw};
ghost use Rattle.node_laws.specs.LineRecords.Hosts.{HostTakeLaw};
ghost use Rattle.node_laws.specs.LineRecords.Opening.{FrameOpens, ExpiryOpens, RelinkOpens, EndOpens, ReadLaw};

/// The law of a line of a network and of its book, over definitions alone. From the making on, whatever is called at an
/// end, whatever comes to it, whichever frames are lost and however often an end restarts: what its layer is asked and
/// what it tells is written, and the book of the line holds then (X.25 2.4, 3, 4).
pub fn line_record_law()
    ensures made { MadeLaw }

    // What comes to an end, or is due there.
    ensures tells { TellsLaw }
    ensures silent { SilentLaw }
    ensures restarts { RestartLaw }

    // What a user asks for.
    ensures calls { CallLaw }
    ensures requests { RequestLaw }

    // A loss, a step of editing at a PAD, and what makes no difference.
    ensures loses { LossLaw }
    ensures edits { EditLaw }
    ensures like { LikeLaw }

    // What the book is then.
    ensures holds { HoldsLaw }
    ensures present { PresentLaw }
    ensures transfer { TransferLaw }
    ensures asked { AskedLaw }
    ensures front { FrontLaw }
    ensures channels { ChannelsLaw }
    ensures closing { ClosingLaw }

    // Where both ends are at rest, nothing is missing in it; and an end asks for no relink after an event.
    ensures rest { RestLaw }
    ensures settled { SettledLaw }

    // Where an end says that delivery is confirmed, each packet with D = 1 of the last epoch is covered.
    ensures confirmed { ConfirmedLaw }

    // What a present record counts agrees with the numbers of its channel; and each record, open or closed, has the
    // epochs that the packet layer of its end counted.
    ensures shown { ShownLaw }
    ensures counts { CountsLaw }

    // One list of moves leads to both layers and to the book, and what the records count and which calls are pairs is
    // what it says.
    ensures history { HistoryLaw }
{}

/// The law of a line with its book over whole events of a node: what comes to the node or is asked of it, the end of
/// the event, and its frames, which go onto the line.
pub fn event_law()
    ensures frames { FrameLaw }
    ensures expiries { ExpiryLaw }
    ensures relinks { RelinkLaw }
    ensures restarts { RestartedLaw }
    ensures calls { CalledLaw }
    ensures requests { RequestedLaw }
{}

/// The law of a line with its book over the events of a host that its user asks for, or that may be refused or find
/// nothing to do. A frame that arrives, a relink and a restart are as at any node.
pub fn host_law()
    ensures expiries { HostExpiryLaw }
    ensures calls { HostCallLaw }
    ensures requests { HostRequestLaw }
    ensures says { HostSayLaw }
    ensures refuses { HostRefuseLaw }
    ensures takes { HostTakeLaw }
{}

/// The notes of an event open at most one record or epoch, and only if a frame arrives. What a user asks is no note.
pub fn opening_law()
    ensures frames { FrameOpens }
    ensures expiries { ExpiryOpens }
    ensures relinks { RelinkOpens }
    ensures ends { EndOpens }
    ensures read { ReadLaw }
{}
