//! The law of a terminal that leaves and arrives.
ghost use Rattle.node_laws.specs.Pads.Presence.{LeavesLaw, StaysAbsentLaw, AbsentLaw, ArrivesLaw, PresentLaw, CallLaw};
ghost use Rattle.node_laws.specs.Pads.Presence.{ShownLaw};

/// That nothing of one user of a terminal reaches the next, over definitions alone. A terminal that leaves has no call,
/// no text and its initial parameters, until it arrives or the PAD restarts: it is given no call and shown nothing, and
/// its keys and breaks are dropped. One that arrives is as one that is made. What is shown at it after that is taken of
/// calls whose records were made since (X.28 3.1, 3.5).
pub fn presence_law()
    // A terminal that leaves is absent.
    ensures leaves { LeavesLaw }
    ensures stays { StaysAbsentLaw }
    ensures absent { AbsentLaw }

    // One that arrives, and one that is present already.
    ensures arrives { ArrivesLaw }
    ensures present { PresentLaw }

    // Its calls, and what is shown.
    ensures calls { CallLaw }
    ensures shown { ShownLaw }
{}
