//! The law of a link of which nothing is lost any more.
ghost use Rattle.lapb.specs.World.{Always};
ghost use Rattle.arrival_laws.specs.Arriving.{Arrives, ComesToRest, Ends, Stays, MayRecover};

/// The law of two links, one of each role, from any state that offers, deliveries, losses, expiries of T1, starts,
/// relinks and restarts lead to, once nothing is lost any more (X.25 2.4.5.9, 2.4.8.1). It says nothing of clocks: T1
/// expires where the list of events says so.
pub fn link_arrival_law()
    // Where T1 expired at each end and nothing is left to send, each end accepted all that was offered at the other.
    ensures arrives { Always Arrives }

    // So deliveries alone bring both ends to rest, in whatever order the frames come.
    ensures comes_to_rest { Always ComesToRest }

    // And they come to an end.
    ensures ends { Always Ends }

    // In this no session is given up, if no end had sent as many polls without an answer as it may.
    ensures stays { Always Stays }

    // Some events lose frames, and then all that was offered arrives.
    ensures may_recover { MayRecover }
{}
