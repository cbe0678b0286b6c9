//! The law of a link with two ends.
ghost use Rattle.lapb.specs.Machine.{Link};
ghost use Rattle.lapb.specs.World.{Always, InOrder, ComesUp, BeginsFresh, MayCarry};
ghost use Rattle.lapb.specs.Rising.{SessionsRise, CallsTell};
ghost use Rattle.lapb.specs.Calls.{SessionLaw};

/// The law of two links, one of each role, on a line that loses frames and neither changes, reorders nor repeats them:
/// for every list of offers, deliveries, losses, frames dropped on sending, expiries of T1, starts, relinks and
/// restarts. Sessions are numbered by the set-up acts of the DTE (X.25 2.4.4, 2.4.5).
pub fn link_law()
    // In each session the accepted packets of an end begin the list of those offered at the other one; no FRMR is sent.
    ensures in_order { Always InOrder }

    // Where a SABM of the last act is taken and then a UA of it, both ends are up in the session of that act.
    ensures comes_up { Always ComesUp }

    // Where an end comes to stand in a session, nothing of it was accepted before; a DTE comes up in its last act.
    ensures begins_fresh { Always BeginsFresh }

    // The sessions of each end come in rising order, and that of the DTE is never ahead of that of the DCE.
    ensures sessions_rise { Always SessionsRise }

    // Each call tells when a session begins and when it ends; a frame alone begins one, or brings a packet.
    ensures calls_tell { (l : Link) → CallsTell l }

    // At each link, whatever its partner sends: the numbers are those of its session, in all frames that it sends.
    ensures sessions_count { SessionLaw }

    // And some events set the link up and take any packet each way.
    ensures may_carry { MayCarry }
{}
