//! That nothing but the register depends on the register, and what follows of runs.
ghost use Rattle.live_laws.specs.Blind.{BlindLaw};
ghost use Rattle.live_laws.specs.Living.{MadeLaw, EventLaw, TimeLaw};
ghost use Rattle.live_laws.specs.LiveRuns.{LiveRunsAreRuns};
ghost use Rattle.live_laws.specs.Writing.{TurnsAreAlike, HappensWithAnyRegister};

use frame_lines::Line;

/// The law of registers, over definitions alone. A node takes the same turn whatever the book of its line has. So an
/// event leaves the same nodes and lines with any register, and is answered or refused alike. What it writes is a
/// function of the register.
pub fn any_register_law<L: Line>()
    ensures turns { TurnsAreAlike }
    ensures happens { HappensWithAnyRegister L.service }
{}

/// The law of a network whose records are forgotten after each event, over definitions alone. With each register with
/// which all holds that the laws of networks keep, there is one with which it holds after an event or a time that
/// passes. With these two the network stepped as one that keeps its records.
pub fn forgetting_law<L: Line>()
    ensures made { MadeLaw L.service }
    ensures event { EventLaw L.service }
    ensures time { TimeLaw L.service }
{}

/// The law of runs: from a register on, with which a network without records is one between events, there is one after
/// each event and each time that passes. With these registers the run is one of a network that keeps records.
pub fn live_run_law<L: Line>()
    ensures { LiveRunsAreRuns L.service }
{}

/// The law of what is not known: what happens on lines also happens if it is not known that they are faithful.
pub fn blind_law<L: Line>()
    ensures { BlindLaw L.service }
{}
