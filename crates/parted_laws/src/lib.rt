//! That a network in several processes is one network.
#![tactic(auto)]

ghost use Rattle.parted_laws.specs.Moves.{CarryLaw, HandLaw, PutLaw, BreakLaw};
ghost use Rattle.parted_laws.specs.Events.{EventLaw};
ghost use Rattle.parted_laws.specs.Running.{TickLaw, RunLaw};
ghost use Rattle.parted_laws.specs.Making.{MakingLaw};
ghost use Rattle.parted_laws.specs.FirstDue.{FirstDueLaw};
ghost use Rattle.parted_laws.specs.PartedRun.{RunExample};
ghost use Rattle.parted_laws.specs.Restarting.{EndForgets, NodeForgets, SwitchForgets};

use frame_lines::Line;

/// The law of a network in several processes, over definitions alone. Each process has the whole network, by one plan,
/// and lets events come to its own nodes alone, on faithful lines. Then the processes are parts of one network:
///
/// - So they are when each has made the network, and of the first frames of an end no others are on their way.
/// - What they did, one act after the other, is a run of that network with the same answers. The promise holds before
///   and after each act.
/// - An event at a node of a process is one of the network, after some frames are lost there. A node restarts only when
///   nothing is on its way between its process and others on its lines.
/// - Ticks of a process pass at its nodes alone.
/// - The expiry that is due first in a network is that of the first node at which one is due.
/// - A frame that goes over a connection, or is lost with one, changes nothing in the network. A frame that is lost
///   stays in flight there until a later one is heard.
pub fn parted_law<L: Line>()
    ensures making { MakingLaw L.service }
    ensures event { EventLaw L.service }
    ensures hands_on { HandLaw L.service }
    ensures puts_on { PutLaw L.service }
    ensures breaks { BreakLaw }
    ensures carried { CarryLaw }
    ensures ticks { TickLaw }
    ensures due { FirstDueLaw }
    ensures run { RunLaw L.service }
{}

/// A node that restarted is as one that was made: an end of a line, a node with users, and a switch. It has its role,
/// parameters, terminals and routes, and nothing else of what happened before.
pub fn forget_law()
    ensures ends { EndForgets }
    ensures nodes { NodeForgets }
    ensures switches { SwitchForgets }
{}

/// A run to which the law applies, by computation: two processes, with a host in each, at one line.
pub fn run_example()
    ensures { RunExample }
{}
