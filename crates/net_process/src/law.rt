//! The laws of a process, over definitions alone.
ghost use Rattle.net_process.specs.Apart.{ApartLaw};
ghost use Rattle.net_process.specs.Restart.{RestartLaw};
ghost use Rattle.net_process.specs.Acts.{StepLaw, StartLaw, TicksLaw, SendLaw, ReadLaw};

use frame_lines::Line;

/// The law of a process of which all nodes are its own. What happens in it happened in a network that keeps no records,
/// so it has the promise of such a network.
pub fn apart_law<L: Line>()
    ensures { ApartLaw L.service }
{}

/// The law of a node that starts. On each of its lines to another process a connection stands at both ends, and the end
/// here has not opened the line. What came to the other process over a line that is not open there is lost. Then nothing is
/// on its way between the processes on these lines, and the node may restart.
pub fn restart_law()
    ensures { RestartLaw }
{}

/// The law of what a process does. An event that may be in it is an act of the processes of one network, at a node of its
/// own. So is the start of a node of its own, if its lines to other processes have connections on which it waits. Ticks
/// that pass in it are an act too. A frame that it hands to a connection, or reads of one, is a move between processes.
pub fn act_law()
    ensures step { StepLaw }
    ensures start { StartLaw }
    ensures ticks { TicksLaw }
    ensures send { SendLaw }
    ensures read { ReadLaw }
{}
