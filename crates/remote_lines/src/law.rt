//! What is on the way on a line whose node starts, over definitions alone.
ghost use Rattle.remote_lines.specs.Restart.{RestartLaw};

/// The law of a restart. As long as a connection stands at both ends of a line and the node at the one end has not
/// started, the line is not open at the other end, and no frame is on the way between the two, in either direction.
pub fn restart_law()
    ensures { RestartLaw }
{}
