//! What the register of a network of switches has of its calls.
ghost use Rattle.switched_call_laws.specs.SwitchPaths.SwitchPathLaws.{SwitchPathLaw};

/// The law of a network of any number of switches, each at its place, over definitions alone. The switches are a tree;
/// a line is between two users, between a user and a switch, or a trunk between two switches. Whatever comes to a
/// switch and whatever is written for the users, the register has what a whole one has, which has records of the
/// switches' legs too. Each call that a switch joins is handed on in the register, with its addresses, and its two
/// records relay. What happens at one switch is, for each other one that shares a line with it, what its partner there
/// did. So if the lines between users are kept as those of the switches are, each pair of the register holds over its
/// path; and if all lines are at rest too, nothing is missing in it. There may be one switch, or none.
pub fn switch_path_law()
    ensures { SwitchPathLaw }
{}
