//! Runs of networks, over definitions alone: what happens in any network, by computation, and worked runs that meet what
//! the laws of networks ask for.
#![tactic(auto)]

ghost use Rattle.network_runs.specs.Acting.{ActLaw};
ghost use Rattle.network_runs.specs.Making.{MakingLaw};
ghost use Rattle.network_runs.specs.Numbers.{NumbersRun};
ghost use Rattle.network_runs.specs.OneSwitch.{SwitchRun};
ghost use Rattle.network_runs.specs.Pads.{PadRun};
ghost use Rattle.network_runs.specs.Runs.{RunLaw};
ghost use Rattle.network_runs.specs.Sizes.{SizesRun};
ghost use Rattle.network_runs.specs.Trunk.{TrunkRun};

/// The law of runs, on lines in memory that lose no frame. A plan that passes a test is one of a network that there can
/// be, and its network is made as planned (`making`). What an act makes of any network, by computation, is a step of
/// which the laws of networks speak (`act`). So a plan and a list of acts that pass their tests are a run, in which
/// these laws hold from the making on (`run`).
pub fn run_law()
    ensures making { MakingLaw }
    ensures act { ActLaw }
    ensures run { RunLaw }
{}

/// A run over frames: two hosts at a switch set their links up, and one calls the other. Data goes both ways, and a
/// message with D = 1, whose first frame is lost, is confirmed. With the call open all comes to rest, so that the law of
/// rest says that nothing is missing. Then both hosts reset the call at once, one clears it, and calls again on the same
/// channels.
pub fn switch_run()
    ensures { SwitchRun }
{}

/// Two runs over frames and a trunk: a host at each of two switches. The links are set up, that of the trunk by the
/// switch that is its DTE. One host calls the other. A message with D = 1 is confirmed when the other host took it, and
/// not when a switch did. All comes to rest. Then that switch restarts, which ends the call, and sets the trunk's link
/// up again. In the second run the other host's call goes up the trunk, until the other switch gives the trunk up.
pub fn trunk_run()
    ensures { TrunkRun }
{}

/// Two runs of a PAD and a host on a line. In the first a call is dialled and connected, text is typed with a deletion,
/// the host reads a parameter (X.29), and the call is reset. In the second, on a standing call, there is a reset while
/// text is held, a frame that is lost and sent again after a poll, a break, the command INT and a clear. Records and pair
/// are what was typed, answered and told, with the occasions of what the PAD said of itself. What the terminal is shown
/// are its echo and the service signals (X.28).
pub fn pad_run()
    ensures { PadRun }
{}

/// A run with numbers modulo 128: one of two hosts says 130 messages on a standing call, and the other takes them, so that
/// P(S) and P(R) pass number 127.
pub fn numbers_run()
    ensures { NumbersRun }
{}

/// A run with packets of 128 octets on the line of one host and of 256 on that of the other: the switch between them
/// gathers the packets of a message, and cuts that of the answer.
pub fn sizes_run()
    ensures { SizesRun }
{}
