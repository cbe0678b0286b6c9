//! That a run over lines in memory is determined by its configuration and its events.
#![tactic(auto)]

ghost use Rattle.run_laws.specs.Determined.{MakingLaw, StepLaw, RunLaw};
ghost use Rattle.run_laws.specs.LostFrameRun.{RunExample};

/// The law of runs over lines in memory, over definitions alone. A configuration makes one network. An event at it has
/// one answer and leaves one network. So a configuration and a list of events lead to one network: to the same nodes,
/// frames in flight, records and pairs.
pub fn determined_law()
    ensures making { MakingLaw }
    ensures step { StepLaw }
    ensures run { RunLaw }
{}

/// A run to which the law applies, by computation: two hosts at one line, of which the DTE's first frame is lost.
pub fn run_example()
    ensures { RunExample }
{}
