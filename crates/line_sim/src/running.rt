//! A network over memory lines, and a list of events.
ghost use Rattle.std.specs.Prelude.{◌≡◌, true, false, Err, IfOk, IfErr, IsOkUnless};
ghost use Rattle.std.specs.Bool.{OnTrue, OnFalse};
ghost use Rattle.frame_lines.specs.Lines.{memory_service};
ghost use Rattle.network_laws.specs.Switched.InnerPromise.{PromisesCalls, InnerPromise};
ghost use Rattle.net_config.specs.declared.fault.MakeFault.TheVariants.{BadConfig, OutOfMemory};
ghost use Rattle.net_config.specs.Served.{is_served};
ghost use Rattle.net_nodes.specs.Faults.{step_fault, MayWant};
ghost use Rattle.line_sim.specs.declared.running.RunFault.TheVariants.{Made};
ghost use Rattle.line_sim.specs.Runs.{IsHandled, IsMadeBy, HasRun, IsRunFault};
ghost use Rattle.line_sim.specs.Courses.{HaveNoEvent, CoursesLead, PadsHaveRun};

use crate::net::Net;
use frame_lines::{MemLine, mem_lines};
use net_config::{Config, MakeFault, is_served};
use net_events::{Event, StepFault};
use std::alloc::Global;
use thiserror::Error;

/// Why a run ends before the last event.
#[derive(Clone, Copy, Debug, PartialEq, Eq, Error)]
pub enum RunFault {
    /// The network is not made.
    #[error("not made: {0}")]
    Made(MakeFault),
    /// Memory ended at the event of this index.
    #[error("stopped at event {0}")]
    Stopped(usize),
}

impl Net<MemLine> {
    /// Makes a network over memory lines. `BadConfig` comes if the configuration is outside its limits or of a kind
    /// that is not served, and then `OutOfMemory` for want of memory.
    pub fn on_memory_lines(alloc: Global, config: &Config) -> Result<Self, MakeFault>
        ensures bad { is_served config.now ≡ false → result ≡ Err BadConfig }
        ensures served { is_served config.now ≡ true → IsOkUnless result OutOfMemory }
        ensures ok { IfOk result (IsMadeBy memory_service config.now) }
        ensures courses { IfOk result (HaveNoEvent config.now) }
        ensures headline { IfOk result PromisesCalls }
        ensures inner { IfOk result InnerPromise }
    {
        if !is_served(config) {
            return Err(MakeFault::BadConfig);
        }
        let lines = mem_lines(alloc, config.lines.len())?;
        Net::new(alloc, config, lines)
    }
}

/// Makes a network over memory lines and runs the events, each after the one before. An event that is refused for
/// another reason than want of memory is answered so, and the run goes on. It ends early with `Made` if the network is
/// not made, and with `Stopped` and the index of the event at which memory ended.
pub fn run(alloc: Global, config: &Config, events: &[Event]) -> Result<Net<MemLine>, RunFault>
    ensures ran { IfOk result (HasRun config.now events.now) }
    ensures pads { IfOk result (PadsHaveRun config.now events.now) }
    ensures headline { IfOk result PromisesCalls }
    ensures inner { IfOk result InnerPromise }
    ensures bad { is_served config.now ≡ false → result ≡ Err (Made BadConfig) }
    ensures err { IfErr result (IsRunFault config.now events.now) }
{
    let mut net = match Net::on_memory_lines(alloc, config) {
        Ok(net) => net,
        Err(fault) => return Err(RunFault::Made(fault)),
    };
    for index in 0..events.len() {
        if !goes_on(&mut net, &events[index]) {
            return Err(RunFault::Stopped(index));
        }
    }
    Ok(net)
}

/// Handles an event, and says whether memory was there. Where it was not, the event takes memory, and the network
/// itself does not refuse it.
fn goes_on(net: &mut Net<MemLine>, event: &Event) -> bool
    ensures handled { OnTrue result (IsHandled memory_service event.now net.old (step_fault event.now net.old)
        net.new) }
    ensures courses { OnTrue result (CoursesLead event.now net.old net.new) }
    ensures wanting { OnFalse result (MayWant event.now net.old) }
    ensures headline { PromisesCalls net.new }
    ensures inner { InnerPromise net.new }
{
    match net.step(event) {
        Ok(_) => true,
        Err(fault) => fault != StepFault::OutOfMemory,
    }
}
