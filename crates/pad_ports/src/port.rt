//! A terminal at its port of the PAD.
ghost use Rattle.std.specs.Prelude.{◌≡◌, IfOk, is_some};
ghost use Rattle.std.specs.Bool.{OnTrue};
ghost use Rattle.pad_ports.specs.Ports as spec;
ghost use Rattle.pad_ports.specs.Settled.{IsSettled};

mod asking;
mod printing;

use crate::call::PortNote;
use crate::line::PadLine;
use pad_terminal::Terminal;
pub use printing::MOST_TEXT;
use std::alloc::{AllocError, Global};
use std::marker::Model;
use x3_params::Params;

/// A terminal at its port of the PAD, with its call and its idle timer.
#[derive(Drop)]
pub struct Port {
    terminal: Terminal,
    /// The logical channel of its call, connected or being set up.
    call: Option<u8>,
    /// The ticks left of the idle timer, if it runs.
    idle_left: Option<u16>,
}

impl Model for Port {
    ghost use Rattle.pad_ports.specs.Ports.{PortState};

    ghost Value = { PortState };

    ghost use Rattle.pad_ports.specs.PortView.{port_of};

    ghost view = { port_of };
}

impl Port {
    /// A port whose terminal has these initial parameters, and the standing call of a channel, or none. `AllocError`
    /// comes for want of memory.
    pub fn new(alloc: Global, params: Params, standing: Option<u8>) -> Result<Port, AllocError>
        ensures { IfOk result (λ port. port ≡ spec.new_port params standing) }
    {
        let terminal = Terminal::new(alloc, params, standing.is_some())?;
        Ok(Port {
            terminal,
            call: standing,
            idle_left: None,
        })
    }

    /// Restarts the terminal, without a call.
    pub fn restart(&mut self)
        ensures { self.new ≡ spec.restarted self.old }
    {
        self.terminal.restart();
        self.call = None;
        self.idle_left = None;
    }

    /// Takes that the terminal arrives (X.28 3.1). If it is present already, nothing happens.
    pub fn arrive(&mut self)
        ensures { self.new ≡ spec.arrived self.old }
    {
        self.terminal.arrive();
    }

    /// Whether the terminal is present and has no call.
    pub fn is_free(&self) -> bool
        ensures { result ≡ spec.is_free self.now }
    {
        self.terminal.mode().is_present() && self.call.is_none()
    }

    /// Whether its call is that on the channel.
    pub fn has_channel(&self, channel: u8) -> bool
        ensures { result ≡ spec.has_channel self.now.call channel }
    {
        self.call == Some(channel)
    }

    /// Takes the call on a channel, which is connected.
    pub fn connect(&mut self, channel: u8)
        ensures { self.new ≡ spec.connects channel self.old }
    {
        self.terminal.on_connected();
        self.call = Some(channel);
    }

    /// Takes what became of the terminal's call.
    pub fn learn(&mut self, note: PortNote)
        ensures { self.new ≡ spec.learns note self.old }
    {
        match note {
            PortNote::Connected(channel) => self.connect(channel),
            PortNote::Cleared(_, cause) => {
                self.terminal.on_cleared(cause);
                self.call = None;
            }
            PortNote::Reset(_, cause) => self.terminal.on_reset(cause),
        }
    }

    /// Ends an event: the terminal may go on if it was told to stop, and the idle timer runs as it wants it. Answers
    /// whether the port is then settled: it stays so until something touches it.
    pub fn settle(&mut self, line: &PadLine) -> bool
        ensures port { self.new ≡ spec.settled line.now self.old }
        ensures settled { OnTrue result (IsSettled self.new) }
    {
        if self.terminal.is_stopped() {
            self.terminal.resume_device(line.is_full(self.call));
        }
        self.idle_left = brought(self.terminal.idle_time(), self.idle_left);
        !self.terminal.is_stopped()
    }

    /// Lets ticks pass, each a twentieth of a second: an idle timer that runs has so many less left, at least 0.
    pub fn elapse(&mut self, ticks: u16)
        ensures { self.new ≡ spec.elapsed ticks self.old }
    {
        if let Some(left) = self.idle_left {
            self.idle_left = Some(left.saturating_sub(ticks));
        }
    }

    /// Whether the idle timer runs.
    pub fn runs_idle_timer(&self) -> bool
        ensures { result ≡ is_some self.now.idle_left }
    {
        self.idle_left.is_some()
    }

    /// Whether the idle timer runs with no tick left.
    pub fn is_due(&self) -> bool
        ensures { result ≡ spec.is_due self.now }
    {
        self.idle_left == Some(0)
    }
}

/// The ticks of an idle timer that is to run so long: one that runs goes on.
fn brought(time: Option<u8>, left: Option<u16>) -> Option<u16>
    ensures { result ≡ spec.brought time left }
{
    match (time, left) {
        (None, _) => None,
        (Some(ticks), None) => Some(u16::from(ticks)),
        (Some(_), Some(left)) => Some(left),
    }
}
