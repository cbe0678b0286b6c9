//! The PAD and its terminals.
ghost use Rattle.std.specs.Prelude.{◌≡◌, ◌≤◌, ◌-◌, ◌∷◌, None, IfOk, MatchResult, length, replicate};
ghost use Rattle.std.specs.Prelude.{option_copied};
ghost use Rattle.pad_ports.specs.Ports.{new_port};
ghost use Rattle.pad_ports.specs.NoteView.{maybe_pad_note};
ghost use Rattle.x25_pad.specs.Pad as spec;
ghost use Rattle.x25_pad.specs.Making.{made, IsConfig, MadeNot};

mod events;
mod from_line;
mod terminals;

use crate::config::PadConfig;
use data_transfer::DEFAULT_SIZE;
use link_timers::Role;
use number_set::NumberSet;
use packet_end::{EndFault, PacketEnd};
use pad_ports::{MOST_NOTES, PadLine, PadNote, PadNotes, Port};
use std::alloc::{AllocError, Global};
use std::marker::Model;
use std::ops::Deref;
use x3_params::Params;

/// The most terminals of a PAD.
pub(crate) const MOST_TERMINALS: u8 = 16;

/// The channel of a call that stands.
const STANDING_CHANNEL: u8 = 1;

/// A PAD at the DTE's end of a line, for up to 16 terminals.
///
/// Each call that changes the PAD, but `elapse` and what takes, is one event. Its notes are then taken by `notes`, or
/// read by `first_note` and dropped by `drop_note`, and its frames are taken by `out`. After the next event they are
/// gone, a frame as if the line had lost it. What asks about its end of the line, without a change, is a call of
/// [`PacketEnd`].
#[derive(Drop)]
pub struct Pad {
    line: PadLine,
    ports: Vec<Port>,
    /// The ports that something touched since they were settled, and those whose terminals still wait to go on. The end
    /// of an event leaves all others as they are.
    touched: NumberSet,
}

impl Model for Pad {
    ghost use Rattle.x25_pad.specs.Pad.{PadState};

    ghost Value = { PadState };

    ghost use Rattle.x25_pad.specs.PadView.{pad_of, IsPad};

    ghost view = { pad_of };

    ghost invariant = { IsPad };
}

impl Deref for Pad {
    type Target = PacketEnd;

    fn deref(&self) -> &PacketEnd
        ensures { result.now ≡ self.now.line.end }
    {
        &self.line.end
    }
}

impl Pad {
    /// The PAD at its line, which is new: the link is started. On a standing line the link is up, and terminal 0 has
    /// the call on channel 1. It takes all the memory that it ever uses.
    ///
    /// `BadConfig` comes if a parameter of the line or the number of terminals is out of its range, or the packet size
    /// of the line is not 128. Then `OutOfMemory` comes for want of memory.
    pub fn new(alloc: Global, config: PadConfig) -> Result<Pad, EndFault>
        ensures { MatchResult result
            (λ pad. IsConfig config × (pad ≡ made config))
            (λ fault. MadeNot config fault) }
    {
        if config.terminals == 0 || config.terminals > MOST_TERMINALS {
            return Err(EndFault::BadConfig);
        }
        if config.line.flow.size != DEFAULT_SIZE {
            return Err(EndFault::BadConfig);
        }
        config.line.check()?;
        let standing = if config.line.standing {
            Some(STANDING_CHANNEL)
        } else {
            None
        };
        let ports = new_ports(alloc, config.params, standing, config.terminals)?;
        let notes = PadNotes::new(alloc)?;
        let end = PacketEnd::new(alloc, Role::Dte, config.line)?;
        let line = PadLine {
            end,
            notes,
            terminal: None,
        };
        let touched = NumberSet::first(ports.len());
        Ok(Pad {
            line,
            ports,
            touched,
        })
    }

    /// How many terminals there are, at most 16: they have the numbers below it.
    pub fn terminals(&self) -> u8
        ensures count { result ≡ length self.now.ports }
        ensures most { result ≤ 16 }
    {
        self.ports.len() as u8
    }

    /// Takes the next note of the event, if there is one, with the terminal whose call it is of, if one has it.
    pub fn notes(&mut self) -> Option<PadNote>
        ensures note { maybe_pad_note result ≡ spec.first_note self.old }
        ensures pad { self.new ≡ spec.without_first_note self.old }
    {
        self.line.notes.take()
    }

    /// The next note of the event, if there is one, with the terminal whose call it is of, if one has it. It is not
    /// taken.
    pub fn first_note(&self) -> Option<&PadNote>
        ensures { maybe_pad_note (option_copied result) ≡ spec.first_note self.now }
    {
        self.line.notes.first()
    }

    /// How many notes of the event are not yet read.
    pub fn waiting_notes(&self) -> usize
        ensures count { result ≡ length self.now.line.notes }
        ensures named { result ≡ length self.now.line.noted_at }
        ensures most { result ≤ MOST_NOTES }
    {
        self.line.notes.len()
    }

    /// Drops the next note of the event, if there is one.
    pub fn drop_note(&mut self)
        ensures { self.new ≡ spec.without_first_note self.old }
    {
        self.line.notes.drop_first();
    }
}

/// So many ports, the first with the call that stands, if one does.
#[tactic(auto, using(crate::proofs::Making::one_port_more))]
fn new_ports(
    alloc: Global,
    params: Params,
    standing: Option<u8>,
    terminals: u8,
) -> Result<Vec<Port>, AllocError>
    requires { 1 ≤ terminals }
    ensures { IfOk result (λ ports. ports.items ≡ new_port params standing ∷ replicate (terminals - 1)
        (new_port params None)) }
{
    let mut ports = Vec::new(alloc);
    ports.push(Port::new(alloc, params, standing)?)?;
    for _ in 1..terminals {
        ports.push(Port::new(alloc, params, None)?)?;
    }
    Ok(ports)
}
