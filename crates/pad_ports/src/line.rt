//! The PAD's end of its line with its notes, and what a PAD asks of the calls there.
ghost use Rattle.std.specs.Prelude.{◌≡◌, ◌≤◌, ◌<◌, ◌+◌, [], ◌∷◌, Some, length, MatchResult};
ghost use Rattle.packet_channel.specs.Channel.{Request as ask};
ghost use Rattle.packet_end.specs.PacketEnd as end_spec;
ghost use Rattle.packet_layer.specs.Layer as machine;
ghost use Rattle.packet_layer.specs.RequestView.{request_of, call_refusal_of};
ghost use Rattle.pad_ports.specs.NoteView.{pad_note_of};
ghost use Rattle.pad_ports.specs.PadLine as spec;
ghost use Rattle.pad_ports.specs.TakenView.{maybe_taken};

use crate::note::{ChannelNote, MOST_NOTES, PadNote, PadNotes};
use crate::taken::PadTaken;
use arrayvec::ArrayVec;
use packet_codec::{Address, CallData};
use packet_end::PacketEnd;
use packet_layer::{CallFault, ChannelFault, Request, Taken, UserData};
use pad_terminal::CallCondition;
use std::marker::Model;

/// The user data of an interrupt.
const INTERRUPT_OCTET: u8 = 1;

/// The protocol with which the user data of a call begin (X.29 4.2).
const PROTOCOL: [u8; 4] = [1, 0, 0, 0];

/// The PAD's end of its line, whose packets have at most 128 octets of user data, so that a terminal has room for each,
/// and what the PAD notes. Code that changes the end has to show that its size stays.
#[derive(Drop)]
pub struct PadLine {
    pub end: PacketEnd,
    pub notes: PadNotes,
    /// The terminal at which something happens, if it happens at one. What a port notes then is of this terminal.
    pub terminal: Option<u8>,
}

impl Model for PadLine {
    ghost use Rattle.std.specs.Prelude.{◌≡◌};
    ghost use Rattle.pad_ports.specs.PadLine.{PadLine as LineValue};

    ghost Value = { LineValue };

    ghost use Rattle.pad_ports.specs.LineView.{line_of};

    ghost view = { line_of };

    ghost invariant = { λ l. l.end.layer.flow.size ≡ 128 };
}

impl PadLine {
    /// What happens next happens at this terminal, or at none.
    pub fn at_terminal(&mut self, terminal: Option<u8>)
        ensures { self.new ≡ spec.at_terminal terminal self.old }
    {
        self.terminal = terminal;
    }

    /// Notes what happens at the terminal.
    #[inline(always)]
    pub(crate) fn note(&mut self, note: ChannelNote)
        requires { length self.old.notes < MOST_NOTES }
        ensures { self.new ≡ spec.noting (pad_note_of note ∷ []) self.old }
    {
        self.notes.add(PadNote {
            terminal: self.terminal,
            note,
        });
    }

    /// Asks something of a call, and notes it where it is not refused.
    fn ask(&mut self, channel: u8, request: &Request<'_>, note: ChannelNote)
        requires { length self.old.notes < MOST_NOTES }
        ensures line { self.new ≡ spec.asked channel (request_of request.now) (pad_note_of note) self.old }
        ensures room { length self.new.notes ≤ length self.old.notes + 1 }
        ensures told { self.new.end.notes ≡ self.old.end.notes }
    {
        if self.end.ask(channel, request).is_ok() {
            self.note(note);
        }
    }

    /// Sends a message of one Data packet.
    pub(crate) fn send(&mut self, channel: u8, octets: &[u8], qualified: bool)
        requires room { length self.old.notes < MOST_NOTES }
        requires fits { length octets.now ≤ 128 }
        ensures line { self.new ≡ spec.sent channel octets.now qualified self.old }
        ensures room { length self.new.notes ≤ length self.old.notes + 1 }
        ensures told { self.new.end.notes ≡ self.old.end.notes }
    {
        let request = Request::Send {
            octets,
            more: false,
            qualified,
            delivery: false,
        };
        let user_data = UserData::new(octets, false, qualified, false);
        self.ask(channel, &request, ChannelNote::Sent { channel, user_data });
    }

    /// Accepts a call that came in.
    pub fn accept(&mut self, channel: u8)
        requires { length self.old.notes < MOST_NOTES }
        ensures line { self.new ≡ spec.accepted channel self.old }
        ensures room { length self.new.notes ≤ length self.old.notes + 1 }
        ensures told { self.new.end.notes ≡ self.old.end.notes }
    {
        self.ask(channel, &Request::Accept, ChannelNote::Accepted(channel));
    }

    /// Clears a call, with cause 0 and diagnostic 0.
    pub fn clear(&mut self, channel: u8)
        requires { length self.old.notes < MOST_NOTES }
        ensures line { self.new ≡ spec.cleared channel self.old }
        ensures room { length self.new.notes ≤ length self.old.notes + 1 }
        ensures told { self.new.end.notes ≡ self.old.end.notes }
    {
        let request = Request::Clear {
            cause: 0,
            diagnostic: 0,
        };
        self.ask(channel, &request, ChannelNote::Cleared(channel));
    }

    /// Resets a call, with cause 0 and diagnostic 0.
    pub(crate) fn reset(&mut self, channel: u8)
        requires { length self.old.notes < MOST_NOTES }
        ensures line { self.new ≡ spec.reset channel self.old }
        ensures room { length self.new.notes ≤ length self.old.notes + 1 }
        ensures told { self.new.end.notes ≡ self.old.end.notes }
    {
        let request = Request::Reset {
            cause: 0,
            diagnostic: 0,
        };
        self.ask(channel, &request, ChannelNote::Reset(channel));
    }

    /// Sends an interrupt.
    pub(crate) fn interrupt(&mut self, channel: u8)
        requires { length self.old.notes < MOST_NOTES }
        ensures line { self.new ≡ spec.interrupted channel self.old }
        ensures room { length self.new.notes ≤ length self.old.notes + 1 }
        ensures told { self.new.end.notes ≡ self.old.end.notes }
    {
        let note = ChannelNote::Interrupted {
            channel,
            octet: INTERRUPT_OCTET,
        };
        self.ask(channel, &Request::Interrupt(&[INTERRUPT_OCTET]), note);
    }

    /// Places a call of an address with user data after the protocol, and answers its channel.
    pub(crate) fn place(&mut self, address: Address, user_data: &[u8]) -> Result<u8, CallFault>
        requires room { length self.old.notes < MOST_NOTES }
        requires fits { length user_data.now ≤ 12 }
        ensures answer { MatchResult result
            (λ channel. machine.channel_given self.old.end.layer self.old.end.layer.phase ≡ Some channel)
            (λ fault. machine.call_refusal self.old.end.layer self.old.end.layer.phase
            ≡ Some (call_refusal_of fault)) }
        ensures line { self.new ≡ spec.placed address user_data.now self.old }
        ensures room { length self.new.notes ≤ length self.old.notes + 1 }
        ensures told { self.new.end.notes ≡ self.old.end.notes }
    {
        let mut octets = ArrayVec::<u8, 16>::new();
        let _ = octets.try_extend_from_slice(&PROTOCOL);
        let _ = octets.try_extend_from_slice(user_data);
        let channel = self.end.call(&CallData {
            called: address,
            calling: None,
            facilities: &[],
            user_data: octets.as_slice(),
        })?;
        self.note(ChannelNote::Placed { channel, address });
        Ok(channel)
    }

    /// Takes what waits first on a call, if anything does.
    pub(crate) fn take(&mut self, channel: u8) -> Option<PadTaken>
        requires { length self.old.notes < MOST_NOTES }
        ensures taken { maybe_taken result ≡ machine.front_on self.old.end.layer channel }
        ensures line { self.new ≡ spec.taken channel (machine.front_on self.old.end.layer channel) self.old }
        ensures room { length self.new.notes ≤ length self.old.notes + 1 }
        ensures told { self.new.end.notes ≡ self.old.end.notes }
    {
        let taken = self.take_first(channel)?;
        self.note(ChannelNote::Took {
            channel,
            taken: taken.copied(),
        });
        Some(taken)
    }

    /// Takes what waits first on a call, if anything does, from the end of the line.
    fn take_first(&mut self, channel: u8) -> Option<PadTaken>
        ensures taken { maybe_taken result ≡ machine.front_on self.old.end.layer channel }
        ensures line { self.new ≡ record self.old { end = end_spec.asked self.old.end channel ask.Taking } }
    {
        match self.end.take(channel)? {
            Taken::Interrupt(data) => Some(PadTaken::Interrupt(data)),
            Taken::Data(data) => Some(PadTaken::Data(UserData::new(
                data.octets(),
                data.more(),
                data.qualified(),
                data.delivery(),
            ))),
        }
    }

    /// What a terminal must know of its call, which is on a channel. Without a call no packet and no interrupt is taken
    /// to be sent.
    pub(crate) fn condition(&self, call: Option<u8>) -> CallCondition
        ensures { result ≡ spec.condition call self.now }
    {
        let Some(channel) = call else {
            return CallCondition {
                queue_full: true,
                reset_pending: false,
                may_interrupt: false,
            };
        };
        CallCondition {
            queue_full: self.is_full(Some(channel)),
            reset_pending: self.is_resetting(channel),
            may_interrupt: self.end.may_interrupt(channel),
        }
    }

    /// Whether the send queue of a call takes no packet. Without a call it takes none.
    pub(crate) fn is_full(&self, call: Option<u8>) -> bool
        ensures { result ≡ (spec.condition call self.now).queue_full }
    {
        match call {
            Some(channel) => self.end.room(channel) == 0,
            None => true,
        }
    }

    fn is_resetting(&self, channel: u8) -> bool
        ensures { result ≡ spec.is_resetting (machine.flow_refusal self.now.end.layer channel) }
    {
        matches!(self.end.may_send(channel), Err(ChannelFault::Resetting))
    }
}
