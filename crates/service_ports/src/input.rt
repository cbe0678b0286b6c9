//! Reading what a client of telnet sends.
ghost use Rattle.std.specs.Prelude.{◌≡◌};
ghost use Rattle.service_ports.specs.Commands.{is_offered};
ghost use Rattle.service_ports.specs.Reading.{new_reader, reads, reads_text, reads_command, reads_request, refuses_own, answers_offer};

use crate::command::{ECHO, IAC, SUPPRESS_GO_AHEAD, TelnetCommand};
use crate::options::OptionSet;

pub(crate) const NUL: u8 = 0;

pub(crate) const LF: u8 = 10;

pub(crate) const CR: u8 = 13;

/// The end of a subnegotiation.
const SE: u8 = 240;
/// A break.
const BRK: u8 = 243;
/// The process of the user is to be interrupted.
const IP: u8 = 244;
/// The beginning of a subnegotiation.
const SB: u8 = 250;

pub(crate) const WILL: u8 = 251;

pub(crate) const WONT: u8 = 252;

pub(crate) const DO: u8 = 253;

pub(crate) const DONT: u8 = 254;
/// The first octet that may be the code of a command.
const FIRST_CODE: u8 = 236;

/// What a client types.
#[derive(Clone, Copy, PartialEq, Eq)]
pub enum Key {
    /// A key of this octet.
    Octet(u8),
    /// A break.
    Break,
}

/// What a reader heard in an octet.
#[derive(Clone, Copy, PartialEq, Eq)]
pub enum Heard {
    /// Nothing for anybody.
    Nothing,
    /// A key.
    Typed(Key),
    /// A request, which gets this answer.
    Answered(TelnetCommand),
}

/// A request of a client about an option.
#[derive(Clone, Copy)]
enum Request {
    Will,
    Wont,
    Do,
    Dont,
}

/// Where a reader is.
#[derive(Clone, Copy)]
enum Place {
    Text,
    /// After a CR of the text.
    AfterReturn,
    AfterIac,
    AfterRequest(Request),
    /// In a subnegotiation.
    Within,
    /// In a subnegotiation, after IAC.
    WithinAfterIac,
}

/// A reader of what one client sends: where it is, and which options it answered, of either side.
#[derive(Drop)]
pub struct TelnetReader {
    place: Place,
    own: OptionSet,
    others: OptionSet,
}

impl TelnetReader {
    /// A reader of a new connection.
    pub fn new() -> Self
        ensures { result ≡ new_reader }
    {
        TelnetReader {
            place: Place::Text,
            own: OptionSet::new(),
            others: OptionSet::new(),
        }
    }

    /// Reads an octet (RFC 854).
    #[tactic(auto, unfolding(crate::specs::Reading::reads))]
    pub fn read(&mut self, octet: u8) -> Heard
        ensures { reads self.old octet ≡ record { reader = self.new; heard = result } }
    {
        match self.place {
            Place::Text => self.read_text(octet),
            Place::AfterReturn if octet == NUL || octet == LF => self.skip_to(Place::Text),
            Place::AfterReturn => self.read_text(octet),
            Place::AfterIac => self.read_command(octet),
            Place::AfterRequest(request) => self.read_request(request, octet),
            Place::Within if octet == IAC => self.skip_to(Place::WithinAfterIac),
            Place::WithinAfterIac if octet == SE => self.skip_to(Place::Text),
            Place::Within | Place::WithinAfterIac => self.skip_to(Place::Within),
        }
    }

    fn skip_to(&mut self, place: Place) -> Heard
        ensures after { self.new ≡ record self.old { place = place } }
        ensures heard { result ≡ Heard.Nothing }
    {
        self.place = place;
        Heard::Nothing
    }

    fn read_text(&mut self, octet: u8) -> Heard
        ensures { reads_text self.old octet ≡ record { reader = self.new; heard = result } }
    {
        if octet == IAC {
            return self.skip_to(Place::AfterIac);
        }
        self.place = if octet == CR {
            Place::AfterReturn
        } else {
            Place::Text
        };
        Heard::Typed(Key::Octet(octet))
    }

    fn read_command(&mut self, octet: u8) -> Heard
        ensures { reads_command self.old octet ≡ record { reader = self.new; heard = result } }
    {
        match octet {
            IAC => self.type_key(Key::Octet(IAC)),
            BRK | IP => self.type_key(Key::Break),
            SB => self.skip_to(Place::Within),
            WILL => self.skip_to(Place::AfterRequest(Request::Will)),
            WONT => self.skip_to(Place::AfterRequest(Request::Wont)),
            DO => self.skip_to(Place::AfterRequest(Request::Do)),
            DONT => self.skip_to(Place::AfterRequest(Request::Dont)),
            0..FIRST_CODE => self.read_text(octet),
            _ => self.skip_to(Place::Text),
        }
    }

    fn type_key(&mut self, key: Key) -> Heard
        ensures after { self.new ≡ record self.old { place = Place.Text } }
        ensures heard { result ≡ Heard.Typed key }
    {
        self.place = Place::Text;
        Heard::Typed(key)
    }

    fn read_request(&mut self, request: Request, option: u8) -> Heard
        ensures { reads_request request self.old option ≡ record { reader = self.new; heard = result } }
    {
        match request {
            Request::Do if !is_offered(option) => self.refuse_own(option),
            Request::Dont if is_offered(option) => self.refuse_own(option),
            Request::Will => self.answer_offer(option),
            Request::Do | Request::Dont | Request::Wont => self.skip_to(Place::Text),
        }
    }

    fn refuse_own(&mut self, option: u8) -> Heard
        ensures { refuses_own self.old option ≡ record { reader = self.new; heard = result } }
    {
        self.place = Place::Text;
        if self.own.add(option) {
            Heard::Answered(TelnetCommand::Wont(option))
        } else {
            Heard::Nothing
        }
    }

    fn answer_offer(&mut self, option: u8) -> Heard
        ensures { answers_offer self.old option ≡ record { reader = self.new; heard = result } }
    {
        self.place = Place::Text;
        if !self.others.add(option) {
            return Heard::Nothing;
        }
        Heard::Answered(if option == SUPPRESS_GO_AHEAD {
            TelnetCommand::Do(option)
        } else {
            TelnetCommand::Dont(option)
        })
    }
}

/// Whether the server offers this option.
fn is_offered(option: u8) -> bool
    ensures { result ≡ is_offered option }
{
    option == ECHO || option == SUPPRESS_GO_AHEAD
}
