//! The words of a script that stand for themselves.
ghost use Rattle.std.specs.Prelude.{◌≡◌, bytes_eq};
ghost use Rattle.net_files.specs.Reading.{command_word, event_word, request_word};
ghost use Rattle.net_files.specs.Reading.{switch_of, direction_of, flags_of, lone_timer, numbered_timer};

use frame_lines::Direction;
use link_timers::TimerId;

/// The first word of a line.
#[derive(Clone, Copy)]
pub(crate) enum CommandWord {
    Key,
    Flow,
    Tick,
    Trace,
    Check,
    /// The name of one event.
    Event(EventWord),
}

/// The name of an event.
#[derive(Clone, Copy)]
pub(crate) enum EventWord {
    Break,
    Idle,
    Print,
    Call,
    Take,
    Deliver,
    Lose,
    Expire,
    Relink,
    Restart,
    /// What is asked of a call.
    Ask(RequestWord),
}

/// What is asked of a call.
#[derive(Clone, Copy)]
pub(crate) enum RequestWord {
    Say,
    Interrupt,
    Answer,
    Refuse,
    Reset,
    Clear,
    Stop,
    Go,
}

impl CommandWord {
    /// The command that a word names.
    pub(crate) fn named(word: &[u8]) -> Option<CommandWord>
        ensures { result ≡ command_word word.now }
    {
        if spells(word, b"key") {
            Some(CommandWord::Key)
        } else if spells(word, b"flow") {
            Some(CommandWord::Flow)
        } else if spells(word, b"tick") {
            Some(CommandWord::Tick)
        } else if spells(word, b"trace") {
            Some(CommandWord::Trace)
        } else if spells(word, b"check") {
            Some(CommandWord::Check)
        } else {
            EventWord::named(word).map(CommandWord::Event)
        }
    }
}

impl EventWord {
    /// The event that a word names.
    fn named(word: &[u8]) -> Option<EventWord>
        ensures { result ≡ event_word word.now }
    {
        if spells(word, b"break") {
            Some(EventWord::Break)
        } else if spells(word, b"idle") {
            Some(EventWord::Idle)
        } else if spells(word, b"print") {
            Some(EventWord::Print)
        } else if spells(word, b"call") {
            Some(EventWord::Call)
        } else if spells(word, b"take") {
            Some(EventWord::Take)
        } else if spells(word, b"deliver") {
            Some(EventWord::Deliver)
        } else if spells(word, b"lose") {
            Some(EventWord::Lose)
        } else if spells(word, b"expire") {
            Some(EventWord::Expire)
        } else if spells(word, b"relink") {
            Some(EventWord::Relink)
        } else if spells(word, b"restart") {
            Some(EventWord::Restart)
        } else {
            RequestWord::named(word).map(EventWord::Ask)
        }
    }
}

impl RequestWord {
    /// What a word asks of a call.
    fn named(word: &[u8]) -> Option<RequestWord>
        ensures { result ≡ request_word word.now }
    {
        if spells(word, b"say") {
            Some(RequestWord::Say)
        } else if spells(word, b"int") {
            Some(RequestWord::Interrupt)
        } else if spells(word, b"answer") {
            Some(RequestWord::Answer)
        } else if spells(word, b"refuse") {
            Some(RequestWord::Refuse)
        } else if spells(word, b"reset") {
            Some(RequestWord::Reset)
        } else if spells(word, b"clear") {
            Some(RequestWord::Clear)
        } else if spells(word, b"stop") {
            Some(RequestWord::Stop)
        } else if spells(word, b"go") {
            Some(RequestWord::Go)
        } else {
            None
        }
    }
}

/// `on` or `off`.
pub(crate) fn switch_of(word: &[u8]) -> Option<bool>
    ensures { result ≡ switch_of word.now }
{
    match word {
        b"on" => Some(true),
        b"off" => Some(false),
        _ => None,
    }
}

/// `>` for frames of the DTE, `<` for those of the DCE.
pub(crate) fn direction_of(word: &[u8]) -> Option<Direction>
    ensures { result ≡ direction_of word.now }
{
    match word {
        b">" => Some(Direction::FromDte),
        b"<" => Some(Direction::FromDce),
        _ => None,
    }
}

/// Whether data is qualified, and whether its delivery is to be confirmed.
pub(crate) fn flags_of(word: &[u8]) -> Option<(bool, bool)>
    ensures { result ≡ flags_of word.now }
{
    match word {
        b"-" => Some((false, false)),
        b"q" => Some((true, false)),
        b"d" => Some((false, true)),
        b"qd" => Some((true, true)),
        _ => None,
    }
}

/// A timer that a node has once at the end of a line.
pub(crate) fn lone_timer(word: &[u8]) -> Option<TimerId>
    ensures { result ≡ lone_timer word.now }
{
    match word {
        b"T1" => Some(TimerId::T1),
        b"T10" => Some(TimerId::T10),
        b"T20" => Some(TimerId::T20),
        _ => None,
    }
}

/// A timer of the logical channel or terminal of this number.
pub(crate) fn numbered_timer(word: &[u8], number: u8) -> Option<TimerId>
    ensures { result ≡ numbered_timer word.now number }
{
    match word {
        b"T11" => Some(TimerId::T11(number)),
        b"T12" => Some(TimerId::T12(number)),
        b"T13" => Some(TimerId::T13(number)),
        b"T21" => Some(TimerId::T21(number)),
        b"T22" => Some(TimerId::T22(number)),
        b"T23" => Some(TimerId::T23(number)),
        b"Idle" => Some(TimerId::Idle(number)),
        _ => None,
    }
}

/// Whether a word is this one. Inlined with a name that is known, it is a few comparisons of octets and no call.
#[inline(always)]
fn spells(word: &[u8], name: &[u8]) -> bool
    ensures { result ≡ bytes_eq word.now name.now }
{
    word.len() == name.len() && word.iter().zip(name).all(|(octet, other)| octet == other)
}
