//! The built-in services of a host, and a call of one.
use std::alloc::{AllocError, Global};
use std::mem;

/// How many octets a message of a service has at most.
const MOST_MESSAGE: usize = 1024;

/// A built-in service, which answers each call at its host.
#[derive(Clone, Copy, PartialEq, Eq)]
pub enum BuiltIn {
    /// Says back what it takes.
    Echo,
    /// Says the time, and clears the call once that was taken.
    Time,
    /// Takes what comes.
    Discard,
}

/// What a call is at.
#[derive(Clone, Copy, PartialEq, Eq)]
enum Stage {
    /// There is no call.
    Idle,
    /// A call came in.
    Ringing,
    /// The call was answered.
    Open,
    /// All was said, and is to be confirmed.
    Said,
    /// The call is to be cleared.
    Over,
}

/// What is to be done next for a call.
#[derive(Clone, Copy, PartialEq, Eq)]
pub(crate) enum Turn {
    Rest,
    Answer,
    Refuse,
    Take,
    SayHeld,
    SayTime,
    AwaitConfirmation,
    Clear,
}

/// A logical channel of a host: what its call is at, and what was taken and is to be said.
#[derive(Drop)]
pub(crate) struct Call {
    stage: Stage,
    held: Vec<u8>,
}

impl Call {
    /// No call, and room for a message.
    pub(crate) fn new(alloc: Global) -> Result<Self, AllocError> {
        Ok(Call {
            stage: Stage::Idle,
            held: Vec::with_capacity(alloc, MOST_MESSAGE)?,
        })
    }

    /// What a service does next for it. A host without one refuses it.
    pub(crate) fn turn(&self, service: Option<BuiltIn>) -> Turn {
        match self.stage {
            Stage::Idle => Turn::Rest,
            Stage::Ringing if service.is_none() => Turn::Refuse,
            Stage::Ringing => Turn::Answer,
            Stage::Said => Turn::AwaitConfirmation,
            Stage::Over => Turn::Clear,
            Stage::Open => match service {
                Some(BuiltIn::Echo) if !self.held.is_empty() => Turn::SayHeld,
                Some(BuiltIn::Time) => Turn::SayTime,
                Some(BuiltIn::Echo | BuiltIn::Discard) => Turn::Take,
                None => Turn::Clear,
            },
        }
    }

    /// A call came in.
    pub(crate) fn ring(&mut self) {
        self.stage = Stage::Ringing;
        self.held.clear();
    }

    /// It was answered, if it could be.
    pub(crate) fn answered(&mut self, done: bool) {
        self.stage = if done { Stage::Open } else { Stage::Idle };
    }

    /// It was reset: what was on the way is gone.
    pub(crate) fn reset(&mut self) {
        if self.stage == Stage::Said {
            self.stage = Stage::Open;
        }
        self.held.clear();
    }

    /// It is over.
    pub(crate) fn end(&mut self) {
        self.stage = Stage::Idle;
        self.held.clear();
    }

    /// All was said.
    pub(crate) fn said_all(&mut self) {
        self.stage = Stage::Said;
    }

    /// Holds what was taken, and clears the call if there is no memory for it.
    pub(crate) fn hold(&mut self, octets: &[u8]) {
        if self.held.extend_from_slice(octets).is_err() {
            self.stage = Stage::Over;
        }
    }

    /// Gives out what is held, to be said.
    pub(crate) fn lend_held(&mut self, alloc: Global) -> Vec<u8> {
        mem::replace(&mut self.held, Vec::new(alloc))
    }

    /// Takes it back, and forgets it if it was said or the call is over.
    pub(crate) fn give_back(&mut self, octets: Vec<u8>, said: bool) {
        self.held = octets;
        if said || self.stage != Stage::Open {
            self.held.clear();
        }
    }
}
