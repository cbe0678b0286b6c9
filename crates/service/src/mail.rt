//! What hosts with bridges were told, until their bridges hear it.
use crate::bridges::{BridgeBindings, kept};
use crate::hosts::HostChannel;
use arrayvec::ArrayVec;
use circular_buffer::HeapCircularBuffer;
use line_sim::{NoteKind, UserNote};
use packet_codec::Address;
use std::alloc::{AllocError, Global};

/// How many notes an event at a host brings at most.
const MOST_NOTES: usize = 104;

/// How many notes the requests of a bridge bring in a round at most.
const MOST_ASKED: usize = 32;

/// What became of a call at a host with bridges.
#[derive(Drop)]
pub(crate) struct Letter {
    pub(crate) at: HostChannel,
    pub(crate) news: News,
}

/// What changed.
#[derive(Drop)]
pub(crate) enum News {
    /// A call came, with these addresses, if they are told, and this user data.
    Rings {
        calling: Option<Address>,
        called: Option<Address>,
        user_data: ArrayVec<u8, 16>,
    },
    /// The far end accepted the call.
    Connected,
    /// The call is over.
    Cleared {
        cause: u8,
        diagnostic: u8,
    },
    /// The call was reset.
    Reset,
}

/// The notes of all hosts with bridges, old to new.
#[derive(Drop)]
pub(crate) struct Mail {
    services: Vec<usize>,
    callers: Vec<usize>,
    letters: HeapCircularBuffer<Letter>,
}

impl Mail {
    /// No notes of the hosts that are bridged. There is room for all that one round brings: a frame at each of them, a
    /// timer that expires, and the requests of each bridge.
    pub(crate) fn new(alloc: Global, bindings: &BridgeBindings<'_>) -> Result<Self, AllocError> {
        let mut services = Vec::new(alloc);
        for service in bindings.services {
            services.push(service.node)?;
        }
        let mut callers = Vec::new(alloc);
        for caller in bindings.callers {
            callers.push(caller.node())?;
        }
        let events = services
            .len()
            .saturating_add(callers.len())
            .saturating_add(1);
        let asked = usize::from(bindings.connections).saturating_mul(MOST_ASKED);
        let room = events.saturating_mul(MOST_NOTES).saturating_add(asked);
        Ok(Mail {
            services,
            callers,
            letters: HeapCircularBuffer::with_capacity(alloc, room)?,
        })
    }

    /// Hears what a host was told, and says whether that is for its bridges alone.
    pub(crate) fn hear(&mut self, note: &UserNote) -> bool {
        let is_service = self.services.contains(&note.node);
        if is_service || self.callers.contains(&note.node) && !is_call(note) {
            if let Some(news) = news_of(&note.kind) {
                let at = HostChannel::of(note);
                let _ = self.letters.try_push_back(Letter { at, news });
            }
        }
        is_service
    }

    /// How many notes wait.
    pub(crate) fn len(&self) -> usize {
        self.letters.len()
    }

    /// The next note.
    pub(crate) fn next(&mut self) -> Option<Letter> {
        self.letters.pop_front()
    }
}

/// Whether it is the note of a call that came.
fn is_call(note: &UserNote) -> bool {
    matches!(note.kind, NoteKind::Incoming { .. })
}

/// What a note says of the call of a host, if anything.
fn news_of(kind: &NoteKind) -> Option<News> {
    match *kind {
        NoteKind::Dialled { .. } => None,
        NoteKind::Incoming {
            calling,
            called,
            ref user_data,
        } => Some(News::Rings {
            calling,
            called: Some(called),
            user_data: kept(user_data.octets()),
        }),
        NoteKind::Connected => Some(News::Connected),
        NoteKind::Cleared { cause, diagnostic } => Some(News::Cleared { cause, diagnostic }),
        NoteKind::Reset { .. } => Some(News::Reset),
    }
}
