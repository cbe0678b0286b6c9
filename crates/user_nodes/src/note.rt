//! What users are told of their calls.
ghost use Rattle.std.specs.Prelude.{◌≡◌, ◌<◌, ◌≤◌, ◌++◌, length, vec_len, vec_capacity};
ghost use Rattle.packet_codec.specs.Packet.{IsCallValue};
ghost use Rattle.packet_codec.specs.View.{call_view};
ghost use Rattle.packet_channel.specs.NoteView.{note_of};
ghost use Rattle.call_records.specs.Book.{address_of};
ghost use Rattle.pad_ports.specs.NoteView.{pad_note_of};
ghost use Rattle.user_nodes.specs.Notes.{told_by_layer, told_by_pad};
ghost use Rattle.user_nodes.specs.declared.note.NoteKind.TheVariants as kind_is;

use arrayvec::ArrayVec;
use call_records::calling_of;
use packet_codec::{Address, CallData, MAX_CALL_USER_DATA};
use packet_layer::LayerNote;
use std::marker::Model;
use x25_pad::{ChannelNote, PadNote};

/// The most notes of one event of a node: those of a PAD.
pub const MOST_NOTES: usize = x25_pad::MOST_NOTES;

/// A change of a call: one that the user of a host did not make, or any at a PAD.
#[derive(Drop)]
pub struct UserNote {
    /// The number of the node.
    pub node: usize,
    /// The logical channel of the call.
    pub channel: u8,
    pub user: CallUser,
    pub kind: NoteKind,
}

/// Who is told it.
#[derive(Clone, Copy, PartialEq, Eq)]
pub enum CallUser {
    /// The user of a host.
    Host,
    /// The terminal of a PAD that has the call, if one has it. A call that comes in is no terminal's yet: the note after
    /// it says for which one it was accepted, or that it was cleared.
    Terminal(Option<u8>),
}

/// What changed.
#[derive(Drop)]
pub enum NoteKind {
    /// A terminal placed a call of this address (X.28 3.2.2).
    Dialled {
        called: Address,
    },
    /// A call came in: the address that it gives as the calling one, if it gives one, the called one, and its user data
    /// (X.25 4.1.3).
    Incoming {
        calling: Option<Address>,
        called: Address,
        user_data: CallUserData,
    },
    /// The far end accepted the call (X.25 4.1.5), or a PAD accepted it for the terminal.
    Connected,
    /// The call is over, for this cause and diagnostic (X.25 5.2.4). Those of a PAD that cleared it are 0.
    Cleared {
        cause: u8,
        diagnostic: u8,
    },
    /// The call was reset, for this cause and diagnostic (X.25 5.4.3). Those of a PAD that reset it are 0.
    Reset {
        cause: u8,
        diagnostic: u8,
    },
}

/// The user data of a call, kept in place: at most 16 octets (X.25 5.2.1).
#[derive(Drop)]
pub struct CallUserData {
    octets: ArrayVec<u8, MAX_CALL_USER_DATA>,
}

impl Model for CallUserData {
    ghost use Rattle.std.specs.Prelude.{List, ℕ};

    ghost Value = { List ℕ };

    ghost view = { λ d. d.octets.items };
}

impl CallUserData {
    /// Keeps at most 16 octets.
    fn new(octets: &[u8]) -> Self
        requires { length octets.now ≤ 16 }
        ensures { result ≡ octets.now }
    {
        let mut kept = ArrayVec::new();
        let _ = kept.try_extend_from_slice(octets);
        CallUserData { octets: kept }
    }

    /// The octets.
    pub fn octets(&self) -> &[u8]
        ensures { result.now ≡ self.now }
    {
        self.octets.as_slice()
    }
}

/// What is told of a call that came in with this call block.
fn incoming(call: &CallData<'_>) -> NoteKind
    requires { IsCallValue (call_view call.now) }
    ensures { result ≡ kind_is.Incoming (address_of (call_view call.now).calling) call.now.called call.now.user_data.now }
{
    NoteKind::Incoming {
        calling: calling_of(call),
        called: call.called,
        user_data: CallUserData::new(call.user_data),
    }
}

/// Lists what a user is told by a note of a packet layer, if anything: neither that an interrupt was confirmed nor that
/// packets sent were covered.
pub(crate) fn list_layer_note(
    node: usize,
    user: CallUser,
    note: &LayerNote,
    notes: &mut Vec<UserNote>,
)
    requires { vec_len notes.old < vec_capacity notes.old }
    ensures listed { notes.new.items ≡ notes.old.items ++ told_by_layer node user (note_of note.now) }
    ensures capacity { vec_capacity notes.new ≡ vec_capacity notes.old }
{
    let (channel, kind) = match *note {
        LayerNote::Incoming(channel, ref call) => (channel, incoming(&call.data())),
        LayerNote::Connected(channel) => (channel, NoteKind::Connected),
        LayerNote::Closed {
            channel,
            cause,
            diagnostic,
            ..
        } => (channel, NoteKind::Cleared { cause, diagnostic }),
        LayerNote::Reset {
            channel,
            cause,
            diagnostic,
            ..
        } => (channel, NoteKind::Reset { cause, diagnostic }),
        LayerNote::InterruptConfirmed(_) | LayerNote::Covered { .. } => return,
    };
    notes.push_reserved(UserNote {
        node,
        channel,
        user,
        kind,
    });
}

/// Lists what a terminal is told by a note of its PAD, if anything: neither what was typed nor what was sent or taken.
pub(crate) fn list_pad_note(node: usize, note: &PadNote, notes: &mut Vec<UserNote>)
    requires { vec_len notes.old < vec_capacity notes.old }
    ensures listed { notes.new.items ≡ notes.old.items ++ told_by_pad node note.now.terminal (pad_note_of note.now.note) }
    ensures capacity { vec_capacity notes.new ≡ vec_capacity notes.old }
{
    let user = CallUser::Terminal(note.terminal);
    let (channel, kind) = match &note.note {
        ChannelNote::Told(note) => return list_layer_note(node, user, note, notes),
        ChannelNote::Placed { channel, address } => (
            *channel,
            NoteKind::Dialled { called: *address },
        ),
        ChannelNote::Accepted(channel) => (*channel, NoteKind::Connected),
        ChannelNote::Cleared(channel) => (
            *channel,
            NoteKind::Cleared {
                cause: 0,
                diagnostic: 0,
            },
        ),
        ChannelNote::Reset(channel) => (
            *channel,
            NoteKind::Reset {
                cause: 0,
                diagnostic: 0,
            },
        ),
        ChannelNote::Edited { .. }
        | ChannelNote::Paused { .. }
        | ChannelNote::Sent { .. }
        | ChannelNote::Interrupted { .. }
        | ChannelNote::Took { .. } => return,
    };
    notes.push_reserved(UserNote {
        node,
        channel,
        user,
        kind,
    });
}
