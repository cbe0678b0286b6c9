//! What a PAD noted, written into the book of its line and told to its terminals.
ghost use Rattle.std.specs.Prelude.{◌≡◌, ◌≤◌, ◌-◌, [], length, vec_capacity};
ghost use Rattle.data_transfer.specs.TakenView.{taken_with, HasFewOctets};
ghost use Rattle.epochs.specs.Packets.{data_packet_of};
ghost use Rattle.call_records.specs.Book.{packet_of};
ghost use Rattle.call_records.specs.Room.{taken_room};
ghost use Rattle.call_records.specs.Writes.{all_written, written_by};
ghost use Rattle.call_records.specs.Writes.Write.{Took};
ghost use Rattle.pad_ports.specs.NoteView.{pad_note_of};
ghost use Rattle.pad_ports.specs.TakenView.{taken_of as pad_taken_of};
ghost use Rattle.user_nodes.specs.Notes.{at_pad, user_notes};
ghost use Rattle.user_nodes.specs.PadWriting.{writes_of, without_notes};
ghost use Rattle.user_nodes.specs.PadRoom.{HasRoom, HaveRoom, written};

use crate::attachment::Attachment;
use crate::note::{UserNote, list_pad_note};
use call_records::{Book, EditStep};
use epochs::PassedPacket;
use link_timers::Role;
use packet_layer::{Front, UserData};
use x25_pad::{ChannelNote, Pad, PadTaken};

/// Reads the notes of an event at a PAD, and writes them in order into the book, at the PAD's end of the line. The book
/// has room for them. `notes` lists what the terminals are told, in order; it is empty before, with a place for each.
#[inline(always)]
pub fn write_pad_notes(pad: &mut Pad, at: Attachment, book: &mut Book, notes: &mut Vec<UserNote>)
    requires room { HaveRoom pad.old.line.notes book.old.room book.old.pairs }
    requires empty { notes.old.items ≡ [] }
    requires capacity { length pad.old.line.notes ≤ vec_capacity notes.old }
    ensures pad { pad.new ≡ without_notes pad.old }
    ensures book { book.new.book ≡ all_written at.role (writes_of pad.old.line.notes) book.old.book }
    ensures notes { notes.new.items ≡ user_notes at.node (at_pad pad.old.line.noted_at pad.old.line.notes) }
    ensures kept { vec_capacity notes.new ≡ vec_capacity notes.old }
{
    while let Some(note) = pad.first_note() {
        write_pad_note(book, at.role, &note.note);
        list_pad_note(at.node, note, notes);
        pad.drop_note();
    }
}

/// Writes a note of a PAD into the book, at the PAD's end of the line. The book has room for it.
#[inline(always)]
pub fn write_pad_note(book: &mut Book, role: Role, note: &ChannelNote)
    requires { HasRoom (pad_note_of note.now) book.old.room book.old.pairs }
    ensures { book.new ≡ written role (pad_note_of note.now) book.old }
{
    match note {
        ChannelNote::Told(note) => book.tell(role, note),
        ChannelNote::Placed { channel, address } => book.place(role, *channel, address),
        ChannelNote::Accepted(channel) => book.answer(role, *channel),
        ChannelNote::Cleared(channel) => book.close(role, *channel),
        ChannelNote::Reset(channel) => book.renew(role, *channel),
        ChannelNote::Edited {
            channel,
            octet,
            params,
        } => {
            let step = EditStep::Key {
                octet: *octet,
                params: *params,
            };
            book.edit(role, *channel, step);
        }
        ChannelNote::Paused { channel, params } => {
            book.edit(role, *channel, EditStep::Idle { params: *params });
        }
        ChannelNote::Sent { channel, user_data } => book.send(role, *channel, packet_of(user_data)),
        ChannelNote::Interrupted { channel, octet } => book.interrupt(role, *channel, &[*octet]),
        ChannelNote::Took { channel, taken } => write_pad_taken(book, role, *channel, taken),
    }
}

/// What a PAD sent or took, as a record has it: a packet of one place.
fn packet_of<const N: usize>(user_data: &UserData<N>) -> PassedPacket<'_>
    ensures value { data_packet_of result ≡ packet_of user_data.now }
    ensures fits { length result.octets.now ≤ N }
{
    PassedPacket {
        octets: user_data.octets(),
        more: user_data.more(),
        qualified: user_data.qualified(),
        delivery: user_data.delivery(),
    }
}

/// Writes what a terminal of a PAD took: P(R) may pass a packet at once.
fn write_pad_taken(book: &mut Book, role: Role, channel: u8, taken: &PadTaken)
    requires { 1 ≤ book.old.room }
    ensures { book.new ≡ record {
      book = written_by role (Took channel (pad_taken_of taken.now)) book.old.book;
      room = book.old.room - 1;
      pairs = book.old.pairs;
    } }
{
    match taken {
        PadTaken::Interrupt(data) => book.take_interrupt(role, channel, data.octets()),
        PadTaken::Data(user_data) => {
            book.take_packet(role, channel, packet_of(user_data));
            book.release(role, channel, 1);
        }
    }
}

/// Writes what was taken at an end of a line: P(R) may pass a packet at once.
pub fn write_taken(book: &mut Book, role: Role, channel: u8, front: &Front, octets: &[u8])
    requires few { HasFewOctets front.now octets.now }
    requires room { taken_room (taken_with front.now octets.now) ≤ book.old.room }
    ensures { book.new ≡ record {
      book = written_by role (Took channel (taken_with front.now octets.now)) book.old.book;
      room = book.old.room - taken_room (taken_with front.now octets.now);
      pairs = book.old.pairs;
    } }
{
    book.take(role, channel, front, octets);
    if let Front::Data { .. } = front {
        book.release(role, channel, 1);
    }
}
