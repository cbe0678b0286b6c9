//! What the network writes into the book of a line: what a user asked, and what a node noted.
ghost use Rattle.std.specs.Prelude.{◌≡◌, ◌≤◌, [], true, length, vec_capacity};
ghost use Rattle.data_transfer.specs.Cutting.{cut};
ghost use Rattle.data_transfer.specs.Flow.{is_size};
ghost use Rattle.epochs.specs.Packets.{data_packet_of};
ghost use Rattle.call_records.specs.Book.{all_told};
ghost use Rattle.call_records.specs.Room.{opening_notes};
ghost use Rattle.user_nodes.specs.Node.{all_read};
ghost use Rattle.user_nodes.specs.NodeView.{node_of};
ghost use Rattle.user_nodes.specs.Notes.{at_host, user_notes};
ghost use Rattle.user_nodes.specs.Turn.{all_sent, told};
ghost use Rattle.user_nodes.specs.Writing.{request_written, IsShort, IsRoomFor};

use crate::attachment::Attachment;
use crate::node::Node;
use crate::note::{CallUser, MOST_NOTES, UserNote, list_layer_note};
use crate::pad_notes::write_pad_notes;
use call_records::Book;
use data_transfer::full_packets;
use epochs::PassedPacket;
use link_timers::Role;
use packet_host::{Host, HostRequest};

/// Writes what a host was asked on a channel and did not refuse, on a line of this packet size. The book has room for
/// it: a message takes eight places at most.
pub fn write_request(book: &mut Book, role: Role, channel: u8, size: u16, request: &HostRequest)
    requires size { is_size size ≡ true }
    requires short { IsShort request.now }
    requires room { 8 ≤ book.old.room }
    ensures { book.new.book ≡ request_written size role channel request.now book.old.book }
{
    match request {
        HostRequest::Answer => book.answer(role, channel),
        HostRequest::Refuse | HostRequest::Clear => book.close(role, channel),
        HostRequest::Say {
            octets,
            qualified,
            delivery,
        } => {
            let packet = PassedPacket {
                octets: octets.as_slice(),
                more: false,
                qualified: *qualified,
                delivery: *delivery,
            };
            write_packets(book, role, channel, size, packet);
        }
        HostRequest::Interrupt { octets } => book.interrupt(role, channel, octets.as_slice()),
        HostRequest::Reset => book.renew(role, channel),
        HostRequest::Stop | HostRequest::Go => {}
    }
}

/// Reads the notes of an event at a node, and writes them. `notes` lists what its users are told, in order; it is empty
/// before, with [`MOST_NOTES`] places.
#[inline(always)]
pub fn write_notes(node: &mut Node, at: Attachment, book: &mut Book, notes: &mut Vec<UserNote>)
    requires room { IsRoomFor (node_of node.old) book.old.room book.old.pairs }
    requires empty { notes.old.items ≡ [] }
    requires capacity { MOST_NOTES ≤ vec_capacity notes.old }
    ensures node { node_of node.new ≡ (told at.role (node_of node.old) book.old.book).node }
    ensures book { book.new.book ≡ (told at.role (node_of node.old) book.old.book).book }
    ensures notes { notes.new.items ≡ user_notes at.node (told at.role (node_of node.old) book.old.book).notes }
    ensures kept { vec_capacity notes.new ≡ vec_capacity notes.old }
{
    match node {
        Node::Pad(pad) => {
            if pad.waiting_notes() > 0 {
                write_pad_notes(pad, at, book, notes);
            }
        }
        Node::Host(host) => {
            if host.waiting_notes() > 0 {
                write_host_notes(host, at, book, notes);
            }
        }
    }
}

/// Writes a packet, cut to packets of this size.
fn write_packets(book: &mut Book, role: Role, channel: u8, size: u16, packet: PassedPacket<'_>)
    requires size { is_size size ≡ true }
    requires fits { length packet.octets.now ≤ 1024 }
    requires room { 8 ≤ book.old.room }
    ensures { book.new.book ≡ all_sent role channel (cut size (data_packet_of packet.entry)) book.old.book }
{
    let mut rest = packet.octets;
    for _ in 0..full_packets(rest, size) {
        let (full, others) = rest.split_at(usize::from(size));
        let front = PassedPacket {
            octets: full,
            more: true,
            qualified: packet.qualified,
            delivery: false,
        };
        book.send(role, channel, front);
        rest = others;
    }
    let last = PassedPacket {
        octets: rest,
        more: packet.more,
        qualified: packet.qualified,
        delivery: packet.delivery,
    };
    book.send(role, channel, last);
}

/// Reads the notes of a host, writes them, and lists those that its user is told.
#[inline(never)]
fn write_host_notes(host: &mut Host, at: Attachment, book: &mut Book, notes: &mut Vec<UserNote>)
    requires opening { opening_notes host.old.notes ≤ 1 }
    requires room { opening_notes host.old.notes ≤ book.old.room }
    requires empty { notes.old.items ≡ [] }
    requires capacity { MOST_NOTES ≤ vec_capacity notes.old }
    ensures host { host.new ≡ all_read host.old }
    ensures book { book.new.book ≡ all_told at.role host.old.notes book.old.book }
    ensures notes { notes.new.items ≡ user_notes at.node (at_host host.old.notes) }
    ensures kept { vec_capacity notes.new ≡ vec_capacity notes.old }
{
    for _ in 0..host.waiting_notes() {
        let Some(note) = host.first_note() else {
            return;
        };
        book.tell(at.role, note);
        list_layer_note(at.node, CallUser::Host, note, notes);
        let _ = host.notes();
    }
}
