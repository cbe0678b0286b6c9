//! Packets as the gateway reads them and passes them on.
ghost use Rattle.std.specs.Prelude.{◌≡◌, ◌≤◌, ◌∷◌, ◌++◌, length, take, drop, IfOk};
ghost use Rattle.packet_codec.specs.Packet.{IsPacket, spelling};
ghost use Rattle.packet_codec.specs.View.{answer_view, content_view, view};
ghost use Rattle.xot_codec.specs.Facilities.{put};
ghost use Rattle.xot_gateway.specs.Packets.{
  accepted_facilities,
  address_octets,
  after_field,
  clear_on,
  confirmation_on,
  first_field,
  kept,
  most_packet,
  over_line,
  prepared,
  read_on,
  restart_confirmation_of,
  restart_of,
  with_field,
};

use crate::line::XotLine;
use packet_codec::diagnostic::NO_INFORMATION;
use packet_codec::{
    Content, MAX_CALL_USER_DATA, MAX_USER_DATA, Packet, PacketBuf, PacketFault, read_packet,
    write_packet,
};
use xot_codec::{LineFlow, MAX_XOT_PACKET, XotPacket, put_facilities};

/// The third octet of a Clear (X.25 5.2.3).
const CLEAR: u8 = 0x13;

/// The third octet of a Clear Confirmation (X.25 5.2.4).
const CLEAR_CONFIRMATION: u8 = 0x17;

/// The octets of the cause and the diagnostic of a Clear.
const CAUSE_LENGTH: usize = 2;

/// The octets of a packet up to its third one, which says its type.
const HEADER: usize = 3;

/// The length of the facility field that the gateway writes.
const FACILITIES: u8 = 6;

/// A packet that was read: what it says, and its octets.
#[derive(Clone, Copy)]
pub(crate) struct ReadPacket<'a> {
    pub(crate) content: &'a Content<'a>,
    pub(crate) octets: &'a [u8],
}

/// A packet of the connection as the line has it: on the channel of a place, since its own has no meaning, a long Clear
/// cut to 5 octets, and a long Clear Confirmation to 3. Fewer than three octets are no packet.
pub(crate) fn prepare(place: u8, octets: &[u8]) -> XotPacket
    requires { length octets.now ≤ MAX_XOT_PACKET }
    ensures { result.items ≡ prepared place octets.now }
{
    let mut packet = XotPacket::new();
    let channel = u16::from(place) + 1;
    if let [first, _, third, rest @ ..] = octets {
        packet.push(first / 16 * 16 + (channel / 256) as u8);
        packet.push((channel % 256) as u8);
        packet.push(*third);
        let _ = packet.try_extend_from_slice(kept(*third, rest));
    }
    packet
}

/// What is kept of the octets behind the third one.
fn kept(third: u8, rest: &[u8]) -> &[u8]
    ensures octets { result.now ≡ kept third rest.now }
    ensures fits { length result.now ≤ length rest.now }
{
    match third {
        CLEAR if rest.len() > CAUSE_LENGTH => &rest[..CAUSE_LENGTH],
        CLEAR_CONFIRMATION => &rest[..0],
        _ => rest,
    }
}

/// What the octets of a packet say on the line (X.25 5). The faults are those of `read_packet`.
pub(crate) fn read_on(line: XotLine, octets: &[u8]) -> Result<Packet<'_>, PacketFault>
    ensures answer { answer_view result ≡ read_on line octets.now }
    // What goes to the line of it fits there.
    ensures short { IfOk result (λ p. length (over_line (content_view p.content) octets.now) ≤ most_packet line) }
{
    read_packet(
        octets,
        line.numbering,
        line.flow.size.min(MAX_USER_DATA as u16),
    )
}

/// The facility field of a Call Accepted: none if it has no block, or no facilities behind its addresses.
pub(crate) fn accepted_facilities(octets: &[u8]) -> &[u8]
    ensures { result.now ≡ accepted_facilities octets.now }
{
    match octets {
        [_, _, _, lengths, rest @ ..] => first_field(after_addresses(*lengths, rest)),
        _ => &[],
    }
}

/// The octets of two addresses, by their lengths.
fn address_octets(lengths: u8) -> usize
    ensures octets { result ≡ address_octets lengths }
    ensures fits { result ≤ 15 }
{
    (usize::from(lengths % 16) + usize::from(lengths / 16) + 1) / 2
}

/// What follows the addresses of these lengths.
fn after_addresses(lengths: u8, rest: &[u8]) -> &[u8]
    ensures { result.now ≡ drop (address_octets lengths) rest.now }
{
    let octets = address_octets(lengths);
    if octets <= rest.len() {
        &rest[octets..]
    } else {
        &[]
    }
}

/// The field that stands first, behind its length.
fn first_field(octets: &[u8]) -> &[u8]
    ensures { result.now ≡ first_field octets.now }
{
    match octets {
        [length, field @ ..] if usize::from(*length) < field.len() => {
            &field[..usize::from(*length)]
        }
        [_, field @ ..] => field,
        [] => &[],
    }
}

/// What follows the field that stands first, behind its length.
fn after_field(octets: &[u8]) -> &[u8]
    ensures { result.now ≡ after_field octets.now }
{
    match octets {
        [length, rest @ ..] if usize::from(*length) < rest.len() => &rest[usize::from(*length)..],
        _ => &[],
    }
}

/// The first octets of a text, at most so many.
fn front(octets: &[u8], most: usize) -> &[u8]
    ensures octets { result.now ≡ take most octets.now }
    ensures fits { length result.now ≤ most }
{
    if most < octets.len() {
        &octets[..most]
    } else {
        octets
    }
}

/// Writes a Call with another facility field, of at most 6 octets.
fn write_call(octets: &[u8], field: &[u8], out: &mut XotPacket)
    requires { length field.now ≤ 6 }
    ensures { out.new.items ≡ with_field field.now octets.now }
{
    out.clear();
    let [first, second, third, lengths, rest @ ..] = octets else {
        return;
    };
    let addresses = front(rest, address_octets(*lengths));
    let user_data = front(
        after_field(after_addresses(*lengths, rest)),
        MAX_CALL_USER_DATA,
    );
    let _ = out.try_extend_from_slice(&[*first, *second, *third, *lengths]);
    let _ = out.try_extend_from_slice(addresses);
    out.push(field.len() as u8);
    let _ = out.try_extend_from_slice(field);
    let _ = out.try_extend_from_slice(user_data);
}

/// Writes a packet of the connection for the line: a Call has no facilities, and a Call Accepted has three octets.
pub(crate) fn write_over_line(content: &Content, octets: &[u8], out: &mut XotPacket)
    requires { length octets.now ≤ MAX_XOT_PACKET }
    ensures { out.new.items ≡ over_line (content_view content.now) octets.now }
{
    match content {
        Content::CallRequest(_) => write_call(octets, &[], out),
        Content::CallAccepted => replace(front(octets, HEADER), out),
        _ => replace(octets, out),
    }
}

/// Puts octets in the place of what a packet has.
fn replace(octets: &[u8], out: &mut XotPacket)
    requires { length octets.now ≤ MAX_XOT_PACKET }
    ensures { out.new.items ≡ octets.now }
{
    out.clear();
    let _ = out.try_extend_from_slice(octets);
}

/// Writes a Call of the line for the connection, with packet size and window of the line.
pub(crate) fn write_call_over(flow: LineFlow, octets: &[u8], out: &mut XotPacket)
    ensures { out.new.items ≡ with_field (put flow) octets.now }
{
    write_call(octets, &put_facilities(flow), out);
}

/// Writes a Call Accepted of the line for the connection, with packet size and window of the line, and no addresses.
pub(crate) fn write_accepted_over(flow: LineFlow, octets: &[u8], out: &mut XotPacket)
    ensures { out.new.items ≡ take 3 octets.now ++ 0 ∷ 6 ∷ put flow }
{
    replace(front(octets, HEADER), out);
    out.push(0);
    out.push(FACILITIES);
    let _ = out.try_extend_from_slice(&put_facilities(flow));
}

/// Writes a Clear with diagnostic 0 on the channel of a place.
pub(crate) fn write_clear(line: XotLine, place: u8, cause: u8, out: &mut XotPacket)
    ensures { out.new.items ≡ clear_on line place cause }
{
    let packet = Packet {
        numbering: line.numbering,
        channel: u16::from(place) + 1,
        content: Content::ClearRequest {
            cause,
            diagnostic: NO_INFORMATION,
        },
    };
    write(&packet, out);
}

/// Writes a Clear Confirmation on the channel of a place.
pub(crate) fn write_confirmation(line: XotLine, place: u8, out: &mut XotPacket)
    ensures { out.new.items ≡ confirmation_on line place }
{
    let packet = Packet {
        numbering: line.numbering,
        channel: u16::from(place) + 1,
        content: Content::ClearConfirmation,
    };
    write(&packet, out);
}

/// Writes a Restart Request with cause 0 and diagnostic 0 (X.25 5.5.1).
pub(crate) fn write_restart(line: XotLine, out: &mut XotPacket)
    ensures { out.new.items ≡ restart_of line }
{
    let packet = Packet {
        numbering: line.numbering,
        channel: 0,
        content: Content::RestartRequest {
            cause: 0,
            diagnostic: NO_INFORMATION,
        },
    };
    write(&packet, out);
}

/// Writes a Restart Confirmation (X.25 5.5.2).
pub(crate) fn write_restart_confirmation(line: XotLine, out: &mut XotPacket)
    ensures { out.new.items ≡ restart_confirmation_of line }
{
    let packet = Packet {
        numbering: line.numbering,
        channel: 0,
        content: Content::RestartConfirmation,
    };
    write(&packet, out);
}

/// Writes a packet of the gateway itself.
fn write(packet: &Packet, out: &mut XotPacket)
    requires { IsPacket MAX_USER_DATA (view packet.now) }
    ensures { out.new.items ≡ spelling (view packet.now) }
{
    let mut octets = PacketBuf::new();
    write_packet(packet, &mut octets);
    replace(octets.as_slice(), out);
}
