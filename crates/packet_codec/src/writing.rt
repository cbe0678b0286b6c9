//! Writing packets.

ghost use Rattle.std.specs.Prelude.{◌≡◌, ◌+◌, ◌/◌, ◌<◌, ◌≤◌, ℕ, [], ◌∷◌, ◌++◌, length, IsTrue};
ghost use Rattle.packet_codec.specs.Address.{MayBeDigits, are_decimal};
ghost use Rattle.packet_codec.specs.Packet.{CallRequest, IsCallValue, IsDataValue, IsPacket, address_part};
ghost use Rattle.packet_codec.specs.Packet.{content_spelling, data_spelling, flow_spelling, header, modulus, packed};
ghost use Rattle.packet_codec.specs.Packet.{plain_header, spelling};
ghost use Rattle.packet_codec.specs.Reading.{reading};
ghost use Rattle.packet_codec.specs.View.{call_view, data_view, view};

use crate::packet::{
    CallData, Content, DataPacket, MAX_PACKET, MAX_USER_DATA, Numbering, Packet, PacketBuf,
};
use arrayvec::ArrayVec;

/// Writes the packet's octets in place of what the buffer has (X.25 5).
///
/// The packet has a spelling. A Restart and its confirmation are on channel 0, all other packets on 1 to 4,095. The
/// numbers are below the modulus of the numbering. The packet has no more octets than its type may have, a Data packet
/// at most 1,024 of user data.
pub fn write_packet(packet: &Packet, buf: &mut PacketBuf)
    requires { IsPacket MAX_USER_DATA (view packet.now) }
    ensures octets { buf.new.items ≡ spelling (view packet.now) }
    // What is written reads back on each line that carries it.
    ensures reads_back { (size : ℕ) → IsPacket size (view packet.now) → reading packet.now.numbering size buf.new.items ≡ Ok (view packet.now) }
{
    write(packet, buf);
}

fn write(packet: &Packet, buf: &mut PacketBuf)
    requires { IsPacket MAX_USER_DATA (view packet.now) }
    ensures { buf.new.items ≡ spelling (view packet.now) }
{
    let (numbering, channel) = (packet.numbering, packet.channel);
    match &packet.content {
        Content::CallRequest(call) => write_call(numbering, channel, call, buf),
        Content::CallAccepted => begin(buf, numbering, channel, 0x0f),
        Content::ClearRequest { cause, diagnostic } => {
            begin(buf, numbering, channel, 0x13);
            append_cause(buf, *cause, *diagnostic);
        }
        Content::ClearConfirmation => begin(buf, numbering, channel, 0x17),
        Content::Data(packet) => write_data(numbering, channel, packet, buf),
        Content::Interrupt(octets) => {
            begin(buf, numbering, channel, 0x23);
            append(buf, octets);
        }
        Content::InterruptConfirmation => begin(buf, numbering, channel, 0x27),
        Content::ReceiveReady(receive) => write_flow(numbering, channel, 1, *receive, buf),
        Content::ReceiveNotReady(receive) => write_flow(numbering, channel, 5, *receive, buf),
        Content::ResetRequest { cause, diagnostic } => {
            begin(buf, numbering, channel, 0x1b);
            append_cause(buf, *cause, *diagnostic);
        }
        Content::ResetConfirmation => begin(buf, numbering, channel, 0x1f),
        Content::RestartRequest { cause, diagnostic } => {
            begin(buf, numbering, channel, 0xfb);
            append_cause(buf, *cause, *diagnostic);
        }
        Content::RestartConfirmation => begin(buf, numbering, channel, 0xff),
    }
}

/// The first three octets without Q and D, in place of what the buffer has.
fn begin(buf: &mut PacketBuf, numbering: Numbering, channel: u16, type_octet: u8)
    requires { channel < 4096 }
    ensures { buf.new.items ≡ plain_header numbering channel type_octet }
{
    begin_with(buf, numbering, (false, false), channel, type_octet);
}

/// The first three octets, with these bits Q and D, in place of what the buffer has.
fn begin_with(
    buf: &mut PacketBuf,
    numbering: Numbering,
    bits: (bool, bool),
    channel: u16,
    type_octet: u8,
)
    requires { channel < 4096 }
    ensures { buf.new.items ≡ header numbering bits.0 bits.1 channel type_octet }
{
    let (qualified, delivery) = bits;
    let format = 128 * u8::from(qualified) + 64 * u8::from(delivery) + 16 * numbering.format_id();
    buf.clear();
    buf.push(format + (channel / 256) as u8);
    buf.push((channel % 256) as u8);
    buf.push(type_octet);
}

fn append(buf: &mut PacketBuf, octets: &[u8])
    requires { length buf.old.items + length octets.now ≤ MAX_PACKET }
    ensures { buf.new.items ≡ buf.old.items ++ octets.now }
{
    let _ = buf.try_extend_from_slice(octets);
}

fn append_cause(buf: &mut PacketBuf, cause: u8, diagnostic: u8)
    requires { length buf.old.items + 2 ≤ MAX_PACKET }
    ensures { buf.new.items ≡ buf.old.items ++ cause ∷ diagnostic ∷ [] }
{
    buf.push(cause);
    buf.push(diagnostic);
}

fn write_data(numbering: Numbering, channel: u16, packet: &DataPacket, buf: &mut PacketBuf)
    requires channel { channel < 4096 }
    requires fits { IsDataValue numbering MAX_USER_DATA (data_view packet.now) }
    ensures { buf.new.items ≡ data_spelling numbering channel (data_view packet.now) }
{
    let bits = (packet.qualified, packet.delivery);
    let (more, send, receive) = (u8::from(packet.more), packet.send, packet.receive);
    match numbering {
        Numbering::Modulo8 => {
            let type_octet = 32 * receive + 16 * more + 2 * send;
            begin_with(buf, numbering, bits, channel, type_octet);
        }
        Numbering::Modulo128 => {
            begin_with(buf, numbering, bits, channel, 2 * send);
            buf.push(2 * receive + more);
        }
    }
    append(buf, packet.user_data);
}

/// RR or RNR, by its code.
fn write_flow(numbering: Numbering, channel: u16, code: u8, receive: u8, buf: &mut PacketBuf)
    requires channel { channel < 4096 }
    requires code { code < 32 }
    requires number { receive < modulus numbering }
    ensures { buf.new.items ≡ flow_spelling numbering channel code receive }
{
    match numbering {
        Numbering::Modulo8 => begin(buf, numbering, channel, 32 * receive + code),
        Numbering::Modulo128 => {
            begin(buf, numbering, channel, code);
            buf.push(2 * receive);
        }
    }
}

fn write_call(numbering: Numbering, channel: u16, call: &CallData, buf: &mut PacketBuf)
    requires channel { channel < 4096 }
    requires fits { IsCallValue (call_view call.now) }
    ensures { buf.new.items ≡ content_spelling numbering channel (CallRequest (call_view call.now)) }
{
    begin(buf, numbering, channel, 0x0b);
    let calling = match &call.calling {
        Some(address) => address.digits(),
        None => &[],
    };
    append_addresses(buf, call.called.digits(), calling);
    buf.push(call.facilities.len() as u8);
    append(buf, call.facilities);
    append(buf, call.user_data);
}

/// The lengths of the two addresses and their digits, two in an octet.
fn append_addresses(buf: &mut PacketBuf, called: &[u8], calling: &[u8])
    requires room { length buf.old.items ≤ 16 }
    requires called { MayBeDigits called.now }
    requires calling { MayBeDigits calling.now }
    ensures octets { buf.new.items ≡ buf.old.items ++ address_part 0 called.now calling.now }
    ensures len { length buf.new.items ≤ length buf.old.items + 16 }
{
    let mut digits: ArrayVec<u8, 30> = ArrayVec::new();
    let _ = digits.try_extend_from_slice(called);
    let _ = digits.try_extend_from_slice(calling);
    buf.push(16 * calling.len() as u8 + called.len() as u8);
    append_packed(buf, digits.as_slice());
}

/// Two digits in an octet, the first in the high half; behind an odd last one the low half is 0.
fn append_packed(buf: &mut PacketBuf, digits: &[u8])
    requires room { length buf.old.items + length digits.now ≤ MAX_PACKET }
    requires decimal { IsTrue (are_decimal digits.now) }
    ensures octets { buf.new.items ≡ buf.old.items ++ packed 0 digits.now }
    ensures len { length buf.new.items ≡ length buf.old.items + (length digits.now + 1) / 2 }
{
    match digits {
        [] => {}
        [last] => buf.push(16 * last),
        [high, low, rest @ ..] => {
            buf.push(16 * high + low);
            append_packed(buf, rest);
        }
    }
}
