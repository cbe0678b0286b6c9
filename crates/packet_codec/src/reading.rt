//! Reading packets.

ghost use Rattle.std.specs.Prelude.{◌≡◌, IfOk, false};
ghost use Rattle.packet_codec.specs.Packet.{PacketForm, PacketValue};
ghost use Rattle.packet_codec.specs.Reading.{channel_of, cause_of, content_of, fault_in, first_fault};
ghost use Rattle.packet_codec.specs.Reading.{named_channel, named_type, number_of, reading};
ghost use Rattle.packet_codec.specs.View.{answer_view, content_answer_view, view};

use crate::call_block::{read_accepted, read_call};
use crate::fault::PacketFault;
use crate::packet::{Content, DataPacket, MAX_INTERRUPT, Numbering, Packet};
use crate::packet_type::PacketType;

/// The packet that the octets say (X.25 5). Its own octets are borrowed from them. A Data packet of the line has at
/// most `size` octets of user data.
///
/// The first of these faults is answered:
///
/// - `TooShort`: there are fewer than three octets.
/// - `BadFormatId`: the format is not that of the numbering.
/// - `UnknownType`: the octets name no type, Q is outside Data, D is outside Data and Call, or the channel does not go
///   with the type.
/// - `BadLength`: the octets are too many or too few for the type.
/// - `BadAddress`: a Call has no called address or a digit above 9.
/// - `DataTooLong`: there are more than `size` octets of user data.
pub fn read_packet(bytes: &[u8], numbering: Numbering, size: u16) -> Result<Packet<'_>, PacketFault>
    // Which answer it is.
    ensures exact { answer_view result ≡ reading numbering size bytes.now }
    // What is read is in the grammar, and what is in the grammar is read.
    ensures found { IfOk result (λ p. PacketForm numbering size bytes.now (view p)) }
    ensures only { (p : PacketValue) → PacketForm numbering size bytes.now p → answer_view result ≡ Ok p }
    // The fault is the first in number that the octets have.
    ensures fault { fault_in result ≡ first_fault numbering size bytes.now }
{
    read(bytes, numbering, size)
}

fn read(bytes: &[u8], numbering: Numbering, size: u16) -> Result<Packet<'_>, PacketFault>
    ensures { answer_view result ≡ reading numbering size bytes.now }
{
    let [first, second, third, rest @ ..] = bytes else {
        return Err(PacketFault::TooShort);
    };
    if first / 16 % 4 != numbering.format_id() {
        return Err(PacketFault::BadFormatId);
    }
    let channel = channel_number(*first, *second);
    let Some(kind) = named(numbering, *first, *second, *third, rest) else {
        return Err(PacketFault::UnknownType);
    };
    let bits = (first / 128 == 1, first / 64 % 2 == 1);
    match read_content(numbering, size, kind, bits, *third, rest) {
        Ok(content) => Ok(Packet {
            numbering,
            channel,
            content,
        }),
        Err(fault) => Err(fault),
    }
}

/// The logical channel that the octets name, even if they are no packet: `None` for fewer than two octets.
pub fn logical_channel(bytes: &[u8]) -> Option<u16>
    ensures { result ≡ named_channel bytes.now }
{
    match bytes {
        [first, second, ..] => Some(channel_number(*first, *second)),
        _ => None,
    }
}

fn channel_number(first: u8, second: u8) -> u16
    ensures { result ≡ channel_of first second }
{
    256 * u16::from(first % 16) + u16::from(second)
}

/// The type that the octets name.
fn named(numbering: Numbering, first: u8, second: u8, third: u8, rest: &[u8]) -> Option<PacketType>
    ensures { result ≡ named_type numbering first second third rest.now }
{
    let kind = PacketType::of(numbering, third, rest)?;
    let (qualified, delivery) = (first / 128 == 1, first / 64 % 2 == 1);
    if kind.admits(qualified, delivery) && kind.is_on_channel(channel_number(first, second)) {
        Some(kind)
    } else {
        None
    }
}

/// What a packet of the type says: `bits` are its Q and D bits, `rest` the octets after the third.
fn read_content(
    numbering: Numbering,
    size: u16,
    kind: PacketType,
    bits: (bool, bool),
    third: u8,
    rest: &[u8],
) -> Result<Content<'_>, PacketFault>
    ensures { content_answer_view result ≡ content_of numbering size kind bits.0 bits.1 third rest.now }
{
    match kind {
        PacketType::CallRequest => read_call(rest),
        PacketType::CallAccepted => read_accepted(rest),
        PacketType::Data => read_data(numbering, size, bits, third, rest),
        PacketType::Interrupt => read_interrupt(rest),
        PacketType::ClearRequest => match read_cause(rest) {
            Some((cause, diagnostic)) => Ok(Content::ClearRequest { cause, diagnostic }),
            None => Err(PacketFault::BadLength),
        },
        PacketType::ResetRequest => match read_cause(rest) {
            Some((cause, diagnostic)) => Ok(Content::ResetRequest { cause, diagnostic }),
            None => Err(PacketFault::BadLength),
        },
        PacketType::RestartRequest => match read_cause(rest) {
            Some((cause, diagnostic)) => Ok(Content::RestartRequest { cause, diagnostic }),
            None => Err(PacketFault::BadLength),
        },
        PacketType::ReceiveReady => match read_number(numbering, third, rest) {
            Some(receive) => Ok(Content::ReceiveReady(receive)),
            None => Err(PacketFault::BadLength),
        },
        PacketType::ReceiveNotReady => match read_number(numbering, third, rest) {
            Some(receive) => Ok(Content::ReceiveNotReady(receive)),
            None => Err(PacketFault::BadLength),
        },
        PacketType::ClearConfirmation => match rest {
            [] => Ok(Content::ClearConfirmation),
            _ => Err(PacketFault::BadLength),
        },
        PacketType::InterruptConfirmation => match rest {
            [] => Ok(Content::InterruptConfirmation),
            _ => Err(PacketFault::BadLength),
        },
        PacketType::ResetConfirmation => match rest {
            [] => Ok(Content::ResetConfirmation),
            _ => Err(PacketFault::BadLength),
        },
        PacketType::RestartConfirmation => match rest {
            [] => Ok(Content::RestartConfirmation),
            _ => Err(PacketFault::BadLength),
        },
    }
}

/// A cause and a diagnostic, which is 0 where it is missing.
fn read_cause(rest: &[u8]) -> Option<(u8, u8)>
    ensures { result ≡ cause_of rest.now }
{
    match rest {
        [cause] => Some((*cause, 0)),
        [cause, diagnostic] => Some((*cause, *diagnostic)),
        _ => None,
    }
}

fn read_interrupt(rest: &[u8]) -> Result<Content<'_>, PacketFault>
    ensures { content_answer_view result ≡ content_of Numbering.Modulo8 0 PacketType.Interrupt false false 0 rest.now }
{
    if rest.is_empty() || rest.len() > MAX_INTERRUPT {
        return Err(PacketFault::BadLength);
    }
    Ok(Content::Interrupt(rest))
}

/// P(R) of RR and RNR.
fn read_number(numbering: Numbering, third: u8, rest: &[u8]) -> Option<u8>
    ensures { result ≡ number_of numbering third rest.now }
{
    match (numbering, rest) {
        (Numbering::Modulo8, []) => Some(third / 32),
        (Numbering::Modulo128, [fourth]) => Some(fourth / 2),
        _ => None,
    }
}

fn read_data(
    numbering: Numbering,
    size: u16,
    bits: (bool, bool),
    third: u8,
    rest: &[u8],
) -> Result<Content<'_>, PacketFault>
    ensures { content_answer_view result ≡ content_of numbering size PacketType.Data bits.0 bits.1 third rest.now }
{
    let (qualified, delivery) = bits;
    let (more, send, receive, user_data) = match numbering {
        Numbering::Modulo8 => (third / 16 % 2 == 1, third / 2 % 8, third / 32, rest),
        Numbering::Modulo128 => match rest {
            [fourth, user_data @ ..] => (fourth % 2 == 1, third / 2, fourth / 2, user_data),
            [] => return Err(PacketFault::BadLength),
        },
    };
    if user_data.len() > usize::from(size) {
        return Err(PacketFault::DataTooLong);
    }
    Ok(Content::Data(DataPacket {
        qualified,
        delivery,
        more,
        send,
        receive,
        user_data,
    }))
}
