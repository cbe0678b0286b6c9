//! Reading messages.

ghost use Rattle.std.specs.Prelude.{◌≡◌, ◌<◌, ◌∷◌, length, MatchOption, IfOk};
ghost use Rattle.x29_messages.specs.declared.message.Message.{Message};
ghost use Rattle.x29_messages.specs.MessageForm.{MessageForm};
ghost use Rattle.x29_messages.specs.Reading.{error_in, fault_in, first_fault, message_in, message_of, pairs_in};

use crate::fault::MessageFault;
use crate::message::{Message, Pairs};
use arrayvec::ArrayVec;

/// The most octets of pairs.
const PAIR_OCTETS: usize = 126;

/// Reads the octets of a message.
///
/// No octets are `Empty`. A first octet above 6 is `UnknownCode`. A message with pairs has 0 to 63 of them, an
/// invitation to clear nothing, and an error one or two octets: another length is `OddLength`.
pub fn read_message(octets: &[u8]) -> Result<Message, MessageFault>
    // Which answer it is.
    ensures exact { result ≡ message_of octets.now }
    // What is read is in the grammar, and what is in the grammar is read.
    ensures found { IfOk result (λ message. MessageForm octets.now message) }
    ensures only { (message : Message) → MessageForm octets.now message → result ≡ Ok message }
    // The fault is the first in number that the octets have.
    ensures fault { fault_in result ≡ first_fault octets.now }
{
    match octets {
        [] => Err(MessageFault::Empty),
        [code, rest @ ..] => message_in(*code, rest),
    }
}

/// The message of a code, by the octets that follow the code.
fn message_in(code: u8, rest: &[u8]) -> Result<Message, MessageFault>
    ensures { result ≡ message_in code rest.now }
{
    match code {
        0 => Ok(Message::ParameterIndication(pairs_in(rest)?)),
        1 => {
            if rest.is_empty() {
                Ok(Message::InvitationToClear)
            } else {
                Err(MessageFault::OddLength)
            }
        }
        2 => Ok(Message::Set(pairs_in(rest)?)),
        3 => Ok(Message::IndicationOfBreak(pairs_in(rest)?)),
        4 => Ok(Message::Read(pairs_in(rest)?)),
        5 => error_in(rest),
        6 => Ok(Message::SetAndRead(pairs_in(rest)?)),
        _ => Err(MessageFault::UnknownCode),
    }
}

/// The error of these octets.
fn error_in(rest: &[u8]) -> Result<Message, MessageFault>
    ensures { result ≡ error_in rest.now }
{
    match rest {
        [kind] => Ok(Message::Error(*kind, None)),
        [kind, code] => Ok(Message::Error(*kind, Some(*code))),
        _ => Err(MessageFault::OddLength),
    }
}

/// The pairs of these octets.
#[tactic(auto, using(crate::proofs::Pairing::pairs_more, crate::proofs::Pairing::pairs_none, crate::proofs::Pairing::pairs_odd))]
fn pairs_in(octets: &[u8]) -> Result<Pairs, MessageFault>
    ensures { result ≡ pairs_in octets.now }
{
    if octets.len() > PAIR_OCTETS {
        return Err(MessageFault::OddLength);
    }
    let mut pairs = ArrayVec::new();
    let mut rest = octets;
    while let Some((pair, after)) = first_pair(rest) {
        pairs.push(pair);
        rest = after;
    }
    if rest.is_empty() {
        Ok(pairs)
    } else {
        Err(MessageFault::OddLength)
    }
}

/// The pair at the front, and the octets after it.
fn first_pair(octets: &[u8]) -> Option<((u8, u8), &[u8])>
    ensures { MatchOption result (length octets.now < 2) (λ found. octets.now ≡ found.0.0 ∷ found.0.1 ∷ found.1.now) }
{
    match octets {
        [reference, value, rest @ ..] => Some(((*reference, *value), rest)),
        _ => None,
    }
}
