//! Writing messages.

ghost use Rattle.std.specs.Prelude.{◌≡◌, ◌≤◌, ◌*◌, ◌∷◌, length};
ghost use Rattle.arrayvec.specs.ArrayVec.{array_vec_len};
ghost use Rattle.x29_messages.specs.Reading.{message_of};
ghost use Rattle.x29_messages.specs.MessageForm.{MessageForm, error_octets, octets_of, pairs_octets};

use crate::message::{Message, MessageBuf, Pairs};

/// Writes the octets of a message, in place of what `out` holds. They are at most 127.
pub fn write_message(message: &Message, out: &mut MessageBuf)
    // The octets are the message's one spelling.
    ensures octets { out.new.items ≡ octets_of message.now }
    ensures form { MessageForm out.new.items message.now }
    // What is written reads back.
    ensures back { message_of out.new.items ≡ Ok message.now }
{
    out.clear();
    write(message, out);
}

/// Writes the octets of a message.
#[tactic(auto, unfolding(crate::specs::MessageForm::octets_of))]
fn write(message: &Message, out: &mut MessageBuf)
    requires { array_vec_len out.old ≡ 0 }
    ensures octets { out.new.items ≡ octets_of message.now }
    ensures form { MessageForm out.new.items message.now }
{
    match message {
        Message::ParameterIndication(pairs) => write_pairs(0, pairs, out),
        Message::InvitationToClear => out.push(1),
        Message::Set(pairs) => write_pairs(2, pairs, out),
        Message::IndicationOfBreak(pairs) => write_pairs(3, pairs, out),
        Message::Read(pairs) => write_pairs(4, pairs, out),
        Message::Error(kind, code) => write_error(*kind, *code, out),
        Message::SetAndRead(pairs) => write_pairs(6, pairs, out),
    }
}

/// Writes a code and pairs.
fn write_pairs(code: u8, pairs: &Pairs, out: &mut MessageBuf)
    requires { array_vec_len out.old ≡ 0 }
    ensures octets { out.new.items ≡ code ∷ pairs_octets pairs.now.items }
    ensures few { length pairs.now.items ≤ 63 }
{
    out.push(code);
    for (reference, value) in pairs.as_slice() {
        out.push(*reference);
        out.push(*value);
    }
}

/// Writes the code of an error, and what follows it.
fn write_error(kind: u8, code: Option<u8>, out: &mut MessageBuf)
    requires { array_vec_len out.old ≡ 0 }
    ensures { out.new.items ≡ 5 ∷ error_octets kind code }
{
    out.push(5);
    out.push(kind);
    if let Some(code) = code {
        out.push(code);
    }
}
