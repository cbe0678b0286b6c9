//! Frames and signs in a ring of octets.
ghost use Rattle.std.specs.Prelude.{◌≡◌, ◌+◌, ◌≤◌, ◌++◌, length, take, drop};
ghost use Rattle.octet_rings.specs.Places.{most_octets};
ghost use Rattle.frame_codec.specs.Spelling.{most_octets as most_frame};
ghost use Rattle.line_carriers.specs.Wire.{frame_form, sign_form};
ghost use Rattle.line_carriers.specs.Reading.{first_length, first_item, first_sign, answer_of, frame_after, rest_after};

use crate::fault::CarrierFault;
use crate::sign::Sign;
use frame_codec::{FrameBuf, MAX_FRAME};
use octet_rings::{OctetRing, number_of};

/// How many octets stand before a frame: its length.
pub(crate) const LENGTH: usize = 2;

/// How many octets a sign has: a length of 0, and the sign itself.
pub(crate) const SIGN: usize = 3;

/// What stands first in what came.
#[derive(Clone, Copy)]
pub(crate) enum Item {
    Sign(Sign),
    Frame,
}

/// Adds a frame.
pub(crate) fn add_frame(output: &mut OctetRing, frame: &[u8])
    requires room { length output.old + (2 + length frame.now) ≤ most_octets }
    requires fits { length frame.now ≤ most_frame }
    ensures { output.new ≡ output.old ++ frame_form frame.now }
{
    output.extend(&[(frame.len() / 256) as u8, (frame.len() % 256) as u8]);
    output.extend(frame);
}

/// Adds a sign.
pub(crate) fn add_sign(output: &mut OctetRing, sign: Sign)
    requires { length output.old + 3 ≤ most_octets }
    ensures { output.new ≡ output.old ++ sign_form sign }
{
    output.extend(&[0, 0, sign.code()]);
}

/// Takes what stands first, if the whole of it came; a frame comes in place of what the buffer held. A frame that is
/// too long is `TooLong`, and an octet that is no sign is `UnknownSign`.
pub(crate) fn next_item(
    input: &mut OctetRing,
    frame: &mut FrameBuf,
) -> Result<Option<Item>, CarrierFault>
    ensures answer { result ≡ answer_of (first_item input.old) }
    ensures frame { frame.new ≡ frame_after frame.old (first_item input.old) }
    ensures rest { input.new ≡ rest_after input.old (first_item input.old) }
{
    match first_length(input) {
        None => Ok(None),
        Some(0) => next_sign(input),
        Some(length) if length > MAX_FRAME => Err(CarrierFault::TooLong),
        Some(length) if input.len() < LENGTH + length => Ok(None),
        Some(length) => {
            take_frame(input, length, frame);
            Ok(Some(Item::Frame))
        }
    }
}

fn first_length(input: &OctetRing) -> Option<usize>
    ensures { result ≡ first_length input.now }
{
    number_of(input.get(0), input.get(1))
}

fn next_sign(input: &mut OctetRing) -> Result<Option<Item>, CarrierFault>
    ensures answer { result ≡ answer_of (first_sign input.old) }
    ensures rest { input.new ≡ rest_after input.old (first_sign input.old) }
{
    let Some(octet) = input.get(LENGTH) else {
        return Ok(None);
    };
    let Some(sign) = Sign::of_code(octet) else {
        return Err(CarrierFault::UnknownSign);
    };
    input.drop_front(SIGN);
    Ok(Some(Item::Sign(sign)))
}

fn take_frame(input: &mut OctetRing, count: usize, frame: &mut FrameBuf)
    requires whole { 2 + count ≤ length input.old }
    requires fits { count ≤ most_frame }
    ensures frame { frame.new ≡ take count (drop 2 input.old) }
    ensures rest { input.new ≡ drop count (drop 2 input.old) }
{
    input.drop_front(LENGTH);
    frame.clear();
    let (first, second) = input.front(count);
    frame.extend(first);
    frame.extend(second);
    input.drop_front(count);
}
