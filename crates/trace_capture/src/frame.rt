//! The lines of a trace.
ghost use Rattle.std.specs.Prelude.{◌≡◌, ◌≢◌, ◌/◌, ◌%◌, ◌≤◌, ◌<◌, ℕ, List, true, false, length, not, Ok, None};
ghost use Rattle.std.specs.Prelude.{IfOk, IfSome, OnErr, IsOkAnd, IsSome};
ghost use Rattle.std.specs.Char.{is_ascii_digit};
ghost use Rattle.std.specs.List.{flat_map, position};
ghost use Rattle.frame_lines.specs.declared.line.Direction.{Direction};
ghost use Rattle.trace_capture.specs.Trace.{number_end, is_traced, hex_digit, spaced, sign_of, frame_line};
ghost use Rattle.trace_capture.specs.Trace.{AreOctets, IsFrameLine};

use frame_codec::{FrameBuf, MAX_FRAME};
use frame_lines::Direction;

/// The most digits of a line's number.
const MOST_DIGITS: usize = 5;

/// A frame of a trace: the digits of its line's number, its direction and its octets.
#[derive(Drop)]
pub struct TracedFrame<'a> {
    pub line: &'a [u8],
    pub direction: Direction,
    pub octets: FrameBuf,
}

/// A line that begins as that of a frame, with a number and a space, and does not go on so.
#[derive(Clone, Copy, PartialEq, Eq, Drop)]
pub struct NotAFrame;

/// Reads a line of a trace: the frame that it has, or `None` if it does not begin with a number and a space.
///
/// `NotAFrame` comes if the line begins so and is no frame: the number has more than 5 digits, no sign of a direction
/// follows, or no octets follow that sign. Each octet is a space and two hexadecimal digits, and there are no more of
/// them than a frame may have.
pub fn read_line(line: &[u8]) -> Result<Option<TracedFrame<'_>>, NotAFrame>
    ensures frame { IfOk result (λ frame. IfSome frame (λ f. line.now ≡ frame_line f.line.now f.direction f.octets)) }
    ensures fits { IfOk result (λ frame. IfSome frame (λ f. length f.line.now ≤ 5)) }
    ensures reads { IsFrameLine line.now → IsOkAnd result (λ frame. IsSome frame) }
    ensures others { result ≡ Ok None → is_traced line.now ≡ false }
    ensures fault { OnErr result (is_traced line.now ≡ true) }
{
    if !is_traced(line) {
        return Ok(None);
    }
    let (number, rest) = line.split_at(number_end(line));
    match rest {
        [b' ', sign, octets @ ..] if number.len() <= MOST_DIGITS => {
            let frame = TracedFrame {
                line: number,
                direction: read_direction(*sign)?,
                octets: read_octets(octets)?,
            };
            Ok(Some(frame))
        }
        _ => Err(NotAFrame),
    }
}

/// Where the digits end with which a line begins.
fn number_end(line: &[u8]) -> usize
    ensures value { result ≡ number_end line.now }
    ensures within { result ≤ length line.now }
{
    first_no_digit(line).unwrap_or(line.len())
}

/// The index of the first octet that is no digit.
fn first_no_digit(line: &[u8]) -> Option<usize>
    ensures { result ≡ position (λ octet. not (is_ascii_digit octet)) line.now }
{
    line.iter().position(|octet| !octet.is_ascii_digit())
}

/// Whether a line begins with a number and a space.
fn is_traced(line: &[u8]) -> bool
    ensures { result ≡ is_traced line.now }
{
    let end = number_end(line);
    end > 0 && line.get(end) == Some(&b' ')
}

/// The direction of which this is the sign.
fn read_direction(sign: u8) -> Result<Direction, NotAFrame>
    ensures value { IfOk result (λ direction. sign ≡ sign_of direction) }
    ensures fault { OnErr result ((direction : Direction) → sign ≢ sign_of direction) }
{
    match sign {
        b'>' => Ok(Direction::FromDte),
        b'<' => Ok(Direction::FromDce),
        _ => Err(NotAFrame),
    }
}

/// Octets of two hexadecimal digits, each behind a space.
fn read_octets(text: &[u8]) -> Result<FrameBuf, NotAFrame>
    ensures value { IfOk result (λ frame. text.now ≡ flat_map spaced frame) }
    ensures fault { OnErr result ((octets : List ℕ) → AreOctets octets → text.now ≢ flat_map spaced octets) }
{
    let mut frame = FrameBuf::new();
    let mut rest = text;
    while let [b' ', high, low, others @ ..] = rest {
        if frame.len() == MAX_FRAME {
            return Err(NotAFrame);
        }
        frame.push(read_octet(*high, *low)?);
        rest = others;
    }
    if rest.is_empty() {
        Ok(frame)
    } else {
        Err(NotAFrame)
    }
}

/// The octet of two hexadecimal digits.
fn read_octet(high: u8, low: u8) -> Result<u8, NotAFrame>
    ensures value { IfOk result (λ octet. (high ≡ hex_digit (octet / 16)) × (low ≡ hex_digit (octet % 16))) }
    ensures fault { OnErr result ((octet : ℕ) → octet < 256
        → (high ≡ hex_digit (octet / 16)) × (low ≡ hex_digit (octet % 16)) → ⊥) }
{
    Ok(16 * read_digit(high)? + read_digit(low)?)
}

/// The value of a hexadecimal digit, whose letters are capitals.
fn read_digit(digit: u8) -> Result<u8, NotAFrame>
    ensures value { IfOk result (λ value. digit ≡ hex_digit value) }
    ensures below { IfOk result (λ value. value ≤ 15) }
    ensures fault { OnErr result ((value : ℕ) → value ≤ 15 → digit ≢ hex_digit value) }
{
    match digit {
        b'0'..=b'9' => Ok(digit - b'0'),
        b'A'..=b'F' => Ok(digit - b'A' + 10),
        _ => Err(NotAFrame),
    }
}
