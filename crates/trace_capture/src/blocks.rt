//! The capture of a trace.
ghost use Rattle.std.specs.Prelude.{◌≡◌, ◌≤◌, ◌<◌, ◌+◌, ◌++◌, ◌%◌, ◌-◌, length, replicate, IfOk, IfErr, IfSome, OnOk};
ghost use Rattle.std.specs.Option.{option_map};
ghost use Rattle.trace_capture.specs.Lines.{line_feed, first_line, behind_line};
ghost use Rattle.trace_capture.specs.Capture.{block, head, comment, packet_body, way_of, IsCapture};
ghost use Rattle.trace_capture.specs.Capture.{IsTraceFault};

use crate::fault::TraceFault;
use crate::frame::{TracedFrame, read_line};
use frame_lines::Direction;
use std::alloc::{AllocError, Global};

/// The kinds of blocks.
const SECTION: u32 = 0x0A0D_0D0A;

const INTERFACE: u32 = 1;

const PACKET: u32 = 6;

/// The capture of what a run has printed with its frames traced: each frame is a packet that Wireshark reads as LAPB
/// and what is above it, with the direction and with the number of its line as a comment. Frames count from 0, and the
/// number of a frame is its time. Lines that do not begin with a number and a space are of something else.
///
/// `Line` with the number of the first line that begins so and is no frame, counted from 1; `OutOfMemory` for want of
/// memory.
pub fn capture(alloc: Global, text: &[u8]) -> Result<Vec<u8>, TraceFault>
    ensures ok { IfOk result (λ capture. IsCapture text.now capture.items) }
    ensures fault { IfErr result (IsTraceFault text.now) }
{
    let mut capture = head(alloc)?;
    let mut number = 0u32;
    let mut frames = 0u32;
    let mut rest = Some(text);
    while let Some(lines) = rest {
        let (line, others) = cut(lines);
        number = number.wrapping_add(1);
        match read_line(line) {
            Ok(Some(frame)) => {
                push_frame(alloc, &mut capture, frames, &frame)?;
                frames = frames.wrapping_add(1);
            }
            Ok(None) => {}
            Err(_) => return Err(TraceFault::Line(number)),
        }
        rest = others;
    }
    Ok(capture)
}

/// The first line of a text, without the line feed that ends it, and what is behind that, if there is one.
fn cut(text: &[u8]) -> (&[u8], Option<&[u8]>)
    ensures line { result.0.now ≡ first_line text.now }
    ensures others { option_map (λ others. others.now) result.1 ≡ behind_line text.now }
    ensures shorter { IfSome result.1 (λ others. length others.now < length text.now) }
{
    match first_line_feed(text) {
        Some(place) => (&text[..place], Some(&text[place + 1..])),
        None => (text, None),
    }
}

/// The index of the first line feed.
fn first_line_feed(text: &[u8]) -> Option<usize>
    ensures { result ≡ line_feed text.now }
{
    text.iter().position(|octet| *octet == b'\n')
}

/// The head of a capture.
fn head(alloc: Global) -> Result<Vec<u8>, AllocError>
    ensures { IfOk result (λ capture. capture.items ≡ head) }
{
    let mut capture = Vec::new(alloc);
    push_block(
        &mut capture,
        SECTION,
        b"\x4D\x3C\x2B\x1A\x01\x00\x00\x00\xFF\xFF\xFF\xFF\xFF\xFF\xFF\xFF",
    )?;
    push_block(&mut capture, INTERFACE, b"\xFC\x00\x00\x00\x00\x00\x00\x00")?;
    Ok(capture)
}

/// Appends the packet of a frame, which is the frame of this number.
fn push_frame(
    alloc: Global,
    capture: &mut Vec<u8>,
    number: u32,
    frame: &TracedFrame<'_>,
) -> Result<(), AllocError>
    requires { length frame.now.line.now ≤ 5 }
    ensures { OnOk result (capture.new.items ≡ capture.old.items
        ++ block 6 (packet_body number frame.now.line.now frame.now.direction frame.now.octets)) }
{
    match packet_body(alloc, number, frame) {
        Ok(body) => push_block(capture, PACKET, body.as_slice()),
        Err(error) => Err(error),
    }
}

/// What the packet of a frame has.
fn packet_body(alloc: Global, number: u32, frame: &TracedFrame<'_>) -> Result<Vec<u8>, AllocError>
    requires { length frame.now.line.now ≤ 5 }
    ensures value { IfOk result (λ body. body.items
        ≡ packet_body number frame.now.line.now frame.now.direction frame.now.octets) }
    ensures fits { IfOk result (λ body. length body.items ≤ 1200) }
{
    let octets = frame.octets.as_slice();
    let length = octets.len() as u32 + 20;
    let mut body = Vec::new(alloc);
    body.extend_from_slice(&[0; 8])?;
    body.extend_from_slice(&number.to_le_bytes())?;
    body.extend_from_slice(&length.to_le_bytes())?;
    body.extend_from_slice(&length.to_le_bytes())?;
    body.extend_from_slice(b"\x00\x0C\x00\x04lapb\x00\x23\x00\x04\x00\x00\x00")?;
    body.push(way_of(frame.direction))?;
    body.extend_from_slice(&[0; 4])?;
    body.extend_from_slice(octets)?;
    push_padding(&mut body, octets.len())?;
    push_comment(&mut body, frame.line)?;
    Ok(body)
}

/// Appends a comment that names the line of these digits.
fn push_comment(body: &mut Vec<u8>, digits: &[u8]) -> Result<(), AllocError>
    requires { length digits.now ≤ 5 }
    ensures { OnOk result (body.new.items ≡ body.old.items ++ comment digits.now) }
{
    let length = digits.len() as u16 + 5;
    body.extend_from_slice(b"\x01\x00")?;
    body.extend_from_slice(&length.to_le_bytes())?;
    body.extend_from_slice(b"line ")?;
    body.extend_from_slice(digits)?;
    push_padding(body, digits.len() + 5)?;
    body.extend_from_slice(&[0; 4])
}

/// Appends the zeros that make so many octets a multiple of four.
fn push_padding(octets: &mut Vec<u8>, length: usize) -> Result<(), AllocError>
    ensures { OnOk result (octets.new.items ≡ octets.old.items ++ replicate ((4 - length % 4) % 4) 0) }
{
    octets.extend_from_slice(&[0; 3][..(4 - length % 4) % 4])
}

/// Appends a block of this kind.
fn push_block(capture: &mut Vec<u8>, kind: u32, body: &[u8]) -> Result<(), AllocError>
    requires { length body.now ≤ 1200 }
    ensures { OnOk result (capture.new.items ≡ capture.old.items ++ block kind body.now) }
{
    let length = body.len() as u32 + 12;
    capture.extend_from_slice(&kind.to_le_bytes())?;
    capture.extend_from_slice(&length.to_le_bytes())?;
    capture.extend_from_slice(body)?;
    capture.extend_from_slice(&length.to_le_bytes())
}

/// What a packet has for its direction.
fn way_of(direction: Direction) -> u8
    ensures { result ≡ way_of direction }
{
    match direction {
        Direction::FromDte => 0,
        Direction::FromDce => 1,
    }
}
