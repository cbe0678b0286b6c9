//! The blocks of a capture, in a ring of octets.
ghost use Rattle.std.specs.Prelude.{◌≡◌, ◌≤◌, ◌+◌, ◌++◌, ◌%◌, ◌-◌, [], length, replicate};
ghost use Rattle.std.specs.Int.{to_le_bytes, w32};
ghost use Rattle.octet_rings.specs.Places.{most_octets};
ghost use Rattle.trace_capture.specs.Capture.{block, head, packet, padded, comment, way_of};
ghost use Rattle.frame_captures.specs.Capture.{frame_body, padded_length, body_length};

use frame_lines::Direction;
use octet_rings::OctetRing;

/// The kind of the block of a packet.
const PACKET: u32 = 6;

/// The head of a file: a section, and an interface of which each packet says how it is to be read.
const HEAD: [u8; 48] =
    *b"\x0A\x0D\x0D\x0A\x1C\x00\x00\x00\x4D\x3C\x2B\x1A\x01\x00\x00\x00\xFF\xFF\xFF\xFF\xFF\xFF\xFF\xFF\x1C\x00\x00\x00\x01\x00\x00\x00\x14\x00\x00\x00\xFC\x00\x00\x00\x00\x00\x00\x00\x14\x00\x00\x00";

/// Adds the head of a file.
pub(crate) fn add_head(ring: &mut OctetRing)
    requires { ring.old ≡ [] }
    ensures { ring.new ≡ head }
{
    ring.extend(&HEAD);
}

/// Adds the block of a frame that passed at a time, in microseconds, on the line of these digits.
pub(crate) fn add_frame(
    ring: &mut OctetRing,
    time: u64,
    digits: &[u8],
    direction: Direction,
    frame: &[u8],
)
    requires room { length ring.old + 1104 ≤ most_octets }
    requires digits { length digits.now ≤ 5 }
    requires frame { length frame.now ≤ 1030 }
    ensures { ring.new ≡ ring.old ++ block 6 (frame_body time digits.now direction frame.now) }
{
    let length = body_length(digits.len(), frame.len()) + 12;
    let packet = frame.len() as u32 + 20;
    add_number(ring, PACKET);
    add_number(ring, length);
    add_number(ring, 0);
    add_number(ring, (time / 0x1_0000_0000) as u32);
    add_number(ring, (time % 0x1_0000_0000) as u32);
    add_number(ring, packet);
    add_number(ring, packet);
    add_packet(ring, direction, frame);
    add_comment(ring, digits);
    add_number(ring, length);
}

/// How many octets the block of a frame has, but for its kind and its two lengths.
fn body_length(digits: usize, frame: usize) -> u32
    requires digits { digits ≤ 5 }
    requires frame { frame ≤ 1030 }
    ensures value { result ≡ body_length digits frame }
    ensures most { result ≤ 1092 }
{
    (28 + padded_length(frame + 20) + padded_length(digits + 5)) as u32
}

/// So many octets, and as many as make them a multiple of four.
fn padded_length(octets: usize) -> usize
    requires { octets ≤ 1050 }
    ensures value { result ≡ padded_length octets }
    ensures most { result ≤ octets + 3 }
{
    octets + (4 - octets % 4) % 4
}

/// Adds a packet: it is to be read as LAPB, and goes in this direction.
fn add_packet(ring: &mut OctetRing, direction: Direction, frame: &[u8])
    requires { length ring.old + (length frame.now + 23) ≤ most_octets }
    ensures value { ring.new ≡ ring.old ++ padded (packet direction frame.now) }
    ensures most { length ring.new ≤ length ring.old + (length frame.now + 23) }
{
    ring.extend(b"\x00\x0C\x00\x04lapb\x00\x23\x00\x04\x00\x00\x00");
    ring.extend(&[way_of(direction)]);
    ring.extend(&[0; 4]);
    ring.extend(frame);
    add_padding(ring, frame.len());
}

/// Adds a comment that names the line of these digits.
fn add_comment(ring: &mut OctetRing, digits: &[u8])
    requires room { length ring.old + 21 ≤ most_octets }
    requires digits { length digits.now ≤ 5 }
    ensures value { ring.new ≡ ring.old ++ comment digits.now }
    ensures most { length ring.new ≤ length ring.old + 21 }
{
    let length = digits.len() as u16 + 5;
    ring.extend(b"\x01\x00");
    ring.extend(&length.to_le_bytes());
    ring.extend(b"line ");
    ring.extend(digits);
    add_padding(ring, digits.len() + 5);
    ring.extend(&[0; 4]);
}

/// Adds the zeros that make so many octets a multiple of four.
fn add_padding(ring: &mut OctetRing, octets: usize)
    requires { length ring.old + 3 ≤ most_octets }
    ensures value { ring.new ≡ ring.old ++ replicate ((4 - octets % 4) % 4) 0 }
    ensures most { length ring.new ≤ length ring.old + 3 }
{
    ring.extend(&[0; 3][..(4 - octets % 4) % 4]);
}

/// Adds a number of four octets, the low one first.
fn add_number(ring: &mut OctetRing, number: u32)
    requires { length ring.old + 4 ≤ most_octets }
    ensures value { ring.new ≡ ring.old ++ to_le_bytes w32 number }
    ensures size { length ring.new ≡ length ring.old + 4 }
{
    ring.extend(&number.to_le_bytes());
}

/// What a packet has for its direction.
fn way_of(direction: Direction) -> u8
    ensures { result ≡ way_of direction }
{
    match direction {
        Direction::FromDte => 0,
        Direction::FromDce => 1,
    }
}
