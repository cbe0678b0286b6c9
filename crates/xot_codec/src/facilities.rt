//! The facilities of calls over TCP: a gateway puts packet size and window of its line into each call, and takes out what
//! comes.
ghost use Rattle.std.specs.Prelude.{◌≡◌, ◌<◌, [], ◌∷◌, false, length, IfOk, MatchOption};
ghost use Rattle.xot_codec.specs.Facilities.{
  size_code,
  put,
  is_dropped,
  with_smaller,
  asked_in,
  unasked,
  refusal,
  answer_of,
  asked_then,
  asked_after,
};

use thiserror::Error;

/// Throughput class negotiation.
const THROUGHPUT: u8 = 0x02;

/// Reverse charging, fast select and others: a value of 0 asks for nothing.
const CHARGING: u8 = 0x01;

/// Packet sizes, of both directions, as powers of two.
const PACKET_SIZE: u8 = 0x42;

/// Windows of both directions.
const WINDOW: u8 = 0x43;

/// What a line of the network carries: packets of 128, 256, 512 or 1,024 octets, and its window.
#[derive(Clone, Copy)]
pub struct LineFlow {
    /// The most octets of user data in a packet.
    pub size: u16,
    /// How many packets may be unacknowledged.
    pub window: u8,
}

/// Why the network does not carry a call. The call is cleared with cause 3, invalid facility request.
#[derive(Clone, Copy, Debug, PartialEq, Eq, Error)]
pub enum FacilityFault {
    /// It asks for a facility that the network has not, or its facilities are torn.
    #[error("facility not carried")]
    NotCarried,
    /// Its packets are smaller than the line's.
    #[error("packets too small")]
    SmallPackets,
    /// Its window is smaller than the line's.
    #[error("window too small")]
    SmallWindow,
}

/// What a call asks for: the smaller one of both directions.
#[derive(Clone, Copy)]
struct Asked {
    size: u8,
    window: u8,
}

/// What a call gets that asks for nothing: packets of 128 octets and a window of 2.
const UNASKED: Asked = Asked { size: 7, window: 2 };

/// The facility field of each Call and Call Accepted that goes out.
pub fn put_facilities(line: LineFlow) -> [u8; 6]
    ensures { result ≡ put line }
{
    let size = size_code(line.size);
    [PACKET_SIZE, size, size, WINDOW, line.window, line.window]
}

/// Whether the network carries a Call or Call Accepted that comes with this facility field; nothing of the field goes on.
///
/// Throughput is dropped, and so is code 01 with value 0. Any other facility than packet size and window is
/// `NotCarried`, and so is a torn one: reverse charging, fast select, closed user groups. Without packet size a call has
/// packets of 128 octets, and without window a window of 2. What ends below the line's is `SmallPackets`, then
/// `SmallWindow`. More than the line's is taken: what is put into the answer brings it down.
pub fn take_facilities(line: LineFlow, facilities: &[u8]) -> Result<(), FacilityFault>
    ensures { answer_of result ≡ refusal line facilities.now }
{
    let asked = asked_in(facilities)?;
    if asked.size < size_code(line.size) {
        return Err(FacilityFault::SmallPackets);
    }
    if asked.window < line.window {
        return Err(FacilityFault::SmallWindow);
    }
    Ok(())
}

fn asked_in(facilities: &[u8]) -> Result<Asked, FacilityFault>
    ensures { result ≡ asked_in unasked facilities.now }
{
    let mut asked = UNASKED;
    let mut rest = facilities;
    while !rest.is_empty() {
        (asked, rest) = next_facility(asked, rest)?;
    }
    Ok(asked)
}

#[tactic(auto, using(crate::proofs::Asking::dropped, crate::proofs::Asking::torn))]
fn next_facility(asked: Asked, octets: &[u8]) -> Result<(Asked, &[u8]), FacilityFault>
    requires { 0 < length octets.now }
    ensures same { asked_after result ≡ asked_in asked octets.now }
    ensures less { IfOk result (λ next. length next.1.now < length octets.now) }
{
    let Some((code, value, rest)) = first_two(octets) else {
        return Err(FacilityFault::NotCarried);
    };
    if is_dropped(code, value) {
        return Ok((asked, rest));
    }
    with_value(asked, code, value, rest)
}

/// The facility of this code and first value, of which the second value stands first.
#[tactic(auto, using(crate::proofs::Asking::without_other))]
fn with_value(
    asked: Asked,
    code: u8,
    one: u8,
    octets: &[u8],
) -> Result<(Asked, &[u8]), FacilityFault>
    requires { is_dropped code one ≡ false }
    ensures same { asked_after result ≡ asked_in asked (code ∷ one ∷ octets.now) }
    ensures less { IfOk result (λ next. length next.1.now < length octets.now) }
{
    let Some((other, rest)) = first_one(octets) else {
        return Err(FacilityFault::NotCarried);
    };
    let asked = with_smaller(asked, code, one.min(other));
    before(asked, rest)
}

/// What is asked for so far, and the facilities that follow.
fn before(asked: Result<Asked, FacilityFault>, rest: &[u8]) -> Result<(Asked, &[u8]), FacilityFault>
    ensures same { asked_after result ≡ asked_then asked rest.now }
    ensures rest { IfOk result (λ next. next.1.now ≡ rest.now) }
{
    Ok((asked?, rest))
}

fn with_smaller(asked: Asked, code: u8, smaller: u8) -> Result<Asked, FacilityFault>
    ensures { result ≡ with_smaller asked code smaller }
{
    match code {
        PACKET_SIZE => Ok(Asked {
            size: smaller,
            ..asked
        }),
        WINDOW => Ok(Asked {
            window: smaller,
            ..asked
        }),
        _ => Err(FacilityFault::NotCarried),
    }
}

fn is_dropped(code: u8, value: u8) -> bool
    ensures { result ≡ is_dropped code value }
{
    code == THROUGHPUT || (code == CHARGING && value == 0)
}

fn first_two(octets: &[u8]) -> Option<(u8, u8, &[u8])>
    ensures { MatchOption result (length octets.now < 2) (λ found. octets.now ≡ found.0 ∷ found.1 ∷ found.2.now) }
{
    match octets {
        [first, second, rest @ ..] => Some((*first, *second, rest)),
        _ => None,
    }
}

fn first_one(octets: &[u8]) -> Option<(u8, &[u8])>
    ensures { MatchOption result (octets.now ≡ []) (λ found. octets.now ≡ found.0 ∷ found.1.now) }
{
    match octets {
        [first, rest @ ..] => Some((*first, rest)),
        _ => None,
    }
}

fn size_code(size: u16) -> u8
    ensures { result ≡ size_code size }
{
    match size {
        256 => 8,
        512 => 9,
        1024 => 10,
        _ => 7,
    }
}
