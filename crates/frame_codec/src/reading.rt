//! Octets are read as a frame.
ghost use Rattle.std.specs.Prelude.{◌≡◌, ◌==◌, ◌%◌, ℕ, IfOk, IfErr};
ghost use Rattle.frame_codec.specs.declared.fault.FrameFault.{FrameFault};
ghost use Rattle.frame_codec.specs.Frame.{FrameValue};
ghost use Rattle.frame_codec.specs.FrameForm.{FrameForm};
ghost use Rattle.frame_codec.specs.Faults.{IsFirstFault};
ghost use Rattle.frame_codec.specs.Views.{content_of, kind_read, value_of, frame_read};
ghost use Rattle.frame_codec.specs.Reading.{
  bare,
  information_read,
  report_read,
  command_read,
  response_read,
  content_read,
  has_bit,
  with_head,
  reading,
};

use crate::fault::FrameFault;
use crate::fields::{address_octet, is_set, receive_number, send_number};
use crate::frame::{Frame, FrameKind, Rejection};
use link_timers::Role;

/// Reads a frame that an end of this role receives (ISO 7776 3 and 4). The information field stays where it is.
///
/// `info` is the most octets of information that an I frame of the line carries. A tool that reads frames of any line
/// gives [`MAX_INFORMATION`](crate::MAX_INFORMATION).
///
/// Of several faults the first in the order of [`FrameFault`] is answered. The bits of a report that have no meaning
/// are not looked at.
#[inline(always)]
pub fn read_frame(bytes: &[u8], at: Role, info: u16) -> Result<Frame<'_>, FrameFault>
    // What is read is what the octets are a form of.
    ensures form { IfOk result (λ frame. FrameForm at info bytes.now (value_of frame)) }
    ensures every_form { (f : FrameValue) → FrameForm at info bytes.now f → frame_read result ≡ Ok f }

    // Each fault comes exactly where it is the first that the octets have.
    ensures fault { IfErr result (λ fault. IsFirstFault fault at info bytes.now) }
    ensures every_fault { (fault : FrameFault) → IsFirstFault fault at info bytes.now → result ≡ Err fault }

    // The same as a function of the octets.
    ensures reading { frame_read result ≡ reading at info bytes.now }
{
    let [address, control, field @ ..] = bytes else {
        return Err(FrameFault::TooShort);
    };
    if *address == address_octet(at.other(), false) {
        framed(false, *control, field, info)
    } else if *address == address_octet(at.other(), true) {
        framed(true, *control, field, info)
    } else {
        Err(FrameFault::WrongAddress)
    }
}

/// What follows the address octet.
#[inline(always)]
fn framed(response: bool, control: u8, field: &[u8], info: u16) -> Result<Frame<'_>, FrameFault>
    ensures { frame_read result ≡ with_head response (has_bit control 16) (content_read info response control field.now) }
{
    let kind = kind_in(control, response, field, info)?;
    Ok(Frame {
        kind,
        response,
        pf: is_set(control, 4),
    })
}

#[inline(always)]
fn kind_in(
    control: u8,
    response: bool,
    field: &[u8],
    info: u16,
) -> Result<FrameKind<'_>, FrameFault>
    ensures { kind_read result ≡ content_read info response control field.now }
{
    let nr = receive_number(control);
    match control % 16 {
        low if low % 2 == 0 && !response => information_in(control, field, info),
        0x01 => bare_frame(FrameKind::Rr { nr }, field),
        0x05 => bare_frame(FrameKind::Rnr { nr }, field),
        0x09 => bare_frame(FrameKind::Rej { nr }, field),
        _ if response => response_in(control, field),
        _ => command_in(control, field),
    }
}

/// What is a command alone and no I frame.
fn command_in(control: u8, field: &[u8]) -> Result<FrameKind<'_>, FrameFault>
    requires { control % 2 ≡ 1 }
    ensures { (info : ℕ) → kind_read result ≡ command_read info control field.now }
{
    match control {
        0x2F | 0x3F => bare_frame(FrameKind::Sabm, field),
        0x43 | 0x53 => bare_frame(FrameKind::Disc, field),
        _ => Err(FrameFault::UnknownControl),
    }
}

/// What is a response alone.
fn response_in(control: u8, field: &[u8]) -> Result<FrameKind<'_>, FrameFault>
    ensures { kind_read result ≡ response_read control field.now }
{
    match control {
        0x0F | 0x1F => bare_frame(FrameKind::Dm, field),
        0x63 | 0x73 => bare_frame(FrameKind::Ua, field),
        0x87 | 0x97 => report_in(field),
        _ => Err(FrameFault::UnknownControl),
    }
}

#[inline(always)]
fn information_in(control: u8, field: &[u8], info: u16) -> Result<FrameKind<'_>, FrameFault>
    ensures { kind_read result ≡ information_read info control field.now }
{
    if field.len() > usize::from(info) {
        return Err(FrameFault::InfoTooLong);
    }
    Ok(FrameKind::I {
        ns: send_number(control),
        nr: receive_number(control),
        information: field,
    })
}

/// A frame that has no information field.
#[inline(always)]
fn bare_frame<'a>(kind: FrameKind<'a>, field: &[u8]) -> Result<FrameKind<'a>, FrameFault>
    ensures { kind_read result ≡ bare (content_of kind.entry) field.now }
{
    match field {
        [] => Ok(kind),
        _ => Err(FrameFault::InfoNotAllowed),
    }
}

fn report_in(field: &[u8]) -> Result<FrameKind<'_>, FrameFault>
    ensures { kind_read result ≡ report_read field.now }
{
    let [control, states, reasons] = field else {
        return Err(FrameFault::InfoNotAllowed);
    };
    Ok(FrameKind::Frmr(Rejection {
        control: *control,
        vs: send_number(*states),
        vr: receive_number(*states),
        response: is_set(*states, 4),
        w: is_set(*reasons, 0),
        x: is_set(*reasons, 1),
        y: is_set(*reasons, 2),
        z: is_set(*reasons, 3),
    }))
}
