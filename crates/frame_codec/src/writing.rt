//! A frame is written as octets.
ghost use Rattle.std.specs.Prelude.{◌≡◌, ◌<◌, ℕ};
ghost use Rattle.link_timers.specs.Role.{other_of};
ghost use Rattle.frame_codec.specs.FrameForm.{FrameForm};
ghost use Rattle.frame_codec.specs.Views.{report_of, content_of, value_of};
ghost use Rattle.frame_codec.specs.Spelling.{
  control_of,
  reasons_of,
  spelling,
  most_information,
  HasNumbers,
  HasSpelling,
};

use crate::buffer::FrameBuf;
use crate::fields::{address_octet, octet_of};
use crate::frame::{Frame, FrameKind, Rejection};
use link_timers::Role;

/// Writes the one spelling of a frame that an end of this role sends (ISO 7776 3 and 4), in place of what the buffer
/// held.
///
/// The frame's sequence numbers are below 8, an I frame's information fits, and the frame goes in the direction
/// that its kind has: I frames, SABM and DISC are commands, DM, UA and FRMR are responses.
#[inline(always)]
pub fn write_frame(frame: &Frame<'_>, from: Role, out: &mut FrameBuf)
    requires { HasSpelling most_information (value_of frame.now) }
    ensures octets { out.new ≡ spelling from (value_of frame.now) }

    // The other end reads it back, on each line whose I frames carry as many octets.
    ensures reads_back { (info : ℕ) → HasSpelling info (value_of frame.now)
        → FrameForm (other_of from) info out.new (value_of frame.now) }
{
    out.clear();
    out.push(address_octet(from, frame.response));
    out.push(control_octet(&frame.kind, frame.pf));
    match frame.kind {
        FrameKind::I { information, .. } => out.extend(information),
        FrameKind::Frmr(report) => {
            out.push(report.control);
            // V(R), whether a response was rejected, and V(S).
            out.push(octet_of(report.vr, report.response, report.vs));
            out.push(reasons_octet(&report));
        }
        _ => {}
    }
}

#[inline(always)]
fn control_octet(kind: &FrameKind<'_>, pf: bool) -> u8
    requires { HasNumbers (content_of kind.now) }
    ensures { result ≡ control_of (content_of kind.now) pf }
{
    match *kind {
        FrameKind::I { ns, nr, .. } => octet_of(nr, pf, ns),
        FrameKind::Rr { nr } => octet_of(nr, pf, 0) + 0x01,
        FrameKind::Rnr { nr } => octet_of(nr, pf, 0) + 0x05,
        FrameKind::Rej { nr } => octet_of(nr, pf, 0) + 0x09,
        FrameKind::Sabm => octet_of(0, pf, 0) + 0x2F,
        FrameKind::Disc => octet_of(0, pf, 0) + 0x43,
        FrameKind::Dm => octet_of(0, pf, 0) + 0x0F,
        FrameKind::Ua => octet_of(0, pf, 0) + 0x63,
        FrameKind::Frmr(_) => octet_of(0, pf, 0) + 0x87,
    }
}

/// W, X, Y and Z.
fn reasons_octet(report: &Rejection) -> u8
    ensures { result ≡ reasons_of (report_of report.now) }
{
    u8::from(report.z) * 8 + u8::from(report.y) * 4 + u8::from(report.x) * 2 + u8::from(report.w)
}
