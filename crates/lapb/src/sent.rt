//! The frames that a link sends, by their kinds.
ghost use Rattle.std.specs.Prelude.{◌≡◌};
ghost use Rattle.frame_codec.specs.Views.{content_of, value_of};
ghost use Rattle.lapb.specs.Machine as machine;

use frame_codec::{Frame, FrameKind};

pub(crate) fn command(kind: FrameKind<'static>, pf: bool) -> Frame<'static>
    ensures { value_of result ≡ machine.command (content_of kind.entry) pf }
{
    Frame {
        kind,
        response: false,
        pf,
    }
}

pub(crate) fn response(kind: FrameKind<'static>, pf: bool) -> Frame<'static>
    ensures { value_of result ≡ machine.response (content_of kind.entry) pf }
{
    Frame {
        kind,
        response: true,
        pf,
    }
}
