//! The end of a line with a pool of its own, for tests.
ghost use Rattle.std.specs.Prelude.{◌≡◌, ◌≤◌, length};

use crate::link::fault::LinkFault;
use flow_window::pool::Pool;
use frame_codec::FrameBuf;
use lapb::{LinkParams, OfferFault};
use line_end::{LineEnd, Received};
use link_timers::Role;
use std::alloc::Global;
use std::marker::Model;

/// The end of a line whose I frames carry at most 145 octets, with a pool of its own.
#[derive(Drop)]
pub struct Terminus {
    end: LineEnd,
    pool: Pool,
}

impl Model for Terminus {
    ghost use Rattle.line_end.specs.End as line;

    ghost Value = { line.End };

    ghost use Rattle.layer_tests.specs.Links.Terminus.{end_of, IsTerminus};

    ghost view = { end_of };

    ghost invariant = { IsTerminus };
}

impl Terminus {
    /// The end of this role of a line, with a pool of k + 1 buffers.
    pub fn new(alloc: Global, role: Role, params: LinkParams) -> Result<Self, LinkFault>
        requires { params.info ≡ 145 }
    {
        params.check()?;
        let mut pool = Pool::new(alloc, usize::from(params.k) + 1, usize::from(params.info))?;
        let end = LineEnd::new(role, params, &mut pool)?;
        Ok(Terminus { end, pool })
    }

    /// What may be asked of it.
    pub fn end(&self) -> &LineEnd {
        &self.end
    }

    pub fn drop_frames(&mut self) {
        self.end.drop_frames();
    }

    pub fn on_frame<'a>(&mut self, octets: &'a [u8]) -> Received<'a> {
        self.end.on_frame(octets, &mut self.pool)
    }

    pub fn offer(&mut self, packet: &[u8]) -> Result<(), OfferFault>
        requires { length packet.now ≤ 145 }
    {
        self.end.offer(packet, &mut self.pool)
    }

    pub fn settle(&mut self) {
        self.end.settle(&mut self.pool);
    }

    pub fn out(&mut self, frame: &mut FrameBuf) -> bool {
        self.end.out(frame)
    }
}
