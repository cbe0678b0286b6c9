//! A link with a pool of its own, as a station of the tests.
ghost use Rattle.std.specs.Prelude.{◌≡◌, ◌≤◌, length};

use crate::link::fault::LinkFault;
use flow_window::pool::Pool;
use lapb::{Link, LinkOut, LinkParams, OfferFault, Phase};
use link_timers::Role;
use std::alloc::Global;
use std::marker::Model;

/// A link with a pool of its own, on a line whose I frames carry at most 145 octets.
#[derive(Drop)]
pub(crate) struct Station {
    link: Link,
    pool: Pool,
}

impl Model for Station {
    ghost use Rattle.lapb.specs.Machine as machine;

    ghost Value = { machine.Link };

    ghost use Rattle.layer_tests.specs.Links.Station.{link_of, IsStation};

    ghost view = { link_of };

    ghost invariant = { IsStation };
}

impl Station {
    pub(crate) fn new(alloc: Global, role: Role, params: LinkParams) -> Result<Self, LinkFault>
        requires { params.info ≡ 145 }
    {
        Ok(Station {
            link: Link::new(role, params)?,
            pool: Pool::new(alloc, usize::from(params.k) + 1, usize::from(params.info))?,
        })
    }

    pub(crate) fn start(&mut self, out: &mut LinkOut) {
        self.link.start(out, &mut self.pool);
    }

    pub(crate) fn relink(&mut self, out: &mut LinkOut) {
        self.link.relink(out, &mut self.pool);
    }

    pub(crate) fn on_frame(&mut self, bytes: &[u8], out: &mut LinkOut) {
        self.link.on_frame(bytes, out, &mut self.pool);
    }

    pub(crate) fn on_t1(&mut self, out: &mut LinkOut) {
        self.link.on_t1(out, &mut self.pool);
    }

    pub(crate) fn settle(&mut self, out: &mut LinkOut) {
        self.link.settle(out, &mut self.pool);
    }

    pub(crate) fn offer(&mut self, packet: &[u8]) -> Result<(), OfferFault>
        requires { length packet.now ≤ 145 }
    {
        self.link.offer(packet, &mut self.pool)
    }

    pub(crate) fn phase(&self) -> Phase {
        self.link.phase()
    }

    pub(crate) fn runs(&self) -> bool {
        self.link.runs()
    }

    pub(crate) fn at_rest(&self) -> bool {
        self.link.at_rest()
    }
}
