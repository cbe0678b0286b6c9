//! One end of a link (X.25 2.4; ISO 7776).
ghost use Rattle.std.specs.Prelude.{◌≡◌, [], MatchResult};
ghost use Rattle.lapb.specs.Machine as machine;
ghost use Rattle.lapb.specs.Params.{AreParams};

mod calls;
mod defects;
mod information;
mod phases;
mod sending;
mod setting;

use crate::phase::Phase;
use crate::queue::Queue;
use flow_window::{Mod8, RecvWindow, SendWindow};
use frame_codec::{MAX_INFORMATION, Rejection};
use link_timers::Role;
use std::marker::Model;
use thiserror::Error;

// Nothing was rejected yet.
const NO_REPORT: Rejection = Rejection {
    control: 0,
    vs: 0,
    vr: 0,
    response: false,
    w: false,
    x: false,
    y: false,
    z: false,
};

/// How a link is to be made.
#[derive(Clone, Copy, PartialEq, Eq)]
pub struct LinkParams {
    /// How many packets may be unacknowledged, from 1 to 7 (X.25 2.4.8.6).
    pub k: u8,
    /// How many polls are sent without an answer before the link is set up again, from 1 to 20 (X.25 2.4.8.4).
    pub n2: u8,
    /// The most octets of information of an I frame, up to 1,028 ([`MAX_INFORMATION`]). Longer I frames are received as
    /// faulty (X.25 2.4.7.3).
    pub info: u16,
    /// Whether the line is standing: its link is up from the start.
    pub standing: bool,
}

impl LinkParams {
    /// `BadParams` comes if `k` is not from 1 to 7, `n2` not from 1 to 20, or `info` more than [`MAX_INFORMATION`].
    pub fn check(&self) -> Result<(), BadParams>
        ensures { MatchResult result
            (λ _. AreParams self.now)
            (λ _. AreParams self.now → ⊥) }
    {
        if self.k < 1
            || self.k > 7
            || self.n2 < 1
            || self.n2 > 20
            || usize::from(self.info) > MAX_INFORMATION
        {
            return Err(BadParams);
        }
        Ok(())
    }
}

/// A parameter of a link is out of its range.
#[derive(Clone, Copy, Debug, PartialEq, Eq, Error)]
#[error("bad link parameters")]
pub struct BadParams;

/// Why a packet was not taken, in the order in which the faults are tested.
#[derive(Clone, Copy, Debug, PartialEq, Eq, Error)]
pub enum OfferFault {
    /// The link is not up.
    #[error("link down")]
    Down,
    /// As many packets are unacknowledged as may be.
    #[error("link full")]
    Full,
}

/// One end of a link (X.25 2.4).
#[derive(Drop)]
pub struct Link {
    role: Role,
    phase: Phase,
    window: SendWindow<Mod8>,
    receive: RecvWindow<Mod8>,
    queue: Queue,
    n2: u8,
    info: u16,
    polls: u8,
    heard: bool,
    owed: bool,
    rejecting: bool,
    busy: bool,
    polling: bool,
    bit: bool,
    repeats: bool,
    report: Rejection,
}

impl Model for Link {
    ghost use Rattle.lapb.specs.Held as held;

    ghost Value = { held.Link };

    ghost use Rattle.lapb.specs.LinkView.{holding, IsLink};

    ghost view = { holding };

    ghost invariant = { IsLink };
}

impl Link {
    /// A link that was never set up, or on a standing line one that is up.
    ///
    /// `BadParams` comes if `k` is not from 1 to 7, `n2` not from 1 to 20, or `info` more than [`MAX_INFORMATION`].
    pub fn new(role: Role, params: LinkParams) -> Result<Link, BadParams>
        ensures { MatchResult result
            (λ link. AreParams params × (link ≡ record { link = machine.new role params; held = [] }))
            (λ _. AreParams params → ⊥) }
    {
        params.check()?;
        let LinkParams {
            k,
            n2,
            info,
            standing,
        } = params;
        Ok(Link {
            role,
            phase: if standing { Phase::Up } else { Phase::Down },
            window: SendWindow::new(k),
            receive: RecvWindow::new(),
            queue: Queue::new(),
            n2,
            info,
            polls: 0,
            heard: standing,
            owed: false,
            rejecting: false,
            busy: false,
            polling: false,
            bit: false,
            repeats: false,
            report: NO_REPORT,
        })
    }
}
