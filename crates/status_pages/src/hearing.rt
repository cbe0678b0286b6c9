//! A request as it comes.
ghost use Rattle.std.specs.Prelude.{◌≡◌, ◌-◌, [], ◌++◌, take, length, nat_lt};
ghost use Rattle.status_pages.specs.Requests.{IsRequestIn, most_octets};
ghost use Rattle.status_pages.specs.Hearing.{most_ticks};

use crate::requests::{MOST_OCTETS, Request, request_in};
use arrayvec::ArrayVec;
use std::marker::Model;

/// How long a request may take, in ticks.
const MOST_TICKS: u16 = 100;

/// What came of a request, and how many ticks are left for it.
#[derive(Drop)]
pub struct Hearing {
    octets: ArrayVec<u8, MOST_OCTETS>,
    left: u16,
}

impl Model for Hearing {
    ghost use Rattle.status_pages.specs.Hearing.{Heard};

    ghost Value = { Heard };

    ghost view = { λ h. record { octets = h.octets.items; left = h.left } };
}

impl Hearing {
    /// Nothing came yet.
    pub fn new() -> Self
        ensures { result ≡ record { octets = []; left = most_ticks } }
    {
        Hearing {
            octets: ArrayVec::new(),
            left: MOST_TICKS,
        }
    }

    /// Takes octets that came, as long as there is room, and says what is asked for, once that is certain.
    pub fn hear(&mut self, octets: &[u8]) -> Option<Request>
        ensures taken { self.new ≡ record self.old { octets = self.old.octets ++ take (most_octets - length self.old.octets) octets.now } }
        ensures asked { IsRequestIn self.new.octets result }
    {
        fill(&mut self.octets, octets);
        request_in(self.octets.as_slice())
    }

    /// Lets ticks pass, and says whether there is time left.
    pub fn elapse(&mut self, ticks: u16) -> bool
        ensures passes { self.new ≡ record self.old { left = self.old.left - ticks } }
        ensures left { result ≡ nat_lt 0 self.new.left }
    {
        self.left = self.left.saturating_sub(ticks);
        self.left > 0
    }
}

/// Takes octets, as long as there is room.
#[tactic(auto, using(std::proofs::lemmas::List::take_min))]
fn fill(kept: &mut ArrayVec<u8, MOST_OCTETS>, octets: &[u8])
    ensures { kept.new.items ≡ kept.old.items ++ take (most_octets - length kept.old.items) octets.now }
{
    let room = kept.remaining_capacity().min(octets.len());
    let _ = kept.try_extend_from_slice(&octets[..room]);
}
