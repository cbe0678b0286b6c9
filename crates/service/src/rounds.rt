//! Rounds of a service: each serves each terminal, each call and each line in turn.
ghost use Rattle.std.specs.Prelude.{◌≡◌, length};
ghost use Rattle.service.specs.AllBridges.{WorksForAll};
ghost use Rattle.service.specs.Places.{AreApart};
ghost use Rattle.service.specs.Serving.{Serves, ServesBelow, Wishes, WishesKeys, Works};

use crate::bridging::serve_calls;
use crate::exchange::Exchange;
use crate::place::Place;
use crate::service::Service;
use crate::terminal::Terminal;
use line_sim::Line;

/// How many keys of a terminal are typed in a round.
const MOST_TYPED: u32 = 64;

impl<L: Line> Service<L> {
    /// Serves all that waits, round after round, `most` at most. The answer is whether more may be left: if not, the
    /// last round found nothing to do.
    pub fn work(&mut self, most: u32) -> bool
        ensures works { Works L.service self.old.places.items self.old.lines result self.old.exchange.net
            self.new.exchange.net self.old.terminals.items self.new.terminals.items }
        ensures bridges { WorksForAll L.service self.old.places.items self.old.lines result self.old.exchange.net
            self.new.exchange.net self.old.terminals.items self.new.terminals.items self.old.bridges.ports.items
            self.new.bridges.ports.items }
        ensures places { self.new.places ≡ self.old.places }
        ensures lines { self.new.lines ≡ self.old.lines }
    {
        for _ in 0..most {
            if !self.round() {
                return false;
            }
        }
        true
    }

    /// One round, and whether it found anything to do.
    fn round(&mut self) -> bool
        ensures works { Works L.service self.old.places.items self.old.lines result self.old.exchange.net
            self.new.exchange.net self.old.terminals.items self.new.terminals.items }
        ensures bridges { WorksForAll L.service self.old.places.items self.old.lines result self.old.exchange.net
            self.new.exchange.net self.old.terminals.items self.new.terminals.items self.old.bridges.ports.items
            self.new.bridges.ports.items }
        ensures places { self.new.places ≡ self.old.places }
        ensures lines { self.new.lines ≡ self.old.lines }
    {
        let served = serve_terminals(&mut self.exchange, &self.places, &mut self.terminals);
        let called = serve_calls(&mut self.exchange, &mut self.bridges);
        let moved = self.exchange.deliver_frames(self.lines);
        let expired = self.exchange.expire();
        served | called | moved | expired
    }
}

/// Serves the terminals of these places, and says whether there was anything to do.
pub(crate) fn serve_terminals<L: Line>(
    exchange: &mut Exchange<L>,
    places: &[Place],
    terminals: &mut Vec<Terminal>,
) -> bool
    requires seated { length terminals.old.items ≡ length places.now }
    requires apart { AreApart places.now }
    ensures { ServesBelow L.service places.now (length terminals.old.items) result exchange.old.net exchange.new.net
        terminals.old.items terminals.new.items }
{
    let mut any = false;
    for port in 0..terminals.len() {
        let done = serve_terminal(exchange, places[port], &mut terminals[port]);
        any |= done;
    }
    any
}

/// Tells the PAD who is at a terminal, types the next keys there, and shows what waits.
fn serve_terminal<L: Line>(exchange: &mut Exchange<L>, at: Place, terminal: &mut Terminal) -> bool
    ensures { Serves L.service at (Wishes at) result exchange.old.net exchange.new.net terminal.old terminal.new }
{
    let told = exchange.tell(at, terminal);
    let typed = type_some(exchange, at, terminal);
    let shown = exchange.show_next(at, terminal);
    told | typed | shown
}

/// Types the next keys of a terminal, and says whether there was one that could be typed, or that others gave way to.
fn type_some<L: Line>(exchange: &mut Exchange<L>, at: Place, terminal: &mut Terminal) -> bool
    ensures { Serves L.service at (WishesKeys at) result exchange.old.net exchange.new.net terminal.old terminal.new }
{
    if !exchange.type_next(at, terminal) {
        return false;
    }
    for _ in 1..MOST_TYPED {
        if !exchange.type_next(at, terminal) {
            return true;
        }
    }
    true
}
