//! Lines to other processes.
ghost use Rattle.std.specs.Prelude.{◌≡◌, true, List};
ghost use Rattle.std.specs.Bool.{OnTrue, OnFalse};
ghost use Rattle.net_process.specs.Process.{may_start};
ghost use Rattle.service.specs.declared.place.Place.{Place};
ghost use Rattle.service.specs.Lines.{ServesLines, Starts, StartsOne};

use crate::absent::leave_absent;
use crate::exchange::Exchange;
use crate::service::Service;
use line_sim::{Direction, Line};
use link_timers::Role;
use net_process::Process;
use remote_lines::Reading;

impl<L: Line> Service<L> {
    ghost use Rattle.std.specs.Borrow.{Lends, sem};
    ghost use Rattle.net_process.specs.contracts.process.Process.{the_row as process_row};
    ghost use Rattle.service.specs.contracts.service.Service.{the_row};

    /// Does what lines to other processes want: a node starts if its lines let it, a link is given up if its line had no
    /// connection for too long, what came is read, and what nodes sent is handed to the connections. The answer is
    /// whether more may be left.
    pub fn serve_lines(&mut self) -> bool
        ensures lines { ServesLines L.service self.old.places.items self.old.exchange.net self.new.exchange.net }
        ensures terminals { self.new.terminals ≡ self.old.terminals }
        ensures places { self.new.places ≡ self.old.places }
    {
        let started = self.start_node();
        let given_up = self.exchange.give_up();
        let read = self.exchange.read_lines();
        self.exchange.net.carry();
        started | given_up | read
    }

    /// Starts a node if its lines let it, and says whether there was one.
    fn start_node(&mut self) -> bool
        ensures starts { OnTrue result (StartsOne L.service self.old.pads.items self.old.places.items
            self.old.exchange.net self.new.exchange.net) }
        ensures rests { OnFalse result (self.new.exchange.net ≡ self.old.exchange.net) }
        ensures terminals { self.new.terminals ≡ self.old.terminals }
        ensures places { self.new.places ≡ self.old.places }
    {
        let Some(node) = self.exchange.net.next_to_start() else {
            return false;
        };
        self.exchange.start(node);
        leave_absent(&mut self.exchange, &self.pads, &self.places);
        true
    }

    /// The process of the network: which nodes it has, and how far its lines to other processes are.
    pub fn net(&self) -> &Process<L>
        ensures { result.now ≡ self.now.exchange.net }
    {
        &self.exchange.net
    }

    /// Lends the process for what happens at the connections of its lines.
    pub fn net_mut(&mut self) -> &mut Process<L>
        ensures* lends { sem 𝓛 (Lends (the_row L.row L.Line) (process_row L.row L.Line) self.entry result
            (λ net. record self.entry.now { exchange = record self.entry.now.exchange { net = net } })) }
        ensures network { result.now ≡ self.old.exchange.net }
    {
        let exchange = &mut self.exchange;
        &mut exchange.net
    }
}

impl<L: Line> Exchange<L> {
    /// Starts a node that may start. What it sends first is seen.
    fn start(&mut self, node: usize)
        requires { may_start self.old.net node ≡ true }
        ensures { Starts L.service node self.old.net self.new.net }
    {
        if let Ok(answer) = self.net.start(node) {
            self.passing.see_all(answer);
        }
    }

    /// Gives a link up whose line had no connection for too long, and says whether there was one.
    fn give_up(&mut self) -> bool
        ensures { (places : List Place) → ServesLines L.service places self.old.net self.new.net }
    {
        let Some(event) = self.net.next_given_up() else {
            return false;
        };
        self.happen(&event);
        true
    }

    /// Reads what comes next on each line, and says whether there was anything.
    fn read_lines(&mut self) -> bool
        ensures { (places : List Place) → ServesLines L.service places self.old.net self.new.net }
    {
        let mut any = false;
        for place in 0..self.net.remote_lines() {
            let reading = self.net.line_read(place, &mut self.came);
            self.see_arrival(place, reading);
            any |= is_reading(reading);
        }
        any
    }

    /// Sees a frame that came on a line, if one was read.
    fn see_arrival(&mut self, place: usize, reading: Reading)
        ensures { self.new.net ≡ self.old.net }
    {
        if !matches!(reading, Reading::Frame) {
            return;
        }
        if let Some((end, _)) = self.net.remote_line(place) {
            let direction = match end.role {
                Role::Dte => Direction::FromDce,
                Role::Dce => Direction::FromDte,
            };
            self.passing.see(end.line, direction, &self.came);
        }
    }
}

/// Whether anything was read.
fn is_reading(reading: Reading) -> bool {
    !matches!(reading, Reading::Nothing)
}
