//! What happens at the connections of a gateway. Each call is one of [`XotCalls`](xot_gateway::XotCalls).
ghost use Rattle.std.specs.Prelude.{◌≡◌, ◌≤◌, length, take, position};
ghost use Rattle.xot_gateway.specs.Connections.{opened, written};
ghost use Rattle.xot_gateway.specs.Calls.{
  Loses,
  OthersStay,
  absent_one,
  attached,
  changed_at,
  come,
  granted_channels,
  has_wish,
  order_among,
  ordered,
};

use crate::end::GatewayEnd;
use xot_gateway::Order;

impl GatewayEnd {
    /// A connection came, and is to bring a Call. The answer is its number; none if there is no room for it.
    pub fn attach(&mut self) -> Option<usize>
        ensures came { result ≡ position absent_one self.old.calls.connections.items }
        ensures connections { self.new.calls.connections.items ≡ attached result self.old.calls.connections.items }
        ensures others { OthersStay self.old.calls self.new.calls }
        ensures end { self.new ≡ record self.old { calls = self.new.calls } }
    {
        self.calls.attach()
    }

    /// The connection that was ordered stands.
    pub fn opened(&mut self, number: usize)
        ensures connections { self.new.calls.connections.items ≡ changed_at number opened self.old.calls.connections.items }
        ensures others { OthersStay self.old.calls self.new.calls }
        ensures end { self.new ≡ record self.old { calls = self.new.calls } }
    {
        self.calls.opened(number);
    }

    /// The connection is lost, or could not be made: its call is cleared with cause 9, and what came over it and was not
    /// taken is dropped.
    pub fn lost(&mut self, number: usize)
        ensures calls { Loses number self.old.calls self.new.calls }
        ensures end { self.new ≡ record self.old { calls = self.new.calls } }
    {
        self.calls.lost(number);
    }

    /// Takes octets of a connection, from the first on, as many as there is room for. The answer is how many were taken. Of
    /// one whose call has ended all are taken, and dropped.
    pub fn came(&mut self, number: usize, octets: &[u8]) -> usize
        ensures within { result ≤ length octets.now }
        ensures connections { self.new.calls.connections.items ≡ changed_at number (come (take result octets.now)) self.old.calls.connections.items }
        ensures others { OthersStay self.old.calls self.new.calls }
        ensures end { self.new ≡ record self.old { calls = self.new.calls } }
    {
        self.calls.came(number, octets)
    }

    /// The first `count` octets that wait were written.
    pub fn written(&mut self, number: usize, count: usize)
        ensures connections { self.new.calls.connections.items ≡ changed_at number (written count) self.old.calls.connections.items }
        ensures others { OthersStay self.old.calls self.new.calls }
        ensures end { self.new ≡ record self.old { calls = self.new.calls } }
    {
        self.calls.written(number, count);
    }

    /// What is to be done with a connection next, if anything. Each order is given once. The call of one that is closed
    /// before its end is cleared.
    pub fn next_order(&mut self) -> Option<Order>
        ensures answer { result ≡ order_among self.old.calls.connections.items }
        ensures connections { self.new.calls.connections.items ≡ ordered self.old.calls.connections.items }
        ensures channels { self.new.calls.channels.items
            ≡ granted_channels (position has_wish self.old.calls.connections.items) self.old.calls.connections.items self.old.calls.channels.items }
        ensures end { self.new ≡ record self.old { calls = self.new.calls } }
    {
        self.calls.next_order()
    }
}
