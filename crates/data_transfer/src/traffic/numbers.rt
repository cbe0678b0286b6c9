//! Numbers as a line of either numbering shows them (X.25 4.4.1.1, 4.4.1.3): they are kept modulo 128.
ghost use Rattle.std.specs.Prelude.{◌≡◌, ◌<◌, ◌≤◌, MatchOption};
ghost use Rattle.packet_codec.specs.Packet.{modulus};
ghost use Rattle.data_transfer.specs.Flow as flow;
ghost use Rattle.data_transfer.specs.Traffic as machine;

use crate::traffic::Traffic;
use packet_codec::Numbering;

/// The number as a packet shows it.
pub(crate) fn shown(numbering: Numbering, number: u8) -> u8
    requires { number < 128 }
    ensures value { result ≡ flow.shown numbering number }
    ensures below { result < modulus numbering }
{
    match numbering {
        Numbering::Modulo8 => number % 8,
        Numbering::Modulo128 => number,
    }
}

/// How far a number that was received is ahead of one that is kept.
fn ahead(numbering: Numbering, kept: u8, received: u8) -> u8
    requires kept { kept < 128 }
    requires received { received < modulus numbering }
    ensures value { result ≡ flow.ahead_shown numbering kept received }
    ensures most { result < 128 }
{
    match numbering {
        Numbering::Modulo8 => (received + 8 - kept % 8) % 8,
        Numbering::Modulo128 => (received + 128 - kept) % 128,
    }
}

impl Traffic {
    /// Takes a P(R), and answers how many packets it covers. Nothing happens where it names none that may be covered.
    pub(crate) fn cover(&mut self, numbering: Numbering, receive: u8) -> Option<u8>
        requires { receive < modulus numbering }
        ensures covers { MatchOption result
            ((machine.in_flight self.old.traffic < flow.ahead_shown numbering self.old.traffic.covered receive)
            × (self.new ≡ self.old))
            (λ newly. (newly ≡ flow.ahead_shown numbering self.old.traffic.covered receive)
            × (newly ≤ machine.in_flight self.old.traffic)
            × (self.new ≡ record self.old { traffic = machine.covering newly self.old.traffic })) }
    {
        let oldest = self.send.oldest();
        let newly = ahead(numbering, oldest, receive);
        if newly > self.send.unacknowledged() {
            return None;
        }
        let _ = self.send.ack((oldest + newly) % 128);
        self.undelivered = self.undelivered.saturating_sub(newly);
        Some(newly)
    }
}
