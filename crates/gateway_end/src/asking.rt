//! What the calls of a gateway hear of the link, and the packets that they have for it.
ghost use Rattle.std.specs.Prelude.{◌≡◌, ◌≤◌, ℕ, List, [], length};
ghost use Rattle.xot_gateway.specs.declared.calls.Work.TheVariants as work;
ghost use Rattle.xot_gateway.specs.Packets.{most_packet};
ghost use Rattle.gateway_end.specs.Waiting.{WaitsShort, waiting_in};
ghost use Rattle.gateway_end.specs.Gives.{Gives, Turns, served};
ghost use Rattle.gateway_end.specs.GatewayEnd.{Heeds, waiting_after};

use lapb::Note;
use xot_codec::XotPacket;
use xot_gateway::{Work, XotCalls};

/// What the link tells: a new session restarts the line, and the end of one ends its calls. What waited for the link is
/// dropped with its session.
pub(crate) fn heed(note: Note, calls: &mut XotCalls, next: &mut Option<XotPacket>)
    ensures calls { Heeds note calls.old calls.new }
    ensures line { calls.new.line ≡ calls.old.line }
    ensures waiting { waiting_in next.new ≡ waiting_after note (waiting_in next.old) }
    ensures short { (info : ℕ) → WaitsShort next.old info → WaitsShort next.new info }
{
    match note {
        Note::Nothing => return,
        Note::Up => calls.link_up(),
        Note::Down => calls.link_down(),
    }
    *next = None;
}

/// Takes the next packet for the line, if there is one: what the calls themselves owe, else that of the first connection
/// which has one, in turn.
pub(crate) fn next_packet(
    calls: &mut XotCalls,
    connections: usize,
    turn: &mut usize,
    packet: &mut XotPacket,
) -> Work
    requires { packet.old.items ≡ [] }
    ensures gives { Gives calls.old (served result packet.new.items) calls.new }
    ensures fits { result ≡ work.Sends → length packet.new.items ≤ most_packet calls.old.line }
    ensures line { calls.new.line ≡ calls.old.line }
{
    if calls.next_owed(packet) {
        return Work::Sends;
    }
    let first = connections.min(*turn);
    match serve_among(calls, first, connections, turn, packet) {
        Work::Sends => Work::Sends,
        Work::Taken => after_taken(serve_among(calls, 0, first, turn, packet)),
        Work::Nothing => serve_among(calls, 0, first, turn, packet),
    }
}

/// What a request comes to before which a packet was taken.
fn after_taken(next: Work) -> Work
    ensures packet { (packet : List ℕ) → served result packet ≡ served next packet }
    ensures sends { result ≡ work.Sends → next ≡ work.Sends }
{
    match next {
        Work::Sends => Work::Sends,
        Work::Taken | Work::Nothing => Work::Taken,
    }
}

/// Asks the connections from one number up to another, until one has a packet for the line. The next one has the turn
/// then.
fn serve_among(
    calls: &mut XotCalls,
    from: usize,
    to: usize,
    turn: &mut usize,
    packet: &mut XotPacket,
) -> Work
    ensures gives { Gives calls.old (served result packet.new.items) calls.new }
    ensures fits { result ≡ work.Sends → length packet.new.items ≤ most_packet calls.old.line }
    ensures line { calls.new.line ≡ calls.old.line }
    ensures next { result ≡ work.Sends → Turns turn.new calls.old packet.new.items calls.new }
{
    let mut work = Work::Nothing;
    for number in from..to {
        match calls.serve(number, packet) {
            Work::Sends => {
                *turn = number + 1;
                return Work::Sends;
            }
            Work::Taken => work = Work::Taken,
            Work::Nothing => {}
        }
    }
    work
}
