//! One connection and the call on it.
ghost use Rattle.std.specs.Prelude.{◌≡◌, ◌-◌, ◌≤◌, false, true, length, Some, IfOk, IfSome};
ghost use Rattle.packet_codec.specs.View.{answer_view, content_view};
ghost use Rattle.xot_codec.specs.Xot.{takes_packet};
ghost use Rattle.xot_gateway.specs.Connections.{absent, after_call, alone_after, answer_of, broken, called, called_at, cause_at_connection, cause_at_line, first_content, first_move, first_served, fresh, granted, heard_by, heard_on, in_call, in_phase, is_absent, is_end, is_on, is_pvc_set_up, leaves_when, listens, next_served, next_answer, next_connection, next_packet, opened, packet_after, place_in, restarted, served, served_by, told, wished, writes};
ghost use Rattle.xot_gateway.specs.Calls.{has_wish};
ghost use Rattle.xot_gateway.specs.Packets.{clear_on, confirmation_on, most_packet, over_connection, over_line, read_on};
ghost use Rattle.xot_gateway.specs.declared.states.Move.TheVariants.{Passes};
ghost use Rattle.xot_gateway.specs.declared.states.ChannelState.TheVariants.{ToClear};
ghost use Rattle.xot_gateway.specs.declared.connection.ConnectionCall.TheVariants.{Cleared, Confirmed};

use crate::line::XotLine;
use crate::packets::{
    ReadPacket, accepted_facilities, prepare, read_on, write_accepted_over, write_call_over,
    write_clear, write_confirmation, write_over_line,
};
use crate::states::{
    ChannelState, FirstMove, Move, Phase, Refusal, connection_move, fault_move, line_move,
};
use link_timers::Countdown;
use packet_codec::clear_cause::{INVALID_FACILITY, LOCAL_PROCEDURE_ERROR, OUT_OF_ORDER};
use packet_codec::{Content, Packet, PacketFault};
use std::alloc::{AllocError, Global};
use xot_codec::{LineFlow, MAX_XOT_PACKET, XotPacket, XotStream, take_facilities};

/// How long the other side may take where it is to act, in ticks of a twentieth of a second: a minute.
const PEER_TICKS: u16 = 1200;

/// The third octet of a PVC set-up (RFC 1613).
const PVC_SET_UP: u8 = 0xf5;

/// Whether a connection stands.
#[derive(Clone, Copy, PartialEq, Eq)]
pub(crate) enum Socket {
    /// There is none.
    Absent,
    /// It is wanted, and the order to make it was not given.
    Wanted,
    /// The order to make it was given.
    Opening,
    /// It stands.
    Standing,
}

/// What the call of a connection is in.
#[derive(Clone, Copy, PartialEq, Eq)]
pub(crate) enum ConnectionCall {
    /// No Call came yet.
    NoCall,
    /// A call on the channel of this place in the table of channels.
    Call { place: u8, phase: Phase },
    /// The gateway cleared it, and the other side is to confirm that.
    Cleared,
    /// The other side cleared it, that was confirmed, and the other side is to close the connection.
    Confirmed,
    /// It has ended. What waits is written out, and then the connection is closed.
    Ending,
    /// It has ended, and the connection is closed at once.
    Broken,
}

/// One connection and the call on it (RFC 1613).
#[derive(Drop)]
pub(crate) struct Connection {
    pub(crate) socket: Socket,
    pub(crate) call: ConnectionCall,
    /// The ticks that are left to the other side, where it is to act.
    pub(crate) left: Countdown,
    pub(crate) stream: XotStream,
}

/// What a packet of a connection came to.
#[derive(Clone, Copy)]
pub(crate) struct Served {
    /// Whether a packet is to go to the line.
    pub(crate) sends: bool,
    /// What the channel of the call is in, if it has no connection any more.
    pub(crate) leaves: Option<ChannelState>,
}

/// Nothing goes to the line.
const QUIET: Served = Served {
    sends: false,
    leaves: None,
};

/// A packet goes to the line, and the call stays.
const SENDS: Served = Served {
    sends: true,
    leaves: None,
};

/// What is to be done with a connection.
#[derive(Clone, Copy, PartialEq, Eq)]
pub(crate) enum Wish {
    /// Nothing.
    Rests,
    /// It is to be made.
    Connects,
    /// It is to be closed.
    Closes,
}

impl Connection {
    /// No connection. `AllocError` comes for want of memory.
    pub(crate) fn new(alloc: Global) -> Result<Self, AllocError>
        ensures { IfOk result (λ connection. connection ≡ absent) }
    {
        Ok(Connection {
            socket: Socket::Absent,
            call: ConnectionCall::NoCall,
            left: Countdown::new(),
            stream: XotStream::new(alloc)?,
        })
    }

    /// The connection is gone.
    pub(crate) fn leave(&mut self)
        ensures { self.new ≡ absent }
    {
        self.renew(Socket::Absent);
    }

    /// A connection came, and is to bring a Call.
    pub(crate) fn begin(&mut self)
        ensures { self.new ≡ fresh }
    {
        self.renew(Socket::Standing);
        self.left.start(PEER_TICKS);
    }

    /// A connection that nothing came over yet.
    fn renew(&mut self, socket: Socket)
        ensures { self.new ≡ record absent { socket = socket } }
    {
        self.socket = socket;
        self.call = ConnectionCall::NoCall;
        self.left.stop();
        self.stream.clear();
    }

    /// A Call of the line on a free channel wants a connection.
    pub(crate) fn begin_call(
        &mut self,
        line: XotLine,
        content: &Content,
        octets: &[u8],
        place: u8,
    ) -> Option<ChannelState>
        ensures connection { self.new ≡ (called line (content_view content.now) octets.now place).connection }
        ensures leaves { result ≡ (called line (content_view content.now) octets.now place).leaves }
    {
        self.renew(Socket::Wanted);
        self.pass(line, content, octets, place, Phase::DceWaiting)
    }

    /// Takes a packet of the line on the channel of its call, if it has one. The answer is what the channel is in, if it has
    /// no connection any more.
    pub(crate) fn hear_on(
        &mut self,
        line: XotLine,
        content: &Content,
        octets: &[u8],
        place: u8,
    ) -> Option<ChannelState>
        ensures connection { self.new ≡ (heard_on line (content_view content.now) octets.now place self.old).connection }
        ensures leaves { result ≡ (heard_on line (content_view content.now) octets.now place self.old).leaves }
    {
        let ConnectionCall::Call { phase, .. } = self.call else {
            return None;
        };
        match line_move(phase, content) {
            Move::Passes(next) => self.pass(line, content, octets, place, next),
            Move::Confirms => {
                self.confirm(line, place);
                Some(ChannelState::Ready)
            }
            Move::Drops | Move::Refuses(_) => None,
        }
    }

    /// Passes a packet of the line on, after which the call is in the phase.
    fn pass(
        &mut self,
        line: XotLine,
        content: &Content,
        octets: &[u8],
        place: u8,
        phase: Phase,
    ) -> Option<ChannelState>
        ensures connection { self.new ≡ (heard_by line (content_view content.now) octets.now place self.old (Passes phase)).connection }
        ensures leaves { result ≡ (heard_by line (content_view content.now) octets.now place self.old (Passes phase)).leaves }
    {
        self.enter(place, phase);
        if self.tell_content(line.flow, content, octets) {
            None
        } else {
            Some(phase.alone())
        }
    }

    fn tell_content(&mut self, flow: LineFlow, content: &Content, octets: &[u8]) -> bool
        ensures connection { self.new ≡ told self.old (over_connection flow (content_view content.now) octets.now) }
        ensures room { result ≡ takes_packet self.old.stream (over_connection flow (content_view content.now) octets.now) }
    {
        match content {
            Content::CallRequest(_) => {
                let mut out = XotPacket::new();
                write_call_over(flow, octets, &mut out);
                self.tell(out.as_slice())
            }
            Content::CallAccepted => {
                let mut out = XotPacket::new();
                write_accepted_over(flow, octets, &mut out);
                self.tell(out.as_slice())
            }
            _ => self.tell(octets),
        }
    }

    fn enter(&mut self, place: u8, phase: Phase)
        ensures { self.new ≡ in_phase self.old place phase }
    {
        self.call = ConnectionCall::Call { place, phase };
        match phase {
            Phase::DceClear => self.left.start(PEER_TICKS),
            _ => self.left.stop(),
        }
    }

    /// The call has ended, and the other side is to act.
    fn end_call(&mut self, state: ConnectionCall)
        ensures { self.new ≡ after_call self.old state }
    {
        self.call = state;
        self.left.start(PEER_TICKS);
    }

    /// Adds a packet to what is written. Without room for it the connection is broken.
    fn tell(&mut self, packet: &[u8]) -> bool
        ensures connection { self.new ≡ told self.old packet.now }
        ensures room { result ≡ takes_packet self.old.stream packet.now }
    {
        let added = self.stream.add_packet(packet);
        if !added {
            self.break_off();
        }
        added
    }

    /// Writes nothing more, and is to be closed.
    pub(crate) fn break_off(&mut self)
        ensures { self.new ≡ broken self.old }
    {
        self.call = ConnectionCall::Broken;
        self.left.stop();
    }

    /// Confirms a Clear of the other side.
    fn confirm(&mut self, line: XotLine, place: u8)
        ensures { self.new ≡ told (after_call self.old Confirmed) (confirmation_on line place) }
    {
        let mut out = XotPacket::new();
        write_confirmation(line, place, &mut out);
        self.end_call(ConnectionCall::Confirmed);
        self.tell(out.as_slice());
    }

    /// Clears the call of the other side.
    fn clear(&mut self, line: XotLine, place: u8, cause: u8)
        ensures { self.new ≡ told (after_call self.old Cleared) (clear_on line place cause) }
    {
        let mut out = XotPacket::new();
        write_clear(line, place, cause, &mut out);
        self.end_call(ConnectionCall::Cleared);
        self.tell(out.as_slice());
    }

    /// Takes the next packet of the other side, if the whole of it came: then there is an answer. What is no packet of this
    /// protocol breaks the connection.
    pub(crate) fn serve_next(
        &mut self,
        line: XotLine,
        free: Result<u8, u8>,
        out: &mut XotPacket,
    ) -> Option<Served>
        ensures connection { self.new ≡ next_connection self.old (next_served line free self.old) }
        ensures answer { result ≡ next_answer (next_served line free self.old) }
        ensures out { out.new.items ≡ next_packet out.old.items (next_served line free self.old) }
        ensures fits { IfSome result (λ s. s.sends ≡ true → length out.new.items ≤ most_packet line) }
    {
        let mut packet = XotPacket::new();
        match self.stream.next_packet(&mut packet) {
            Ok(false) => None,
            Ok(true) => Some(self.serve(line, free, packet.as_slice(), out)),
            Err(_) => {
                let leaves = self.alone();
                self.break_off();
                Some(Served {
                    sends: false,
                    leaves,
                })
            }
        }
    }

    /// Takes a packet of the other side. A Call gets the free channel, or is cleared with the cause. What is to go to the
    /// line is then in `out`.
    fn serve(
        &mut self,
        line: XotLine,
        free: Result<u8, u8>,
        packet: &[u8],
        out: &mut XotPacket,
    ) -> Served
        requires { length packet.now ≤ MAX_XOT_PACKET }
        ensures connection { self.new ≡ (served line free packet.now self.old).connection }
        ensures answer { result ≡ answer_of (served line free packet.now self.old) }
        ensures out { out.new.items ≡ packet_after out.old.items (served line free packet.now self.old) }
        ensures fits { result.sends ≡ true → length out.new.items ≤ most_packet line }
    {
        let prepared = prepare(place_in(free, self.call), packet);
        let octets = prepared.as_slice();
        match self.call {
            ConnectionCall::NoCall => self.serve_first(line, free, octets, out),
            ConnectionCall::Call { place, phase } => self.serve_call(
                line, place, phase, octets, out,
            ),
            ConnectionCall::Cleared => {
                if is_end(&read_on(line, octets)) {
                    self.end_call(ConnectionCall::Ending);
                }
                QUIET
            }
            ConnectionCall::Confirmed | ConnectionCall::Ending | ConnectionCall::Broken => QUIET,
        }
    }

    /// The first packet of the connection.
    fn serve_first(
        &mut self,
        line: XotLine,
        free: Result<u8, u8>,
        octets: &[u8],
        out: &mut XotPacket,
    ) -> Served
        requires { length octets.now ≤ MAX_XOT_PACKET }
        ensures connection { self.new ≡ (first_served line free octets.now self.old).connection }
        ensures answer { result ≡ answer_of (first_served line free octets.now self.old) }
        ensures out { out.new.items ≡ packet_after out.old.items (first_served line free octets.now self.old) }
        ensures fits { result.sends ≡ true → length out.new.items ≤ most_packet line }
    {
        let read = read_on(line, octets);
        let next = first_move(line.flow, free, octets, &read);
        match (next, &read) {
            (FirstMove::Calls(place), Ok(packet)) => {
                write_over_line(&packet.content, octets, out);
                self.enter(place, Phase::DteWaiting);
                SENDS
            }
            (FirstMove::Calls(_), Err(_)) => QUIET,
            (FirstMove::Clears(cause), _) => {
                self.clear(line, 0, cause);
                QUIET
            }
            (FirstMove::Confirms, _) => {
                self.confirm(line, 0);
                QUIET
            }
        }
    }

    /// A packet of the connection in its call.
    fn serve_call(
        &mut self,
        line: XotLine,
        place: u8,
        phase: Phase,
        octets: &[u8],
        out: &mut XotPacket,
    ) -> Served
        requires { length octets.now ≤ MAX_XOT_PACKET }
        ensures connection { self.new ≡ (in_call line place phase octets.now self.old (read_on line octets.now)).connection }
        ensures answer { result ≡ answer_of (in_call line place phase octets.now self.old (read_on line octets.now)) }
        ensures out { out.new.items ≡ packet_after out.old.items (in_call line place phase octets.now self.old (read_on line octets.now)) }
        ensures fits { result.sends ≡ true → length out.new.items ≤ most_packet line }
    {
        let carried = take_facilities(line.flow, accepted_facilities(octets)).is_ok();
        match read_on(line, octets) {
            Ok(packet) => {
                let next = connection_move(phase, carried, &packet.content);
                let read = ReadPacket {
                    content: &packet.content,
                    octets,
                };
                self.serve_packet(line, &read, place, next, out)
            }
            Err(_) => match fault_move(phase) {
                Move::Refuses(refusal) => self.refuse(line, place, refusal),
                _ => QUIET,
            },
        }
    }

    /// A packet of the connection in its call, which is read.
    fn serve_packet(
        &mut self,
        line: XotLine,
        packet: &ReadPacket<'_>,
        place: u8,
        next: Move,
        out: &mut XotPacket,
    ) -> Served
        requires whole { length packet.now.octets.now ≤ MAX_XOT_PACKET }
        requires short { length (over_line (content_view packet.now.content.now) packet.now.octets.now) ≤ most_packet line }
        ensures connection { self.new ≡ (served_by line (content_view packet.now.content.now) packet.now.octets.now place self.old next).connection }
        ensures answer { result ≡ answer_of (served_by line (content_view packet.now.content.now) packet.now.octets.now place self.old next) }
        ensures out { out.new.items ≡ packet_after out.old.items (served_by line (content_view packet.now.content.now) packet.now.octets.now place self.old next) }
        ensures fits { result.sends ≡ true → length out.new.items ≤ most_packet line }
    {
        match next {
            Move::Drops => QUIET,
            Move::Passes(phase) => {
                write_over_line(packet.content, packet.octets, out);
                self.enter(place, phase);
                SENDS
            }
            Move::Confirms => {
                write_confirmation(line, place, out);
                self.end_call(ConnectionCall::Ending);
                Served {
                    sends: true,
                    leaves: Some(ChannelState::Ready),
                }
            }
            Move::Refuses(refusal) => self.refuse(line, place, refusal),
        }
    }

    fn refuse(&mut self, line: XotLine, place: u8, refusal: Refusal) -> Served
        ensures connection { self.new ≡ told (after_call self.old Cleared) (clear_on line place (cause_at_connection refusal)) }
        ensures answer { result ≡ record { sends = false; leaves = Some (ToClear (cause_at_line refusal)) } }
    {
        self.clear(line, place, refusal.at_connection());
        Served {
            sends: false,
            leaves: Some(ChannelState::ToClear(refusal.at_line())),
        }
    }

    /// It stands.
    pub(crate) fn stand(&mut self)
        ensures { self.new ≡ opened self.old }
    {
        if let Socket::Opening = self.socket {
            self.socket = Socket::Standing;
        }
    }

    /// Whether what comes is of any use: it stands, and its call has not ended.
    pub(crate) fn listens(&self) -> bool
        ensures { result ≡ listens self.now }
    {
        matches!(self.socket, Socket::Standing)
            && matches!(
                self.call,
                ConnectionCall::NoCall | ConnectionCall::Call { .. } | ConnectionCall::Cleared
            )
    }

    /// Whether what waits is to be written: it stands, and is not broken.
    pub(crate) fn writes(&self) -> bool
        ensures { result ≡ writes self.now }
    {
        matches!(self.socket, Socket::Standing) && !matches!(self.call, ConnectionCall::Broken)
    }

    /// Whether there is none.
    pub(crate) fn is_absent(&self) -> bool
        ensures { result ≡ is_absent self.now.socket }
    {
        matches!(self.socket, Socket::Absent)
    }

    /// Whether it has a call on the channel of this place.
    pub(crate) fn is_on(&self, place: u8) -> bool
        ensures { result ≡ is_on place self.now }
    {
        matches!(self.call, ConnectionCall::Call { place: own, .. } if own == place)
    }

    /// The line restarts: a call is cleared with cause 9.
    pub(crate) fn restart(&mut self, line: XotLine)
        ensures { self.new ≡ restarted line self.old }
    {
        match self.call {
            ConnectionCall::Call { place, phase } => match phase {
                Phase::DteClear => self.confirm(line, place),
                Phase::DceClear => self.call = ConnectionCall::Cleared,
                _ => self.clear(line, place, OUT_OF_ORDER),
            },
            _ => {}
        }
    }

    /// What the channel of the call is in if the connection is gone, if there is a call.
    pub(crate) fn alone(&self) -> Option<ChannelState>
        ensures { result ≡ alone_after self.now.call }
    {
        match self.call {
            ConnectionCall::Call { phase, .. } => Some(phase.alone()),
            _ => None,
        }
    }

    /// What is to be done with it: it is made for a Call, or closed, because the other side was to act and did not, or
    /// because its call has ended and all is written.
    pub(crate) fn wants(&self) -> Wish
        ensures { result ≡ wished self.now }
    {
        match (self.socket, self.call) {
            (Socket::Absent, _) => Wish::Rests,
            _ if self.left.is_due() => Wish::Closes,
            (_, ConnectionCall::Broken) => Wish::Closes,
            (Socket::Standing, ConnectionCall::Ending) if !self.stream.waiting().is_empty() => {
                Wish::Rests
            }
            (_, ConnectionCall::Ending) => Wish::Closes,
            (Socket::Wanted, _) => Wish::Connects,
            _ => Wish::Rests,
        }
    }

    /// What the channel of the call is in then, if there is a call.
    pub(crate) fn leaves(&self, wish: Wish) -> Option<ChannelState>
        ensures { result ≡ leaves_when wish self.now.call }
    {
        match wish {
            Wish::Closes => self.alone(),
            _ => None,
        }
    }

    /// Whether something is to be done with it.
    pub(crate) fn has_wish(&self) -> bool
        ensures { result ≡ has_wish self.now }
    {
        self.wants() != Wish::Rests
    }

    /// What was wished is being done.
    pub(crate) fn grant(&mut self, wish: Wish)
        ensures { self.new ≡ granted wish self.old }
    {
        match wish {
            Wish::Rests => {}
            Wish::Connects => self.socket = Socket::Opening,
            Wish::Closes => self.leave(),
        }
    }
}

/// The place of the channel of a connection's packet: that of its call, or the free one.
fn place_in(free: Result<u8, u8>, call: ConnectionCall) -> u8
    ensures { result ≡ place_in free call }
{
    match (call, free) {
        (ConnectionCall::Call { place, .. }, _) => place,
        (_, Ok(place)) => place,
        (_, Err(_)) => 0,
    }
}

/// What the first packet of a connection becomes, for which there is a free place, or a cause why not.
fn first_move(
    flow: LineFlow,
    free: Result<u8, u8>,
    octets: &[u8],
    read: &Result<Packet<'_>, PacketFault>,
) -> FirstMove
    ensures { result ≡ first_move flow free octets.now (answer_view read.now) }
{
    match read {
        Ok(packet) => first_content(flow, free, &packet.content),
        Err(_) if is_pvc_set_up(octets) => FirstMove::Clears(INVALID_FACILITY),
        Err(_) => FirstMove::Clears(LOCAL_PROCEDURE_ERROR),
    }
}

fn is_pvc_set_up(octets: &[u8]) -> bool
    ensures { result ≡ is_pvc_set_up octets.now }
{
    match octets {
        [_, _, third, ..] => *third == PVC_SET_UP,
        _ => false,
    }
}

fn first_content(flow: LineFlow, free: Result<u8, u8>, content: &Content) -> FirstMove
    ensures { result ≡ first_content flow free (content_view content.now) }
{
    match content {
        Content::CallRequest(call) => match take_facilities(flow, call.facilities) {
            Ok(()) => called_at(free),
            Err(_) => FirstMove::Clears(INVALID_FACILITY),
        },
        Content::ClearRequest { .. } => FirstMove::Confirms,
        _ => FirstMove::Clears(LOCAL_PROCEDURE_ERROR),
    }
}

fn called_at(free: Result<u8, u8>) -> FirstMove
    ensures { result ≡ called_at free }
{
    match free {
        Ok(place) => FirstMove::Calls(place),
        Err(cause) => FirstMove::Clears(cause),
    }
}

/// Whether a packet is a Clear or a Clear Confirmation.
fn is_end(read: &Result<Packet<'_>, PacketFault>) -> bool
    ensures { result ≡ is_end (answer_view read.now) }
{
    match read {
        Ok(packet) => matches!(
            packet.content,
            Content::ClearRequest { .. } | Content::ClearConfirmation
        ),
        Err(_) => false,
    }
}
