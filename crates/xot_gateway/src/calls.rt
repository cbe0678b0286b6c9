//! The calls of a line: the table of its channels and that of connections.
ghost use Rattle.std.specs.Prelude.{◌≡◌, ◌≤◌, [], true, false, length, take, replicate, slice_get, is_some, position, IfOk, Some, None};
ghost use Rattle.packet_codec.specs.View.{content_view};
ghost use Rattle.xot_gateway.specs.declared.connection.Connection.{Connection as ConnectionValue};
ghost use Rattle.xot_gateway.specs.declared.calls.LineState.TheVariants as line_is;
ghost use Rattle.xot_gateway.specs.Connections.{absent, elapsed, is_on, opened, restarted, writes, written};
ghost use Rattle.xot_gateway.specs.Packets.{most_packet, read_on};
ghost use Rattle.xot_gateway.specs.declared.calls.Work.TheVariants as work;
ghost use Rattle.xot_gateway.specs.Calls.{
  AllChange,
  AllEnd,
  Hears,
  HearsAt,
  HearsContent,
  HearsOn,
  IsMade,
  Loses,
  OthersStay,
  PaysOwed,
  Restarts,
  Serves,
  absent_one,
  after_confirmation,
  after_restart,
  alone_heard,
  attached,
  changed_at,
  come,
  ends_calls,
  first_owed,
  free_in,
  granted_channels,
  heard_at,
  heard_place,
  has_wish,
  highest_free,
  is_call,
  is_line_ready,
  is_ready,
  left_by,
  order_among,
  order_for,
  ordered,
  owed_packet,
  owes,
  place_of,
  state_after,
  taken,
  with_call,
  with_paid,
};

use crate::connection::{Connection, ConnectionCall, Wish};
use crate::line::XotLine;
use crate::packets::{
    ReadPacket, read_on, write_clear, write_confirmation, write_restart, write_restart_confirmation,
};
use crate::states::ChannelState;
use packet_codec::Content;
use packet_codec::clear_cause::{NUMBER_BUSY, OUT_OF_ORDER};
use std::alloc::{AllocError, Global};
use xot_codec::XotPacket;

/// The most channels that are looked at for a free one.
const MOST_PLACES: usize = 255;

/// The most channels that an octet has places for.
const MOST_OWING: usize = 256;

/// What the packet layer of the line is in. The gateway is its DTE (X.25 3).
#[derive(Clone, Copy, PartialEq, Eq)]
pub(crate) enum LineState {
    /// The link is not up.
    Down,
    /// r2: a Restart Request is to go to the line.
    ToRestart,
    /// r2: it went, and is not confirmed.
    Restarting,
    /// r3: a Restart Confirmation is to go to the line.
    ToConfirm,
    /// r1.
    Ready,
}

/// What is to be done with a connection.
#[derive(Clone, Copy, PartialEq, Eq)]
pub enum Order {
    /// Make the connection of this number.
    Connect(usize),
    /// Close the connection of this number, if it was made. The gateway knows it no more.
    Close(usize),
}

/// What a packet of a connection came to.
#[derive(Clone, Copy, PartialEq, Eq)]
pub enum Work {
    /// No whole packet is there.
    Nothing,
    /// One was taken, and nothing goes to the line for it.
    Taken,
    /// One was taken, and a packet is to go to the line.
    Sends,
}

/// The calls of one line, each over one connection.
#[derive(Drop)]
pub struct XotCalls {
    line: XotLine,
    state: LineState,
    channels: Vec<ChannelState>,
    connections: Vec<Connection>,
}

impl XotCalls {
    /// The table of a line with so many channels, counted from 1, and so many connections. Its link is not up.
    /// `AllocError` comes for want of memory; no other call wants any.
    pub fn new(
        alloc: Global,
        line: XotLine,
        channels: u8,
        connections: usize,
    ) -> Result<Self, AllocError>
        ensures { IfOk result (IsMade line channels connections) }
    {
        Ok(XotCalls {
            line,
            state: LineState::Down,
            channels: new_channels(alloc, channels)?,
            connections: new_connections(alloc, connections)?,
        })
    }

    /// Whether packets of connections may go to the line: it is in r1.
    pub fn is_ready(&self) -> bool
        ensures { result ≡ is_line_ready self.now.state }
    {
        matches!(self.state, LineState::Ready)
    }

    /// The link has come up: the gateway restarts the line (X.25 3), and each call is cleared with cause 9.
    pub fn link_up(&mut self)
        ensures { AllEnd line_is.ToRestart self.old self.new }
    {
        self.end_calls(LineState::ToRestart);
    }

    /// The link is lost: each call is cleared with cause 9.
    pub fn link_down(&mut self)
        ensures { AllEnd line_is.Down self.old self.new }
    {
        self.end_calls(LineState::Down);
    }

    /// Each call is cleared with cause 9, and no channel owes the line anything.
    fn end_calls(&mut self, state: LineState)
        ensures { AllEnd state self.old self.new }
    {
        self.state = state;
        ready_all(&mut self.channels);
        restart_all(self.line, &mut self.connections);
    }

    /// Takes a packet of the line. One that is no packet, or that neither a call nor a free channel has a place for, is
    /// dropped.
    pub fn from_line(&mut self, octets: &[u8])
        ensures { Hears octets.now (read_on self.old.line octets.now) self.old self.new }
    {
        if let Ok(packet) = read_on(self.line, octets) {
            self.hear(&packet.content, packet.channel, octets);
        }
    }

    fn hear(&mut self, content: &Content, channel: u16, octets: &[u8])
        ensures { HearsContent (content_view content.now) channel octets.now self.old self.new }
    {
        match state_after(self.state, content) {
            Some(after) => self.hear_restart(after),
            None => self.hear_at(content, channel, octets),
        }
    }

    fn hear_at(&mut self, content: &Content, channel: u16, octets: &[u8])
        ensures { HearsAt (heard_place self.old.state channel) (content_view content.now) octets.now self.old self.new }
    {
        if let Some(place) = heard_place(self.state, channel) {
            self.hear_on(content, octets, place);
        }
    }

    /// A Restart of the line, or its confirmation.
    fn hear_restart(&mut self, after: LineState)
        ensures { Restarts after self.old self.new }
    {
        if ends_calls(self.state, after) {
            self.end_calls(after);
        }
        self.state = after;
    }

    /// A packet of the line on the channel of a place.
    fn hear_on(&mut self, content: &Content, octets: &[u8], place: u8)
        ensures { HearsOn place (content_view content.now) octets.now self.old self.new }
    {
        let line = self.line;
        let packet = ReadPacket { content, octets };
        match find_on(self.connections.as_slice(), place) {
            Some(number) => {
                hear_at(
                    line,
                    &packet,
                    place,
                    number,
                    &mut self.channels,
                    &mut self.connections,
                );
            }
            None if is_call(content) && is_ready(self.channels.as_slice(), place) => {
                begin_call(
                    line,
                    &packet,
                    place,
                    &mut self.channels,
                    &mut self.connections,
                );
            }
            None => hear_alone(content, place, &mut self.channels),
        }
    }

    /// A connection came, and is to bring a Call. The answer is its number; none if there is no room for it.
    pub fn attach(&mut self) -> Option<usize>
        ensures came { result ≡ position absent_one self.old.connections.items }
        ensures connections { self.new.connections.items ≡ attached result self.old.connections.items }
        ensures others { OthersStay self.old self.new }
    {
        let number = find_absent(self.connections.as_slice())?;
        if let Some(connection) = self.connections.get_mut(number) {
            connection.begin();
        }
        Some(number)
    }

    /// The connection that was ordered stands.
    pub fn opened(&mut self, number: usize)
        ensures connections { self.new.connections.items ≡ changed_at number opened self.old.connections.items }
        ensures others { OthersStay self.old self.new }
    {
        if let Some(connection) = self.connections.get_mut(number) {
            connection.stand();
        }
    }

    /// The connection is lost, or could not be made: its call is cleared with cause 9, and what came over it and was not
    /// taken is dropped.
    pub fn lost(&mut self, number: usize)
        ensures { Loses number self.old self.new }
    {
        if let Some(connection) = self.connections.get_mut(number) {
            let call = connection.call;
            let leaves = connection.alone();
            connection.leave();
            leave_by(call, leaves, &mut self.channels);
        }
    }

    /// Takes octets of a connection, from the first on, as many as there is room for. The answer is how many were taken. Of
    /// one whose call has ended all are taken, and dropped.
    pub fn came(&mut self, number: usize, octets: &[u8]) -> usize
        ensures within { result ≤ length octets.now }
        ensures connections { self.new.connections.items ≡ changed_at number (come (take result octets.now)) self.old.connections.items }
        ensures others { OthersStay self.old self.new }
    {
        match self.connections.get_mut(number) {
            Some(connection) if connection.listens() => connection.stream.octets(octets),
            _ => octets.len(),
        }
    }

    /// Octets that wait to be written to a connection, from the first on: some if there are any, and not always all. None
    /// wait before it stands.
    pub fn waiting(&self, number: usize) -> &[u8]
        ensures front { (c : ConnectionValue) → slice_get self.now.connections.items number ≡ Some c → writes c ≡ true
            → take (length result.now) c.stream.output ≡ result.now }
        ensures some { (c : ConnectionValue) → slice_get self.now.connections.items number ≡ Some c → writes c ≡ true
            → length result.now ≡ 0 → c.stream.output ≡ [] }
        ensures none { (c : ConnectionValue) → slice_get self.now.connections.items number ≡ Some c → writes c ≡ false
            → result.now ≡ [] }
        ensures absent { slice_get self.now.connections.items number ≡ None → result.now ≡ [] }
    {
        match self.connections.get(number) {
            Some(connection) if connection.writes() => connection.stream.waiting(),
            _ => &[],
        }
    }

    /// The first `count` octets that wait were written.
    pub fn written(&mut self, number: usize, count: usize)
        ensures connections { self.new.connections.items ≡ changed_at number (written count) self.old.connections.items }
        ensures others { OthersStay self.old self.new }
    {
        if let Some(connection) = self.connections.get_mut(number) {
            connection.stream.written(count);
        }
    }

    /// Takes the next packet of a connection, if the whole of it came. What is to go to the line is then in `out`.
    pub fn serve(&mut self, number: usize, out: &mut XotPacket) -> Work
        ensures calls { Serves number result out.old.items out.new.items self.old self.new }
        ensures fits { result ≡ work.Sends → length out.new.items ≤ most_packet self.old.line }
    {
        let free = self.free();
        let line = self.line;
        let Some(connection) = self.connections.get_mut(number) else {
            return Work::Nothing;
        };
        let call = connection.call;
        let Some(served) = connection.serve_next(line, free, out) else {
            return Work::Nothing;
        };
        leave_by(call, served.leaves, &mut self.channels);
        if served.sends {
            Work::Sends
        } else {
            Work::Taken
        }
    }

    /// The place of a free channel, or the cause why there is none.
    fn free(&self) -> Result<u8, u8>
        ensures { result ≡ free_in self.now.state self.now.channels.items self.now.connections.items }
    {
        if !self.is_ready() {
            return Err(OUT_OF_ORDER);
        }
        let channels = self.channels.as_slice();
        let below = channels.len().min(MOST_PLACES) as u8;
        match highest_free(channels, self.connections.as_slice(), below) {
            Some(place) => Ok(place),
            None => Err(NUMBER_BUSY),
        }
    }

    /// Takes the next packet that the gateway itself owes to the line, if there is one, and says so: a Restart or its
    /// confirmation, else that of the first channel which owes one. It is then in `out`.
    pub fn next_owed(&mut self, out: &mut XotPacket) -> bool
        ensures calls { PaysOwed result out.old.items out.new.items self.old self.new }
        ensures fits { length out.old.items ≤ most_packet self.old.line → length out.new.items ≤ most_packet self.old.line }
    {
        match self.state {
            LineState::Down | LineState::Restarting => false,
            LineState::ToRestart => {
                self.state = LineState::Restarting;
                write_restart(self.line, out);
                true
            }
            LineState::ToConfirm => {
                self.state = LineState::Ready;
                write_restart_confirmation(self.line, out);
                true
            }
            LineState::Ready => {
                let line = self.line;
                next_of_channels(line, &mut self.channels, out)
            }
        }
    }

    /// Lets ticks pass, each a twentieth of a second. A connection whose other side was to act for a minute, and did not, is
    /// to be closed.
    pub fn elapse(&mut self, ticks: u16)
        ensures connections { AllChange (elapsed ticks) self.old.connections.items self.new.connections.items }
        ensures others { OthersStay self.old self.new }
    {
        elapse_all(ticks, &mut self.connections);
    }

    /// What is to be done with a connection next, if anything. Each order is given once. The call of one that is closed
    /// before its end is cleared.
    pub fn next_order(&mut self) -> Option<Order>
        ensures answer { result ≡ order_among self.old.connections.items }
        ensures connections { self.new.connections.items ≡ ordered self.old.connections.items }
        ensures channels { self.new.channels.items
            ≡ granted_channels (position has_wish self.old.connections.items) self.old.connections.items self.old.channels.items }
        ensures line { self.new.line ≡ self.old.line }
        ensures state { self.new.state ≡ self.old.state }
    {
        let number = find_wish(self.connections.as_slice())?;
        let connection = self.connections.get_mut(number)?;
        let wish = connection.wants();
        let call = connection.call;
        let leaves = connection.leaves(wish);
        connection.grant(wish);
        leave_by(call, leaves, &mut self.channels);
        order_for(number, wish)
    }
}

/// The first connection that something is to be done with.
fn find_wish(connections: &[Connection]) -> Option<usize>
    ensures { result ≡ position has_wish connections.now }
{
    connections
        .iter()
        .position(|connection| connection.has_wish())
}

fn order_for(number: usize, wish: Wish) -> Option<Order>
    ensures { result ≡ order_for number wish }
{
    match wish {
        Wish::Rests => None,
        Wish::Connects => Some(Order::Connect(number)),
        Wish::Closes => Some(Order::Close(number)),
    }
}

/// No channel owes the line anything.
fn ready_all(channels: &mut Vec<ChannelState>)
    ensures { channels.new.items ≡ replicate (length channels.old.items) ChannelState.Ready }
{
    channels.as_mut_slice().fill(ChannelState::Ready);
}

/// Each call is cleared with cause 9.
fn restart_all(line: XotLine, connections: &mut Vec<Connection>)
    ensures { AllChange (restarted line) connections.old.items connections.new.items }
{
    for number in 0..connections.len() {
        connections[number].restart(line);
    }
}

/// Ticks pass at each connection.
fn elapse_all(ticks: u16, connections: &mut Vec<Connection>)
    ensures { AllChange (elapsed ticks) connections.old.items connections.new.items }
{
    for number in 0..connections.len() {
        connections[number].left.elapse(ticks);
    }
}

/// So many channels in p1.
fn new_channels(alloc: Global, count: u8) -> Result<Vec<ChannelState>, AllocError>
    ensures { IfOk result (λ channels. channels.items ≡ replicate count ChannelState.Ready) }
{
    let mut channels = Vec::new(alloc);
    for _ in 0..count {
        channels.push(ChannelState::Ready)?;
    }
    Ok(channels)
}

/// So many connections, of which none is there.
fn new_connections(alloc: Global, count: usize) -> Result<Vec<Connection>, AllocError>
    ensures { IfOk result (λ connections. connections.items ≡ replicate count absent) }
{
    let mut connections = Vec::new(alloc);
    for _ in 0..count {
        connections.push(Connection::new(alloc)?)?;
    }
    Ok(connections)
}

/// The line after a Restart that came (X.25 3): in r2 it is a confirmation.
fn after_restart(state: LineState) -> LineState
    ensures { result ≡ after_restart state }
{
    match state {
        LineState::Down => LineState::Down,
        LineState::Restarting => LineState::Ready,
        _ => LineState::ToConfirm,
    }
}

/// The line after a Restart Confirmation that came, which is an error in r1.
fn after_confirmation(state: LineState) -> LineState
    ensures { result ≡ after_confirmation state }
{
    match state {
        LineState::Restarting => LineState::Ready,
        LineState::Ready => LineState::ToRestart,
        _ => state,
    }
}

/// The line after a Restart or its confirmation, if the packet is one.
fn state_after(state: LineState, content: &Content) -> Option<LineState>
    ensures { result ≡ state_after state (content_view content.now) }
{
    match content {
        Content::RestartRequest { .. } => Some(after_restart(state)),
        Content::RestartConfirmation => Some(after_confirmation(state)),
        _ => None,
    }
}

/// The place of a channel, if packets of calls are heard: in r1 alone.
fn heard_place(state: LineState, channel: u16) -> Option<u8>
    ensures { result ≡ heard_place state channel }
{
    match state {
        LineState::Ready => place_of(channel),
        _ => None,
    }
}

/// Whether the calls of the line end by this change.
fn ends_calls(before: LineState, after: LineState) -> bool
    ensures { result ≡ ends_calls before after }
{
    before != LineState::Restarting && matches!(after, LineState::ToConfirm | LineState::ToRestart)
}

/// The place of a channel, which is counted from 1.
fn place_of(channel: u16) -> Option<u8>
    ensures { result ≡ place_of channel }
{
    u8::try_from(channel.checked_sub(1)?).ok()
}

/// The connection that has a call on the channel of this place.
fn find_on(connections: &[Connection], place: u8) -> Option<usize>
    ensures { result ≡ position (is_on place) connections.now }
{
    connections
        .iter()
        .position(|connection| connection.is_on(place))
}

fn find_absent(connections: &[Connection]) -> Option<usize>
    ensures { result ≡ position absent_one connections.now }
{
    connections
        .iter()
        .position(|connection| connection.is_absent())
}

/// Whether the channel of the place is in p1, as far as the table of channels says.
fn is_ready(channels: &[ChannelState], place: u8) -> bool
    ensures { result ≡ is_ready (slice_get channels.now place) }
{
    matches!(channels.get(usize::from(place)), Some(ChannelState::Ready))
}

/// The highest free place below one.
#[tactic(auto, using(crate::proofs::Places::one_below))]
fn highest_free(channels: &[ChannelState], connections: &[Connection], below: u8) -> Option<u8>
    ensures { result ≡ highest_free channels.now connections.now below }
{
    let place = below.checked_sub(1)?;
    if is_ready(channels, place) && find_on(connections, place).is_none() {
        return Some(place);
    }
    highest_free(channels, connections, place)
}

fn is_call(content: &Content) -> bool
    ensures { result ≡ is_call (content_view content.now) }
{
    matches!(content, Content::CallRequest(_))
}

/// A packet of the line on the channel of a call.
fn hear_at(
    line: XotLine,
    packet: &ReadPacket<'_>,
    place: u8,
    number: usize,
    channels: &mut Vec<ChannelState>,
    connections: &mut Vec<Connection>,
)
    ensures connections { connections.new.items ≡ (heard_at line (content_view packet.now.content.now) packet.now.octets.now place number (record { channels = channels.old.items; connections = connections.old.items })).connections }
    ensures channels { channels.new.items ≡ (heard_at line (content_view packet.now.content.now) packet.now.octets.now place number (record { channels = channels.old.items; connections = connections.old.items })).channels }
{
    if let Some(connection) = connections.get_mut(number) {
        let leaves = connection.hear_on(line, packet.content, packet.octets, place);
        set_channel(place, leaves, channels);
    }
}

/// A Call of the line on a free channel.
fn begin_call(
    line: XotLine,
    packet: &ReadPacket<'_>,
    place: u8,
    channels: &mut Vec<ChannelState>,
    connections: &mut Vec<Connection>,
)
    ensures connections { connections.new.items ≡ (with_call line (content_view packet.now.content.now) packet.now.octets.now place (record { channels = channels.old.items; connections = connections.old.items }) (position absent_one connections.old.items)).connections }
    ensures channels { channels.new.items ≡ (with_call line (content_view packet.now.content.now) packet.now.octets.now place (record { channels = channels.old.items; connections = connections.old.items }) (position absent_one connections.old.items)).channels }
{
    let Some(number) = find_absent(connections.as_slice()) else {
        set_channel(place, Some(ChannelState::ToClear(NUMBER_BUSY)), channels);
        return;
    };
    if let Some(connection) = connections.get_mut(number) {
        let leaves = connection.begin_call(line, packet.content, packet.octets, place);
        set_channel(place, leaves, channels);
    }
}

/// A packet of the line on a channel whose call has no connection.
fn hear_alone(content: &Content, place: u8, channels: &mut Vec<ChannelState>)
    ensures { channels.new.items ≡ changed_at place (alone_heard (content_view content.now)) channels.old.items }
{
    if let Some(channel) = channels.get_mut(usize::from(place)) {
        *channel = alone_heard(content, *channel);
    }
}

fn alone_heard(content: &Content, state: ChannelState) -> ChannelState
    ensures { result ≡ alone_heard (content_view content.now) state }
{
    match (content, state) {
        (Content::ClearRequest { .. }, ChannelState::Ready | ChannelState::ToClear(_)) => {
            ChannelState::ToConfirm
        }
        (Content::ClearRequest { .. } | Content::ClearConfirmation, ChannelState::Clearing) => {
            ChannelState::Ready
        }
        _ => state,
    }
}

/// The channel of the place is in this state, if one is given.
fn set_channel(place: u8, leaves: Option<ChannelState>, channels: &mut Vec<ChannelState>)
    ensures { channels.new.items ≡ taken place leaves channels.old.items }
{
    if let Some(state) = leaves
        && let Some(channel) = channels.get_mut(usize::from(place))
    {
        *channel = state;
    }
}

/// The channel of a call that has lost its connection is in this state.
fn leave_by(call: ConnectionCall, leaves: Option<ChannelState>, channels: &mut Vec<ChannelState>)
    ensures { channels.new.items ≡ left_by call leaves channels.old.items }
{
    if let ConnectionCall::Call { place, .. } = call {
        set_channel(place, leaves, channels);
    }
}

/// The next packet that a channel owes to the line.
fn next_of_channels(line: XotLine, channels: &mut Vec<ChannelState>, out: &mut XotPacket) -> bool
    ensures answer { result ≡ is_some (first_owed channels.old.items) }
    ensures channels { channels.new.items ≡ with_paid (first_owed channels.old.items) channels.old.items }
    ensures out { out.new.items ≡ owed_packet line (first_owed channels.old.items) channels.old.items out.old.items }
    ensures fits { length out.old.items ≤ most_packet line → length out.new.items ≤ most_packet line }
{
    let Some(place) = first_owed(channels.as_slice()) else {
        return false;
    };
    let Some(channel) = channels.get_mut(usize::from(place)) else {
        return false;
    };
    match *channel {
        ChannelState::ToClear(cause) => {
            write_clear(line, place, cause, out);
            *channel = ChannelState::Clearing;
        }
        ChannelState::ToConfirm => {
            write_confirmation(line, place, out);
            *channel = ChannelState::Ready;
        }
        ChannelState::Ready | ChannelState::Clearing => {}
    }
    true
}

/// The place of the first channel that owes a packet to the line.
fn first_owed(channels: &[ChannelState]) -> Option<u8>
    ensures { result ≡ first_owed channels.now }
{
    match find_owing(channels) {
        Some(place) if place < MOST_OWING => Some(place as u8),
        _ => None,
    }
}

fn find_owing(channels: &[ChannelState]) -> Option<usize>
    ensures { result ≡ position owes channels.now }
{
    channels.iter().position(|state| owes(state))
}

fn owes(state: &ChannelState) -> bool
    ensures { result ≡ owes state.now }
{
    matches!(state, ChannelState::ToClear(_) | ChannelState::ToConfirm)
}
