//! What the user asks of a channel (X.25 4.1 to 4.4).
ghost use Rattle.std.specs.Prelude.{◌≡◌, ◌≤◌, ◌<◌, ℕ, length, true, Some, None, MatchResult, IfOk, OnErr};
ghost use Rattle.flow_window.specs.Pool.{IsIn, Holds, Balances, in_use};
ghost use Rattle.link_timers.specs.declared.role.Role.{Role as RoleValue};
ghost use Rattle.packet_channel.specs.Channel as machine;
ghost use Rattle.packet_channel.specs.Answers.{Answers, BufAnswers, WhenSending, handed_back};
ghost use Rattle.data_transfer.specs.Held.{Takes};
ghost use Rattle.packet_channel.specs.Held.{Fits};
ghost use Rattle.data_transfer.specs.Packets.{Datum};
ghost use Rattle.data_transfer.specs.declared.flow.Flow.{Flow as FlowValue};
ghost use Rattle.packet_channel.specs.RequestView.{request_of, refusal_of};

use crate::channel::Channel;
use crate::control::Control;
use crate::fault::{ChannelFault, RefusedBuf};
use crate::state::ChannelState;
use data_transfer::{Flow, InterruptData, KeptPacket, SEND_QUEUE};
use flow_window::pool::Pool;
use link_timers::Role;
use packet_codec::MAX_INTERRUPT;

/// What a user asks of the call on a logical channel, with the refusals in the order in which they are tested. What is
/// refused changes nothing.
#[derive(Clone, Copy)]
pub enum Request<'a> {
    /// The call that came in is accepted (X.25 4.1.4). `NoCall` comes if none waits for it: no call came in, or a DTE's
    /// own call collided with it.
    Accept,
    /// The call is cleared, also one that is being set up (X.25 4.1.7). `NoCall` comes if there is none.
    Clear {
        cause: u8,
        diagnostic: u8,
    },
    /// The call is reset: what waits in both directions is dropped (X.25 4.4.3). `NoCall` comes if no call is in data
    /// transfer, then `Resetting` while the last own reset is not confirmed.
    Reset {
        cause: u8,
        diagnostic: u8,
    },
    /// A Data packet with its bits M, Q and D goes into the send queue (X.25 4.3). The first of these faults is
    /// answered:
    ///
    /// - `NoCall`: no call is in data transfer.
    /// - `Resetting`: the own reset is not confirmed.
    /// - `QueueFull`: 8 packets wait.
    /// - `TooLong`: there are more octets than a packet of the line may have.
    Send {
        octets: &'a [u8],
        more: bool,
        qualified: bool,
        delivery: bool,
    },
    /// An interrupt of 1 to 32 octets goes (X.25 4.3.7). The first of these faults is answered:
    ///
    /// - `NoCall`: no call is in data transfer.
    /// - `Resetting`: the own reset is not confirmed.
    /// - `TooLong`: there are no octets, or more than 32.
    /// - `InterruptPending`: the last interrupt is not confirmed.
    Interrupt(&'a [u8]),
    /// The far end is asked by RNR to send no more data, or by RR to send again (X.25 4.4.1.4, 4.4.1.5). `NoCall` comes
    /// if no call is in data transfer.
    Stop(bool),
    /// P(R) may pass so many more of the packets that were taken (X.25 4.4.1.3). Nothing happens if fewer are taken and
    /// not released. `NoCall` comes if no call is in data transfer.
    Release(u8),
    /// The confirmation of the interrupt that was taken is owed (X.25 4.3.7). Nothing happens if none is unconfirmed.
    /// `NoCall` comes if no call is in data transfer.
    ConfirmInterrupt,
}

impl Channel {
    /// Does what is asked, if it is not refused, and answers whether one control packet too many is owed.
    pub fn request(
        &mut self,
        role: Role,
        flow: Flow,
        request: &Request<'_>,
        pool: &mut Pool,
    ) -> Result<bool, ChannelFault>
        requires most { flow.size ≤ 1024 }
        requires holds { Holds pool.old self.old.held }
        requires size { WhenSending (request_of request.now) (flow.size ≤ pool.old.size) }
        requires room { WhenSending (request_of request.now) (in_use pool.old < length pool.old.places) }
        ensures answer { Answers role flow self.old.channel (request_of request.now) result self.new.channel }
        ensures pool { Balances pool.old self.old.held pool.new self.new.held }
        ensures fits { Fits flow self.old → Fits flow self.new }

        // What is refused changes nothing, in the pool too.
        ensures kept { OnErr result ((self.new ≡ self.old) × (pool.new ≡ pool.old)) }
    {
        match request {
            Request::Accept => self.accept(role),
            Request::Clear { cause, diagnostic } => self.clear(*cause, *diagnostic, pool),
            Request::Reset { cause, diagnostic } => self.reset(*cause, *diagnostic, pool),
            Request::Send {
                octets,
                more,
                qualified,
                delivery,
            } => self.send(flow, octets, *more, *qualified, *delivery, pool),
            Request::Interrupt(octets) => self.interrupt(octets),
            Request::Stop(stopped) => self.stop(*stopped),
            Request::Release(count) => self.release(*count),
            Request::ConfirmInterrupt => self.confirm_interrupt(),
        }
    }

    /// Does what [`Request::Accept`] asks, with its refusal, and answers whether one control packet too many is owed. No
    /// packet is touched.
    pub fn accept(&mut self, role: Role) -> Result<bool, ChannelFault>
        ensures answer { (flow : FlowValue)
            → Answers role flow self.old.channel machine.Request.Accept result self.new.channel }
        ensures held { self.new.held ≡ self.old.held }
        ensures arrived { self.new.channel.traffic.arrived ≡ self.old.channel.traffic.arrived }
        ensures waiting { self.new.channel.traffic.waiting ≡ self.old.channel.traffic.waiting }
        ensures kept { OnErr result (self.new ≡ self.old) }
    {
        if !self.state.may_accept(role) {
            return Err(ChannelFault::NoCall);
        }
        self.state = ChannelState::Transfer;
        Ok(self.owe(Control::Accepted))
    }

    fn clear(&mut self, cause: u8, diagnostic: u8, pool: &mut Pool) -> Result<bool, ChannelFault>
        requires { Holds pool.old self.old.held }
        ensures answer { (role : RoleValue) (flow : FlowValue)
            → Answers role flow self.old.channel (machine.Request.Clearing cause diagnostic) result self.new.channel }
        ensures pool { Balances pool.old self.old.held pool.new self.new.held }
        ensures fits { (flow : FlowValue) → Fits flow self.old → Fits flow self.new }
        ensures kept { OnErr result ((self.new ≡ self.old) × (pool.new ≡ pool.old)) }
    {
        if !self.state.has_call() {
            return Err(ChannelFault::NoCall);
        }
        self.end_call(ChannelState::OwnClear, pool);
        Ok(self.owe(Control::Clear { cause, diagnostic }))
    }

    fn reset(&mut self, cause: u8, diagnostic: u8, pool: &mut Pool) -> Result<bool, ChannelFault>
        requires { Holds pool.old self.old.held }
        ensures answer { (role : RoleValue) (flow : FlowValue)
            → Answers role flow self.old.channel (machine.Request.Resetting cause diagnostic) result self.new.channel }
        ensures pool { Balances pool.old self.old.held pool.new self.new.held }
        ensures fits { (flow : FlowValue) → Fits flow self.old → Fits flow self.new }
        ensures kept { OnErr result ((self.new ≡ self.old) × (pool.new ≡ pool.old)) }
    {
        if !self.state.in_transfer() {
            return Err(ChannelFault::NoCall);
        }
        if self.resetting {
            return Err(ChannelFault::Resetting);
        }
        self.resetting = true;
        self.traffic.clear(pool);
        Ok(self.owe(Control::Reset { cause, diagnostic }))
    }

    fn send(
        &mut self,
        flow: Flow,
        octets: &[u8],
        more: bool,
        qualified: bool,
        delivery: bool,
        pool: &mut Pool,
    ) -> Result<bool, ChannelFault>
        requires most { flow.size ≤ 1024 }
        requires size { flow.size ≤ pool.old.size }
        requires room { in_use pool.old < length pool.old.places }
        ensures answer { (role : RoleValue)
            → Answers role flow self.old.channel
            (machine.Request.Sending
            (record { octets = octets.now; more = more; qualified = qualified; delivery = delivery }))
            result self.new.channel }
        ensures pool { Balances pool.old self.old.held pool.new self.new.held }
        ensures fits { Fits flow self.old → Fits flow self.new }
        ensures kept { OnErr result ((self.new ≡ self.old) × (pool.new ≡ pool.old)) }
    {
        self.check_send(flow, octets)?;
        let buffer = pool.place(octets);
        self.traffic
            .queue(KeptPacket::new(buffer, more, qualified, delivery));
        Ok(false)
    }

    /// Puts a Data packet that lies in a buffer into the send queue, as `Request::Send` does with octets: the faults
    /// are the same, and with them the packet comes back.
    pub fn send_buf(
        &mut self,
        flow: Flow,
        packet: KeptPacket,
        pool: &Pool,
    ) -> Result<(), RefusedBuf>
        requires { IsIn packet.buffer pool.now }
        ensures answer { (role : RoleValue) → BufAnswers role flow self.old.channel packet result self.new.channel }
        ensures held { Takes self.old.held packet.buffer (handed_back result) self.new.held }
        ensures fits { Fits flow self.old → Fits flow self.new }
    {
        if let Err(fault) = self.check_send(flow, pool.octets(packet.buffer())) {
            return Err(RefusedBuf { fault, packet });
        }
        self.traffic.queue(packet);
        Ok(())
    }

    /// Whether a Data packet of these octets may go into the send queue.
    fn check_send(&self, flow: Flow, octets: &[u8]) -> Result<(), ChannelFault>
        ensures answer { (role : RoleValue) (d : Datum) → d.octets ≡ octets.now → MatchResult result
            (λ _. machine.refusal role flow self.now.channel (machine.Request.Sending d) ≡ None)
            (λ fault. machine.refusal role flow self.now.channel (machine.Request.Sending d) ≡ Some (refusal_of fault)) }
        ensures fits { IfOk result (λ _. (machine.in_transfer self.now.channel.state ≡ true)
            × (length self.now.channel.traffic.waiting < 8)
            × (length octets.now ≤ flow.size)) }
    {
        if !self.state.in_transfer() {
            return Err(ChannelFault::NoCall);
        }
        if self.resetting {
            return Err(ChannelFault::Resetting);
        }
        if usize::from(self.traffic.waiting()) >= SEND_QUEUE {
            return Err(ChannelFault::QueueFull);
        }
        if octets.len() > usize::from(flow.size) {
            return Err(ChannelFault::TooLong);
        }
        Ok(())
    }

    /// Does what [`Request::Interrupt`] asks, with its refusals, and answers `false`: no control packet is owed. No packet
    /// is touched.
    pub fn interrupt(&mut self, octets: &[u8]) -> Result<bool, ChannelFault>
        ensures answer { (role : RoleValue) (flow : FlowValue)
            → Answers role flow self.old.channel (machine.Request.Interrupting octets.now) result self.new.channel }
        ensures held { self.new.held ≡ self.old.held }
        ensures arrived { self.new.channel.traffic.arrived ≡ self.old.channel.traffic.arrived }
        ensures waiting { self.new.channel.traffic.waiting ≡ self.old.channel.traffic.waiting }
        ensures kept { OnErr result (self.new ≡ self.old) }
    {
        if !self.state.in_transfer() {
            return Err(ChannelFault::NoCall);
        }
        if self.resetting {
            return Err(ChannelFault::Resetting);
        }
        if octets.is_empty() || octets.len() > MAX_INTERRUPT {
            return Err(ChannelFault::TooLong);
        }
        if self.traffic.interrupt_pending() {
            return Err(ChannelFault::InterruptPending);
        }
        self.traffic.queue_interrupt(InterruptData::new(octets));
        Ok(false)
    }

    /// Does what [`Request::Stop`] asks, with its refusal, and answers `false`: no control packet is owed. No packet
    /// is touched.
    pub fn stop(&mut self, stopped: bool) -> Result<bool, ChannelFault>
        ensures answer { (role : RoleValue) (flow : FlowValue)
            → Answers role flow self.old.channel (machine.Request.Stopping stopped) result self.new.channel }
        ensures held { self.new.held ≡ self.old.held }
        ensures arrived { self.new.channel.traffic.arrived ≡ self.old.channel.traffic.arrived }
        ensures waiting { self.new.channel.traffic.waiting ≡ self.old.channel.traffic.waiting }
        ensures kept { OnErr result (self.new ≡ self.old) }
    {
        if !self.state.in_transfer() {
            return Err(ChannelFault::NoCall);
        }
        self.traffic.stop(stopped);
        Ok(false)
    }

    /// Does what [`Request::Release`] asks, with its refusal, and answers `false`: no control packet is owed. No packet
    /// is touched.
    pub fn release(&mut self, count: u8) -> Result<bool, ChannelFault>
        ensures answer { (role : RoleValue) (flow : FlowValue)
            → Answers role flow self.old.channel (machine.Request.Releasing count) result self.new.channel }
        ensures held { self.new.held ≡ self.old.held }
        ensures arrived { self.new.channel.traffic.arrived ≡ self.old.channel.traffic.arrived }
        ensures waiting { self.new.channel.traffic.waiting ≡ self.old.channel.traffic.waiting }
        ensures kept { OnErr result (self.new ≡ self.old) }
    {
        if !self.state.in_transfer() {
            return Err(ChannelFault::NoCall);
        }
        self.traffic.release(count);
        Ok(false)
    }

    /// Does what [`Request::ConfirmInterrupt`] asks, with its refusal, and answers `false`: no control packet is owed. No packet
    /// is touched.
    pub fn confirm_interrupt(&mut self) -> Result<bool, ChannelFault>
        ensures answer { (role : RoleValue) (flow : FlowValue)
            → Answers role flow self.old.channel machine.Request.Confirming result self.new.channel }
        ensures held { self.new.held ≡ self.old.held }
        ensures arrived { self.new.channel.traffic.arrived ≡ self.old.channel.traffic.arrived }
        ensures waiting { self.new.channel.traffic.waiting ≡ self.old.channel.traffic.waiting }
        ensures kept { OnErr result (self.new ≡ self.old) }
    {
        if !self.state.in_transfer() {
            return Err(ChannelFault::NoCall);
        }
        self.traffic.confirm_interrupt();
        Ok(false)
    }
}
