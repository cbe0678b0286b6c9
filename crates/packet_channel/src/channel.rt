//! One logical channel (X.25 4, tables C-1 to C-4).
ghost use Rattle.std.specs.Bool.{OnFalse};
ghost use Rattle.std.specs.Prelude.{◌≡◌, ◌<◌, ◌≤◌, ℕ, [], IfOk, Some, is_some, ◌-◌, ◌==◌, ◌&&◌, not, true, length};
ghost use Rattle.std.specs.Prelude.{if◌then◌else◌};
ghost use Rattle.flow_window.specs.Pool.{Holds, Balances};
ghost use Rattle.packet_channel.specs.Channel as machine;
ghost use Rattle.packet_channel.specs.ControlView.{control_body};
ghost use Rattle.data_transfer.specs.Held.{Loses};
ghost use Rattle.packet_channel.specs.Held.{Fits};
ghost use Rattle.packet_channel.specs.StateView.{state_of};
ghost use Rattle.packet_channel.specs.Unsent.{ChannelHasSaidAll};
ghost use Rattle.data_transfer.specs.Octets.{parts_of, written, ReadsAs};
ghost use Rattle.data_transfer.specs.Packets.{Body as body};
ghost use Rattle.data_transfer.specs.declared.flow.Flow.{Flow as FlowValue};

mod errors;
mod receiving;
mod requests;

use crate::control::{Control, write_control};
use crate::owed::Owed;
use crate::state::ChannelState;
use data_transfer::{Flow, Front, SEND_QUEUE, TakenBuf, Traffic};
use flow_window::pool::Pool;
use packet_codec::{CallBuf, PacketBuf};
pub use requests::Request;
use std::alloc::{AllocError, Global};
use std::marker::Model;

/// A logical channel: the state of its call, in p4 whether the own reset is not confirmed, the control packets that
/// are owed to the link, and what is in transfer.
#[derive(Drop)]
pub struct Channel {
    state: ChannelState,
    resetting: bool,
    owed: Owed<Control>,
    traffic: Traffic,
}

impl Model for Channel {
    ghost use Rattle.packet_channel.specs.Held as held;

    ghost Value = { held.Channel };

    ghost use Rattle.packet_channel.specs.ChannelView.{holding, IsChannel};

    ghost view = { holding };

    ghost invariant = { IsChannel };
}

impl Channel {
    ghost use Rattle.link_timers.specs.declared.role.Role.{Role};
    ghost use Rattle.data_transfer.specs.Traffic as traffic;
    ghost use Rattle.data_transfer.specs.TakenView.{maybe_taken_in, maybe_buffers_in, maybe_front};

    /// A channel without a call. `AllocError` comes for want of memory.
    pub fn new(alloc: Global) -> Result<Self, AllocError>
        ensures { IfOk result (λ c. c ≡ record { channel = machine.closed_channel; held = [] }) }
    {
        let traffic = Traffic::new(alloc)?;
        Ok(Channel {
            state: ChannelState::Ready,
            resetting: false,
            owed: Owed::new(),
            traffic,
        })
    }

    /// Enters the state of a standing call.
    pub fn stand(&mut self)
        ensures { self.new ≡ record self.old {
          channel = machine.entered machine.ChannelState.Transfer self.old.channel;
        } }
    {
        self.state = ChannelState::Transfer;
    }

    /// Ends the call and drops all that is owed, as a restart does. All buffers go back.
    pub fn close(&mut self, pool: &mut Pool)
        requires { Holds pool.old self.old.held }
        ensures channel { self.new ≡ record { channel = machine.closed_channel; held = [] } }
        ensures pool { Balances pool.old self.old.held pool.new [] }
    {
        self.state = ChannelState::Ready;
        self.resetting = false;
        self.owed = Owed::new();
        self.traffic.clear(pool);
    }

    /// The state of the call.
    pub fn state(&self) -> ChannelState
        ensures { state_of result ≡ self.now.channel.state }
    {
        self.state
    }

    /// Whether a call may be placed: there is none, and nothing is owed.
    pub fn is_free(&self) -> bool
        ensures { result ≡ machine.is_free self.now.channel }
    {
        self.state.is_ready() && self.owed.is_empty()
    }

    /// Whether the own reset waits for its confirmation.
    pub fn waits_for_reset(&self) -> bool
        ensures { result ≡ (machine.in_transfer self.now.channel.state && self.now.channel.resetting) }
    {
        self.state.in_transfer() && self.resetting
    }

    /// Whether there is a call in data transfer in which no reset is unconfirmed.
    pub(crate) fn has_flow(&self) -> bool
        ensures { result ≡ machine.has_flow self.now.channel }
    {
        self.state.in_transfer() && !self.resetting
    }

    /// How many packets may be sent: 0 if no call is in data transfer or the own reset is not confirmed.
    pub fn room(&self) -> u8
        ensures { result ≡ (if machine.has_flow self.now.channel
            then 8 - length self.now.channel.traffic.waiting else 0) }
    {
        if self.has_flow() {
            SEND_QUEUE as u8 - self.traffic.waiting()
        } else {
            0
        }
    }

    /// Whether an interrupt may be sent: there is a call in data transfer in which no reset is unconfirmed, and no
    /// interrupt is pending.
    pub fn may_interrupt(&self) -> bool
        ensures { result ≡ (machine.has_flow self.now.channel
            && not (traffic.interrupt_pending self.now.channel.traffic)) }
    {
        self.has_flow() && !self.traffic.interrupt_pending()
    }

    /// What `take` would give.
    pub fn front(&self, pool: &Pool) -> Option<Front>
        requires { Holds pool.now self.now.held }
        ensures { result ≡ maybe_front (traffic.front self.now.channel.traffic) }
    {
        self.traffic.front(pool)
    }

    /// Takes the interrupt that waits, or else the first packet in its buffer.
    pub fn take_buf(&mut self) -> Option<TakenBuf>
        ensures taken { maybe_taken_in result ≡ traffic.front self.old.channel.traffic }
        ensures channel { (role : Role) (flow : FlowValue)
            → self.new.channel ≡ machine.owing (machine.requested role flow self.old.channel machine.Request.Taking) }
        ensures held { Loses self.old.held (maybe_buffers_in result) self.new.held }
        ensures fits { (flow : FlowValue) → Fits flow self.old → Fits flow self.new }
    {
        if !self.state.in_transfer() {
            return None;
        }
        self.traffic.take_buf()
    }

    /// Whether there is a call in data transfer in which each packet with D = 1 is covered.
    pub fn is_confirmed(&self) -> bool
        ensures { result ≡ (machine.in_transfer self.now.channel.state
            && (self.now.channel.traffic.undelivered == 0)) }
    {
        self.state.in_transfer() && self.traffic.is_delivered()
    }

    /// Whether nothing is owed or to be told, and nothing waits to be sent or taken.
    pub fn is_at_rest(&self) -> bool
        ensures { result ≡ machine.channel_rests self.now.channel }
    {
        self.owed.is_empty() && self.traffic.is_at_rest()
    }

    /// Writes the packet that goes to the link next, if there is one. If there is none, nothing that may go stays unsent.
    pub fn next_packet(
        &mut self,
        flow: Flow,
        channel: u8,
        buf: &mut PacketBuf,
        pool: &mut Pool,
    ) -> bool
        requires window { flow.window ≤ 32 }
        requires channel { 0 < channel }
        requires holds { Holds pool.old self.old.held }
        ensures channel { self.new.channel ≡ (machine.next_of flow self.old.channel).channel }
        ensures pool { Balances pool.old self.old.held pool.new self.new.held }
        ensures fits { (other : FlowValue) → Fits other self.old → Fits other self.new }
        ensures said { result ≡ is_some (machine.next_of flow self.old.channel).body }
        ensures octets { buf.new.items ≡ written flow channel (machine.next_of flow self.old.channel).body buf.old.items }
        ensures reads_back { Fits flow self.old
            → ReadsAs flow channel (machine.next_of flow self.old.channel).body buf.new.items }
        ensures same { OnFalse result (self.new ≡ self.old) }
        ensures unsent { OnFalse result (ChannelHasSaidAll flow self.new.channel) }
    {
        if let Some(control) = self.owed.first() {
            write_control(flow, channel, control, buf);
            self.owed.drop_first();
            return true;
        }
        if !self.has_flow() {
            return false;
        }
        self.traffic.next_packet(flow, channel, buf, pool)
    }

    /// Whether `next_packet` has a packet.
    pub fn has_packet(&self, flow: Flow) -> bool
        ensures { result ≡ is_some (machine.next_of flow self.now.channel).body }
    {
        !self.owed.is_empty() || (self.has_flow() && self.traffic.has_packet(flow))
    }

    /// Places a call on a free channel, and answers whether one control packet too many is owed.
    pub fn place_call(&mut self, call: CallBuf) -> bool
        requires { self.old.channel.state ≡ machine.ChannelState.Ready }
        ensures channel { self.new ≡ record self.old {
          channel = machine.owing (machine.placing (parts_of call) self.old.channel);
        } }
        ensures passes { result ≡ machine.passes_limit self.old.channel.owed (Some (body.Call (parts_of call))) }
    {
        self.state = ChannelState::OwnWaiting;
        self.owe(Control::Call(call))
    }

    /// Owes a control packet more, and answers whether it is one too many.
    #[tactic(auto, using(crate::proofs::Owing::map_with_owed, crate::proofs::Owing::map_passes))]
    pub(crate) fn owe(&mut self, control: Control) -> bool
        ensures channel { self.new ≡ record self.old {
          channel = record self.old.channel {
            owed = machine.with_owed self.old.channel.owed (Some (control_body control));
          };
        } }
        ensures passes { result ≡ machine.passes_limit self.old.channel.owed (Some (control_body control)) }
    {
        self.owed.owe(control)
    }
}
