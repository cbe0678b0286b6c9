//! Data transfer on a channel from one reset to the next (X.25 4.3, 4.4).
ghost use Rattle.std.specs.Prelude.{◌≡◌, ◌<◌, ◌≤◌, ◌+◌, ℕ, true, [], IfOk, length, ◌==◌, if◌then◌else◌};
ghost use Rattle.flow_window.specs.Pool.{Buffer, weight, Holds, Balances};
ghost use Rattle.data_transfer.specs.Held.{datum_in, are_short, Loses};
ghost use Rattle.data_transfer.specs.Traffic as machine;

mod hearing;
mod numbers;
mod saying;

use crate::kept::KeptPacket;
use crate::queue::PacketQueue;
use crate::taken::{Front, TakenBuf};
use crate::user_data::InterruptData;
use flow_window::pool::Pool;
use flow_window::{Mod128, SendWindow, Seq};
use std::alloc::{AllocError, Global};
use std::marker::Model;

/// How many packets of a call may wait to be sent.
pub const SEND_QUEUE: usize = 8;

/// How many packets of a call may wait to be taken: as many as the largest window has.
const ARRIVED_PLACES: usize = 32;

/// The most that may be unacknowledged by numbers modulo 128. The window of the line is no larger.
const LARGEST_WINDOW: u8 = 127;

/// The queues, numbers, busy states and interrupts of a call since its last reset.
#[derive(Drop)]
pub struct Traffic {
    waiting: PacketQueue,
    send: SendWindow<Mod128>,
    // how many of the packets not yet covered have to be covered until all with D = 1 are
    undelivered: u8,
    arrived: PacketQueue,
    expected: Seq<Mod128>,
    released: Seq<Mod128>,
    // P(R) went on since the partner was told
    untold: bool,
    partner_busy: bool,
    stopped: bool,
    told_stopped: bool,
    interrupt_waiting: Option<InterruptData>,
    interrupt_unconfirmed: bool,
    interrupt_arrived: Option<InterruptData>,
    interrupt_taken: bool,
    confirmation_due: bool,
}

impl Model for Traffic {
    ghost use Rattle.data_transfer.specs.Held as held;

    ghost Value = { held.Traffic };

    ghost use Rattle.data_transfer.specs.TrafficView.{holding, IsTraffic};

    ghost view = { holding };

    ghost invariant = { IsTraffic };
}

impl Traffic {
    ghost use Rattle.data_transfer.specs.TakenView.{maybe_taken_in, maybe_buffers_in, maybe_front};

    /// The data transfer of a call that begins. `AllocError` comes for want of memory.
    pub fn new(alloc: Global) -> Result<Self, AllocError>
        ensures { IfOk result (λ t. t ≡ record { traffic = machine.fresh; held = [] }) }
    {
        let waiting = PacketQueue::new(alloc, SEND_QUEUE)?;
        let arrived = PacketQueue::new(alloc, ARRIVED_PLACES)?;
        Ok(Traffic {
            waiting,
            send: SendWindow::new(LARGEST_WINDOW),
            undelivered: 0,
            arrived,
            expected: Seq::zero(),
            released: Seq::zero(),
            untold: false,
            partner_busy: false,
            stopped: false,
            told_stopped: false,
            interrupt_waiting: None,
            interrupt_unconfirmed: false,
            interrupt_arrived: None,
            interrupt_taken: false,
            confirmation_due: false,
        })
    }

    /// Empties the queues and restarts the numbers, for a call that begins and for a reset. The buffers of both queues
    /// go back to the pool.
    #[tactic(auto, using(flow_window::proofs::Weights::weight_append))]
    pub fn clear(&mut self, pool: &mut Pool)
        requires { Holds pool.old self.old.held }
        ensures traffic { self.new ≡ record { traffic = machine.fresh; held = [] } }
        ensures pool { Balances pool.old self.old.held pool.new [] }
    {
        self.waiting.clear(pool);
        self.send.clear();
        self.undelivered = 0;
        self.arrived.clear(pool);
        self.expected = Seq::zero();
        self.released = Seq::zero();
        self.untold = false;
        self.partner_busy = false;
        self.stopped = false;
        self.told_stopped = false;
        self.interrupt_waiting = None;
        self.interrupt_unconfirmed = false;
        self.interrupt_arrived = None;
        self.interrupt_taken = false;
        self.confirmation_due = false;
    }

    /// How many packets wait to be sent.
    pub fn waiting(&self) -> u8
        ensures value { result ≡ length self.now.traffic.waiting }
        ensures most { result ≤ 8 }
    {
        self.waiting.len() as u8
    }

    /// Puts a packet into the send queue.
    #[tactic(auto, using(flow_window::proofs::Weights::weight_append))]
    pub fn queue(&mut self, packet: KeptPacket)
        requires { length self.old.traffic.waiting < 8 }
        ensures traffic { self.new.traffic ≡ machine.queue (datum_in packet) self.old.traffic }
        ensures held { (w : Buffer → ℕ) → weight w self.new.held ≡ weight w self.old.held + w packet.buffer }
        ensures most { length self.new.held ≤ 8 + length self.new.traffic.arrived }
    {
        if packet.delivery() {
            self.undelivered = self.send.unacknowledged() + self.waiting.len() as u8 + 1;
        }
        self.waiting.push(packet);
    }

    /// Whether an interrupt is to be sent, or is not confirmed.
    pub fn interrupt_pending(&self) -> bool
        ensures { result ≡ machine.interrupt_pending self.now.traffic }
    {
        self.interrupt_waiting.is_some() || self.interrupt_unconfirmed
    }

    /// Lets an interrupt wait to be sent. One that waited already is replaced.
    pub fn queue_interrupt(&mut self, interrupt: InterruptData)
        ensures { self.new ≡ record self.old { traffic = machine.queue_interrupt interrupt self.old.traffic } }
    {
        self.interrupt_waiting = Some(interrupt);
    }

    /// Tells the far end to stop, by RNR, or to go on, by RR.
    pub fn stop(&mut self, stopped: bool)
        ensures { self.new ≡ record self.old { traffic = machine.stopping stopped self.old.traffic } }
    {
        self.stopped = stopped;
    }

    /// What `take` would give.
    pub fn front(&self, pool: &Pool) -> Option<Front>
        requires { Holds pool.now self.now.held }
        ensures { result ≡ maybe_front (machine.front self.now.traffic) }
    {
        if self.interrupt_arrived.is_some() {
            return Some(Front::Interrupt);
        }
        let data = self.arrived.front()?;
        Some(data.front(pool))
    }

    /// Takes the interrupt that waits, or else the first packet in its buffer.
    #[tactic(auto, using(crate::proofs::Short::short_rest))]
    pub fn take_buf(&mut self) -> Option<TakenBuf>
        ensures taken { maybe_taken_in result ≡ machine.front self.old.traffic }
        ensures traffic { self.new.traffic ≡ machine.taking self.old.traffic }
        ensures held { Loses self.old.held (maybe_buffers_in result) self.new.held }
        ensures most { length self.new.held ≤ 8 + length self.new.traffic.arrived }
        ensures short { (size : ℕ) → are_short size self.old.traffic.arrived ≡ true
            → are_short size self.new.traffic.arrived ≡ true }
        ensures waiting { self.new.traffic.waiting ≡ self.old.traffic.waiting }
    {
        if let Some(interrupt) = self.interrupt_arrived.take() {
            self.interrupt_taken = true;
            return Some(TakenBuf::Interrupt(interrupt));
        }
        let packet = self.arrived.pop()?;
        Some(TakenBuf::Data(packet))
    }

    /// Lets P(R) pass so many more of the packets that were taken. Nothing happens if fewer are taken and not released.
    pub fn release(&mut self, count: u8)
        ensures { self.new ≡ record self.old {
          traffic = if machine.may_release count self.old.traffic
              then machine.releasing count self.old.traffic
              else self.old.traffic;
        } }
    {
        let unreleased = self.expected.ahead_of(&self.released);
        if usize::from(count) + self.arrived.len() <= usize::from(unreleased) {
            self.released = self.released.after(count);
            self.untold = self.untold || count > 0;
        }
    }

    /// Owes the confirmation of the interrupt that was taken. Nothing happens if none was.
    pub fn confirm_interrupt(&mut self)
        ensures { self.new ≡ record self.old {
          traffic = if self.old.traffic.interrupt_taken
              then machine.confirming self.old.traffic
              else self.old.traffic;
        } }
    {
        if self.interrupt_taken {
            self.interrupt_taken = false;
            self.confirmation_due = true;
        }
    }

    /// Whether each packet with D = 1 is covered by a P(R).
    pub fn is_delivered(&self) -> bool
        ensures { result ≡ (self.now.traffic.undelivered == 0) }
    {
        self.undelivered == 0
    }

    /// Whether nothing waits to be sent or taken, and nothing is to be told.
    pub fn is_at_rest(&self) -> bool
        ensures { result ≡ machine.rests self.now.traffic }
    {
        self.waiting.is_empty()
            && self.arrived.is_empty()
            && self.interrupt_waiting.is_none()
            && self.interrupt_arrived.is_none()
            && !self.confirmation_due
            && self.flow_is_told()
    }
}
