//! The calls of a link that take frames, packets and expiries.
ghost use Rattle.std.specs.Prelude.{◌≡◌, ◌≢◌, false, ◌≤◌, ◌<◌, length, drop, Some, IsOk, OnErr, MatchOption, Err};
ghost use Rattle.flow_window.specs.Pool.{Holds, Balances, in_use};
ghost use Rattle.lapb.specs.Machine as machine;
ghost use Rattle.lapb.specs.Machine.{timing_after};
ghost use Rattle.lapb.specs.Octets.{on_octets};
ghost use Rattle.lapb.specs.Named.{Session, Agrees, Keeps, after_offer};
ghost use Rattle.lapb.specs.NamedOctets.{NamesAfterOctets};
ghost use Rattle.lapb.specs.Offers.{refusal};
ghost use Rattle.lapb.specs.Out.{with_step, gathered, timing_by};

use crate::link::{Link, NO_REPORT, OfferFault};
use crate::out::LinkOut;
use crate::phase::Phase;
use crate::sent::command;
use flow_window::pool::Pool;
use frame_codec::FrameKind;

impl Link {
    /// Sets the link up: a DTE sends SABM, a DCE asks for it by DM (X.25 2.4.4.1). If a DTE is already setting the link
    /// up, nothing happens.
    pub fn start(&mut self, out: &mut LinkOut, pool: &mut Pool)
        requires { Holds pool.old self.old.held }
        ensures link { self.new.link ≡ (machine.relink self.old.link).link }
        ensures pool { Balances pool.old self.old.held pool.new self.new.held }

        // No buffer stays with a packet that was given up.
        ensures tight { length self.new.held ≡ length self.new.link.queue }
        ensures out { out.new ≡ gathered out.old self.old.link (machine.relink self.old.link) }

        // For every session that agrees with the link.
        ensures named { Keeps self.old.link (machine.relink self.old.link) }
    {
        self.relink(out, pool);
    }

    /// Gives the link up and sets it up again.
    pub fn relink(&mut self, out: &mut LinkOut, pool: &mut Pool)
        requires { Holds pool.old self.old.held }
        ensures link { self.new.link ≡ (machine.relink self.old.link).link }
        ensures pool { Balances pool.old self.old.held pool.new self.new.held }

        // No buffer stays with a packet that was given up.
        ensures tight { length self.new.held ≡ length self.new.link.queue }
        ensures out { out.new ≡ gathered out.old self.old.link (machine.relink self.old.link) }

        // For every session that agrees with the link.
        ensures named { Keeps self.old.link (machine.relink self.old.link) }
    {
        let ran = self.runs();
        let anew = self.relink_rule(out);
        self.finish(ran, anew, out, pool);
    }

    /// Restarts with the node, as a link that was never set up. What went before is forgotten.
    pub fn restart(&mut self, pool: &mut Pool)
        requires { Holds pool.old self.old.held }
        ensures link { self.new.link ≡ machine.remade self.old.link }
        ensures pool { Balances pool.old self.old.held pool.new self.new.held }
        ensures tight { length self.new.held ≡ length self.new.link.queue }
    {
        self.clear(Phase::Down);
        self.bit = false;
        self.report = NO_REPORT;
        self.queue.give_back(pool);
    }

    /// Takes the octets of a received frame (X.25 2.4.4 to 2.4.7). The packet of an accepted I frame is what follows
    /// its control octet.
    pub fn on_frame(&mut self, bytes: &[u8], out: &mut LinkOut, pool: &mut Pool)
        requires { Holds pool.old self.old.held }
        ensures link { self.new.link ≡ (on_octets self.old.link bytes.now).link }
        ensures pool { Balances pool.old self.old.held pool.new self.new.held }

        // No buffer stays with a packet that was given up.
        ensures tight { length self.new.held ≡ length self.new.link.queue }
        ensures out { out.new ≡ gathered out.old self.old.link (on_octets self.old.link bytes.now) }

        // For every session that agrees with the link.
        ensures named { NamesAfterOctets self.old.link bytes.now }

        // The packet that is accepted is after the control octet.
        ensures packet { (packet : machine.Octets) → (on_octets self.old.link bytes.now).accepted ≡ Some packet
            → packet ≡ drop 2 bytes.now }
    {
        self.take_octets(bytes, out);
        self.queue.give_back(pool);
    }

    /// Takes an expiry of T1 (X.25 2.4.8.1). If T1 does not run, nothing happens.
    pub fn on_t1(&mut self, out: &mut LinkOut, pool: &mut Pool)
        requires { Holds pool.old self.old.held }
        ensures link { self.new.link ≡ (machine.on_t1 self.old.link).link }
        ensures pool { Balances pool.old self.old.held pool.new self.new.held }

        // No buffer stays with a packet that was given up.
        ensures tight { length self.new.held ≡ length self.new.link.queue }
        ensures out { out.new ≡ gathered out.old self.old.link (machine.on_t1 self.old.link) }

        // For every session that agrees with the link.
        ensures named { Keeps self.old.link (machine.on_t1 self.old.link) }
    {
        let ran = self.runs();
        let anew = self.expire(out);
        self.finish(ran, anew, out, pool);
    }

    /// Ends a call after its rule: what becomes of T1, and the buffers of the packets that the rule gave up go back.
    #[inline]
    fn finish(&mut self, ran: bool, anew: bool, out: &mut LinkOut, pool: &mut Pool)
        requires { Holds pool.old self.old.held }
        ensures link { self.new.link ≡ self.old.link }
        ensures pool { Balances pool.old self.old.held pool.new self.new.held }
        ensures tight { length self.new.held ≡ length self.new.link.queue }
        ensures out { out.new ≡ record out.old {
          timer = timing_after out.old.timer (timing_by ran (machine.runs
              self.old.link) anew);
        } }
    {
        out.set_timer(ran, self.runs(), anew);
        self.queue.give_back(pool);
    }

    fn expire(&mut self, out: &mut LinkOut) -> bool
        ensures link { self.new ≡ record self.old { link = (machine.on_t1 self.old.link).link } }
        ensures out { out.new ≡ with_step out.old self.old.link.role (machine.on_t1 self.old.link) }
        ensures anew { result ≡ (machine.on_t1 self.old.link).anew }
    {
        if !self.runs() {
            return self.still(out);
        }
        self.expire_rule(out)
    }

    fn expire_rule(&mut self, out: &mut LinkOut) -> bool
        ensures link { self.new ≡ record self.old {
          link = (machine.expire_in self.old.link.phase self.old.link).link;
        } }
        ensures out { out.new ≡ with_step out.old self.old.link.role (machine.expire_in self.old.link.phase
            self.old.link) }
        ensures anew { result ≡ (machine.expire_in self.old.link.phase self.old.link).anew }
    {
        match self.phase {
            Phase::Down => {
                self.sends_disconnected(false, out);
                true
            }
            Phase::SettingUp => {
                self.sends(&command(FrameKind::Sabm, self.bit), out);
                true
            }
            Phase::Up => {
                if self.polls >= self.n2 {
                    self.relink_rule(out)
                } else {
                    self.poll(out)
                }
            }
            Phase::Rejecting => {
                self.sends_report(false, out);
                true
            }
        }
    }

    /// An RR command with P = 1.
    fn poll(&mut self, out: &mut LinkOut) -> bool
        requires { self.old.link.polls < self.old.link.n2 }
        ensures link { self.new ≡ record self.old { link = (machine.poll self.old.link).link } }
        ensures out { out.new ≡ with_step out.old self.old.link.role (machine.poll self.old.link) }
        ensures anew { result ≡ (machine.poll self.old.link).anew }
    {
        self.polling = true;
        self.polls += 1;
        let nr = self.receive.expected();
        self.sends(&command(FrameKind::Rr { nr }, true), out);
        true
    }

    /// Takes a packet of at most `info` octets, to be sent by `settle` when it may go.
    ///
    /// `Down` comes if the link is not up, `Full` if as many packets are unacknowledged as may be. A packet that is
    /// refused changes nothing.
    pub fn offer(&mut self, packet: &[u8], pool: &mut Pool) -> Result<(), OfferFault>
        requires packet { length packet.now ≤ self.old.link.info }
        requires holds { Holds pool.old self.old.held }
        requires size { self.old.link.info ≤ pool.old.size }
        requires room { in_use pool.old < length pool.old.places }
        ensures answer { MatchOption (refusal self.old.link) (IsOk result) (λ fault. result ≡ Err fault) }
        ensures link { self.new.link ≡ machine.offer self.old.link packet.now }
        ensures pool { Balances pool.old self.old.held pool.new self.new.held }

        // No buffer stays with a packet that was given up.
        ensures tight { length self.new.held ≡ length self.new.link.queue }

        // A packet that is refused changes nothing, in the pool too, if no buffer stayed with one that was given up.
        ensures kept { length self.old.held ≡ length self.old.link.queue
            → OnErr result ((self.new ≡ self.old) × (pool.new ≡ pool.old)) }

        // For every session that agrees with the link.
        ensures named { (s : Session) → Agrees self.old.link s
            → Agrees (machine.offer self.old.link packet.now) (after_offer self.old.link packet.now s) }
    {
        let room = self.room();
        self.queue.give_back_any(pool);
        room?;
        self.queue.push(pool.place(packet));
        Ok(())
    }

    /// Why a packet is not taken, if it is not.
    fn room(&self) -> Result<(), OfferFault>
        ensures { MatchOption (refusal self.now.link) (IsOk result) (λ fault. result ≡ Err fault) }
    {
        match self.phase {
            Phase::Up => {}
            Phase::Down | Phase::SettingUp | Phase::Rejecting => return Err(OfferFault::Down),
        }
        if self.queue.len() >= self.window.size() {
            return Err(OfferFault::Full);
        }
        Ok(())
    }

    /// Whether `offer` takes a packet: the link is up, and fewer than k packets are unacknowledged.
    pub fn can_offer(&self) -> bool
        ensures { result ≡ machine.can_offer self.now.link }
    {
        match self.phase {
            Phase::Up => self.queue.len() < self.window.size(),
            Phase::Down | Phase::SettingUp | Phase::Rejecting => false,
        }
    }

    /// Whether T1 is to run (X.25 2.4.8.1).
    pub fn runs(&self) -> bool
        ensures { result ≡ machine.runs self.now.link }
    {
        if self.phase == Phase::Up {
            self.window.used() > 0 || self.polling || self.busy
        } else {
            self.runs_outside()
        }
    }

    /// Whether T1 is to run where the link is not up.
    #[cold]
    #[inline(never)]
    fn runs_outside(&self) -> bool
        requires { self.now.link.phase ≢ Phase.Up }
        ensures { result ≡ machine.runs self.now.link }
    {
        self.phase != Phase::Down || self.repeats
    }

    /// The phase of the link (X.25 2.4.4).
    pub fn phase(&self) -> Phase
        ensures { result ≡ self.now.link.phase }
    {
        self.phase
    }

    /// Whether the link is up and has nothing to wait for or to tell: every packet is acknowledged, every poll
    /// answered, and every accepted packet told of.
    pub fn at_rest(&self) -> bool
        ensures { result ≡ machine.at_rest self.now.link }
    {
        match self.phase {
            Phase::Up => self.queue.is_empty() && !self.polling && !self.owed,
            Phase::Down | Phase::SettingUp | Phase::Rejecting => false,
        }
    }
}
