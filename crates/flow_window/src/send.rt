//! The numbers that a sender uses.
ghost use Rattle.std.specs.Prelude.{◌≡◌, ◌<◌, ◌≤◌, ◌+◌, ◌-◌, ◌%◌, ◌↔◌, max, IsTrue, IsErr, MatchResult, Ok, ℕ};
ghost use Rattle.flow_window.specs.Window.{ahead, empty_window, taken, sent_up_to, IsInWindow, acknowledged, gone_back};
ghost use Rattle.flow_window.specs.Counts.{Names, Shows};

use crate::modulus::Modulus;
use crate::seq::Seq;
use std::marker::Model;

/// A received number names no count from the oldest unacknowledged one to one past the highest used.
#[derive(Clone, Copy, PartialEq, Eq)]
pub struct OutOfWindow;

/// What a sender knows of its numbers: which one is the oldest that is not acknowledged, V(A), which one it sends next,
/// V(S), and one past the highest that it ever used (X.25 2.4.5, 4.4.1.2).
///
/// All numbers are modulo `M`. At most `size` of them are unacknowledged.
#[derive(Drop)]
pub struct SendWindow<M: Modulus> {
    oldest: Seq<M>,
    next: u8,
    top: u8,
    size: u8,
}

impl<M: Modulus> Model for SendWindow<M> {
    ghost use Rattle.std.specs.Prelude.{◌<◌, ◌≤◌};
    ghost use Rattle.flow_window.specs.Window.{Window};

    ghost Value = { Window };

    ghost view = { λ w. record { oldest = w.oldest; next = w.next; top = w.top; size = w.size } };

    ghost invariant = { λ w. (w.oldest < M.modulus) × (w.next ≤ w.top) × (w.top ≤ w.size) × (w.size < M.modulus) };
}

impl<M: Modulus> SendWindow<M> {
    /// A window in which nothing was sent. At most `size` numbers may be unacknowledged.
    pub fn new(size: u8) -> Self
        requires least { 1 ≤ size }
        requires most { size < M.modulus }
        ensures window { result ≡ empty_window size }
        ensures counts { Shows M.modulus result 0 0 0 }
    {
        SendWindow {
            oldest: Seq::zero(),
            next: 0,
            top: 0,
            size,
        }
    }

    /// Whether one more may be sent.
    pub fn room(&self) -> bool
        ensures room { IsTrue result ↔ (self.now.next < self.now.size) }
        ensures counts { (oldest next highest : ℕ) → Shows M.modulus self.now oldest next highest
            → (IsTrue result ↔ (next < oldest + self.now.size)) }
    {
        self.next < self.size
    }

    /// The number of what is sent next. It counts as sent.
    pub fn take_number(&mut self) -> u8
        requires { self.old.next < self.old.size }
        ensures number { result ≡ (self.old.oldest + self.old.next) % M.modulus }
        ensures window { self.new ≡ taken self.old }
        ensures counts { (oldest next highest : ℕ) → Shows M.modulus self.old oldest next highest
            → (result ≡ next % M.modulus) × Shows M.modulus self.new oldest (next + 1) (max highest (next + 1)) }
    {
        let number = self.oldest.after(self.next).number();
        self.next += 1;
        self.top = self.top.max(self.next);
        number
    }

    /// The numbers from the next one on are sent, until so many from the oldest on are unacknowledged.
    pub fn send_up_to(&mut self, count: u8)
        requires more { self.old.next ≤ count }
        requires room { count ≤ self.old.size }
        ensures window { self.new ≡ sent_up_to self.old count }
        ensures counts { (oldest next highest : ℕ) → Shows M.modulus self.old oldest next highest
            → Shows M.modulus self.new oldest (oldest + count) (max highest (oldest + count)) }
    {
        self.next = count;
        self.top = self.top.max(count);
    }

    /// Takes a received number, before which all is acknowledged, and answers how many newly are.
    pub fn ack(&mut self, nr: u8) -> Result<u8, OutOfWindow>
        // It is refused exactly where it lies outside the window.
        ensures window { MatchResult result
            (λ newly. IsInWindow M.modulus self.old nr × (newly ≡ ahead M.modulus self.old.oldest nr)
            × (self.new ≡ acknowledged M.modulus self.old nr))
            (λ _. (IsInWindow M.modulus self.old nr → ⊥) × (self.new ≡ self.old)) }

        // By counts: exactly where it names one, the oldest becomes that one, and so does the next where it was less.
        ensures named { (oldest next highest count : ℕ) → Shows M.modulus self.old oldest next highest
            → Names M.modulus oldest highest nr count
            → (result ≡ Ok (count - oldest)) × Shows M.modulus self.new count (max next count) highest }
        ensures refused { (oldest next highest : ℕ) → Shows M.modulus self.old oldest next highest
            → ((count : ℕ) → Names M.modulus oldest highest nr count → ⊥) → IsErr result }
    {
        let top = self.top;
        let Some(nr) = Seq::new(nr) else {
            return Err(OutOfWindow);
        };
        let newly = nr.ahead_of(&self.oldest);
        if newly > top {
            return Err(OutOfWindow);
        }
        self.oldest = nr;
        self.next = self.next.saturating_sub(newly);
        self.top -= newly;
        Ok(newly)
    }

    /// Sends from a number of the window on again.
    pub fn go_back(&mut self, nr: u8)
        requires { IsInWindow M.modulus self.old nr }
        ensures window { self.new ≡ gone_back M.modulus self.old nr }
        ensures counts { (oldest next highest count : ℕ) → Shows M.modulus self.old oldest next highest
            → Names M.modulus oldest highest nr count → Shows M.modulus self.new oldest count highest }
    {
        let modulus = M::modulus();
        self.next = (nr + modulus - self.oldest.number()) % modulus;
    }

    /// Starts again at 0.
    pub fn clear(&mut self)
        ensures window { self.new ≡ empty_window self.old.size }
        ensures counts { Shows M.modulus self.new 0 0 0 }
    {
        self.oldest = Seq::zero();
        self.next = 0;
        self.top = 0;
    }

    /// Whether a received number lies in the window, so that `ack` takes it.
    pub fn contains(&self, nr: u8) -> bool
        ensures { IsTrue result ↔ IsInWindow M.modulus self.now nr }
    {
        match Seq::new(nr) {
            Some(nr) => nr.ahead_of(&self.oldest) <= self.top,
            None => false,
        }
    }

    /// The number of the oldest that is not acknowledged, V(A).
    pub fn oldest(&self) -> u8
        ensures value { result ≡ self.now.oldest }
        ensures range { result < M.modulus }
    {
        self.oldest.number()
    }

    /// The number of what is sent next, V(S).
    pub fn next_number(&self) -> u8
        ensures value { result ≡ (self.now.oldest + self.now.next) % M.modulus }
        ensures range { result < M.modulus }
    {
        self.oldest.after(self.next).number()
    }

    /// How many are sent and not acknowledged, V(S) - V(A).
    pub fn unacknowledged(&self) -> u8
        ensures value { result ≡ self.now.next }
        ensures within { self.now.next ≤ self.now.top }
        ensures fits { self.now.top ≤ self.now.size }
    {
        self.next
    }

    /// How many numbers from the oldest on were used, also before the last return to an earlier one.
    pub fn used(&self) -> u8
        ensures value { result ≡ self.now.top }
        ensures fits { self.now.top ≤ self.now.size }
    {
        self.top
    }

    /// How many may be unacknowledged.
    pub fn size(&self) -> u8
        ensures value { result ≡ self.now.size }
        ensures range { result < M.modulus }
    {
        self.size
    }
}
