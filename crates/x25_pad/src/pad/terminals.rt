//! What happens at the terminals.
ghost use Rattle.std.specs.Prelude.{◌≡◌, ◌≤◌, ◌<◌, ◌+◌, ◌++◌, [], true, false, None, length, map, position, IfSome};
ghost use Rattle.std.specs.Bool.{OnTrue};
ghost use Rattle.arrayvec.specs.ArrayVec.{array_vec_len};
ghost use Rattle.packet_end.specs.PacketEnd as end;
ghost use Rattle.packet_end.specs.Sending.{expiry_frames, ending_frames};
ghost use Rattle.packet_layer.specs.LayerTimers.{TimersAgree};
ghost use Rattle.pad_ports.specs.Ports as port;
ghost use Rattle.pad_ports.specs.TakenView.{maybe_taken};
ghost use Rattle.x25_pad.specs.Pad as spec;
ghost use Rattle.x25_pad.specs.Showing.{shows};
ghost use Rattle.x25_pad.specs.Sending.{frames_at_terminal, frames_on_timer};

use crate::answer::PadAnswer;
use crate::pad::Pad;
use arrayvec::ArrayVec;
use link_timers::TimerId;
use pad_ports::{MOST_TEXT, PadTaken};

impl Pad {
    /// Takes a key of a terminal (X.3 3; X.28 3.2).
    ///
    /// `Dropped` comes if the key would end a block and the send queue takes no packet: eight wait, or the own reset is
    /// not confirmed. It comes too if the terminal is absent: then the key does nothing.
    pub fn on_key(&mut self, terminal: u8, octet: u8) -> PadAnswer
        requires { terminal < length self.old.ports }
        ensures pad { self.new ≡ spec.terminal_event terminal (port.after_key octet) self.old }
        ensures answer { result ≡ spec.answer_of (spec.key_taken terminal octet self.old) }
        ensures nothing_kept_back { end.KeepsNothingBack self.new.line.end }
        ensures frames { self.new.line.end.line.frames
            ≡ frames_at_terminal terminal (port.after_key octet) self.old }
        ensures timers { TimersAgree self.new.line.end.layer self.new.line.end.timers }
    {
        self.begin();
        let taken = self.press(terminal, octet);
        self.finish();
        PadAnswer::of(taken)
    }

    /// Takes a break of a terminal (X.3 3.7).
    ///
    /// `Dropped` comes if it would send an indication of break and the send queue takes no packet, or if the terminal is
    /// absent: then nothing happens.
    pub fn on_break(&mut self, terminal: u8) -> PadAnswer
        requires { terminal < length self.old.ports }
        ensures pad { self.new ≡ spec.terminal_event terminal port.after_break self.old }
        ensures answer { result ≡ spec.answer_of (spec.break_taken terminal self.old) }
        ensures nothing_kept_back { end.KeepsNothingBack self.new.line.end }
        ensures frames { self.new.line.end.line.frames ≡ frames_at_terminal terminal port.after_break self.old }
        ensures timers { TimersAgree self.new.line.end.layer self.new.line.end.timers }
    {
        self.begin();
        let taken = self.break_in(terminal);
        self.finish();
        PadAnswer::of(taken)
    }

    /// Takes that a terminal leaves (X.28 3.1), and is then absent: it is given no call, and its keys and breaks are
    /// dropped. Its call is cleared as by the command CLR. What it typed, what waits to be shown and its parameters are
    /// dropped: it then has the initial ones.
    pub fn on_leaving(&mut self, terminal: u8)
        requires { terminal < length self.old.ports }
        ensures pad { self.new ≡ spec.terminal_event terminal port.after_leaving self.old }
        ensures nothing_kept_back { end.KeepsNothingBack self.new.line.end }
        ensures frames { self.new.line.end.line.frames ≡ frames_at_terminal terminal port.after_leaving self.old }
        ensures timers { TimersAgree self.new.line.end.layer self.new.line.end.timers }
    {
        self.begin();
        self.leave(terminal);
        self.finish();
    }

    /// Takes that a terminal arrives (X.28 3.1), and is then present without a call. If it is present already, nothing
    /// happens.
    pub fn on_arriving(&mut self, terminal: u8)
        requires { terminal < length self.old.ports }
        ensures pad { self.new ≡ spec.terminal_event terminal port.after_arrival self.old }
        ensures nothing_kept_back { end.KeepsNothingBack self.new.line.end }
        ensures frames { self.new.line.end.line.frames ≡ frames_at_terminal terminal port.after_arrival self.old }
        ensures timers { TimersAgree self.new.line.end.layer self.new.line.end.timers }
    {
        self.begin();
        self.arrive(terminal);
        self.finish();
    }

    /// What a key does at its terminal.
    fn press(&mut self, terminal: u8, octet: u8) -> bool
        requires there { terminal < length self.old.ports }
        requires empty { self.old.line.notes ≡ [] }
        ensures pad { self.new ≡ spec.at_port terminal (port.after_key octet) self.old }
        ensures taken { result ≡ spec.key_taken_now terminal octet self.old }
        ensures room { length self.new.line.notes ≤ length self.old.line.notes + 2 }
        ensures told { self.new.line.end.notes ≡ self.old.line.end.notes }
    {
        let number = usize::from(terminal);
        self.line.at_terminal(Some(terminal));
        self.touched.insert(number);
        self.ports[number].press(octet, &mut self.line)
    }

    /// What a break does at its terminal.
    fn break_in(&mut self, terminal: u8) -> bool
        requires there { terminal < length self.old.ports }
        requires empty { self.old.line.notes ≡ [] }
        ensures pad { self.new ≡ spec.at_port terminal port.after_break self.old }
        ensures taken { result ≡ spec.break_taken_now terminal self.old }
        ensures room { length self.new.line.notes ≤ length self.old.line.notes + 2 }
        ensures told { self.new.line.end.notes ≡ self.old.line.end.notes }
    {
        let number = usize::from(terminal);
        self.line.at_terminal(Some(terminal));
        self.touched.insert(number);
        self.ports[number].break_in(&mut self.line)
    }

    /// What leaving does at a terminal.
    fn leave(&mut self, terminal: u8)
        requires there { terminal < length self.old.ports }
        requires empty { self.old.line.notes ≡ [] }
        ensures pad { self.new ≡ spec.at_port terminal port.after_leaving self.old }
        ensures room { length self.new.line.notes ≤ length self.old.line.notes + 2 }
        ensures told { self.new.line.end.notes ≡ self.old.line.end.notes }
    {
        let number = usize::from(terminal);
        self.line.at_terminal(Some(terminal));
        self.touched.insert(number);
        self.ports[number].leave(&mut self.line);
    }

    /// What arriving does at a terminal.
    fn arrive(&mut self, terminal: u8)
        requires { terminal < length self.old.ports }
        ensures pad { self.new ≡ spec.at_port terminal port.after_arrival self.old }
        ensures room { length self.new.line.notes ≤ length self.old.line.notes }
        ensures told { self.new.line.end.notes ≡ self.old.line.end.notes }
    {
        let number = usize::from(terminal);
        self.line.at_terminal(Some(terminal));
        self.touched.insert(number);
        self.ports[number].arrive();
    }

    /// Takes the end of the idle time of a terminal (X.3 3.4). If its idle timer does not run, nothing happens.
    ///
    /// `Dropped` comes if the timer runs and the send queue takes no packet: the timer then restarts.
    pub fn on_idle(&mut self, terminal: u8) -> PadAnswer
        requires { terminal < length self.old.ports }
        ensures pad { self.new ≡ spec.after_idle terminal self.old }
        ensures answer { result ≡ spec.answer_of (spec.idle_taken terminal self.old) }
        ensures nothing_kept_back { spec.runs_idle_timer terminal self.old ≡ true →
            end.KeepsNothingBack self.new.line.end }
        ensures frames { spec.runs_idle_timer terminal self.old ≡ true →
            self.new.line.end.line.frames ≡ frames_at_terminal terminal port.after_idle self.old }
    {
        if !self.runs_idle_timer(terminal) {
            return PadAnswer::Taken;
        }
        self.begin();
        let taken = self.pause(terminal);
        self.finish();
        PadAnswer::of(taken)
    }

    /// Whether the idle timer of a terminal runs.
    fn runs_idle_timer(&self, terminal: u8) -> bool
        ensures { result ≡ spec.runs_idle_timer terminal self.now }
    {
        match self.ports.get(usize::from(terminal)) {
            Some(port) => port.runs_idle_timer(),
            None => false,
        }
    }

    /// What the end of an idle time does at its terminal.
    fn pause(&mut self, terminal: u8) -> bool
        requires there { terminal < length self.old.ports }
        requires empty { self.old.line.notes ≡ [] }
        ensures pad { self.new ≡ spec.at_port terminal port.after_idle self.old }
        ensures taken { result ≡ spec.idle_taken_now terminal self.old }
        ensures room { length self.new.line.notes ≤ length self.old.line.notes + 2 }
        ensures told { self.new.line.end.notes ≡ self.old.line.end.notes }
    {
        let number = usize::from(terminal);
        self.line.at_terminal(Some(terminal));
        self.touched.insert(number);
        self.ports[number].pause(&mut self.line)
    }

    /// Whether a terminal has anything to show: text, or what waits first on its call and may be shown now. If not,
    /// [`print`](Pad::print) shows nothing and takes nothing. A terminal that is not there has nothing to show.
    pub fn shows(&self, terminal: u16) -> bool
        ensures exact { result ≡ shows terminal self.now }
        ensures nothing { result ≡ false → (spec.print_text terminal self.now ≡ [])
            × (spec.print_taken terminal self.now ≡ None) }
    {
        let Some(port) = self.ports.get(usize::from(terminal)) else {
            return false;
        };
        port.shows(&self.line)
    }

    /// Shows what a terminal has to show: the text that waits, at most 1,024 octets, and then what waits first on its
    /// call, in data transfer and while its output is not stopped. That is taken: user data are shown, a message is
    /// obeyed, an interrupt shows nothing. A message waits while the send queue takes no packet.
    pub fn print<const N: usize>(
        &mut self,
        terminal: u8,
        out: &mut ArrayVec<u8, N>,
    ) -> Option<PadTaken>
        requires there { terminal < length self.old.ports }
        requires room { array_vec_len out.old + MOST_TEXT ≤ N }
        ensures pad { self.new ≡ spec.terminal_event terminal port.after_print self.old }
        ensures taken { maybe_taken result ≡ spec.print_taken terminal self.old }
        ensures text { out.new.items ≡ out.old.items ++ spec.print_text terminal self.old }
        ensures nothing_kept_back { end.KeepsNothingBack self.new.line.end }
        ensures frames { self.new.line.end.line.frames ≡ frames_at_terminal terminal port.after_print self.old }
        ensures timers { TimersAgree self.new.line.end.layer self.new.line.end.timers }
    {
        self.begin();
        let taken = self.show(terminal, out);
        self.finish();
        taken
    }

    /// What printing does at its terminal.
    fn show<const N: usize>(&mut self, terminal: u8, out: &mut ArrayVec<u8, N>) -> Option<PadTaken>
        requires there { terminal < length self.old.ports }
        requires empty { self.old.line.notes ≡ [] }
        requires out { array_vec_len out.old + MOST_TEXT ≤ N }
        ensures pad { self.new ≡ spec.at_port terminal port.after_print self.old }
        ensures taken { maybe_taken result ≡ spec.print_taken_now terminal self.old }
        ensures text { out.new.items ≡ out.old.items ++ spec.print_text_now terminal self.old }
        ensures room { length self.new.line.notes ≤ length self.old.line.notes + 2 }
        ensures told { self.new.line.end.notes ≡ self.old.line.end.notes }
    {
        let number = usize::from(terminal);
        self.line.at_terminal(Some(terminal));
        self.touched.insert(number);
        self.ports[number].print(&mut self.line, out)
    }

    /// Takes an expiry of a timer of the line or of a terminal's idle timer, and answers whether it ran. If it did not,
    /// nothing happens.
    pub fn on_timer(&mut self, id: TimerId) -> bool
        ensures ran { result ≡ spec.runs_at self.old id }
        ensures pad { self.new ≡ spec.after_timer self.old id }
        ensures nothing_kept_back { OnTrue result (end.KeepsNothingBack self.new.line.end) }
        ensures frames { OnTrue result (self.new.line.end.line.frames ≡ frames_on_timer self.old id) }
    {
        match id {
            TimerId::Idle(terminal) => {
                if !self.runs_idle_timer(terminal) {
                    return false;
                }
                let _ = self.on_idle(terminal);
                true
            }
            _ => self.on_line_timer(id),
        }
    }

    /// An expiry of a timer of the line. All frames of the event wait then: those of the expiry and of its end.
    fn on_line_timer(&mut self, id: TimerId) -> bool
        ensures ran { result ≡ end.runs_at self.old.line.end id }
        ensures pad { self.new ≡ spec.after_expiry self.old id }
        ensures nothing_kept_back { OnTrue result (end.KeepsNothingBack self.new.line.end) }
        ensures frames { OnTrue result (self.new.line.end.line.frames ≡ expiry_frames id self.old.line.end
            ++ ending_frames (spec.heeded (spec.with_expiry self.old id)).line.end) }
    {
        if !self.line.end.is_running(id) {
            return false;
        }
        self.begin();
        self.line.end.on_timer(id);
        self.end_line_event();
        true
    }

    /// Lets ticks pass, each a twentieth of a second: each timer that runs has so many less, not below 0.
    pub fn elapse(&mut self, ticks: u16)
        ensures { self.new ≡ spec.elapsed ticks self.old }
    {
        self.line.end.elapse(ticks);
        self.elapse_idle_timers(ticks);
    }

    fn elapse_idle_timers(&mut self, ticks: u16)
        ensures { self.new ≡ record self.old { ports = map (port.elapsed ticks) self.old.ports } }
    {
        for port in self.ports.iter_mut() {
            port.elapse(ticks);
        }
    }

    /// The first timer that runs with no tick left, in the order of [`TimerId`] and then by number.
    pub fn due(&self) -> Option<TimerId>
        ensures { result ≡ spec.due self.now }
    {
        match self.line.end.due() {
            Some(id) => Some(id),
            None => self.idle_due(),
        }
    }

    /// The first idle timer with no tick left.
    fn idle_due(&self) -> Option<TimerId>
        ensures { result ≡ spec.idle_due (position (λ p. port.is_due p) self.now.ports) }
    {
        match self.first_due() {
            Some(number) => Some(TimerId::Idle(number as u8)),
            None => None,
        }
    }

    /// The first terminal whose idle timer has no tick left: one of at most 16.
    fn first_due(&self) -> Option<usize>
        ensures number { result ≡ position (λ p. port.is_due p) self.now.ports }
        ensures most { IfSome result (λ number. number < 16) }
    {
        self.ports.iter().position(|port| port.is_due())
    }

    /// Restarts the PAD: it has no calls then, and each terminal has its initial parameters. What went before is
    /// forgotten, also text, frames and notes.
    pub fn restart(&mut self)
        ensures pad { self.new ≡ spec.restarted self.old }
        ensures nothing_kept_back { end.KeepsNothingBack self.new.line.end }
    {
        self.line.end.restart();
        self.line.notes.clear();
        self.line.terminal = None;
        self.restart_terminals();
    }

    fn restart_terminals(&mut self)
        ensures { self.new ≡ record self.old { ports = map port.restarted self.old.ports } }
    {
        for port in self.ports.iter_mut() {
            port.restart();
        }
    }
}
