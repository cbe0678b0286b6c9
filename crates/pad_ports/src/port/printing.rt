//! What a terminal shows.
ghost use Rattle.std.specs.Prelude.{◌≡◌, ◌≤◌, ◌<◌, ◌+◌, ◌++◌, length, is_some};
ghost use Rattle.arrayvec.specs.ArrayVec.{array_vec_len};
ghost use Rattle.pad_ports.specs.Ports as spec;
ghost use Rattle.pad_ports.specs.Showing.{shows};
ghost use Rattle.pad_ports.specs.TakenView.{taken_of as value_of, maybe_taken};

use crate::line::PadLine;
use crate::note::MOST_NOTES;
use crate::port::Port;
use crate::taken::{MOST_OCTETS, PadTaken};
use arrayvec::ArrayVec;
use packet_layer::{Front, Request, UserData};
use pad_editing::OCTET_LIMIT;
use pad_terminal::{Reply, TEXT_LIMIT};

/// The most octets that a terminal shows for one packet.
const PACKET_TEXT: usize = OCTET_LIMIT * MOST_OCTETS;

/// The most octets that a terminal has to show: the text that waits, and one packet.
pub const MOST_TEXT: usize = TEXT_LIMIT + PACKET_TEXT;

impl Port {
    /// Whether there is anything to show: text waits, or what waits first on the call is to be shown now.
    pub fn shows(&self, line: &PadLine) -> bool
        ensures { result ≡ shows (record { port = self.now; line = line.now }) }
    {
        self.terminal.has_text() || self.has_next(line)
    }

    /// Whether what waits first on the call is to be shown now: a message waits while the send queue is full.
    fn has_next(&self, line: &PadLine) -> bool
        ensures { result ≡ is_some (spec.taken_of (record { port = self.now; line = line.now })) }
    {
        if !self.terminal.may_show() {
            return false;
        }
        let Some(channel) = self.call else {
            return false;
        };
        match line.end.front(channel) {
            None => false,
            Some(
                Front::Data {
                    qualified: true,
                    ..
                },
            ) => line.end.room(channel) != 0,
            Some(_) => true,
        }
    }

    /// Shows the text that waits, and then what waits first on the call, if it is to be shown now: it is taken.
    pub fn print<const N: usize>(
        &mut self,
        line: &mut PadLine,
        out: &mut ArrayVec<u8, N>,
    ) -> Option<PadTaken>
        requires notes { length line.old.notes + 2 ≤ MOST_NOTES }
        requires room { array_vec_len out.old + MOST_TEXT ≤ N }
        ensures port { self.new ≡ (spec.after_print (record { port = self.old; line = line.old })).port }
        ensures line { line.new ≡ (spec.after_print (record { port = self.old; line = line.old })).line }
        ensures taken { maybe_taken result ≡ spec.taken_of (record { port = self.old; line = line.old }) }
        ensures text { out.new.items ≡ out.old.items ++ spec.printed (record { port = self.old; line = line.old }) }
        ensures room { length line.new.notes ≤ length line.old.notes + 2 }
        ensures told { line.new.end.notes ≡ line.old.end.notes }
    {
        self.terminal.print(out);
        let taken = self.take_next(line);
        if let Some(taken) = &taken {
            self.show(taken, line, out);
        }
        taken
    }

    /// Takes what waits first on the call, if it is to be shown now.
    fn take_next(&self, line: &mut PadLine) -> Option<PadTaken>
        requires { length line.old.notes < MOST_NOTES }
        ensures taken { maybe_taken result ≡ spec.taken_of (record { port = self.now; line = line.old }) }
        ensures line { line.new ≡ (spec.with_taken (spec.taken_of (record { port = self.now; line = line.old }))
            (record { port = self.now; line = line.old })).line }
        ensures room { length line.new.notes ≤ length line.old.notes + 1 }
        ensures told { line.new.end.notes ≡ line.old.end.notes }
    {
        if !self.has_next(line) {
            return None;
        }
        let channel = self.call?;
        line.take(channel)
    }

    /// Shows what was taken, and lets P(R) pass it; an interrupt is confirmed.
    fn show<const N: usize>(
        &mut self,
        taken: &PadTaken,
        line: &mut PadLine,
        out: &mut ArrayVec<u8, N>,
    )
        requires notes { length line.old.notes + 1 ≤ MOST_NOTES }
        requires room { array_vec_len out.old + PACKET_TEXT ≤ N }
        ensures port { self.new ≡ (spec.on_call (spec.after_taking (value_of taken.now)) self.old.call
            (record { port = self.old; line = line.old })).port }
        ensures line { line.new ≡ (spec.on_call (spec.after_taking (value_of taken.now)) self.old.call
            (record { port = self.old; line = line.old })).line }
        ensures text { out.new.items ≡ out.old.items ++ spec.text_on_call self.old.call (value_of taken.now)
            self.old.terminal }
        ensures room { length line.new.notes ≤ length line.old.notes + 1 }
        ensures told { line.new.end.notes ≡ line.old.end.notes }
    {
        let Some(channel) = self.call else {
            return;
        };
        match taken {
            PadTaken::Interrupt(_) => {
                let _ = line.end.ask(channel, &Request::ConfirmInterrupt);
            }
            PadTaken::Data(user_data) => {
                let _ = line.end.ask(channel, &Request::Release(1));
                self.show_data(user_data, line, out);
            }
        }
    }

    /// A qualified packet is a message, another is shown.
    fn show_data<const N: usize>(
        &mut self,
        user_data: &UserData<MOST_OCTETS>,
        line: &mut PadLine,
        out: &mut ArrayVec<u8, N>,
    )
        requires notes { length line.old.notes + 1 ≤ MOST_NOTES }
        requires room { array_vec_len out.old + PACKET_TEXT ≤ N }
        ensures port { self.new ≡ (spec.after_datum user_data.now user_data.now.qualified
            (record { port = self.old; line = line.old })).port }
        ensures line { line.new ≡ (spec.after_datum user_data.now user_data.now.qualified
            (record { port = self.old; line = line.old })).line }
        ensures text { out.new.items ≡ out.old.items
            ++ spec.text_of_datum user_data.now user_data.now.qualified self.old.terminal }
        ensures room { length line.new.notes ≤ length line.old.notes + 1 }
        ensures told { line.new.end.notes ≡ line.old.end.notes }
    {
        if user_data.qualified() {
            let reply = self.terminal.on_message(user_data.octets());
            self.reply(reply, line);
        } else {
            self.terminal.display(user_data.octets(), out);
        }
    }

    fn reply(&mut self, reply: Reply, line: &mut PadLine)
        requires { length line.old.notes + 1 ≤ MOST_NOTES }
        ensures port { self.new ≡ (spec.replies reply (record { port = self.old; line = line.old })).port }
        ensures line { line.new ≡ (spec.replies reply (record { port = self.old; line = line.old })).line }
        ensures room { length line.new.notes ≤ length line.old.notes + 1 }
        ensures told { line.new.end.notes ≡ line.old.end.notes }
    {
        match reply {
            Reply::Nothing => {}
            Reply::Message(message) => self.tell(Some(message), line),
            Reply::Clear => self.clear_call(line),
        }
    }
}
