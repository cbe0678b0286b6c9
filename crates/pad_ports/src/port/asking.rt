//! What a terminal asks of the line.
ghost use Rattle.std.specs.Prelude.{◌≡◌, ◌≤◌, ◌<◌, ◌+◌, false, None, length};
ghost use Rattle.pad_editing.specs.Edited.Step.{key, idle};
ghost use Rattle.pad_ports.specs.Ports as spec;

use crate::line::PadLine;
use crate::note::{ChannelNote, MOST_NOTES};
use crate::port::Port;
use packet_codec::clear_cause::{NETWORK_CONGESTION, OUT_OF_ORDER};
use packet_layer::CallFault;
use pad_editing::Block;
use pad_terminal::{BreakAnswer, BreakRequests, InputAnswer, TerminalRequest};
use x3_params::Params;
use x28_commands::Selection;
use x29_messages::{Message, MessageBuf, write_message};

impl Port {
    /// Takes a key, and answers whether it was taken.
    pub fn press(&mut self, octet: u8, line: &mut PadLine) -> bool
        requires { length line.old.notes + 2 ≤ MOST_NOTES }
        ensures port { self.new ≡ (spec.after_key octet (record { port = self.old; line = line.old })).port }
        ensures line { line.new ≡ (spec.after_key octet (record { port = self.old; line = line.old })).line }
        ensures taken { result ≡ spec.is_taken
            (spec.key_input octet (record { port = self.old; line = line.old })).answer }
        ensures room { length line.new.notes ≤ length line.old.notes + 2 }
        ensures told { line.new.end.notes ≡ line.old.end.notes }
    {
        let params = self.terminal.params();
        self.idle_left = None;
        if self.terminal.add_key(octet) {
            self.note_key(octet, params, line);
            return true;
        }
        self.press_other(octet, params, line)
    }

    /// Takes a key that is not only added to the text.
    #[inline(never)]
    fn press_other(&mut self, octet: u8, params: Params, line: &mut PadLine) -> bool
        requires notes { length line.old.notes + 2 ≤ MOST_NOTES }
        requires params { params ≡ self.old.terminal.settings.params }
        requires idle { self.old.idle_left ≡ None }
        ensures port { self.new ≡ (spec.after_key octet (record { port = self.old; line = line.old })).port }
        ensures line { line.new ≡ (spec.after_key octet (record { port = self.old; line = line.old })).line }
        ensures taken { result ≡ spec.is_taken
            (spec.key_input octet (record { port = self.old; line = line.old })).answer }
        ensures room { length line.new.notes ≤ length line.old.notes + 2 }
        ensures told { line.new.end.notes ≡ line.old.end.notes }
    {
        let condition = line.condition(self.call);
        match self.terminal.on_key(octet, condition) {
            InputAnswer::Dropped => false,
            InputAnswer::Edited(block) => {
                self.note_key(octet, params, line);
                if let Some(block) = &block {
                    self.send_block(block, line);
                }
                true
            }
            InputAnswer::Taken(request) => {
                self.ask_for(request, line);
                true
            }
        }
    }

    /// Takes the end of the idle time, and answers whether it was taken.
    pub fn pause(&mut self, line: &mut PadLine) -> bool
        requires { length line.old.notes + 2 ≤ MOST_NOTES }
        ensures port { self.new ≡ (spec.after_idle (record { port = self.old; line = line.old })).port }
        ensures line { line.new ≡ (spec.after_idle (record { port = self.old; line = line.old })).line }
        ensures taken { result ≡ spec.is_taken
            (spec.idle_input (record { port = self.old; line = line.old })).answer }
        ensures room { length line.new.notes ≤ length line.old.notes + 2 }
        ensures told { line.new.end.notes ≡ line.old.end.notes }
    {
        let params = self.terminal.params();
        let queue_full = line.is_full(self.call);
        self.idle_left = None;
        match self.terminal.on_idle(queue_full) {
            InputAnswer::Dropped => false,
            InputAnswer::Edited(block) => {
                self.note_pause(params, line);
                if let Some(block) = &block {
                    self.send_block(block, line);
                }
                true
            }
            InputAnswer::Taken(request) => {
                self.ask_for(request, line);
                true
            }
        }
    }

    /// Takes a break, and answers whether it was taken.
    pub fn break_in(&mut self, line: &mut PadLine) -> bool
        requires { length line.old.notes + 2 ≤ MOST_NOTES }
        ensures port { self.new ≡ (spec.after_break (record { port = self.old; line = line.old })).port }
        ensures line { line.new ≡ (spec.after_break (record { port = self.old; line = line.old })).line }
        ensures taken { result ≡ spec.is_break_taken
            (spec.break_answer_of (record { port = self.old; line = line.old })) }
        ensures room { length line.new.notes ≤ length line.old.notes + 2 }
        ensures told { line.new.end.notes ≡ line.old.end.notes }
    {
        let condition = line.condition(self.call);
        match self.terminal.on_break(condition) {
            BreakAnswer::Dropped => false,
            BreakAnswer::Taken(
                BreakRequests {
                    request,
                    indication,
                },
            ) => {
                self.ask_for(request, line);
                self.tell(indication, line);
                true
            }
        }
    }

    /// Takes that the terminal leaves (X.28 3.1), and is then absent. Its call is cleared as by the command CLR. What it
    /// typed, what waits to be shown and its parameters are dropped.
    pub fn leave(&mut self, line: &mut PadLine)
        requires { length line.old.notes + 1 ≤ MOST_NOTES }
        ensures port { self.new ≡ (spec.after_leaving (record { port = self.old; line = line.old })).port }
        ensures line { line.new ≡ (spec.after_leaving (record { port = self.old; line = line.old })).line }
        ensures room { length line.new.notes ≤ length line.old.notes + 1 }
        ensures told { line.new.end.notes ≡ line.old.end.notes }
    {
        self.clear_call(line);
        self.terminal.leave();
        self.idle_left = None;
    }

    /// A key has edited the text: its step is noted.
    fn note_key(&self, octet: u8, params: Params, line: &mut PadLine)
        requires { length line.old.notes < MOST_NOTES }
        ensures line { line.new ≡ (spec.on_call (spec.edits (key octet params) None) self.now.call
            (record { port = self.now; line = line.old })).line }
        ensures room { length line.new.notes ≤ length line.old.notes + 1 }
        ensures told { line.new.end.notes ≡ line.old.end.notes }
    {
        let Some(channel) = self.call else {
            return;
        };
        line.note(ChannelNote::Edited {
            channel,
            octet,
            params,
        });
    }

    /// Sends the block that was ended.
    fn send_block(&self, block: &Block, line: &mut PadLine)
        requires { length line.old.notes < MOST_NOTES }
        ensures line { line.new ≡ (spec.on_call (spec.sends block.now false) self.now.call
            (record { port = self.now; line = line.old })).line }
        ensures room { length line.new.notes ≤ length line.old.notes + 1 }
        ensures told { line.new.end.notes ≡ line.old.end.notes }
    {
        let Some(channel) = self.call else {
            return;
        };
        line.send(channel, block.as_slice(), false);
    }

    /// The end of the idle time has edited the text: its step is noted.
    fn note_pause(&self, params: Params, line: &mut PadLine)
        requires { length line.old.notes < MOST_NOTES }
        ensures line { line.new ≡ (spec.on_call (spec.edits (idle params) None) self.now.call
            (record { port = self.now; line = line.old })).line }
        ensures room { length line.new.notes ≤ length line.old.notes + 1 }
        ensures told { line.new.end.notes ≡ line.old.end.notes }
    {
        let Some(channel) = self.call else {
            return;
        };
        line.note(ChannelNote::Paused { channel, params });
    }

    /// Does what the terminal asks for, if anything.
    fn ask_for(&mut self, request: Option<TerminalRequest>, line: &mut PadLine)
        requires { length line.old.notes + 1 ≤ MOST_NOTES }
        ensures port { self.new ≡ (spec.does_asked request (record { port = self.old; line = line.old })).port }
        ensures line { line.new ≡ (spec.does_asked request (record { port = self.old; line = line.old })).line }
        ensures room { length line.new.notes ≤ length line.old.notes + 1 }
        ensures told { line.new.end.notes ≡ line.old.end.notes }
    {
        match request {
            None => {}
            Some(TerminalRequest::Call(selection)) => self.place_call(&selection, line),
            Some(TerminalRequest::Clear) => self.clear_call(line),
            Some(TerminalRequest::Interrupt) => self.interrupt(line),
            Some(TerminalRequest::Reset) => self.reset_call(line),
        }
    }

    #[tactic(auto, using(crate::proofs::Placing::none_given))]
    fn place_call(&mut self, selection: &Selection, line: &mut PadLine)
        requires { length line.old.notes + 1 ≤ MOST_NOTES }
        ensures port { self.new ≡ (spec.places selection.now (record { port = self.old; line = line.old })).port }
        ensures line { line.new ≡ (spec.places selection.now (record { port = self.old; line = line.old })).line }
        ensures room { length line.new.notes ≤ length line.old.notes + 1 }
        ensures told { line.new.end.notes ≡ line.old.end.notes }
    {
        match line.place(selection.address, selection.user_data.as_slice()) {
            Ok(channel) => self.call = Some(channel),
            Err(CallFault::NotReady) => self.terminal.on_cleared(OUT_OF_ORDER),
            Err(CallFault::NoChannel) => self.terminal.on_cleared(NETWORK_CONGESTION),
        }
    }

    /// Clears the call, which the terminal has left.
    pub(crate) fn clear_call(&mut self, line: &mut PadLine)
        requires { length line.old.notes + 1 ≤ MOST_NOTES }
        ensures port { self.new ≡ (spec.on_call spec.clears self.old.call
            (record { port = self.old; line = line.old })).port }
        ensures line { line.new ≡ (spec.on_call spec.clears self.old.call
            (record { port = self.old; line = line.old })).line }
        ensures room { length line.new.notes ≤ length line.old.notes + 1 }
        ensures told { line.new.end.notes ≡ line.old.end.notes }
    {
        let Some(channel) = self.call else {
            return;
        };
        self.call = None;
        line.clear(channel);
    }

    fn reset_call(&self, line: &mut PadLine)
        requires { length line.old.notes + 1 ≤ MOST_NOTES }
        ensures line { line.new ≡ (spec.on_call spec.resets self.now.call
            (record { port = self.now; line = line.old })).line }
        ensures room { length line.new.notes ≤ length line.old.notes + 1 }
        ensures told { line.new.end.notes ≡ line.old.end.notes }
    {
        let Some(channel) = self.call else {
            return;
        };
        line.reset(channel);
    }

    fn interrupt(&self, line: &mut PadLine)
        requires { length line.old.notes + 1 ≤ MOST_NOTES }
        ensures line { line.new ≡ (spec.on_call spec.interrupts self.now.call
            (record { port = self.now; line = line.old })).line }
        ensures room { length line.new.notes ≤ length line.old.notes + 1 }
        ensures told { line.new.end.notes ≡ line.old.end.notes }
    {
        let Some(channel) = self.call else {
            return;
        };
        line.interrupt(channel);
    }

    /// Sends a message, if there is one.
    pub(crate) fn tell(&mut self, message: Option<Message>, line: &mut PadLine)
        requires { length line.old.notes + 1 ≤ MOST_NOTES }
        ensures port { self.new ≡ self.old }
        ensures line { line.new ≡ (spec.tells message (record { port = self.old; line = line.old })).line }
        ensures room { length line.new.notes ≤ length line.old.notes + 1 }
        ensures told { line.new.end.notes ≡ line.old.end.notes }
    {
        let (Some(channel), Some(message)) = (self.call, message) else {
            return;
        };
        let mut octets = MessageBuf::new();
        write_message(&message, &mut octets);
        line.send(channel, octets.as_slice(), true);
    }
}
