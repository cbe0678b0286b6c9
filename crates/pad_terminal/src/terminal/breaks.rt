//! What a terminal does at a break.
ghost use Rattle.std.specs.Prelude.{◌≡◌};
ghost use Rattle.pad_terminal.specs.Breaks as spec;

use crate::answers::{BreakAnswer, BreakRequests, CallCondition, TerminalRequest};
use crate::terminal::Terminal;
use x3_params::{BreakAction, Params};
use x29_messages::{Message, Pairs};

/// The parameter that discards output.
const DISCARD_OUTPUT: u8 = 8;

impl Terminal {
    /// Takes a break (X.3 3.7).
    ///
    /// Without a connected call nothing happens. Parameter 7 says what it asks: a reset, unless one is pending; or else
    /// an interrupt, unless one or a reset is pending, and an indication of break. It may then escape to the command
    /// state, and put parameter 8 to 1. `Dropped` comes if an indication would go out and the send queue is full, or if
    /// the terminal is absent: then nothing happens.
    pub fn on_break(&mut self, call: CallCondition) -> BreakAnswer
        ensures terminal { self.new ≡ spec.after_break call self.old }
        ensures answer { result ≡ spec.answer_of call self.old }
    {
        if !self.mode.is_present() {
            return BreakAnswer::Dropped;
        }
        if !self.mode.is_connected() {
            return BreakAnswer::Taken(BreakRequests {
                request: None,
                indication: None,
            });
        }
        if call.queue_full && indicates(&self.settings.params) {
            return BreakAnswer::Dropped;
        }
        let requests = BreakRequests {
            request: request(&self.settings.params, call),
            indication: indication(&self.settings.params),
        };
        self.escape();
        self.discard_output();
        BreakAnswer::Taken(requests)
    }

    fn escape(&mut self)
        ensures { self.new ≡ spec.escaped self.old }
    {
        if self.settings.params.acts_on_break(BreakAction::Escape) && self.mode.is_data_transfer() {
            self.recall();
        }
    }

    fn discard_output(&mut self)
        ensures { self.new ≡ spec.discarding self.old }
    {
        if self.settings.params.acts_on_break(BreakAction::Discard) {
            let _ = self.settings.set(DISCARD_OUTPUT, 1);
        }
    }
}

/// Whether an indication of break goes out.
fn indicates(params: &Params) -> bool
    ensures { result ≡ spec.indicates params.now }
{
    params.acts_on_break(BreakAction::Indication) && !params.acts_on_break(BreakAction::Reset)
}

/// A reset, or else an interrupt, where it may be asked for.
fn request(params: &Params, call: CallCondition) -> Option<TerminalRequest>
    ensures { result ≡ spec.request_of params.now call }
{
    if params.acts_on_break(BreakAction::Reset) {
        if call.reset_pending {
            None
        } else {
            Some(TerminalRequest::Reset)
        }
    } else if params.acts_on_break(BreakAction::Interrupt) && call.may_interrupt {
        Some(TerminalRequest::Interrupt)
    } else {
        None
    }
}

/// The indication of break, where it goes out.
fn indication(params: &Params) -> Option<Message>
    ensures { result ≡ spec.indication_of params.now }
{
    if !indicates(params) {
        return None;
    }
    let mut pairs = Pairs::new();
    if params.acts_on_break(BreakAction::Discard) {
        pairs.push((DISCARD_OUTPUT, 1));
    }
    Some(Message::IndicationOfBreak(pairs))
}
