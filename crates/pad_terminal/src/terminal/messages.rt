//! What a terminal does with messages of the far end.
ghost use Rattle.std.specs.Prelude.{◌≡◌, ◌%◌, map};
ghost use Rattle.pad_terminal.specs.Messages as spec;
ghost use Rattle.pad_terminal.specs.Settings.{refused};

use crate::answers::Reply;
use crate::settings::{Report, Setting, refused};
use crate::terminal::Terminal;
use arrayvec::ArrayVec;
use x3_params::ParamFault;
use x28_commands::Signal;
use x29_messages::{Message, MessageFault, PAIR_LIMIT, Pairs, read_message};

/// References of parameters are taken modulo this.
const REFERENCES: u8 = 128;

impl Terminal {
    /// Takes a message of the far end, the octets of a qualified packet (X.29 4.4).
    ///
    /// A message may set parameters, ask for their values, or do both; its reply tells the values in force, or with bit
    /// 8 of the reference why a parameter was refused. Setting alone tells the refused ones alone. An empty list means
    /// all parameters: they are put to their initial values, or told. An invitation to clear ends the call. What is no
    /// message is answered by an error; indications and errors are not answered.
    #[tactic(auto, unfolding(crate::specs::Messages::after_octets))]
    pub fn on_message(&mut self, octets: &[u8]) -> Reply
        ensures terminal { self.new ≡ (spec.after_octets octets.now self.old).terminal }
        ensures reply { result ≡ (spec.after_octets octets.now self.old).reply }
    {
        match read_message(octets) {
            Ok(message) => self.obey(message),
            Err(fault) => {
                Reply::Message(Message::Error(error_type(fault), octets.first().copied()))
            }
        }
    }

    fn obey(&mut self, message: Message) -> Reply
        ensures terminal { self.new ≡ (spec.after message self.old).terminal }
        ensures reply { result ≡ (spec.after message self.old).reply }
    {
        match message {
            Message::InvitationToClear => {
                self.end_call(&Signal::InvitedToClear);
                Reply::Clear
            }
            Message::Set(pairs) => refusals(&refused(&self.set_pairs(&pairs))),
            Message::Read(pairs) => {
                let report = self.settings.read_all(numbers(&pairs).as_slice());
                Reply::Message(indication(&report))
            }
            Message::SetAndRead(pairs) => self.set_and_read(&pairs),
            Message::ParameterIndication(_)
            | Message::IndicationOfBreak(_)
            | Message::Error(_, _) => Reply::Nothing,
        }
    }

    fn set_and_read(&mut self, pairs: &Pairs) -> Reply
        ensures terminal { self.new ≡ (spec.after_set_and_read pairs.now.items
            (spec.after_message_pairs pairs.now.items self.old.settings) self.old).terminal }
        ensures reply { result ≡ (spec.after_set_and_read pairs.now.items
            (spec.after_message_pairs pairs.now.items self.old.settings) self.old).reply }
    {
        let report = self.set_pairs(pairs);
        if pairs.is_empty() {
            return Reply::Message(indication(&self.settings.read_all(&[])));
        }
        Reply::Message(indication(&report))
    }

    /// Sets the parameters of pairs, or all to their initial values.
    fn set_pairs(&mut self, pairs: &Pairs) -> Report
        ensures terminal { self.new ≡ record self.old {
          settings = (spec.after_message_pairs pairs.now.items self.old.settings).settings;
        } }
        ensures report { result.items ≡ (spec.after_message_pairs pairs.now.items self.old.settings).report }
    {
        if pairs.is_empty() {
            let initial = self.settings.initial;
            self.settings.put(initial);
            return Report::new();
        }
        self.settings.set_all(numbered(pairs).as_slice())
    }
}

/// The pairs with the numbers of their parameters.
fn numbered(pairs: &Pairs) -> Pairs
    ensures { result.items ≡ map spec.numbered pairs.now.items }
{
    let mut numbered = Pairs::new();
    for (reference, value) in pairs.as_slice() {
        numbered.push((*reference % REFERENCES, *value));
    }
    numbered
}

/// The numbers of the parameters of pairs.
fn numbers(pairs: &Pairs) -> ArrayVec<u8, PAIR_LIMIT>
    ensures { result.items ≡ spec.numbers_of pairs.now.items }
{
    let mut numbers = ArrayVec::new();
    for (reference, _) in pairs.as_slice() {
        numbers.push(*reference % REFERENCES);
    }
    numbers
}

/// An indication of refused parameters, if there are any.
fn refusals(refused: &Report) -> Reply
    ensures { result ≡ spec.refusals refused.now.items }
{
    if refused.is_empty() {
        Reply::Nothing
    } else {
        Reply::Message(indication(refused))
    }
}

/// An indication of the values and faults of a report.
fn indication(report: &Report) -> Message
    ensures { result ≡ spec.indication report.now.items }
{
    let mut pairs = Pairs::new();
    for setting in report.as_slice() {
        pairs.push(indicated(setting));
    }
    Message::ParameterIndication(pairs)
}

/// A value, or the number of a fault, with bit 8 of the reference.
fn indicated(setting: &Setting) -> (u8, u8)
    ensures { result ≡ spec.indicated setting.now }
{
    match setting.outcome {
        Ok(value) => (setting.number, value),
        Err(fault) => (setting.number | REFERENCES, fault_number(fault)),
    }
}

fn fault_number(fault: ParamFault) -> u8
    ensures { result ≡ spec.fault_number fault }
{
    match fault {
        ParamFault::NoSuchParameter => 1,
        ParamFault::BadValue => 2,
        ParamFault::ReadOnly => 3,
    }
}

fn error_type(fault: MessageFault) -> u8
    ensures { result ≡ spec.error_type fault }
{
    match fault {
        MessageFault::Empty => 0,
        MessageFault::UnknownCode => 1,
        MessageFault::OddLength => 2,
    }
}
