//! What a terminal's commands do.
ghost use Rattle.std.specs.Prelude.{◌≡◌, ◌≤◌, length, Some, None, if◌then◌else◌};
ghost use Rattle.x28_commands.specs.Reading.{command_of};
ghost use Rattle.pad_terminal.specs.Commands as spec;
ghost use Rattle.pad_terminal.specs.Terminal.{has_call};

use crate::answers::{CallCondition, TerminalRequest};
use crate::mode::Mode;
use crate::settings::{Report, Setting, refused};
use crate::terminal::Terminal;
use arrayvec::ArrayVec;
use x3_params::Profile;
use x28_commands::{Command, ENTRY_LIMIT, ParameterValue, Selection, Signal, read_command};

/// What answers a command, and what it asks of the PAD.
#[derive(Drop)]
struct Outcome {
    answer: Option<Signal>,
    request: Option<TerminalRequest>,
}

impl Outcome {
    /// Answers by a signal alone.
    fn answered(signal: Signal) -> Outcome
        ensures { result ≡ record { answer = Some signal; request = None } }
    {
        Outcome {
            answer: Some(signal),
            request: None,
        }
    }

    /// Asks the PAD, and answers by a new line alone.
    fn acknowledged(request: TerminalRequest) -> Outcome
        ensures { result ≡ record { answer = Some Signal.Acknowledgement; request = Some request } }
    {
        Outcome {
            answer: Some(Signal::Acknowledgement),
            request: Some(request),
        }
    }

    /// Asks the PAD, without an answer.
    fn unanswered(request: Option<TerminalRequest>) -> Outcome
        ensures { result ≡ record { answer = None; request = request } }
    {
        Outcome {
            answer: None,
            request,
        }
    }
}

impl Terminal {
    /// Carries a line out (X.28 3.2): shows what answers it, and comes back to data transfer where a command within a
    /// call was done. What the PAD is asked is the result.
    #[tactic(auto, unfolding(crate::specs::Commands::after_line, crate::specs::Commands::request_of_line))]
    pub(crate) fn carry_out(&mut self, line: &[u8], call: CallCondition) -> Option<TerminalRequest>
        ensures terminal { self.new ≡ spec.after_line line.now call self.old }
        ensures request { result ≡ spec.request_of_line line.now call self.old }
    {
        let Outcome { answer, request } = self.obey_line(line, call);
        self.complete(answer);
        request
    }

    fn complete(&mut self, answer: Option<Signal>)
        ensures { self.new ≡ spec.completed answer self.old }
    {
        if matches!(self.mode, Mode::CommandState) && !matches!(answer, Some(Signal::Error)) {
            self.mode = Mode::DataTransfer;
        }
        if let Some(signal) = &answer {
            self.output.signal(signal, &self.settings.params);
        }
    }

    fn obey_line(&mut self, line: &[u8], call: CallCondition) -> Outcome
        ensures terminal { self.new ≡ (spec.effect_of_line (command_of line.now) call self.old).terminal }
        ensures outcome { result ≡ (spec.effect_of_line (command_of line.now) call self.old).outcome }
    {
        match read_command(line) {
            Ok(command) => self.obey_command(command, call),
            Err(_) => Outcome::answered(Signal::Error),
        }
    }

    fn obey_command(&mut self, command: Command, call: CallCondition) -> Outcome
        ensures terminal { self.new ≡ (spec.effect_of command call self.old).terminal }
        ensures outcome { result ≡ (spec.effect_of command call self.old).outcome }
    {
        match command {
            Command::Empty => Outcome::unanswered(None),
            Command::Status => Outcome::answered(self.status()),
            Command::Clear => self.clear_call(),
            Command::Interrupt => ask(self.may_interrupt(call), TerminalRequest::Interrupt),
            Command::Reset => ask(self.may_reset(call), TerminalRequest::Reset),
            Command::Profile(number) => self.take_profile(Profile::numbered(number)),
            Command::Read(numbers) => {
                Outcome::answered(parameters(&self.settings.read_all(numbers.as_slice())))
            }
            Command::Set(pairs) => {
                let report = self.settings.set_all(pairs.as_slice());
                Outcome::answered(acknowledged(&refused(&report)))
            }
            Command::SetAndRead(pairs) => {
                let report = self.settings.set_all(pairs.as_slice());
                Outcome::answered(parameters(&report))
            }
            Command::Select(selection) => self.select(selection),
        }
    }

    fn status(&self) -> Signal
        ensures { result ≡ (if has_call self.now.mode then Signal.Engaged else Signal.Free) }
    {
        if self.mode.has_call() {
            Signal::Engaged
        } else {
            Signal::Free
        }
    }

    fn clear_call(&mut self) -> Outcome
        ensures terminal { self.new ≡ (spec.after_clear self.old).terminal }
        ensures outcome { result ≡ (spec.after_clear self.old).outcome }
    {
        if !self.mode.has_call() {
            return Outcome::answered(Signal::Error);
        }
        self.end_call(&Signal::ClearConfirmation);
        Outcome::unanswered(Some(TerminalRequest::Clear))
    }

    fn may_reset(&self, call: CallCondition) -> bool
        ensures { result ≡ spec.may_reset call self.now }
    {
        self.mode.is_connected() && !call.reset_pending
    }

    fn may_interrupt(&self, call: CallCondition) -> bool
        ensures { result ≡ spec.may_interrupt call self.now }
    {
        self.mode.is_connected() && call.may_interrupt
    }

    fn take_profile(&mut self, profile: Option<Profile>) -> Outcome
        ensures terminal { self.new ≡ (spec.after_profile profile self.old).terminal }
        ensures outcome { result ≡ (spec.after_profile profile self.old).outcome }
    {
        let Some(profile) = profile else {
            return Outcome::answered(Signal::Error);
        };
        self.settings.set_profile(profile);
        Outcome::answered(Signal::Acknowledgement)
    }

    fn select(&mut self, selection: Selection) -> Outcome
        ensures terminal { self.new ≡ (spec.after_selection selection self.old).terminal }
        ensures outcome { result ≡ (spec.after_selection selection self.old).outcome }
    {
        if self.mode.has_call() {
            return Outcome::answered(Signal::Error);
        }
        self.mode = Mode::CallSetUp;
        Outcome::unanswered(Some(TerminalRequest::Call(selection)))
    }
}

/// A request, where it may be made.
fn ask(may: bool, request: TerminalRequest) -> Outcome
    ensures { result ≡ spec.asked may request }
{
    if may {
        Outcome::acknowledged(request)
    } else {
        Outcome::answered(Signal::Error)
    }
}

/// The values of a report, where there are any.
fn acknowledged(report: &Report) -> Signal
    requires { length report.now.items ≤ ENTRY_LIMIT }
    ensures { result ≡ spec.acknowledged report.now.items }
{
    if report.is_empty() {
        Signal::Acknowledgement
    } else {
        parameters(report)
    }
}

/// The values of a report.
fn parameters(report: &Report) -> Signal
    requires { length report.now.items ≤ ENTRY_LIMIT }
    ensures { result ≡ spec.parameters report.now.items }
{
    let mut values = ArrayVec::<ParameterValue, ENTRY_LIMIT>::new();
    for setting in report.as_slice() {
        values.push(parameter_value(setting));
    }
    Signal::Parameters(values)
}

fn parameter_value(setting: &Setting) -> ParameterValue
    ensures { result ≡ spec.parameter_value setting.now }
{
    ParameterValue {
        number: setting.number,
        value: setting.outcome.ok(),
    }
}
