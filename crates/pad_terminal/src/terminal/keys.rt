//! What a terminal does with keys and idle times.
ghost use Rattle.std.specs.Prelude.{◌≡◌, None};
ghost use Rattle.std.specs.Bool.{OnTrue, OnFalse};
ghost use Rattle.pad_terminal.specs.Keys as spec;
ghost use Rattle.pad_terminal.specs.CommandLine as line;
ghost use Rattle.pad_terminal.specs.Calls.{prompted};
ghost use Rattle.pad_editing.specs.Edited.{after_key};
ghost use Rattle.pad_terminal.specs.declared.answers.CallCondition.{CallCondition};
ghost use Rattle.pad_terminal.specs.declared.answers.InputAnswer.TheVariants.{Edited};

use crate::answers::{CallCondition, InputAnswer};
use crate::command_line::CommandLine;
use crate::mode::Mode;
use crate::terminal::{DEVICE_CONTROL_ONE, DEVICE_CONTROL_THREE, Terminal};
use x3_params::Params;

impl Terminal {
    /// Takes a key.
    ///
    /// In data transfer DC1 and DC3 let output go on and stop it, if parameter 12 is 1; the character of parameter 1
    /// recalls the PAD; any other key goes to the editor. `Dropped` comes if the key would end a block and the send
    /// queue is full: then it changes nothing, but that the terminal is told once by DC3 to stop, if parameter 5 is 1
    /// (X.3 3.1, 3.5, 3.12). Of an absent terminal each key is dropped. In all other modes a key goes to the command
    /// line, and no key is dropped; the line that it ends is carried out (X.28 3.2).
    pub fn on_key(&mut self, octet: u8, call: CallCondition) -> InputAnswer
        ensures terminal { self.new ≡ (spec.after_octet octet call self.old).terminal }
        ensures answer { result ≡ (spec.after_octet octet call self.old).answer }
    {
        if self.mode.is_data_transfer() {
            self.data_key(octet, call.queue_full)
        } else if self.mode.is_present() {
            self.command_key(octet, call)
        } else {
            InputAnswer::Dropped
        }
    }

    /// Takes the end of the idle time (X.3 3.4).
    ///
    /// If the timer runs, the held text is a block. `Dropped` comes if the timer runs and the send queue is full.
    pub fn on_idle(&mut self, queue_full: bool) -> InputAnswer
        ensures terminal { self.new ≡ (spec.after_idle_time queue_full self.old).terminal }
        ensures answer { result ≡ (spec.after_idle_time queue_full self.old).answer }
    {
        if !self.runs_idle_timer() {
            return InputAnswer::Taken(None);
        }
        if queue_full {
            return InputAnswer::Dropped;
        }
        InputAnswer::Edited(self.editor.idle(&self.settings.params))
    }

    /// Takes a key as `on_key` does, if it is only added to the text that is held, whatever the condition of the call
    /// (X.3 3.3). Answers whether it was such a key; any other changes nothing.
    pub fn add_key(&mut self, octet: u8) -> bool
        ensures exact { result ≡ spec.only_adds_key octet self.old }
        ensures added { OnTrue result ((call : CallCondition) → spec.after_octet octet call self.old
            ≡ record { terminal = self.new; answer = Edited None }) }
        ensures other { OnFalse result (self.new ≡ self.old) }
    {
        if !self.mode.is_data_transfer()
            || is_flow_control(&self.settings.params, octet)
            || is_recall(self.settings.params.recall_character(), octet)
            || !self.editor.add(octet, &self.settings.params)
        {
            return false;
        }
        self.output.echo_added(octet, &self.settings.params);
        true
    }

    /// A key of the command line.
    fn command_key(&mut self, octet: u8, call: CallCondition) -> InputAnswer
        ensures terminal { self.new ≡ (spec.after_command_key octet call self.old).terminal }
        ensures answer { result ≡ (spec.after_command_key octet call self.old).answer }
    {
        match self.type_command(octet) {
            Some(line) => InputAnswer::Taken(self.carry_out(line.as_slice(), call)),
            None => InputAnswer::Taken(None),
        }
    }

    /// Takes a key to the command line and echoes it. The line that it ends, if it ends one, is the result.
    fn type_command(&mut self, octet: u8) -> Option<CommandLine>
        ensures terminal { self.new ≡ spec.with_line (line.after_key self.old.settings.params octet self.old.line)
            (line.is_echoed self.old.settings.params self.old.line) self.old }
        ensures ended { result ≡ (line.after_key self.old.settings.params octet self.old.line).ended }
    {
        let echoed = self.line.is_echoed(&self.settings.params);
        let key = self.line.key(octet, &self.settings.params);
        if echoed {
            self.output.echo(key.echo.as_slice(), &self.settings.params);
        }
        key.ended
    }

    /// A key of data transfer.
    fn data_key(&mut self, octet: u8, queue_full: bool) -> InputAnswer
        ensures terminal { self.new ≡ (spec.after_data_key octet queue_full self.old).terminal }
        ensures answer { result ≡ (spec.after_data_key octet queue_full self.old).answer }
    {
        if is_flow_control(&self.settings.params, octet) {
            self.settings.output_stopped = octet == DEVICE_CONTROL_THREE;
            return InputAnswer::Taken(None);
        }
        if is_recall(self.settings.params.recall_character(), octet) {
            self.recall();
            return InputAnswer::Taken(None);
        }
        self.edit(octet, queue_full)
    }

    /// Comes to the command state.
    pub(crate) fn recall(&mut self)
        ensures { self.new ≡ prompted Mode.CommandState self.old }
    {
        self.mode = Mode::CommandState;
        self.output.prompt(&self.settings.params);
    }

    /// A key that is edited.
    fn edit(&mut self, octet: u8, queue_full: bool) -> InputAnswer
        ensures terminal { self.new ≡ (spec.after_edited
            (after_key self.old.settings.params octet self.old.held) octet queue_full self.old).terminal }
        ensures answer { result ≡ (spec.after_edited
            (after_key self.old.settings.params octet self.old.held) octet queue_full self.old).answer }
    {
        if queue_full && self.editor.forwards(octet, &self.settings.params) {
            self.stop_device();
            return InputAnswer::Dropped;
        }
        let key = self.editor.key(octet, &self.settings.params);
        self.output.echo(key.echo.as_slice(), &self.settings.params);
        InputAnswer::Edited(key.block)
    }

    /// Tells the terminal once to stop.
    fn stop_device(&mut self)
        ensures { self.new ≡ spec.told_to_stop self.old }
    {
        if self.settings.params.has_device_control() && !self.device_stopped {
            self.output.text.push_back(DEVICE_CONTROL_THREE);
            self.device_stopped = true;
        }
    }
}

/// Whether a key stops the output of the terminal or lets it go on.
fn is_flow_control(params: &Params, octet: u8) -> bool
    ensures { result ≡ spec.is_flow_control params.now octet }
{
    params.has_flow_control() && (octet == DEVICE_CONTROL_ONE || octet == DEVICE_CONTROL_THREE)
}

/// Whether a key is the character that recalls the PAD, if there is one.
fn is_recall(character: Option<u8>, octet: u8) -> bool
    ensures { result ≡ spec.is_recall character octet }
{
    match character {
        Some(character) => octet == character,
        None => false,
    }
}
