//! The terminal.
ghost use Rattle.std.specs.Prelude.{◌≡◌, ◌≤◌, ◌+◌, ◌*◌, ◌==◌, ◌++◌, length, not, false, IfOk};
ghost use Rattle.arrayvec.specs.ArrayVec.{array_vec_len};
ghost use Rattle.pad_terminal.specs.Output as output;
ghost use Rattle.pad_terminal.specs.Terminal as spec;
ghost use Rattle.pad_terminal.specs.Calls as calls;

mod breaks;
mod commands;
mod keys;
mod messages;

use crate::command_line::CommandLine;
use crate::mode::Mode;
use crate::output::{Output, TEXT_LIMIT};
use crate::settings::Settings;
use arrayvec::ArrayVec;
use pad_editing::{Display, Editor, OCTET_LIMIT};
use std::alloc::{AllocError, Global};
use std::marker::Model;
use x3_params::Params;
use x28_commands::Signal;

const DEVICE_CONTROL_ONE: u8 = 0x11;

const DEVICE_CONTROL_THREE: u8 = 0x13;

/// A terminal of a PAD.
///
/// The PAD hands it what happens at the terminal (`on_key`, `on_break`, `on_idle`), what the far end says (`display`,
/// `on_message`) and what becomes of its call (`on_connected`, `on_cleared`, `on_reset`), does what it asks for in
/// answer, and ends each event by `resume_device`. What the terminal is to show waits until `print`.
#[derive(Drop)]
pub struct Terminal {
    mode: Mode,
    settings: Settings,
    line: CommandLine,
    editor: Editor,
    output: Output,
    device_stopped: bool,
}

impl Model for Terminal {
    ghost use Rattle.pad_terminal.specs.Terminal.{TerminalState};

    ghost Value = { TerminalState };

    ghost use Rattle.pad_terminal.specs.TerminalView.{terminal_of};

    ghost view = { terminal_of };
}

impl Terminal {
    /// A terminal with these initial parameters, in data transfer on a standing call, or without a call. It takes all
    /// the memory that it ever uses. `AllocError` comes for want of memory.
    pub fn new(alloc: Global, params: Params, standing: bool) -> Result<Terminal, AllocError>
        ensures { IfOk result (λ terminal. terminal ≡ spec.made params standing) }
    {
        let output = Output::new(alloc)?;
        Ok(Terminal {
            mode: if standing {
                Mode::DataTransfer
            } else {
                Mode::Free
            },
            settings: Settings::new(params),
            line: CommandLine::new(),
            editor: Editor::new(),
            output,
            device_stopped: false,
        })
    }

    /// Restarts with the PAD: without a call, and with the initial parameters.
    pub fn restart(&mut self)
        ensures { self.new ≡ spec.made self.old.settings.initial false }
    {
        self.mode = Mode::Free;
        self.settings = Settings::new(self.settings.initial);
        self.line = CommandLine::new();
        self.leave_call();
        self.output.clear();
        self.device_stopped = false;
    }

    /// The terminal leaves (X.28 3.1): it restarts, and is absent.
    pub fn leave(&mut self)
        ensures { self.new ≡ spec.left self.old.settings.initial }
    {
        self.restart();
        self.mode = Mode::Absent;
    }

    /// The terminal arrives (X.28 3.1). If it is absent, it is then without a call. If it is present, nothing happens.
    pub fn arrive(&mut self)
        ensures { self.new ≡ spec.arrived self.old }
    {
        if !self.mode.is_present() {
            self.mode = Mode::Free;
        }
    }

    // ---- questions

    /// Whether the terminal is present, whether there is a call, and where its keys go.
    pub fn mode(&self) -> Mode
        ensures { result ≡ self.now.mode }
    {
        self.mode
    }

    /// The parameters in force.
    pub fn params(&self) -> Params
        ensures { result ≡ self.now.settings.params }
    {
        self.settings.params
    }

    /// Whether a packet of the call may be shown: the call is in data transfer, and its output is not stopped by DC3
    /// (X.3 3.12).
    pub fn may_show(&self) -> bool
        ensures { result ≡ spec.may_show self.now }
    {
        self.mode.is_data_transfer() && !self.settings.output_stopped
    }

    /// The time of the idle timer, in ticks of a twentieth of a second, if that timer runs (X.3 3.4).
    pub fn idle_time(&self) -> Option<u8>
        ensures { result ≡ spec.idle_time self.now }
    {
        if self.runs_idle_timer() {
            Some(self.settings.params.idle_time())
        } else {
            None
        }
    }

    fn runs_idle_timer(&self) -> bool
        ensures { result ≡ spec.runs_idle_timer self.now }
    {
        self.mode.is_data_transfer()
            && self.settings.params.idle_time() > 0
            && !self.settings.params.has_editing()
            && !self.editor.held().is_empty()
    }

    // ---- the call

    /// Learns that its call is connected, or that a call that came in is its own: it is then in data transfer. A
    /// half-typed command is dropped (X.28 3.5).
    pub fn on_connected(&mut self)
        ensures { self.new ≡ calls.connected self.old }
    {
        self.mode = Mode::DataTransfer;
        self.line = CommandLine::new();
        self.output
            .signal(&Signal::Connected, &self.settings.params);
    }

    /// Learns that its call was cleared, with this cause, or could not be placed. Held text is dropped. The prompt is
    /// shown if the call was in data transfer (X.28 3.5).
    pub fn on_cleared(&mut self, cause: u8)
        ensures { self.new ≡ calls.cleared cause self.old }
    {
        self.end_call(&Signal::ClearIndication(cause));
    }

    /// Learns that its call was reset, with this cause. Held text stays (X.28 3.5).
    pub fn on_reset(&mut self, cause: u8)
        ensures { self.new ≡ calls.reset cause self.old }
    {
        self.output
            .signal(&Signal::ResetIndication(cause), &self.settings.params);
    }

    /// Without the call no text is held, and no output is stopped.
    fn leave_call(&mut self)
        ensures { self.new ≡ calls.without_call self.old }
    {
        self.settings.output_stopped = false;
        self.editor.discard();
    }

    /// Leaves the call, and shows why.
    fn end_call(&mut self, signal: &Signal)
        ensures { self.new ≡ calls.ended signal.now self.old }
    {
        self.leave_call();
        self.output.signal(signal, &self.settings.params);
        if self.mode.is_data_transfer() {
            self.output.prompt(&self.settings.params);
        }
        self.mode = Mode::Free;
    }

    /// Whether DC3 stopped the output and it may not yet go on (X.3 3.5).
    pub fn is_stopped(&self) -> bool
        ensures { result ≡ self.now.device_stopped }
    {
        self.device_stopped
    }

    /// Ends an event: a terminal that was told to stop by DC3 is told by DC1 to go on, if the send queue has room or
    /// there is no call (X.3 3.5).
    pub fn resume_device(&mut self, queue_full: bool)
        ensures { self.new ≡ calls.resumed queue_full self.old }
    {
        if self.device_stopped && (!self.mode.has_call() || !queue_full) {
            self.output.text.push_back(DEVICE_CONTROL_ONE);
            self.device_stopped = false;
        }
    }

    // ---- what is shown

    /// Whether text waits to be shown.
    pub fn has_text(&self) -> bool
        ensures { result ≡ not (length self.now.output.text == 0) }
    {
        !self.output.text.is_empty()
    }

    /// Takes the text that waits to be shown, at most 1,024 octets, and adds it to `out`.
    pub fn print<const N: usize>(&mut self, out: &mut ArrayVec<u8, N>)
        requires { array_vec_len out.old + TEXT_LIMIT ≤ N }
        ensures terminal { self.new ≡ calls.without_text self.old }
        ensures text { out.new.items ≡ out.old.items ++ self.old.output.text }
        ensures room { array_vec_len out.new ≤ array_vec_len out.old + TEXT_LIMIT }
    {
        let (first, second) = self.output.text.as_slices();
        let _ = out.try_extend_from_slice(first);
        let _ = out.try_extend_from_slice(second);
        self.output.text.clear();
    }

    /// Shows user octets of the far end: adds them to `out` as they are laid out for the terminal, or nothing if output
    /// is discarded (X.3 3.8).
    pub fn display<const N: usize>(&mut self, octets: &[u8], out: &mut ArrayVec<u8, N>)
        requires { array_vec_len out.old + OCTET_LIMIT * length octets.now ≤ N }
        ensures terminal { self.new ≡ calls.displayed octets.now self.old }
        ensures text { out.new.items ≡ out.old.items
            ++ (output.laid_out octets.now self.old.settings.params self.old.output.column).text }
        ensures room { array_vec_len out.new ≤ array_vec_len out.old + OCTET_LIMIT * length octets.now }
    {
        let params = &self.settings.params;
        if !params.discards_output() {
            self.output.column = Display::text(octets, false, params, self.output.column, out);
        }
    }
}
