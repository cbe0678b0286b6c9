//! What waits to be shown at a terminal.
ghost use Rattle.std.specs.Prelude.{◌≡◌, ◌≤◌, ◌+◌, ◌*◌, ◌==◌, ◌∷◌, [], ◌++◌, length, not, true, IfOk};
ghost use Rattle.arrayvec.specs.ArrayVec.{array_vec_len};
ghost use Rattle.circular_buffer.specs.Buffer.{buffer, keep_last};
ghost use Rattle.pad_editing.specs.Echoes.{echo_of_added};
ghost use Rattle.pad_editing.specs.Shown.{shown};
ghost use Rattle.x28_commands.specs.Signals.{signal_text};

use arrayvec::ArrayVec;
use circular_buffer::HeapCircularBuffer;
use pad_editing::{Display, OCTET_LIMIT};
use std::alloc::{AllocError, Global};
use std::marker::Model;
use x3_params::Params;
use x28_commands::{SIGNAL_LIMIT, Signal, write_signal};

/// How many octets of text may wait to be shown at a terminal.
pub const TEXT_LIMIT: usize = 1024;

/// The text that waits to be shown at a terminal, of which the oldest octets give way, and the column that the terminal
/// is at after it.
#[derive(Drop)]
pub(crate) struct Output {
    pub(crate) text: HeapCircularBuffer<u8>,
    pub(crate) column: u16,
}

impl Model for Output {
    ghost use Rattle.pad_terminal.specs.Output as output;

    ghost Value = { output.Output };

    ghost use Rattle.pad_terminal.specs.OutputView.{output_of, IsOutput};

    ghost view = { output_of };

    ghost invariant = { IsOutput };
}

impl Output {
    ghost use Rattle.pad_terminal.specs.Output.{no_output, with_octets, with_echo, with_signal, with_prompt, laid_out};

    /// No text, at column 0.
    pub(crate) fn new(alloc: Global) -> Result<Output, AllocError>
        ensures { IfOk result (λ output. output ≡ no_output) }
    {
        let text = HeapCircularBuffer::with_capacity(alloc, TEXT_LIMIT)?;
        Ok(Output { text, column: 0 })
    }

    /// Drops the text that waits, and begins at column 0.
    pub(crate) fn clear(&mut self)
        ensures { self.new ≡ no_output }
    {
        self.text.clear();
        self.column = 0;
    }

    /// Adds what is echoed, laid out for the terminal.
    pub(crate) fn echo(&mut self, octets: &[u8], params: &Params)
        ensures { self.new ≡ with_echo octets.now params.now self.old }
    {
        for octet in octets {
            self.column = echo_octet(*octet, params, self.column, &mut self.text);
        }
    }

    /// Adds the echo of a key that is only added to the text, where echo is on (X.3 3.2).
    pub(crate) fn echo_added(&mut self, octet: u8, params: &Params)
        ensures { self.new ≡ with_echo (echo_of_added params.now octet) params.now self.old }
    {
        let column = self.column;
        if params.has_echo() {
            self.column = echo_octet(octet, params, column, &mut self.text);
        }
    }

    /// Adds a service signal, where signals are shown (X.3 3.6, X.28 3.5).
    pub(crate) fn signal(&mut self, signal: &Signal, params: &Params)
        ensures { self.new ≡ with_signal signal.now params.now self.old }
    {
        if params.has_signals() {
            self.write_signal(signal);
            self.column = 0;
        }
    }

    /// Adds the prompt, where it is shown (X.3 3.6, X.28 3.2.1.5).
    pub(crate) fn prompt(&mut self, params: &Params)
        ensures { self.new ≡ with_prompt params.now self.old }
    {
        if params.has_prompt() {
            self.write_signal(&Signal::Prompt);
            self.column = 1;
        }
    }

    fn write_signal(&mut self, signal: &Signal)
        ensures { self.new ≡ with_octets (signal_text signal.now) self.old }
    {
        let mut text = ArrayVec::<u8, SIGNAL_LIMIT>::new();
        write_signal(signal, &mut text);
        self.text.extend_from_slice(text.as_slice());
    }
}

/// Adds one octet that is echoed, laid out for a terminal that is at a column, to the text that waits, and gives the
/// column that it is then at.
#[inline(always)]
fn echo_octet(octet: u8, params: &Params, column: u16, waiting: &mut HeapCircularBuffer<u8>) -> u16
    ensures text { waiting.new ≡ buffer (keep_last waiting.old.capacity
        (waiting.old.items ++ (shown (octet ∷ []) true params.now column).text)) waiting.old.capacity }
    ensures column { result ≡ (shown (octet ∷ []) true params.now column).column }
{
    if Display::is_plain(octet, params, column) {
        waiting.push_back(octet);
        return column.saturating_add(1);
    }
    echo_laid_out(octet, params, column, waiting)
}

/// Adds one octet that is echoed, as [`echo_octet`] does, if it may take more than its own place.
#[inline(never)]
fn echo_laid_out(
    octet: u8,
    params: &Params,
    column: u16,
    waiting: &mut HeapCircularBuffer<u8>,
) -> u16
    ensures text { waiting.new ≡ buffer (keep_last waiting.old.capacity
        (waiting.old.items ++ (shown (octet ∷ []) true params.now column).text)) waiting.old.capacity }
    ensures column { result ≡ (shown (octet ∷ []) true params.now column).column }
{
    let mut laid_out = ArrayVec::<u8, OCTET_LIMIT>::new();
    let next = Display::text(&[octet], true, params, column, &mut laid_out);
    waiting.extend_from_slice(laid_out.as_slice());
    next
}
