//! Writing service signals.

ghost use Rattle.std.specs.Prelude.{◌≡◌, ◌+◌, ◌*◌, ◌≤◌, ◌++◌, [], length};
ghost use Rattle.std.specs.List.{flat_map};
ghost use Rattle.arrayvec.specs.ArrayVec.{array_vec_len};
ghost use Rattle.x28_commands.specs.Signals as spec;

use crate::signal::{ParameterValue, Signal};
use arrayvec::ArrayVec;

/// Room for any service signal. It has at most 157 octets: two new lines have 4, the word at most 9, and each of 18
/// parameters at most 8 with its comma.
pub const SIGNAL_LIMIT: usize = 160;

/// Writes a service signal as the terminal gets it, between two new lines; the prompt has one before it, and an
/// acknowledgement is one (X.28 3.5).
#[tactic(auto, unfolding(crate::specs::Signals::signal_text))]
pub fn write_signal<const N: usize>(signal: &Signal, out: &mut ArrayVec<u8, N>)
    requires { array_vec_len out.old + SIGNAL_LIMIT ≤ N }
    ensures text { out.new.items ≡ out.old.items ++ spec.signal_text signal.now }
    ensures room { array_vec_len out.new ≤ array_vec_len out.old + SIGNAL_LIMIT }
{
    match signal {
        Signal::Acknowledgement => append(b"\r\n", out),
        Signal::Prompt => append(b"\r\n*", out),
        _ => {
            append(b"\r\n", out);
            append(word(signal), out);
            write_parameters(parameters(signal), out);
            append(b"\r\n", out);
        }
    }
}

/// The words of a signal.
fn word(signal: &Signal) -> &'static [u8]
    ensures text { result.now ≡ spec.word signal.now }
    ensures short { length result.now ≤ 9 }
{
    match signal {
        Signal::Connected => b"COM",
        Signal::ClearIndication(cause) => clear_text(*cause),
        Signal::InvitedToClear => b"CLR PAD",
        Signal::ClearConfirmation => b"CLR CONF",
        Signal::ResetIndication(cause) => reset_text(*cause),
        Signal::Free => b"FREE",
        Signal::Engaged => b"ENGAGED",
        Signal::Error => b"ERR",
        Signal::Parameters(_) => b"PAR ",
        Signal::Acknowledgement | Signal::Prompt => b"",
    }
}

fn clear_text(cause: u8) -> &'static [u8]
    ensures text { result.now ≡ spec.clear_text cause }
    ensures short { length result.now ≤ 9 }
{
    match cause {
        1 => b"CLR OCC",
        3 => b"CLR INV",
        5 => b"CLR NC",
        9 => b"CLR DER",
        11 => b"CLR NA",
        13 => b"CLR NP",
        17 => b"CLR RPE",
        0 | 128.. => b"CLR DTE",
        _ => b"CLR ERR",
    }
}

fn reset_text(cause: u8) -> &'static [u8]
    ensures text { result.now ≡ spec.reset_text cause }
    ensures short { length result.now ≤ 9 }
{
    match cause {
        0 => b"RESET DTE",
        3 => b"RESET RPE",
        7 => b"RESET NC",
        _ => b"RESET ERR",
    }
}

/// The parameters that a signal tells.
fn parameters(signal: &Signal) -> &[ParameterValue]
    ensures list { result.now ≡ spec.parameters signal.now }
    ensures few { length result.now ≤ 18 }
{
    match signal {
        Signal::Parameters(values) => values.as_slice(),
        _ => &[],
    }
}

/// Writes parameters with commas between them.
fn write_parameters<const N: usize>(parameters: &[ParameterValue], out: &mut ArrayVec<u8, N>)
    requires { array_vec_len out.old + 8 * length parameters.now ≤ N }
    ensures text { out.new.items ≡ out.old.items ++ spec.parameters_text parameters.now }
    ensures room { array_vec_len out.new ≤ array_vec_len out.old + 8 * length parameters.now }
{
    let [first, rest @ ..] = parameters else {
        return;
    };
    write_parameter(first, out);
    write_rest(rest, out);
}

fn write_rest<const N: usize>(parameters: &[ParameterValue], out: &mut ArrayVec<u8, N>)
    requires { array_vec_len out.old + 8 * length parameters.now ≤ N }
    ensures text { out.new.items ≡ out.old.items ++ flat_map spec.next_text parameters.now }
    ensures room { array_vec_len out.new ≤ array_vec_len out.old + 8 * length parameters.now }
{
    for parameter in parameters {
        out.push(b',');
        write_parameter(parameter, out);
    }
}

/// Writes a number, a colon and the value.
#[tactic(auto, unfolding(crate::specs::Signals::parameter_text))]
fn write_parameter<const N: usize>(parameter: &ParameterValue, out: &mut ArrayVec<u8, N>)
    requires { array_vec_len out.old + 7 ≤ N }
    ensures text { out.new.items ≡ out.old.items ++ spec.parameter_text parameter.now }
    ensures room { array_vec_len out.new ≤ array_vec_len out.old + 7 }
{
    write_number(parameter.number, out);
    out.push(b':');
    match parameter.value {
        Some(value) => write_number(value, out),
        None => append(b"INV", out),
    }
}

/// Writes a number without leading zeros.
#[tactic(auto, unfolding(crate::specs::Signals::numeral))]
fn write_number<const N: usize>(number: u8, out: &mut ArrayVec<u8, N>)
    requires { array_vec_len out.old + 3 ≤ N }
    ensures text { out.new.items ≡ out.old.items ++ spec.numeral number }
    ensures room { array_vec_len out.new ≤ array_vec_len out.old + 3 }
{
    let (hundreds, tens, ones) = (
        b'0' + number / 100,
        b'0' + number / 10 % 10,
        b'0' + number % 10,
    );
    if number < 10 {
        append(&[ones], out);
    } else if number < 100 {
        append(&[tens, ones], out);
    } else {
        append(&[hundreds, tens, ones], out);
    }
}

fn append<const N: usize>(octets: &[u8], out: &mut ArrayVec<u8, N>)
    requires { array_vec_len out.old + length octets.now ≤ N }
    ensures text { out.new.items ≡ out.old.items ++ octets.now }
    ensures room { array_vec_len out.new ≡ array_vec_len out.old + length octets.now }
{
    let _ = out.try_extend_from_slice(octets);
}
