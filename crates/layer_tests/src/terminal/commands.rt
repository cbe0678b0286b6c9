//! Command lines as they are read, and service signals by their texts.
use arrayvec::ArrayVec;
use x28_commands::{
    Command, CommandFault, ParameterValue, Selection, Signal, read_command, write_signal,
};

/// What a line is read as.
#[derive(Clone, Copy)]
enum Wanted<'a> {
    Fault(CommandFault),
    Empty,
    /// A command that sets these parameters, each by its number and its value.
    Set(&'a [(u8, u8)]),
    /// A command that calls this address, with these user data.
    Select(&'a [u8], &'a [u8]),
}

const LINES: &[(&[u8], Wanted)] = &[
    (b"SETT", Wanted::Fault(CommandFault::Unknown)),
    (b"SET 300:1", Wanted::Fault(CommandFault::BadNumber)),
    (b"SET 2", Wanted::Fault(CommandFault::BadNumber)),
    (b"20X1", Wanted::Fault(CommandFault::BadAddress)),
    (b"2001D1234567890123", Wanted::Fault(CommandFault::TooLong)),
    (&[b' '; 65], Wanted::Fault(CommandFault::TooLong)),
    (b"", Wanted::Empty),
    (b"set 2:0,3:2", Wanted::Set(&[(2, 0), (3, 2)])),
    (b"2001Phi ", Wanted::Select(&[2, 0, 0, 1], b"hi ")),
];

fn lines() -> &'static [(&'static [u8], Wanted<'static>)] {
    LINES
}

#[test]
fn reads_lines(rt: HostRuntime) {
    for (line, wanted) in lines() {
        assert!(rt; is_read(line, *wanted), "{line:?}");
    }
}

/// Whether a line is read as this.
fn is_read(line: &[u8], wanted: Wanted<'_>) -> bool {
    match read_command(line) {
        Ok(command) => is_command(&command, wanted),
        Err(fault) => is_fault(fault, wanted),
    }
}

fn is_fault(fault: CommandFault, wanted: Wanted<'_>) -> bool {
    match wanted {
        Wanted::Fault(wanted) => fault == wanted,
        _ => false,
    }
}

fn is_command(command: &Command, wanted: Wanted<'_>) -> bool {
    match (command, wanted) {
        (Command::Empty, Wanted::Empty) => true,
        (Command::Set(pairs), Wanted::Set(wanted)) => pairs.as_slice() == wanted,
        (Command::Select(selection), Wanted::Select(address, user_data)) => {
            is_selection(selection, address, user_data)
        }
        _ => false,
    }
}

/// Whether a selection has this address and these user data.
fn is_selection(selection: &Selection, address: &[u8], user_data: &[u8]) -> bool {
    selection.address.digits() == address && selection.user_data.as_slice() == user_data
}

/// What a PAD tells.
#[derive(Clone, Copy)]
enum Told {
    Clear(u8),
    Reset(u8),
    Prompt,
    Acknowledgement,
    /// Parameter 2 has the value 1, and 25 was refused.
    Parameters,
}

const SIGNALS: &[(Told, &[u8])] = &[
    (Told::Clear(1), b"\r\nCLR OCC\r\n"),
    (Told::Clear(3), b"\r\nCLR INV\r\n"),
    (Told::Clear(5), b"\r\nCLR NC\r\n"),
    (Told::Clear(9), b"\r\nCLR DER\r\n"),
    (Told::Clear(11), b"\r\nCLR NA\r\n"),
    (Told::Clear(13), b"\r\nCLR NP\r\n"),
    (Told::Clear(17), b"\r\nCLR RPE\r\n"),
    (Told::Clear(19), b"\r\nCLR ERR\r\n"),
    (Told::Clear(2), b"\r\nCLR ERR\r\n"),
    (Told::Clear(0), b"\r\nCLR DTE\r\n"),
    (Told::Clear(128), b"\r\nCLR DTE\r\n"),
    (Told::Reset(0), b"\r\nRESET DTE\r\n"),
    (Told::Reset(3), b"\r\nRESET RPE\r\n"),
    (Told::Reset(5), b"\r\nRESET ERR\r\n"),
    (Told::Reset(7), b"\r\nRESET NC\r\n"),
    (Told::Prompt, b"\r\n*"),
    (Told::Acknowledgement, b"\r\n"),
    (Told::Parameters, b"\r\nPAR 2:1,25:INV\r\n"),
];

fn signals() -> &'static [(Told, &'static [u8])] {
    SIGNALS
}

#[test]
fn writes_signals(rt: HostRuntime) {
    for (told, text) in signals() {
        assert!(rt; is_written(*told, text), "{text:?}");
    }
}

fn signal_of(told: Told) -> Signal {
    match told {
        Told::Clear(cause) => Signal::ClearIndication(cause),
        Told::Reset(cause) => Signal::ResetIndication(cause),
        Told::Prompt => Signal::Prompt,
        Told::Acknowledgement => Signal::Acknowledgement,
        Told::Parameters => parameters(),
    }
}

fn parameters() -> Signal {
    let mut values = ArrayVec::new();
    values.push(ParameterValue {
        number: 2,
        value: Some(1),
    });
    values.push(ParameterValue {
        number: 25,
        value: None,
    });
    Signal::Parameters(values)
}

/// Whether this is the text of a signal.
fn is_written(told: Told, text: &[u8]) -> bool {
    let mut out = ArrayVec::<u8, 160>::new();
    write_signal(&signal_of(told), &mut out);
    out.as_slice() == text
}
