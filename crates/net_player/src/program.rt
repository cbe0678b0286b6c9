//! The program.
ghost use Rattle.std.specs.Prelude.{◌≡◌, ◌≢◌, ◌≤◌, ◌<◌, ◌⊎◌, [], Ok, true, false, OnOk, IfOk, IfErr};
ghost use Rattle.std.specs.Prelude.{MatchResult, IsUtf8, length, map, string_bytes};
ghost use Rattle.std.specs.IoError.{error_kind};
ghost use Rattle.std.specs.Io.Buffered.{writer_contents, writer_inner, writer_buffer};
ghost use Rattle.std.specs.Io.KnownBytes.{Appends, Keeps};
ghost use Rattle.octet_streams.specs.Written.{Writes, IsFrontOf};
ghost use Rattle.net_player.specs.Stopping.{IsPartOf};
ghost use Rattle.net_player.specs.Programs.{PlaysOn, PlayFails, IsFirst, IsLeftOf, IsOfFile, PlaysTexts, TextsFail};
ghost use Rattle.net_player.specs.Programs.{Performs, Fails, EndsIn, AskNothing, IsReadFault, fault_line, bad_words};
ghost use Rattle.net_player.specs.Programs.{making_fault, reading_fault, socket_fault};

use crate::output::write;
use crate::player::play;
use command_words::{Invocation, RunMode, WordsFault, read_words};
use frame_lines::{SocketFault, UdpLine};
use itoa::Buffer;
use line_sim::{Config, MakeFault, Net};
use net_files::{FIRST, ProgFault, Script, read_net, read_script};
use octet_streams::{ReadFault, read_all};
use std::alloc::Global;
use std::fs::{File, Files};
use std::io::{BufWriter, ErrorKind, Read, Write};
use std::net::UdpSocket;
use std::{io, net, str};

/// How many octets a network file or a script has at most.
const TEXT_OCTETS: u64 = 1_048_576;

/// The status of a run that went to its end, of one that a fault ended, and of one with bad words.
const DONE: u8 = 0;

const FAULT: u8 = 1;

const BAD_WORDS: u8 = 2;

/// The program on its command words, of which its own name is none. Without words it plays the script that the input
/// has on the built-in network; with `sim --net FILE --script FILE` that of a file on the network of another, over
/// lines in memory; with `run` and the same words over pairs of sockets.
///
/// Gives the status to end with: 0 at the end of the script, 1 if a fault ended the run, 2 if the words are others.
/// `err` is told of 1 and 2. Faults are looked for in this order: the words, the network file, its text, the script
/// file or the input, its lines, the sockets, the network's values, the writing.
///
/// With status 0 the writer behind the buffer `out` took all that was printed. With status 1 it was given all that was
/// printed.
pub fn perform<S: Files + net::Net, R: Read, W: Write + Drop, E: Write>(
    system: &S,
    alloc: Global,
    words: &[String],
    input: &mut R,
    out: &mut BufWriter<W>,
    err: &mut E,
) -> u8
    ensures status { result ≤ BAD_WORDS }
    ensures done { result ≡ DONE → Performs (map (λ word. string_bytes word) words.now) (R.remaining input.old)
        (writer_contents W.contents out.old) (W.contents (writer_inner out.new))
        × (E.contents err.new ≡ E.contents err.old) }
    ensures fault { result ≡ FAULT → (fault : ProgFault)
        × EndsIn (map (λ word. string_bytes word) words.now) (R.remaining input.old)
        (writer_contents W.contents out.old) (writer_contents W.contents out.new) fault
        × Writes (E.contents err.old) (E.contents err.new) (IsFrontOf (fault_line fault)) }
    ensures bad_words { result ≡ BAD_WORDS → AskNothing (map (λ word. string_bytes word) words.now)
        × (writer_contents W.contents out.new ≡ writer_contents W.contents out.old)
        × Writes (E.contents err.old) (E.contents err.new) (IsFrontOf bad_words) }
    ensures no_words { words.now ≡ [] → result ≢ BAD_WORDS }
{
    match run(system, alloc, words, input, out) {
        Ok(true) => end_output(out, err),
        Ok(false) => tell_bad_words(err),
        Err(fault) => {
            let _ = out.flush();
            tell_fault(fault, err)
        }
    }
}

/// Hands the writer behind a buffer what is left in it, after a run that went to its end. Gives the status to end with:
/// if the writer refuses that, the fault `Write` is told on `err`.
fn end_output<W: Write + Drop, E: Write>(out: &mut BufWriter<W>, err: &mut E) -> u8
    ensures status { result ≤ FAULT }
    ensures kept { Keeps (writer_contents W.contents out.old) (writer_contents W.contents out.new) }
    ensures done { result ≡ DONE → (writer_buffer out.new ≡ []) × (E.contents err.new ≡ E.contents err.old) }
    ensures refused { result ≡ FAULT
        → Writes (E.contents err.old) (E.contents err.new) (IsFrontOf (fault_line ProgFault.Write)) }
{
    match out.flush() {
        Ok(()) => DONE,
        Err(_) => tell_fault(ProgFault::Write, err),
    }
}

/// Plays what the words ask for; false where they ask for nothing that is there.
fn run<S: Files + net::Net, R: Read, W: Write>(
    system: &S,
    alloc: Global,
    words: &[String],
    input: &mut R,
    out: &mut W,
) -> Result<bool, ProgFault>
    ensures played { result ≡ Ok true → Performs (map (λ word. string_bytes word) words.now) (R.remaining input.old)
        (W.contents out.old) (W.contents out.new) }
    ensures failed { IfErr result (Fails (map (λ word. string_bytes word) words.now) (R.remaining input.old)
        (W.contents out.old) (W.contents out.new)) }
    ensures nothing { result ≡ Ok false → AskNothing (map (λ word. string_bytes word) words.now)
        × (W.contents out.new ≡ W.contents out.old) }
    ensures no_words { words.now ≡ [] → result ≢ Ok false }
{
    match read_words(alloc, words) {
        Ok(None) => {
            play_first(alloc, input, out)?;
            Ok(true)
        }
        Ok(Some(invocation)) => {
            play_files(system, alloc, &invocation, out)?;
            Ok(true)
        }
        Err(WordsFault::OutOfMemory) => Err(ProgFault::OutOfMemory),
        Err(WordsFault::BadWords) => Ok(false),
    }
}

/// What the program does if it cannot read its command words or has no room for its output: want of memory is a fault,
/// and all else is bad words; either is told on `err`.
pub fn refuse_words<E: Write>(error: &io::Error, err: &mut E) -> u8
    ensures memory { error_kind error.now ≡ ErrorKind.OutOfMemory → (result ≡ FAULT)
        × Writes (E.contents err.old) (E.contents err.new) (IsFrontOf (fault_line ProgFault.OutOfMemory)) }
    ensures others { error_kind error.now ≢ ErrorKind.OutOfMemory → (result ≡ BAD_WORDS)
        × Writes (E.contents err.old) (E.contents err.new) (IsFrontOf bad_words) }
{
    match error.kind() {
        ErrorKind::OutOfMemory => tell_fault(ProgFault::OutOfMemory, err),
        _ => tell_bad_words(err),
    }
}

fn tell_fault<E: Write>(fault: ProgFault, err: &mut E) -> u8
    ensures status { result ≡ FAULT }
    ensures told { Writes (E.contents err.old) (E.contents err.new) (IsFrontOf (fault_line fault)) }
{
    let _ = write_fault(fault, err);
    FAULT
}

fn tell_bad_words<E: Write>(err: &mut E) -> u8
    ensures status { result ≡ BAD_WORDS }
    ensures told { Writes (E.contents err.old) (E.contents err.new) (IsFrontOf bad_words) }
{
    let _ = write(err, "bad words\n");
    BAD_WORDS
}

/// Writes the line of a fault.
fn write_fault<E: Write>(fault: ProgFault, err: &mut E) -> Result<(), ProgFault>
    ensures writes { OnOk result (Appends (E.contents err.old) (E.contents err.new) (fault_line fault)) }
    ensures refused { IfErr result (λ refused. Writes (E.contents err.old) (E.contents err.new)
        (IsPartOf (fault_line fault) refused)) }
{
    match fault {
        ProgFault::NetText => write(err, "fault 1\n"),
        ProgFault::Script(line) => write_script_fault(line, err),
        ProgFault::BadConfig => write(err, "fault 3\n"),
        ProgFault::OutOfMemory => write(err, "fault 4\n"),
        ProgFault::Write => write(err, "fault 5\n"),
        ProgFault::Socket => write(err, "fault 6\n"),
        ProgFault::File => write(err, "fault 7\n"),
    }
}

/// Writes the line of a script's fault, with the number of the script's line.
fn write_script_fault<E: Write>(line: usize, err: &mut E) -> Result<(), ProgFault>
    ensures writes { OnOk result (Appends (E.contents err.old) (E.contents err.new)
        (fault_line (ProgFault.Script line))) }
    ensures refused { IfErr result (λ refused. Writes (E.contents err.old) (E.contents err.new)
        (IsPartOf (fault_line (ProgFault.Script line)) refused)) }
{
    let mut digits = Buffer::new();
    write(err, "fault 2 line ")?;
    write(err, digits.format(line))?;
    write(err, "\n")
}

/// Plays the script that the input has on the built-in network.
fn play_first<R: Read, W: Write>(alloc: Global, input: &mut R, out: &mut W) -> Result<(), ProgFault>
    ensures played { OnOk result (PlaysTexts RunMode.Sim IsFirst (IsLeftOf (R.remaining input.old))
        (W.contents out.old) (W.contents out.new)) }
    ensures failed { IfErr result (TextsFail RunMode.Sim IsFirst (IsLeftOf (R.remaining input.old))
        (W.contents out.old) (W.contents out.new)) }
{
    let config = read_net(alloc, FIRST)?;
    let text = read_text(alloc, input)?;
    let script = read_script(alloc, text.as_slice(), &config)?;
    play_in_memory(alloc, &config, &script, out)
}

/// Plays a script file on the network of a network file, over the lines that the words ask for.
fn play_files<S: Files + net::Net, W: Write>(
    system: &S,
    alloc: Global,
    invocation: &Invocation<'_>,
    out: &mut W,
) -> Result<(), ProgFault>
    ensures played { OnOk result (PlaysTexts invocation.now.mode IsOfFile IsOfFile
        (W.contents out.old) (W.contents out.new)) }
    ensures failed { IfErr result (TextsFail invocation.now.mode IsOfFile IsOfFile
        (W.contents out.old) (W.contents out.new)) }
{
    let text = read_file(system, alloc, invocation.net)?;
    let config = read_net(alloc, text_of(text.as_slice())?)?;
    let text = read_file(system, alloc, invocation.script)?;
    let script = read_script(alloc, text.as_slice(), &config)?;
    play_over(system, alloc, invocation.mode, &config, &script, out)
}

/// Plays a script on a network, over the lines of a mode.
fn play_over<N: net::Net, W: Write>(
    system: &N,
    alloc: Global,
    mode: RunMode,
    config: &Config,
    script: &Script,
    out: &mut W,
) -> Result<(), ProgFault>
    ensures played { OnOk result (PlaysOn mode config.now script.now
        (W.contents out.old) (W.contents out.new)) }
    ensures failed { IfErr result (PlayFails mode config.now script.now
        (W.contents out.old) (W.contents out.new)) }
{
    match mode {
        RunMode::Sim => play_in_memory(alloc, config, script, out),
        RunMode::Run => play_over_sockets(system, alloc, config, script, out),
    }
}

/// Plays a script on a network over memory lines.
fn play_in_memory<W: Write>(
    alloc: Global,
    config: &Config,
    script: &Script,
    out: &mut W,
) -> Result<(), ProgFault>
    ensures played { OnOk result (PlaysOn RunMode.Sim config.now script.now
        (W.contents out.old) (W.contents out.new)) }
    ensures failed { IfErr result (PlayFails RunMode.Sim config.now script.now
        (W.contents out.old) (W.contents out.new)) }
{
    match Net::on_memory_lines(alloc, config) {
        Ok(mut net) => play(alloc, &mut net, script, out),
        Err(fault) => Err(making_fault(fault)),
    }
}

/// Plays a script on a network over pairs of sockets.
fn play_over_sockets<N: net::Net, W: Write>(
    system: &N,
    alloc: Global,
    config: &Config,
    script: &Script,
    out: &mut W,
) -> Result<(), ProgFault>
    ensures played { OnOk result (PlaysOn RunMode.Run config.now script.now
        (W.contents out.old) (W.contents out.new)) }
    ensures failed { IfErr result (PlayFails RunMode.Run config.now script.now
        (W.contents out.old) (W.contents out.new)) }
{
    let lines = socket_lines(system, alloc, config.lines.len())?;
    match Net::new(alloc, config, lines) {
        Ok(mut net) => play(alloc, &mut net, script, out),
        Err(fault) => Err(making_fault(fault)),
    }
}

/// Why the network is not made.
fn making_fault(fault: MakeFault) -> ProgFault
    ensures { result ≡ making_fault fault }
{
    match fault {
        MakeFault::BadConfig => ProgFault::BadConfig,
        MakeFault::OutOfMemory => ProgFault::OutOfMemory,
    }
}

/// So many lines over pairs of sockets.
fn socket_lines<N: net::Net>(
    system: &N,
    alloc: Global,
    count: usize,
) -> Result<Vec<UdpLine<UdpSocket>>, ProgFault>
    ensures lines { IfOk result (λ lines. length lines.items ≡ count) }
    ensures faults { IfErr result (λ fault. (fault ≡ ProgFault.OutOfMemory)
        ⊎ ((fault ≡ ProgFault.Socket) × (0 < count))) }
{
    let mut lines = Vec::new(alloc);
    for _ in 0..count {
        match UdpLine::pair(system, alloc) {
            Ok(line) => lines.push(line)?,
            Err(fault) => return Err(socket_fault(fault)),
        }
    }
    Ok(lines)
}

/// Why a line over sockets is not made.
fn socket_fault(fault: SocketFault) -> ProgFault
    ensures value { result ≡ socket_fault fault }
    ensures kind { (result ≡ ProgFault.OutOfMemory) ⊎ (result ≡ ProgFault.Socket) }
{
    match fault {
        SocketFault::OutOfMemory => ProgFault::OutOfMemory,
        SocketFault::Socket => ProgFault::Socket,
    }
}

/// Octets that have to be text, as a network file's have.
fn text_of(octets: &[u8]) -> Result<&str, ProgFault>
    ensures { MatchResult result (λ text. text.now ≡ octets.entry.now)
        (λ fault. (fault ≡ ProgFault.NetText) × ¬ IsUtf8 octets.entry.now) }
{
    match str::from_utf8(octets) {
        Ok(text) => Ok(text),
        Err(_) => Err(ProgFault::NetText),
    }
}

/// Reads the file of this name, of at most 1,048,576 octets.
fn read_file<F: Files>(files: &F, alloc: Global, name: &str) -> Result<Vec<u8>, ProgFault>
    ensures size { IfOk result (λ text. IsOfFile text.items) }
    ensures faults { IfErr result IsReadFault }
{
    match File::open(files, name) {
        Ok(mut file) => read_text(alloc, &mut file),
        Err(error) => Err(reading_fault(ReadFault::from(error))),
    }
}

/// Reads the text that a reader has, of at most 1,048,576 octets.
fn read_text<R: Read>(alloc: Global, input: &mut R) -> Result<Vec<u8>, ProgFault>
    ensures left { IfOk result (λ text. IsLeftOf (R.remaining input.old) text.items) }
    ensures faults { IfErr result IsReadFault }
{
    match read_all(alloc, input, TEXT_OCTETS) {
        Ok(text) => Ok(text),
        Err(fault) => Err(reading_fault(fault)),
    }
}

/// Why nothing is read of a file or of the input.
fn reading_fault(fault: ReadFault) -> ProgFault
    ensures value { result ≡ reading_fault fault }
    ensures kind { IsReadFault result }
{
    match fault {
        ReadFault::OutOfMemory => ProgFault::OutOfMemory,
        ReadFault::TooLong | ReadFault::Failed => ProgFault::File,
    }
}
