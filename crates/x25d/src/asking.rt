//! Questions to a running service.
use crate::faults::Fault;
use std::io::{self, Write};
use std::net::{Shutdown, SocketAddr, TcpStream};
use std::time::Duration;

/// How long an answer may take, in seconds: more than a service takes to stop.
const MOST_SECONDS: u64 = 15;

/// What a service answers if it refuses.
pub(crate) const REFUSED: &str = "refused\n";

/// Asks a word of the service with this control port, and prints the answer.
pub(crate) fn ask(rt: &HostRuntime, control: SocketAddr, word: &str) -> Result<(), Fault> {
    let answer = answer(rt, control, word)?;
    Ok(rt.print(answer)?)
}

/// Asks the service to clear a port.
pub(crate) fn ask_to_clear(rt: &HostRuntime, control: SocketAddr, port: u16) -> Result<(), Fault> {
    let word = format!(in rt.alloc(); "clear {port}")?;
    let answer = answer(rt, control, word.as_str())?;
    if answer.as_str() == REFUSED {
        return Err(Fault::NoClient(port));
    }
    Ok(())
}

/// What the service with this control port answers.
fn answer(rt: &HostRuntime, control: SocketAddr, word: &str) -> Result<String, Fault> {
    match exchange(rt, control, word) {
        Ok(answer) => Ok(answer),
        Err(error) => Err(Fault::NoAnswer(control, error)),
    }
}

/// Writes a line, and reads what is answered until the connection is closed.
fn exchange(rt: &HostRuntime, control: SocketAddr, word: &str) -> io::Result<String> {
    let limit = Duration::from_secs(MOST_SECONDS);
    let mut stream = TcpStream::connect_timeout(rt, &control, limit)?;
    stream.set_read_timeout(Some(limit))?;
    writeln!(stream, "{word}")?;
    stream.shutdown(Shutdown::Write)?;
    io::read_to_string(rt.alloc(), stream)
}
