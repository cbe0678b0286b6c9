//! Makes a capture that Wireshark opens of what a run has printed with its frames traced: from standard input to
//! standard output.
#![tactic(auto)]

use std::io;
use std::process::ExitCode;
use trace_capture::convert;

fn main(rt: HostRuntime) -> ExitCode {
    let mut out = io::writer(&rt);
    let mut err = rt.stderr();
    ExitCode::from(convert(rt.alloc(), &mut rt.reader(), &mut out, &mut err))
}
