//! What the command words ask for, and why they are refused.
use clap::Error as ClapError;
use clap::error::ErrorKind;
use std::alloc::AllocError;
use thiserror::Error;

/// Over which lines the script is played.
#[derive(Clone, Copy, PartialEq, Eq)]
pub enum RunMode {
    /// Over lines in memory: the word `sim`.
    Sim,
    /// Over pairs of UDP sockets: the word `run`.
    Run,
}

/// A run of the program on a network file and a script file.
#[derive(Clone, Copy)]
pub struct Invocation<'a> {
    pub mode: RunMode,
    /// The name of the network file.
    pub net: &'a str,
    /// The name of the script file.
    pub script: &'a str,
}

/// Why command words are refused.
#[derive(Clone, Copy, Debug, PartialEq, Eq, Error)]
pub enum WordsFault {
    /// The words are not those of the program.
    #[error("bad words")]
    BadWords,
    /// No memory was left.
    #[error("out of memory")]
    OutOfMemory,
}

impl From<AllocError> for WordsFault {
    ghost use Rattle.std.specs.Prelude.{◌≡◌};
    ghost use Rattle.command_words.specs.declared.invocation.WordsFault.TheVariants.{OutOfMemory};

    ghost from_gives = { λ _ fault. fault ≡ OutOfMemory };

    fn from(_: AllocError) -> Self {
        WordsFault::OutOfMemory
    }
}

impl From<ClapError> for WordsFault {
    ghost use Rattle.std.specs.Prelude.{◌≡◌, ◌≢◌};
    ghost use Rattle.clap.specs.Words.{kind_of};
    ghost use Rattle.clap.specs.declared.error.kind.ErrorKind.TheVariants.{OutOfMemory as NoMemory};
    ghost use Rattle.command_words.specs.declared.invocation.WordsFault.TheVariants.{BadWords, OutOfMemory};

    ghost from_gives = { λ error fault. (fault ≡ BadWords → kind_of error ≢ NoMemory)
        × (fault ≡ OutOfMemory → kind_of error ≡ NoMemory) };

    fn from(error: ClapError) -> Self {
        match error.kind() {
            ErrorKind::OutOfMemory => WordsFault::OutOfMemory,
            _ => WordsFault::BadWords,
        }
    }
}
