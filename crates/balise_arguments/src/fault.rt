//! Why a program refuses the words of its command line.

ghost use Rattle.balise_arguments.specs.Faults.{IsFor};

use clap::Error;
use clap::error::ErrorKind;

/// Why a program refuses the words of its command line. Its `Display` is the text for the user, with a line feed at its
/// end.
#[derive(Debug, Drop, thiserror::Error)]
pub enum ArgsFault {
    /// Help was asked for. The text is for standard output, and nothing is wrong.
    #[error(transparent)]
    Help(Error),
    /// Out of memory.
    #[error("error: out of memory\n")]
    Memory,
    /// The arguments aren't the program's. The text is for standard error.
    #[error(transparent)]
    Other(Error),
}

impl ArgsFault {
    /// The fault that an error of clap is.
    pub fn of(error: Error) -> ArgsFault
        ensures { IsFor error result }
    {
        match error.kind() {
            ErrorKind::OutOfMemory => ArgsFault::Memory,
            ErrorKind::DisplayHelp => ArgsFault::Help(error),
            _ => ArgsFault::Other(error),
        }
    }
}
