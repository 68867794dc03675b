//! How a program ends: its exit status, and the fault that it reports.

ghost use Rattle.std.specs.Prelude.{◌≡◌, None, Some};
ghost use Rattle.balise_program.specs.Exits.{exit_after_arguments, exit_after_run};

use balise_arguments::ArgsFault;
use balise_text::{Refusal, RunFault};

/// How a program ends: its exit status, and the fault, 29 to 32, that is reported on standard error.
#[derive(Clone, Copy, Debug, PartialEq, Eq)]
pub struct Exit {
    pub code: u8,
    pub fault: Option<Refusal>,
}

/// How it ends after a run, by whether the output could be flushed: with the run's own status, 3 at a fault. Output that
/// couldn't be flushed is a fault of the writer.
pub fn exit_after_run(ended: Result<u8, RunFault>, flushed: bool) -> Exit
    ensures { result ≡ exit_after_run ended flushed }
{
    match ended {
        Err(fault) => Exit {
            code: 3,
            fault: Some(fault.refusal()),
        },
        Ok(code) => {
            if flushed {
                return Exit { code, fault: None };
            }
            Exit {
                code: 3,
                fault: Some(Refusal::WriteFault),
            }
        }
    }
}

/// How it ends where the arguments ask for no run: 0 after help, 64 where they aren't the program's, and 3 where memory
/// runs out.
pub fn exit_after_arguments(fault: &ArgsFault) -> Exit
    ensures { result ≡ exit_after_arguments fault.now }
{
    match fault {
        ArgsFault::Help(_) => Exit {
            code: 0,
            fault: None,
        },
        ArgsFault::Memory => Exit {
            code: 3,
            fault: Some(Refusal::OutOfMemory),
        },
        ArgsFault::Other(_) => Exit {
            code: 64,
            fault: None,
        },
    }
}
