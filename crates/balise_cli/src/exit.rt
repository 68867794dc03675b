//! How `baliseplan` and `balisefacts` end after a run over a plan.

ghost use Rattle.std.specs.Prelude.{◌≡◌};
ghost use Rattle.balise_cli.specs.Exits.{exit_of};

use crate::status::Status;
use balise_program::{Exit, RunFault, exit_after_run};

/// How the program ends after a run, by whether the output could be flushed: 0, 1 and 2 as the run ended, 3 at a fault.
/// Output that couldn't be flushed is a fault of the writer.
pub fn exit_of(ended: Result<Status, RunFault>, flushed: bool) -> Exit
    ensures { result ≡ exit_of ended flushed }
{
    match ended {
        Ok(status) => exit_after_run(Ok(status.code()), flushed),
        Err(fault) => exit_after_run(Err(fault), flushed),
    }
}
