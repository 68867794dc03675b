//! How `balisefields` ends after a run.

ghost use Rattle.std.specs.Prelude.{◌≡◌};
ghost use Rattle.balise_fields_cli.specs.Exits.{exit_of};

use balise_fields_run::Status;
use balise_program::{Exit, RunFault, exit_after_run};

/// How the program ends after a run, by whether the output could be flushed: 0 and 1 as the run ended, 3 at a fault. Output
/// that couldn't be flushed is a fault of the writer.
pub(crate) fn exit_of(ended: Result<Status, RunFault>, flushed: bool) -> Exit
    ensures { result ≡ exit_of ended flushed }
{
    match ended {
        Ok(status) => exit_after_run(Ok(status.code()), flushed),
        Err(fault) => exit_after_run(Err(fault), flushed),
    }
}
