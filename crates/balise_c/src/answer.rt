//! The number that a call answers.

ghost use Rattle.std.specs.Prelude.{◌≡◌, pos};
ghost use Rattle.balise_c.specs.FieldsOutcome.{fields_number};
ghost use Rattle.balise_c.specs.Outcome.{fault_number, number_of};

use balise_cli::{RunFault, Status};
use balise_fields_run::Status as FieldsStatus;

/// The exit status of the editor, or the number of the fault.
pub(crate) fn number_of(ended: Result<Status, RunFault>) -> i32
    ensures { result ≡ pos (number_of ended) }
{
    match ended {
        Ok(status) => i32::from(status.code()),
        Err(fault) => fault_number(fault),
    }
}

/// The exit status of the program for fields, or the number of the fault.
pub(crate) fn fields_number(ended: Result<FieldsStatus, RunFault>) -> i32
    ensures { result ≡ pos (fields_number ended) }
{
    match ended {
        Ok(status) => i32::from(status.code()),
        Err(fault) => fault_number(fault),
    }
}

fn fault_number(fault: RunFault) -> i32
    ensures { result ≡ pos (fault_number fault) }
{
    match fault {
        RunFault::InputTooLong => 29,
        RunFault::OutOfMemory => 30,
        RunFault::ReadFault => 31,
        RunFault::WriteFault => 32,
    }
}
