//! The next line of a run.

ghost use Rattle.std.specs.Prelude.{◌≡◌, IfErr, IfOk, OnOk};
ghost use Rattle.balise_lines.specs.Reading.{OverAtEnd, Took};
ghost use Rattle.balise_fields_run.specs.Steps.{NoneAhead};

use balise_lines::{Counted, LineFault, Lines, Next};
use balise_text::RunFault;
use std::io::Read;

/// Reads the next line.
pub(crate) fn next<R: Read>(lines: &mut Lines, reader: &mut Counted<R>) -> Result<Next, RunFault>
    requires over { OverAtEnd lines.old (R.remaining reader.old.inner) }
    ensures over { OverAtEnd lines.new (R.remaining reader.new.inner) }
    ensures took { IfOk result (λ next. Took next lines.old (R.remaining reader.old.inner) lines.new (R.remaining reader.new.inner)) }
    ensures unfailed { OnOk result (reader.new.failed ≡ reader.old.failed) }
    ensures fault { IfErr result (NoneAhead R.remaining lines.old lines.new reader.old reader.new) }
{
    match lines.next(reader) {
        Ok(next) => Ok(next),
        Err(LineFault::TooLong) => Err(RunFault::InputTooLong),
        Err(LineFault::Read) => Err(RunFault::ReadFault),
    }
}
