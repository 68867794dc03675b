//! A run from digits to fields, or from fields to digits.

ghost use Rattle.balise_fields_run.specs.Ways.{RanBy};

use crate::explaining::explain_lines;
use crate::spelling::spell_lines;
use crate::status::Status;
use crate::way::Way;
use balise_lines::Counted;
use balise_text::RunFault;
use std::alloc::Global;
use std::io::{Read, Write};

/// Writes the fields that the input's digits encode, or the digits of the input's fields.
pub fn run<R: Read, W: Write>(
    alloc: Global,
    way: Way,
    reader: &mut Counted<R>,
    writer: &mut Counted<W>,
) -> Result<Status, RunFault>
    ensures { RanBy way (R.remaining reader.old.inner) (R.remaining reader.new.inner) (W.contents writer.old.inner) (W.contents writer.new.inner) reader.old.failed reader.new.failed writer.old.failed writer.new.failed result }
{
    match way {
        Way::Explain => explain_lines(alloc, reader, writer),
        Way::Spell => spell_lines(alloc, reader, writer),
    }
}
