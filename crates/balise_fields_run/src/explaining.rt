//! The run from digits to fields.

ghost use Rattle.std.specs.Prelude.{IfErr, IfOk};
ghost use Rattle.balise_fields_run.specs.Explained.{Ran};
ghost use Rattle.balise_fields_run.specs.Steps.{LineDone, LineFails};

use crate::next::next;
use crate::status::Status;
use balise_fields::{explain_line, put_explained};
use balise_lines::{Counted, Lines, Next};
use balise_text::RunFault;
use std::alloc::Global;
use std::io::{Read, Write};

// Explains one line, and answers whether its digits are refused.
fn explain<W: Write>(alloc: Global, line: &[u8], writer: &mut Counted<W>) -> Result<bool, RunFault>
    ensures ok { IfOk result (LineDone W.contents writer.old writer.new line.now) }
    ensures fault { IfErr result (LineFails W.contents writer.old writer.new line.now) }
{
    let explained = match explain_line(alloc, line) {
        Ok(explained) => explained,
        Err(fault) => return Err(RunFault::from(fault)),
    };
    match put_explained(writer, &explained) {
        Ok(()) => Ok(explained.is_refused()),
        Err(fault) => Err(RunFault::from(fault)),
    }
}

/// Writes what each line of the input is explained as.
pub fn explain_lines<R: Read, W: Write>(
    alloc: Global,
    reader: &mut Counted<R>,
    writer: &mut Counted<W>,
) -> Result<Status, RunFault>
    ensures { Ran (R.remaining reader.old.inner) (R.remaining reader.new.inner) (W.contents writer.old.inner) (W.contents writer.new.inner) reader.old.failed reader.new.failed writer.old.failed writer.new.failed result }
{
    let mut lines = Lines::new();
    let mut refused = false;
    'lines: loop {
        match next(&mut lines, reader) {
            Err(fault) => return Err(fault),
            Ok(Next::End) => return Ok(Status::of_refused(refused)),
            Ok(Next::Line { is_ended: _ }) => match explain(alloc, lines.line(), writer) {
                Ok(is_refused) => refused |= is_refused,
                Err(fault) => return Err(fault),
            },
        }
    }
}
