//! The run from fields to digits.

ghost use Rattle.balise_fields_run.specs.Spelt.{Spelled};

use crate::item_line::{close, spell_line};
use crate::next::next;
use crate::status::Status;
use balise_items::Item;
use balise_lines::{Counted, Lines, Next};
use balise_text::RunFault;
use std::alloc::Global;
use std::io::{Read, Write};

/// Writes what each item of the input is turned into.
pub fn spell_lines<R: Read, W: Write>(
    alloc: Global,
    reader: &mut Counted<R>,
    writer: &mut Counted<W>,
) -> Result<Status, RunFault>
    ensures { Spelled (R.remaining reader.old.inner) (R.remaining reader.new.inner) (W.contents writer.old.inner) (W.contents writer.new.inner) reader.old.failed reader.new.failed writer.old.failed writer.new.failed result }
{
    let mut lines = Lines::new();
    let mut current: Option<Item> = None;
    let mut refused = false;
    'lines: loop {
        let number = lines.number() as u32;
        match next(&mut lines, reader) {
            Err(fault) => return Err(fault),
            Ok(Next::End) => match close(alloc, &current, number, writer) {
                Ok(is_refused) => return Ok(Status::of_refused(refused | is_refused)),
                Err(fault) => return Err(fault),
            },
            Ok(Next::Line { is_ended: _ }) => {
                match spell_line(alloc, &mut current, number, lines.line(), writer) {
                    Ok(is_refused) => refused |= is_refused,
                    Err(fault) => return Err(fault),
                }
            }
        }
    }
}
