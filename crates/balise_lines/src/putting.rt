//! Writes a text whole.

ghost use Rattle.balise_lines.specs.Writing.{Writes};

use crate::counted::Counted;
use crate::fault::WriteFault;
use std::io::Write;

/// Writes all of the text. The writer may take several calls for that.
///
/// Where a call fails, also one that was only interrupted, what was written is a beginning of the text.
pub fn put<W: Write>(writer: &mut Counted<W>, text: &[u8]) -> Result<(), WriteFault>
    ensures { Writes W.contents writer.old writer.new result text.now }
{
    let mut rest = text;
    'writes: while !rest.is_empty() {
        match writer.write(rest) {
            Ok(0) => return Err(WriteFault::Write),
            Ok(taken) => rest = &rest[taken..],
            Err(_) => return Err(WriteFault::Write),
        }
    }
    Ok(())
}
