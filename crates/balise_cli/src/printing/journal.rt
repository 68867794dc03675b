//! Writes the journal.

ghost use Rattle.std.specs.Prelude.{map};
ghost use Rattle.balise_text.specs.Printing.{Prints};
ghost use Rattle.balise_cli.specs.PlanTexts.{journal_text, undone_line};
ghost use Rattle.balise_cli.specs.Private.{told};
ghost use Rattle.balise_lines.specs.Writing.{Writes};
ghost use Rattle.balise_text.specs.Texts.{text_of};

use balise_history::{Entry, Session};
use balise_lines::{Counted, WriteFault};
use balise_text::{RunFault, put_entry, put_head, put_undone};
use std::io::Write;

// Writes the lines of entries, one after another.
fn put_entries<W: Write>(writer: &mut Counted<W>, entries: &[Entry]) -> Result<(), RunFault>
    ensures { Prints W.contents writer.old writer.new result (text_of (map told entries.now)) }
{
    for entry in entries {
        let Ok(line) = entry.line() else {
            return Err(RunFault::OutOfMemory);
        };
        if let Err(fault) = put_entry(writer, &line) {
            return Err(RunFault::from(fault));
        }
    }
    Ok(())
}

// Writes the serials of what was undone or struck.
fn put_all_undone<W: Write>(writer: &mut Counted<W>, serials: &[u32]) -> Result<(), WriteFault>
    ensures { Writes W.contents writer.old writer.new result (text_of (map undone_line serials.now)) }
{
    for serial in serials {
        if let Err(fault) = put_undone(writer, *serial) {
            return Err(fault);
        }
    }
    Ok(())
}

/// Writes the journal.
pub(crate) fn put_journal<W: Write>(
    writer: &mut Counted<W>,
    session: &Session,
) -> Result<(), RunFault>
    ensures { Prints W.contents writer.old writer.new result (journal_text session.now.state) }
{
    if let Err(fault) = put_head(writer, session.next_serial()) {
        return Err(RunFault::from(fault));
    }
    if let Some(entries) = session.all_standing() {
        return put_entries(writer, entries);
    }
    let Ok(entries) = session.all_back() else {
        return Err(RunFault::OutOfMemory);
    };
    let Ok(undone) = session.undone() else {
        return Err(RunFault::OutOfMemory);
    };
    if let Err(fault) = put_entries(writer, &entries) {
        return Err(fault);
    }
    match put_all_undone(writer, &undone) {
        Ok(()) => Ok(()),
        Err(fault) => Err(RunFault::from(fault)),
    }
}
