//! Writes what standing edits change and need, and which later ones depend on them.

ghost use Rattle.std.specs.Prelude.{map};
ghost use Rattle.balise_edits.specs.Places.{path_of};
ghost use Rattle.balise_facts.specs.FactTexts.{edit_text, edits_text, lines_text, one_text, serial_line};
ghost use Rattle.balise_lines.specs.Writing.{Writes};
ghost use Rattle.balise_rules.specs.Session.{entries};
ghost use Rattle.balise_text.specs.Printing.{Prints};
ghost use Rattle.balise_text.specs.Texts.{text_of};

use crate::places::put_places;
use balise_edits::{Path, changed_places, needed_places};
use balise_history::{Entry, Session};
use balise_lines::{Counted, WriteFault};
use balise_text::{RunFault, put_texts};
use itoa::Buffer;
use std::io::Write;

// Writes the line of a name and a serial.
fn put_serial<W: Write>(writer: &mut Counted<W>, name: &[u8], serial: u32) -> Result<(), WriteFault>
    ensures { Writes W.contents writer.old writer.new result (serial_line name.now serial) }
{
    let mut digits = Buffer::new();
    put_texts(
        writer,
        &[name, b" ", digits.format(serial).as_bytes(), b"\n"],
    )
}

// Writes the lines of a name and serials.
fn put_serials<W: Write>(
    writer: &mut Counted<W>,
    name: &[u8],
    serials: &[u32],
) -> Result<(), WriteFault>
    ensures { Writes W.contents writer.old writer.new result (text_of (map (serial_line name.now) serials.now)) }
{
    for serial in serials {
        if let Err(fault) = put_serial(writer, name, *serial) {
            return Err(fault);
        }
    }
    Ok(())
}

// Writes the lines of an edit.
fn put_lines<W: Write>(
    writer: &mut Counted<W>,
    serial: u32,
    changed: &[Path],
    needed: &[Path],
    dependents: &[u32],
) -> Result<(), WriteFault>
    ensures { Writes W.contents writer.old writer.new result (lines_text serial (map path_of changed.now) (map path_of needed.now) dependents.now) }
{
    if let Err(fault) = put_serial(writer, b"edit", serial) {
        return Err(fault);
    }
    if let Err(fault) = put_places(writer, b"changes", changed) {
        return Err(fault);
    }
    if let Err(fault) = put_places(writer, b"needs", needed) {
        return Err(fault);
    }
    put_serials(writer, b"dependent", dependents)
}

// Writes the lines of a standing edit. What takes memory comes first: where it runs out none of them is written.
fn put_edit<W: Write>(
    writer: &mut Counted<W>,
    session: &Session,
    entry: &Entry,
) -> Result<(), RunFault>
    ensures { Prints W.contents writer.old writer.new result (edit_text (entries session.now.state.base session.now.state.standing) entry.now) }
{
    let serial = entry.serial();
    let Ok(changed) = changed_places(entry) else {
        return Err(RunFault::OutOfMemory);
    };
    let Ok(needed) = needed_places(entry) else {
        return Err(RunFault::OutOfMemory);
    };
    let Ok(dependents) = session.dependents(serial) else {
        return Err(RunFault::OutOfMemory);
    };
    match put_lines(writer, serial, &changed, &needed, &dependents) {
        Ok(()) => Ok(()),
        Err(fault) => Err(RunFault::from(fault)),
    }
}

/// Writes the lines of each standing edit.
pub(crate) fn put_edits<W: Write>(
    writer: &mut Counted<W>,
    session: &Session,
) -> Result<(), RunFault>
    ensures { Prints W.contents writer.old writer.new result (edits_text (entries session.now.state.base session.now.state.standing)) }
{
    let standing = session.standing();
    for entry in standing {
        if let Err(fault) = put_edit(writer, session, entry) {
            return Err(fault);
        }
    }
    Ok(())
}

/// Writes the lines of the edit of a serial, if it stands.
pub(crate) fn put_one<W: Write>(
    writer: &mut Counted<W>,
    session: &Session,
    serial: u32,
) -> Result<(), RunFault>
    ensures { Prints W.contents writer.old writer.new result (one_text serial (entries session.now.state.base session.now.state.standing)) }
{
    let standing = session.standing();
    for entry in standing {
        if entry.serial() == serial {
            return put_edit(writer, session, entry);
        }
    }
    Ok(())
}
