//! Writes facts of a session.

ghost use Rattle.balise_facts.specs.FactTexts.{facts_text, told};
ghost use Rattle.balise_text.specs.Printing.{Prints};

use crate::edits::{put_edits, put_one};
use crate::facts::Facts;
use crate::tags::put_tags;
use balise_history::Session;
use balise_lines::{Counted, put};
use balise_text::RunFault;
use std::io::Write;

// Writes what comes after the first line.
fn put_told<W: Write>(
    writer: &mut Counted<W>,
    facts: Facts,
    session: &Session,
) -> Result<(), RunFault>
    ensures { Prints W.contents writer.old writer.new result (told facts session.now.state) }
{
    match facts {
        Facts::Edits => put_edits(writer, session),
        Facts::Edit(serial) => put_one(writer, session, serial),
        Facts::Tags => match put_tags(writer, session.plan()) {
            Ok(()) => Ok(()),
            Err(fault) => Err(RunFault::from(fault)),
        },
    }
}

/// Writes facts of a session, after a first line.
///
/// Memory may run out before an edit, and then what comes before that is written. It doesn't for tags.
pub fn put_facts<W: Write>(
    writer: &mut Counted<W>,
    facts: Facts,
    session: &Session,
) -> Result<(), RunFault>
    ensures { Prints W.contents writer.old writer.new result (facts_text facts session.now.state) }
{
    if let Err(fault) = put(writer, b"facts 1\n") {
        return Err(RunFault::from(fault));
    }
    put_told(writer, facts, session)
}
