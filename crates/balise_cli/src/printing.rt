//! What is printed after the replies.

mod journal;
mod plan;
mod view;

ghost use Rattle.balise_cli.specs.PlanTexts.{closing_text, end_text, if_asked, journal_text};
ghost use Rattle.balise_text.specs.Printing.{Prints};

use crate::asked::{Asked, Closing};
use balise_facts::put_facts;
use balise_history::Session;
use balise_lines::Counted;
use balise_text::RunFault;
use journal::put_journal;
use plan::put_plan;
use std::alloc::Global;
use std::io::Write;
use view::put_view;

// Writes the journal, if it was asked for.
fn put_journal_if<W: Write>(
    writer: &mut Counted<W>,
    asked: bool,
    session: &Session,
) -> Result<(), RunFault>
    ensures { Prints W.contents writer.old writer.new result (if_asked asked (journal_text session.now.state)) }
{
    if asked {
        return put_journal(writer, session);
    }
    Ok(())
}

// Writes the plan, and the journal and the view where they are asked for.
fn put_all<W: Write>(
    alloc: Global,
    writer: &mut Counted<W>,
    journal: bool,
    view: bool,
    session: &Session,
) -> Result<(), RunFault>
    ensures { Prints W.contents writer.old writer.new result (closing_text (Closing.Plan journal view) session.now.state) }
{
    if let Err(fault) = put_plan(alloc, writer, session.plan()) {
        return Err(fault);
    }
    if let Err(fault) = put_journal_if(writer, journal, session) {
        return Err(fault);
    }
    if view {
        return put_view(alloc, writer, session.plan());
    }
    Ok(())
}

/// Writes what the end of the commands prints.
pub(crate) fn put_end<W: Write>(
    alloc: Global,
    writer: &mut Counted<W>,
    asked: Asked,
    session: &Session,
) -> Result<(), RunFault>
    ensures { Prints W.contents writer.old writer.new result (end_text asked session.now.state) }
{
    match asked.closing {
        Closing::Plan { journal, view } => put_all(alloc, writer, journal, view, session),
        Closing::Facts(facts) => put_facts(writer, facts, session),
    }
}
