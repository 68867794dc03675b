//! The phases of a run, each a loop over lines: the plan, the journal, the commands.

ghost use Rattle.std.specs.Prelude.{◌≡◌, IfErr, IfOk, OnOk};
ghost use Rattle.balise_cli.specs.Phases.{commands_phase, journal_end, journal_phase, plan_phase, plan_read};
ghost use Rattle.balise_cli.specs.Progress.{FailsAhead, ReadsAs, RunsOn};
ghost use Rattle.balise_lines.specs.Reading.{OverAtEnd, Took};

use crate::asked::Asked;
use crate::commands::Commands;
use crate::journal_reader::{JournalEnd, JournalReader, JournalStep};
use crate::plan_reader::{PlanEnd, PlanReader};
use crate::status::Status;
use balise_history::Refusal;
use balise_lines::{Counted, LineFault, Lines, Next};
use balise_text::RunFault;
use std::alloc::Global;
use std::io::{Read, Write};

// Reads the next line.
fn next<R: Read>(lines: &mut Lines, reader: &mut Counted<R>) -> Result<Next, RunFault>
    requires over { OverAtEnd lines.old (R.remaining reader.old.inner) }
    ensures over { OverAtEnd lines.new (R.remaining reader.new.inner) }
    ensures took { IfOk result (λ next. Took next lines.old (R.remaining reader.old.inner) lines.new (R.remaining reader.new.inner)) }
    ensures unfailed { OnOk result (reader.new.failed ≡ reader.old.failed) }
    ensures fault { IfErr result (FailsAhead lines.old R.remaining reader.old reader.new) }
{
    match lines.next(reader) {
        Ok(next) => Ok(next),
        Err(LineFault::TooLong) => Err(RunFault::InputTooLong),
        Err(LineFault::Read) => Err(RunFault::ReadFault),
    }
}

/// Reads the plan to its end.
pub(crate) fn read_plan<R: Read>(
    alloc: Global,
    lines: &mut Lines,
    plan: &mut PlanReader,
    reader: &mut Counted<R>,
) -> Result<PlanEnd, RunFault>
    requires over { OverAtEnd lines.old (R.remaining reader.old.inner) }
    ensures over { OverAtEnd lines.new (R.remaining reader.new.inner) }
    ensures reads { ReadsAs (plan_phase plan.old) lines.old lines.new R.remaining reader.old reader.new result (λ end. plan_read plan.new (Some end)) }
{
    'lines: loop {
        let number = lines.number();
        match next(lines, reader) {
            Err(fault) => return Err(fault),
            Ok(Next::End) => {
                return match plan.end(alloc, number) {
                    Ok((number, refusal)) => Ok(PlanEnd::Bad(number, refusal)),
                    Err(fault) => Err(fault),
                };
            }
            Ok(Next::Line { is_ended: _ }) => match plan.read(alloc, number, lines.line()) {
                Err(fault) => return Err(fault),
                Ok(Some(end)) => return Ok(end),
                Ok(None) => {}
            },
        }
    }
}

/// Reads the journal to its end.
pub(crate) fn read_journal<R: Read>(
    alloc: Global,
    lines: &mut Lines,
    journal: JournalReader,
    reader: &mut Counted<R>,
) -> Result<JournalEnd, RunFault>
    requires over { OverAtEnd lines.old (R.remaining reader.old.inner) }
    ensures over { OverAtEnd lines.new (R.remaining reader.new.inner) }
    ensures reads { ReadsAs (journal_phase journal) lines.old lines.new R.remaining reader.old reader.new result journal_end }
{
    let mut journal = journal;
    'lines: loop {
        let number = lines.number();
        match next(lines, reader) {
            Err(fault) => return Err(fault),
            Ok(Next::End) => return Ok(JournalEnd::Bad(number, Refusal::BadLine)),
            Ok(Next::Line { is_ended: _ }) => match journal.read(alloc, number, lines.line()) {
                Err(fault) => return Err(fault),
                Ok(JournalStep::On) => {}
                Ok(JournalStep::Edits) => return Ok(JournalEnd::Edits(journal.session())),
                Ok(JournalStep::Bad(number, refusal)) => {
                    return Ok(JournalEnd::Bad(number, refusal));
                }
            },
        }
    }
}

/// Answers the commands, and writes the end.
pub(crate) fn answer_commands<R: Read, W: Write>(
    alloc: Global,
    asked: Asked,
    lines: &mut Lines,
    commands: &mut Commands,
    reader: &mut Counted<R>,
    writer: &mut Counted<W>,
) -> Result<Status, RunFault>
    requires over { OverAtEnd lines.old (R.remaining reader.old.inner) }
    ensures { RunsOn asked (commands_phase commands.old) lines.old R.remaining W.contents reader.old reader.new writer.old writer.new result }
{
    'lines: loop {
        match next(lines, reader) {
            Err(fault) => return Err(fault),
            Ok(Next::End) => return commands.end(alloc, asked, writer),
            Ok(Next::Line { is_ended: _ }) => {
                match commands.answer(alloc, asked, lines.line(), writer) {
                    Err(fault) => return Err(fault),
                    Ok(Some(status)) => return Ok(status),
                    Ok(None) => {}
                }
            }
        }
    }
}
