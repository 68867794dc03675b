//! The run over all of an input: the plan, perhaps its journal, and the commands.

ghost use Rattle.std.specs.Prelude.{◌≡◌, IfErr, IfOk, IsErrOf, OnErr, OnOk};
ghost use Rattle.balise_cli.specs.Asking.{asked_by, facts_asked};
ghost use Rattle.balise_cli.specs.Ends.{ComesToEnd, DidLines, FailsToWrite, NoneComplete, RunsOutOfMemory, WritesBeginning, WritesOutput, WritesSome, WritesStanding};
ghost use Rattle.balise_text.specs.Printing.{Prints};
ghost use Rattle.balise_text.specs.RunFaults.{IsFault};
ghost use Rattle.balise_cli.specs.Output.{Ended, Header, Phase, TooLong};
ghost use Rattle.balise_cli.specs.Phases.{journal_end};
ghost use Rattle.balise_cli.specs.Progress.{ReadsAs, RunsOn};
ghost use Rattle.balise_cli.specs.Runs.{RunCounts, Runs};
ghost use Rattle.balise_lines.specs.Reading.{OverAtEnd};
ghost use Rattle.balise_text.specs.Replies.{bad_line};

use crate::asked::{Asked, asked_by, facts_asked};
use crate::commands::Commands;
use crate::journal_reader::JournalEnd;
use crate::phases::{answer_commands, read_journal, read_plan};
use crate::plan_reader::{PlanEnd, PlanReader};
use crate::status::Status;
use balise_arguments::Flags;
use balise_facts::Facts;
use balise_history::Refusal;
use balise_lines::{Counted, Lines};
use balise_text::{RunFault, put_bad};
use std::alloc::Global;
use std::io::{Read, Write};
use std::mem;

/// What becomes of the session's memory when a run ends.
#[derive(Clone, Copy)]
pub enum AtEnd {
    /// It is freed.
    GiveBack,
    /// It is left to the system, which takes it back at once when the program ends.
    Leave,
}

impl AtEnd {
    // Frees the session's memory, or leaves it.
    fn let_go(self, commands: Commands) {
        match self {
            AtEnd::GiveBack => mem::drop(commands),
            AtEnd::Leave => mem::forget(commands),
        }
    }
}

/// Reads a plan, perhaps its journal, and commands. Answers each command before it looks at the next line. Writes the
/// plan, and the journal and the view where they are asked for. At a fault only a beginning of that output was written;
/// if the reader failed, it is all that the complete lines give.
pub fn run<R: Read, W: Write>(
    alloc: Global,
    reader: &mut Counted<R>,
    writer: &mut Counted<W>,
    flags: Flags,
) -> Result<Status, RunFault>
    ensures held { IfOk result (WritesStanding (asked_by flags) (R.remaining reader.old.inner) (W.contents writer.old.inner) (W.contents writer.new.inner)) }
    ensures ok { IfOk result (λ status. WritesOutput (asked_by flags) (R.remaining reader.old.inner) (W.contents writer.old.inner) (W.contents writer.new.inner) (Ended status)) }
    ensures read { IfOk result (λ status. DidLines (asked_by flags) (R.remaining reader.old.inner) (R.remaining reader.new.inner) (W.contents writer.old.inner) (W.contents writer.new.inner) (ComesToEnd (asked_by flags) (R.remaining reader.new.inner) status)) }
    ensures unread { OnOk result (reader.new.failed ≡ reader.old.failed) }
    ensures unwritten { OnOk result (writer.new.failed ≡ writer.old.failed) }
    ensures long { IsErrOf result RunFault.InputTooLong → WritesOutput (asked_by flags) (R.remaining reader.old.inner) (W.contents writer.old.inner) (W.contents writer.new.inner) TooLong }
    ensures fault { IfErr result (IsFault reader.old.failed reader.new.failed writer.old.failed writer.new.failed) }
    ensures memory { IsErrOf result RunFault.OutOfMemory → DidLines (asked_by flags) (R.remaining reader.old.inner) (R.remaining reader.new.inner) (W.contents writer.old.inner) (W.contents writer.new.inner) (RunsOutOfMemory (asked_by flags) (R.remaining reader.new.inner)) }
    ensures complete { IsErrOf result RunFault.ReadFault → DidLines (asked_by flags) (R.remaining reader.old.inner) (R.remaining reader.new.inner) (W.contents writer.old.inner) (W.contents writer.new.inner) NoneComplete }
    ensures full { IsErrOf result RunFault.WriteFault → DidLines (asked_by flags) (R.remaining reader.old.inner) (R.remaining reader.new.inner) (W.contents writer.old.inner) (W.contents writer.new.inner) (FailsToWrite (asked_by flags) (R.remaining reader.new.inner)) }
    ensures begun { OnErr result (WritesBeginning (asked_by flags) (R.remaining reader.old.inner) (W.contents writer.old.inner) (W.contents writer.new.inner)) }
    ensures some { OnErr result (WritesSome (asked_by flags) (R.remaining reader.old.inner) (R.remaining reader.new.inner) (W.contents writer.old.inner) (W.contents writer.new.inner)) }
{
    run_lines(alloc, asked_by(flags), AtEnd::GiveBack, reader, writer)
}

/// Runs as `run` does with `--quiet` and without `--stop`, but at the end it writes facts in place of the plan. They
/// are those of the session after the last command.
pub fn run_facts<R: Read, W: Write>(
    alloc: Global,
    reader: &mut Counted<R>,
    writer: &mut Counted<W>,
    facts: Facts,
) -> Result<Status, RunFault>
    ensures runs { Runs (facts_asked facts) (R.remaining reader.old.inner) (R.remaining reader.new.inner) (W.contents writer.old.inner) (W.contents writer.new.inner) result }
    ensures counts { RunCounts reader.old.failed reader.new.failed writer.old.failed writer.new.failed result }
{
    run_lines(alloc, facts_asked(facts), AtEnd::GiveBack, reader, writer)
}

/// Runs as `run` does. `asked` states what it prints and where it stops; `at_end` states whether the session's memory
/// is freed.
pub fn run_lines<R: Read, W: Write>(
    alloc: Global,
    asked: Asked,
    at_end: AtEnd,
    reader: &mut Counted<R>,
    writer: &mut Counted<W>,
) -> Result<Status, RunFault>
    ensures runs { Runs asked (R.remaining reader.old.inner) (R.remaining reader.new.inner) (W.contents writer.old.inner) (W.contents writer.new.inner) result }
    ensures counts { RunCounts reader.old.failed reader.new.failed writer.old.failed writer.new.failed result }
{
    let mut lines = Lines::new();
    run_session(alloc, asked, at_end, &mut lines, reader, writer)
}

// Writes the line for a plan or a journal that is refused.
fn refuse<W: Write>(
    writer: &mut Counted<W>,
    number: u64,
    refusal: Refusal,
) -> Result<Status, RunFault>
    ensures status { IfOk result (λ status. status ≡ Status.BadInput) }
    ensures fault { IfErr result (λ e. e ≡ RunFault.WriteFault) }
    ensures line { Prints W.contents writer.old writer.new result (bad_line number refusal) }
{
    match put_bad(writer, number, refusal) {
        Ok(()) => Ok(Status::BadInput),
        Err(fault) => Err(RunFault::from(fault)),
    }
}

// Reads what comes before the commands, the plan and perhaps its journal.
fn read_session<R: Read>(
    alloc: Global,
    lines: &mut Lines,
    reader: &mut Counted<R>,
) -> Result<JournalEnd, RunFault>
    requires over { OverAtEnd lines.old (R.remaining reader.old.inner) }
    ensures over { OverAtEnd lines.new (R.remaining reader.new.inner) }
    ensures reads { ReadsAs Header lines.old lines.new R.remaining reader.old reader.new result journal_end }
{
    let mut plan = PlanReader::new(alloc);
    match read_plan(alloc, lines, &mut plan, reader) {
        Err(fault) => Err(fault),
        Ok(PlanEnd::Bad(number, refusal)) => Ok(JournalEnd::Bad(number, refusal)),
        Ok(PlanEnd::Edits) => Ok(JournalEnd::Edits(plan.session(alloc))),
        Ok(PlanEnd::Journal(number, head)) => match plan.journal(alloc, head) {
            Err(refusal) => Ok(JournalEnd::Bad(number, refusal)),
            Ok(journal) => read_journal(alloc, lines, journal, reader),
        },
    }
}

// Runs from the first line on.
fn run_session<R: Read, W: Write>(
    alloc: Global,
    asked: Asked,
    at_end: AtEnd,
    lines: &mut Lines,
    reader: &mut Counted<R>,
    writer: &mut Counted<W>,
) -> Result<Status, RunFault>
    requires over { OverAtEnd lines.old (R.remaining reader.old.inner) }
    ensures { RunsOn asked Header lines.old R.remaining W.contents reader.old reader.new writer.old writer.new result }
{
    match read_session(alloc, lines, reader) {
        Err(fault) => Err(fault),
        Ok(JournalEnd::Bad(number, refusal)) => refuse(writer, number, refusal),
        Ok(JournalEnd::Edits(session)) => {
            let mut commands = Commands::new(session);
            let ended = answer_commands(alloc, asked, lines, &mut commands, reader, writer);
            at_end.let_go(commands);
            ended
        }
    }
}
