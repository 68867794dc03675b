//! The commands, one after another.

ghost use Rattle.std.specs.Prelude.{◌≡◌, IfErr, IfOk, IsErrOf, OnOk, false};
ghost use Rattle.balise_text.specs.Printing.{IsCause, Prints};
ghost use Rattle.balise_cli.specs.Output as output;
ghost use Rattle.balise_cli.specs.PlanTexts.{end_text};
ghost use Rattle.balise_cli.specs.Phases.{DidPart, DidStep, WrittenOfLine, WroteSuch, commands_phase};
ghost use Rattle.balise_cli.specs.Statuses.{status_of};

use crate::answers::{answer_line, put_answer};
use crate::asked::Asked;
use crate::printing::put_end;
use crate::status::Status;
use balise_history::Session;
use balise_lines::Counted;
use balise_text::RunFault;
use std::alloc::Global;
use std::io::Write;

/// The session that the commands are done in, and whether one was refused.
#[derive(Drop)]
pub(crate) struct Commands {
    session: Session,
    refused: bool,
}

impl Commands {
    /// Before the first command.
    pub(crate) fn new(session: Session) -> Commands
        ensures { commands_phase result ≡ output.Commands session.state false }
    {
        Commands {
            session,
            refused: false,
        }
    }

    /// Does the command of a line and writes its answer. After a refusal that stops the run it writes the end too, and
    /// answers the status.
    pub(crate) fn answer<W: Write>(
        &mut self,
        alloc: Global,
        asked: Asked,
        line: &[u8],
        writer: &mut Counted<W>,
    ) -> Result<Option<Status>, RunFault>
        ensures ok { IfOk result (DidStep asked (commands_phase self.old) 0 line.now (W.contents writer.old.inner) (W.contents writer.new.inner) (commands_phase self.new)) }
        ensures unfailed { OnOk result (writer.new.failed ≡ writer.old.failed) }
        ensures cause { IfErr result (IsCause writer.old.failed writer.new.failed) }
        ensures written { IsErrOf result RunFault.WriteFault → DidPart asked (commands_phase self.old) 0 line.now (W.contents writer.old.inner) (W.contents writer.new.inner) }
        ensures memory { IsErrOf result RunFault.OutOfMemory → WroteSuch (WrittenOfLine asked (commands_phase self.old) 0 line.now) (W.contents writer.old.inner) (W.contents writer.new.inner) }
    {
        let answer = answer_line(alloc, &mut self.session, line);
        if let Err(fault) = put_answer(writer, asked.quiet, &answer) {
            return Err(RunFault::from(fault));
        }
        let is_refused = answer.reply.is_refused();
        self.refused |= is_refused;
        if asked.stop & is_refused {
            if let Err(fault) = put_end(alloc, writer, asked, &self.session) {
                return Err(fault);
            }
            return Ok(Some(Status::SomeRefused));
        }
        Ok(None)
    }

    /// Writes what the end of the commands prints.
    pub(crate) fn end<W: Write>(
        &self,
        alloc: Global,
        asked: Asked,
        writer: &mut Counted<W>,
    ) -> Result<Status, RunFault>
        ensures status { IfOk result (λ status. status ≡ status_of self.now.refused) }
        ensures prints { Prints W.contents writer.old writer.new result (end_text asked self.now.session.state) }
    {
        match put_end(alloc, writer, asked, &self.session) {
            Ok(()) => Ok(Status::of_commands(self.refused)),
            Err(fault) => Err(fault),
        }
    }
}
