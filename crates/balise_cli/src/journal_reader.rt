//! The lines of the journal.

ghost use Rattle.std.specs.Prelude.{◌≡◌, IfErr, IfOk, OnErr};
ghost use Rattle.balise_cli.specs.Output.{InJournal, read_line};
ghost use Rattle.balise_cli.specs.Phases.{MayRunOutAt, journal_phase, journal_step};
ghost use Rattle.balise_text.specs.declared.section.Section.TheVariants.{Entries};

use balise_history::{Opening, Refusal, Session};
use balise_text::{JournalLine, RunFault, Section, Version, read_journal_line};
use std::alloc::Global;

/// How the journal ends: it is refused, and this line is named; or the commands begin, over this session.
#[derive(Drop)]
pub(crate) enum JournalEnd {
    Bad(u64, Refusal),
    Edits(Session),
}

/// What a line leaves: the journal goes on after it, the commands begin there, or this line is refused.
#[derive(Drop)]
pub(crate) enum JournalStep {
    On,
    Edits,
    Bad(u64, Refusal),
}

/// The journal, as far as it was read: what may come there, and the session so far.
#[derive(Drop)]
pub(crate) struct JournalReader {
    section: Section,
    opening: Opening,
}

impl JournalReader {
    /// After the first line, which has this version.
    pub(crate) fn new(version: Version, opening: Opening) -> JournalReader
        ensures { journal_phase result ≡ InJournal (Entries version) opening.state }
    {
        JournalReader {
            section: Section::Entries(version),
            opening,
        }
    }

    /// Reads the line of this number. After one that is refused the journal must not go on: its edit may be done.
    pub(crate) fn read(
        &mut self,
        alloc: Global,
        number: u64,
        line: &[u8],
    ) -> Result<JournalStep, RunFault>
        ensures ok { IfOk result (λ step. read_line (journal_phase self.old) number line.now ≡ journal_step self.new step) }
        ensures fault { IfErr result (λ e. e ≡ RunFault.OutOfMemory) }
        ensures takes { OnErr result (MayRunOutAt self.old.section self.old.opening.state line.now) }
    {
        let done = match read_journal_line(alloc, self.section, line) {
            Ok(JournalLine::Entry(entry)) => self.opening.enter(entry),
            Ok(JournalLine::Undone(serial)) => {
                self.section = Section::Undone;
                self.opening.strike(serial)
            }
            Ok(JournalLine::Edits) => return Ok(JournalStep::Edits),
            Err(refusal) => Err(refusal),
        };
        match done {
            Ok(()) => Ok(JournalStep::On),
            Err(Refusal::OutOfMemory) => Err(RunFault::OutOfMemory),
            Err(refusal) => Ok(JournalStep::Bad(number, refusal)),
        }
    }

    /// The session, where the commands begin.
    pub(crate) fn session(self) -> Session
        ensures { result ≡ self.opening }
    {
        let JournalReader {
            section: _,
            opening,
        } = self;
        opening.done()
    }
}
