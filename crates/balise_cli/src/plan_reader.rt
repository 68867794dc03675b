//! The lines of the plan.

ghost use Rattle.std.specs.Prelude.{ℕ, ◌≡◌, ◌⊎◌, ◌<◌, length, IfErr, IfOk, Ok, Err, OnErr, OnOk, true};
ghost use Rattle.balise_cli.specs.declared.asked.Asked.{Asked};
ghost use Rattle.balise_cli.specs.Output.{Bad, Header, InGroup, after_read, at_end, between, first_line, read_line, telegram};
ghost use Rattle.balise_cli.specs.Phases.{Begins, EndMayRunOut, LineMayRunOut, is_telegram, plan_phase, plan_read, plan_read_as};
ghost use Rattle.balise_cli.specs.PlanRead.{with_line};
ghost use Rattle.balise_plan.specs.GroupReading.{most_telegrams};
ghost use Rattle.balise_rules.specs.Plan.{Plan};
ghost use Rattle.balise_rules.specs.Session.{opened};
ghost use Rattle.balise_text.specs.PlanLines.{plan_line_of};

use crate::base_plan::BasePlan;
use crate::journal_reader::JournalReader;
use balise_history::{Bits, GroupReader, Refusal, Session};
use balise_text::{Head, PlanLine, RunFault, read_head, read_plan_line};
use std::alloc::Global;
use std::mem;

/// Where the next line of the plan stands: it is the first; it comes between groups; or it comes in a group, whose own
/// line has this number.
#[derive(Drop)]
pub(crate) enum PlanStage {
    First,
    Between,
    InGroup(u64, GroupReader),
}

/// How the plan ends: it is refused, and this line is named; the commands begin; or a journal begins, at this line.
#[derive(Clone, Copy)]
pub(crate) enum PlanEnd {
    Bad(u64, Refusal),
    Edits,
    Journal(u64, Head),
}

/// The plan, as far as it was read.
#[derive(Drop)]
pub(crate) struct PlanReader {
    plan: BasePlan,
    stage: PlanStage,
}

// Adds the telegram of a line. A line over eight isn't looked at.
fn add_telegram(alloc: Global, group: &mut GroupReader, line: &[u8]) -> Result<(), Refusal>
    ensures ok { OnOk result (with_line group.old line.now ≡ Ok group.new) }
    ensures fault { IfErr result (λ r. ((r ≡ Refusal.OutOfMemory) × (length group.old < most_telegrams)) ⊎ (with_line group.old line.now ≡ Err r)) }
{
    if group.count() >= 8 {
        return Err(Refusal::GroupSize);
    }
    let due = if line.len() == 208 { 830 } else { 210 };
    let bits = Bits::from_hex_bytes(alloc, line, due)?;
    match group.push(bits) {
        Ok(()) => Ok(()),
        Err(refusal) => Err(refusal),
    }
}

// Reads a telegram's line.
fn read_telegram(
    alloc: Global,
    group: &mut GroupReader,
    number: u64,
    line: &[u8],
) -> Result<Option<PlanEnd>, RunFault>
    ensures ok { IfOk result (λ end. (plan : Plan) (g : ℕ) → telegram plan g group.old number line.now ≡ plan_read_as (InGroup plan g group.new) plan end) }
    ensures fault { IfErr result (λ e. e ≡ RunFault.OutOfMemory) }
    ensures few { OnErr result (length group.old < most_telegrams) }
{
    match add_telegram(alloc, group, line) {
        Ok(()) => Ok(None),
        Err(Refusal::OutOfMemory) => Err(RunFault::OutOfMemory),
        Err(refusal) => Ok(Some(PlanEnd::Bad(number, refusal))),
    }
}

// In a group, whether the line is a telegram's.
fn is_telegram(kind: PlanLine) -> bool
    ensures { result ≡ is_telegram kind }
{
    match kind {
        PlanLine::FirstLine => true,
        PlanLine::TelegramLine => true,
        _ => false,
    }
}

// Whether the line begins a group.
fn begins_group(kind: PlanLine) -> bool
    ensures { result ≡ true → kind ≡ PlanLine.GroupLine }
{
    match kind {
        PlanLine::GroupLine => true,
        _ => false,
    }
}

impl PlanReader {
    /// Before the first line. Takes no memory.
    pub(crate) fn new(alloc: Global) -> PlanReader
        ensures { plan_phase result ≡ Header }
    {
        PlanReader {
            plan: BasePlan::new(alloc),
            stage: PlanStage::First,
        }
    }

    // Reads the first line.
    fn read_first(&mut self, alloc: Global, number: u64, kind: PlanLine) -> Option<PlanEnd>
        ensures { first_line number kind ≡ plan_read self.new result }
    {
        match kind {
            PlanLine::FirstLine => {
                self.plan = BasePlan::new(alloc);
                self.stage = PlanStage::Between;
                None
            }
            _ => Some(PlanEnd::Bad(number, Refusal::BadLine)),
        }
    }

    // Reads a line between groups.
    fn read_between(
        &mut self,
        alloc: Global,
        number: u64,
        kind: PlanLine,
        line: &[u8],
    ) -> Option<PlanEnd>
        ensures { between self.old.plan number kind line.now ≡ plan_read self.new result }
    {
        match kind {
            PlanLine::GroupLine => {
                self.stage = PlanStage::InGroup(number, GroupReader::new(alloc));
                None
            }
            PlanLine::EditsLine => Some(PlanEnd::Edits),
            PlanLine::JournalLine => match read_head(line) {
                Ok(head) => Some(PlanEnd::Journal(number, head)),
                Err(refusal) => Some(PlanEnd::Bad(number, refusal)),
            },
            _ => Some(PlanEnd::Bad(number, Refusal::BadLine)),
        }
    }

    /// Reads the line of this number: the plan goes on after it, or ends there. Memory can run out in a group alone: for
    /// a telegram that is one of the first eight, or for a group that has no fault and ends there.
    pub(crate) fn read(
        &mut self,
        alloc: Global,
        number: u64,
        line: &[u8],
    ) -> Result<Option<PlanEnd>, RunFault>
        ensures ok { IfOk result (λ end. read_line (plan_phase self.old) number line.now ≡ plan_read self.new end) }
        ensures fault { IfErr result (λ e. e ≡ RunFault.OutOfMemory) }
        ensures takes { OnErr result (LineMayRunOut (plan_phase self.old) (is_telegram (plan_line_of line.now))) }
    {
        let kind = read_plan_line(line);
        match &mut self.stage {
            PlanStage::First => Ok(self.read_first(alloc, number, kind)),
            PlanStage::Between => Ok(self.read_between(alloc, number, kind, line)),
            PlanStage::InGroup(group_number, group) => {
                if is_telegram(kind) {
                    return read_telegram(alloc, group, number, line);
                }
                match self.plan.push(mem::replace(group, GroupReader::new(alloc))) {
                    Ok(()) => {
                        if begins_group(kind) {
                            *group_number = number;
                            return Ok(None);
                        }
                        Ok(self.read_between(alloc, number, kind, line))
                    }
                    Err(Refusal::OutOfMemory) => Err(RunFault::OutOfMemory),
                    Err(refusal) => Ok(Some(PlanEnd::Bad(*group_number, refusal))),
                }
            }
        }
    }

    /// The input ends here, before the commands: which line is named, and as what. Memory can run out in a group
    /// alone, for one that has no fault.
    pub(crate) fn end(&mut self, alloc: Global, number: u64) -> Result<(u64, Refusal), RunFault>
        ensures ok { IfOk result (λ bad. (asked : Asked) → at_end asked (plan_phase self.old) number ≡ after_read (Bad bad.0 bad.1)) }
        ensures fault { IfErr result (λ e. e ≡ RunFault.OutOfMemory) }
        ensures takes { OnErr result (EndMayRunOut (plan_phase self.old)) }
    {
        match &mut self.stage {
            PlanStage::First => Ok((number, Refusal::BadLine)),
            PlanStage::Between => Ok((number, Refusal::BadLine)),
            PlanStage::InGroup(group_number, group) => {
                match self.plan.push(mem::replace(group, GroupReader::new(alloc))) {
                    Ok(()) => Ok((number, Refusal::BadLine)),
                    Err(Refusal::OutOfMemory) => Err(RunFault::OutOfMemory),
                    Err(refusal) => Ok((*group_number, refusal)),
                }
            }
        }
    }

    /// The session over the plan, which it takes along. Takes no memory.
    pub(crate) fn session(&mut self, alloc: Global) -> Session
        ensures { result.state ≡ opened self.old.plan }
    {
        self.plan.take(alloc).session(alloc)
    }

    /// The journal over the plan, which it takes along. Takes no memory.
    pub(crate) fn journal(&mut self, alloc: Global, head: Head) -> Result<JournalReader, Refusal>
        ensures { Begins self.old.plan head result }
    {
        match self.plan.take(alloc).opening(alloc, head.next) {
            Ok(opening) => Ok(JournalReader::new(head.version, opening)),
            Err(refusal) => Err(refusal),
        }
    }
}
