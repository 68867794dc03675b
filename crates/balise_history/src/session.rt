//! A session: commands on a plan, undo, redo and strike in place.

ghost use Rattle.std.specs.Prelude.{◌≡◌, ◌≢◌, ◌+◌, ◌<◌, ◌≤◌, ◌^◌, [], ℕ, length, map, nat_le, Err, IfErr, IfNone, IfOk, IfSome, IsErrOf, IsOkUnless, Ok};
ghost use Rattle.balise_commands.specs.Lines.{line_in};
ghost use Rattle.balise_commands.specs.Commands.{command_of};
ghost use Rattle.balise_history.specs.Dependents.{dependents_of};
ghost use Rattle.balise_history.specs.Openings.{FailsAt};
ghost use Rattle.balise_history.specs.Returned.{bare};
ghost use Rattle.balise_history.specs.Sessions.{reply_of, ChangesOnce, IsWorn};
ghost use Rattle.balise_history.specs.Tests.{StrikeMayRunOut};
ghost use Rattle.balise_rules.specs.Accepting.{Unused};
ghost use Rattle.balise_rules.specs.Journal.{all_back, line_of, lines, undone};
ghost use Rattle.balise_rules.specs.Opening.{from_entries};
ghost use Rattle.balise_rules.specs.Plan.{IsSound};
ghost use Rattle.balise_rules.specs.Session.{entries, held, later, most_commands, opened, Answers};
ghost use Rattle.balise_rules.specs.Session as rules;

use crate::edited::EditedPlan;
use crate::journal_fault::JournalFault;
use crate::opening::Opening;
use crate::struck::Struck;
use balise_edits::{Command, Entry, Line, Plan};
use balise_rules::Refusal;
use std::alloc::Global;
use std::marker::Model;

/// How many commands a session takes.
const MOST_COMMANDS: u32 = 1_000_000;

/// A session over a plan. Its plan is at every moment what the standing edits, in order, make of the plan first read.
#[derive(Drop)]
pub struct Session {
    pub(crate) edited: EditedPlan,
    pub(crate) count: u32,
}

impl Model for Session {
    ghost use Rattle.balise_history.specs.Sessions as specs;

    ghost Value = { specs.Seen };

    ghost view = { λ s. specs.seen_at s.count s.edited };

    ghost invariant = { λ s. specs.IsWithin s.edited s.count };
}

// The lines of entries.
fn lines_of(alloc: Global, entries: &[Entry]) -> Result<Vec<Line>, Refusal>
    ensures ok { IfOk result (λ v. map line_in v.items ≡ map line_of entries.now) }
    ensures fault { IsOkUnless result Refusal.OutOfMemory }
{
    let mut lines = Vec::new(alloc);
    for entry in entries {
        lines.push(entry.line()?)?;
    }
    Ok(lines)
}

impl Session {
    /// A session over a plan. Takes no memory.
    pub fn new(alloc: Global, plan: Plan) -> Session
        requires sound { IsSound plan.groups }
        requires untagged { (n : ℕ) → Unused n plan.groups }
        requires changes { plan.changes < 2 ^ 62 }
        ensures { result ≡ record { state = opened plan.groups; changes = plan.changes } }
    {
        Session {
            edited: EditedPlan::new(alloc, plan, 1),
            count: 0,
        }
    }

    /// The session of a journal: of its next serial, and of its lines done in order. Each line is one change of the
    /// plan.
    ///
    /// Refused as `JournalMismatch`: with no place if the next serial isn't from 1 to 4,000,000,000, otherwise at the
    /// first line that doesn't fit. Or refused as `OutOfMemory`, at a line.
    pub fn from_entries(
        alloc: Global,
        plan: Plan,
        next: u32,
        lines: Vec<Line>,
    ) -> Result<Session, JournalFault>
        requires sound { IsSound plan.groups }
        requires untagged { (n : ℕ) → Unused n plan.groups }
        requires changes { plan.changes < 2 ^ 62 }
        ensures ok { IfOk result (λ s. from_entries plan.groups next (map line_in lines.items) ≡ Ok s.state) }
        ensures changes { IfOk result (λ s. s.changes ≡ plan.changes + length lines.items) }
        ensures fault { IfErr result (FailsAt plan.groups next (map line_in lines.items)) }
    {
        let mut opening = match Opening::new(alloc, plan, next) {
            Ok(opening) => opening,
            Err(refusal) => return Err(JournalFault { at: None, refusal }),
        };
        let mut place = 0;
        for line in lines {
            match opening.entry(line) {
                Ok(more) => opening = more,
                Err(refusal) => {
                    return Err(JournalFault {
                        at: Some(place),
                        refusal,
                    });
                }
            }
            place += 1;
        }
        Ok(opening.done())
    }

    /// Does an edit and answers its serial. What was undone or struck can't be done again then.
    ///
    /// Refused in this order: `Worn`; the faults of the command's address and digits; those of the edit. `OutOfMemory`
    /// may stand in place of any answer. A refused command changes nothing, here and in the calls below.
    pub fn edit(&mut self, command: Command) -> Result<u32, Refusal>
        ensures answers { Answers (rules.Ask (command_of command)) self.old.state (reply_of rules.Done result) self.new.state }
        ensures changes { ChangesOnce self.old self.new }
        ensures worn { IsWorn self.old.state → result ≡ Err Refusal.Worn }
    {
        if self.count >= MOST_COMMANDS {
            return Err(Refusal::Worn);
        }
        let serial = self.edited.edit(command)?;
        self.count += 1;
        Ok(serial)
    }

    /// Takes the last standing edit back and answers its serial.
    ///
    /// Refused in this order: `Worn`, `NothingToUndo`, or as `OutOfMemory`.
    pub fn undo(&mut self) -> Result<u32, Refusal>
        ensures answers { Answers rules.Undo self.old.state (reply_of rules.Undone result) self.new.state }
        ensures changes { ChangesOnce self.old self.new }
        ensures worn { IsWorn self.old.state → result ≡ Err Refusal.Worn }
    {
        if self.count >= MOST_COMMANDS {
            return Err(Refusal::Worn);
        }
        let serial = self.edited.undo()?;
        self.count += 1;
        Ok(serial)
    }

    /// Does the edit that was undone or struck last again, at its own place, and answers its serial.
    ///
    /// Refused in this order: `Worn`, `NothingToRedo`, or as `OutOfMemory`.
    pub fn redo(&mut self) -> Result<u32, Refusal>
        ensures answers { Answers rules.Redo self.old.state (reply_of rules.Redone result) self.new.state }
        ensures changes { ChangesOnce self.old self.new }
        ensures worn { IsWorn self.old.state → result ≡ Err Refusal.Worn }
    {
        if self.count >= MOST_COMMANDS {
            return Err(Refusal::Worn);
        }
        let serial = self.edited.redo()?;
        self.count += 1;
        Ok(serial)
    }

    /// Takes the standing edit of a serial back, where all later ones are independent of it.
    ///
    /// Refused in this order: `Worn`, `NoSuchEdit`, `DependsOn` with the serial of the first later edit that isn't
    /// independent. Memory may run out only before such an edit is met.
    pub fn strike(&mut self, serial: u32) -> Result<Struck, Refusal>
        ensures answers { Answers (rules.Strike serial) self.old.state (reply_of (λ s. rules.Struck s.serial) result) self.new.state }
        ensures memory { IsErrOf result Refusal.OutOfMemory → StrikeMayRunOut serial self.old.state.base self.old.state.standing }
        ensures compared { IfOk result (λ s. s.compared ≡ length (later serial (entries self.old.state.base self.old.state.standing))) }
        ensures changes { ChangesOnce self.old self.new }
        ensures worn { IsWorn self.old.state → result ≡ Err Refusal.Worn }
    {
        if self.count >= MOST_COMMANDS {
            return Err(Refusal::Worn);
        }
        let struck = self.edited.strike(serial)?;
        self.count += 1;
        Ok(struck)
    }

    /// The serials of the later standing edits that depend on the standing edit of a serial, in order. Where there is none,
    /// a strike of it isn't refused as `DependsOn`. Refused as `NoSuchEdit`, or as `OutOfMemory`.
    pub fn dependents(&self, serial: u32) -> Result<Vec<u32>, Refusal>
        ensures ok { IfOk result (λ v. dependents_of serial (entries self.now.state.base self.now.state.standing) ≡ Ok v.items) }
        ensures fault { IfErr result (λ r. r ≢ Refusal.OutOfMemory → dependents_of serial (entries self.now.state.base self.now.state.standing) ≡ Err r) }
    {
        self.edited.dependents(serial)
    }

    /// Whether 1,000,000 commands were accepted, and each further one is refused as `Worn`.
    pub fn is_worn(&self) -> bool
        ensures { result ≡ nat_le most_commands self.now.state.count }
    {
        self.count >= MOST_COMMANDS
    }

    /// The plan that the standing edits make of the plan first read.
    pub fn plan(&self) -> &Plan
        ensures { result.now ≡ record { groups = held self.now.state; changes = self.now.changes } }
    {
        let edited = &self.edited;
        &edited.plan
    }

    /// The standing edits with what they noted, by rising serial.
    pub fn standing(&self) -> &[Entry]
        ensures { result.now ≡ entries self.now.state.base self.now.state.standing }
    {
        let edited = &self.edited;
        edited.history.standing()
    }

    /// The lines of its journal: those of `all_back`. Refused as `OutOfMemory` alone.
    pub fn lines(&self) -> Result<Vec<Line>, Refusal>
        ensures ok { IfOk result (λ v. map line_in v.items ≡ lines self.now.state) }
        ensures fault { IsOkUnless result Refusal.OutOfMemory }
    {
        let alloc = self.edited.history.allocator();
        if let Some(entries) = self.all_standing() {
            return lines_of(alloc, entries);
        }
        let entries = self.all_back()?;
        lines_of(alloc, &entries)
    }

    /// The standing edits, where nothing is undone or struck: its journal says only these. Takes no memory.
    pub fn all_standing(&self) -> Option<&[Entry]>
        ensures some { IfSome result (λ es. self.now.state.stack ≡ []) }
        ensures none { IfNone result (self.now.state.stack ≢ []) }
        ensures entries { IfSome result (λ es. map line_of es.now ≡ lines self.now.state) }
    {
        let edited = &self.edited;
        match edited.history.top() {
            Some(_) => None,
            None => Some(self.standing()),
        }
    }

    /// The edits that its journal says: those that would stand if all that was undone or struck were done again, with
    /// the anchors and notes that they would have, but for the content that they would take out. Refused only as
    /// `OutOfMemory`.
    pub fn all_back(&self) -> Result<Vec<Entry>, Refusal>
        ensures entries { IfOk result (λ v. map bare v.items ≡ map bare (entries self.now.state.base (all_back self.now.state.stack self.now.state.standing))) }
        ensures ok { IfOk result (λ v. map line_of v.items ≡ lines self.now.state) }
        ensures fault { IsOkUnless result Refusal.OutOfMemory }
    {
        let edited = &self.edited;
        edited.history.all_back()
    }

    /// The serials of the edits that were undone or struck, the last one last. Refused as `OutOfMemory` alone.
    pub fn undone(&self) -> Result<Vec<u32>, Refusal>
        ensures ok { IfOk result (λ v. v.items ≡ undone self.now.state) }
        ensures fault { IsOkUnless result Refusal.OutOfMemory }
    {
        let edited = &self.edited;
        edited.history.undone()
    }

    /// The serial that the next edit gets.
    pub fn next_serial(&self) -> u32
        ensures { result ≡ self.now.state.serial }
    {
        let edited = &self.edited;
        edited.next
    }
}
