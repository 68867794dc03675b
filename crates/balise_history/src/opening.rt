//! A session read from a journal, line by line.

ghost use Rattle.std.specs.Prelude.{◌≡◌, ◌<◌, ◌^◌, ℕ, IsErrOf, None, Some, MatchResult};
ghost use Rattle.balise_commands.specs.Lines.{line_in};
ghost use Rattle.balise_history.specs.Openings.{EntersSeen, MayComeNext, ReadsEntry, ReadsUndone, StrikesSeen};
ghost use Rattle.balise_history.specs.Tests.{StrikeMayRunOut};
ghost use Rattle.balise_rules.specs.Accepting.{Unused};
ghost use Rattle.balise_rules.specs.Opening.{opened_at};
ghost use Rattle.balise_rules.specs.Plan.{IsSound};

use crate::edited::EditedPlan;
use crate::session::Session;
use balise_edits::{Line, Plan};
use balise_rules::Refusal;
use std::alloc::Global;
use std::marker::Model;

/// The largest next serial of a journal.
const MOST_SERIAL: u32 = 4_000_000_000;

/// A session that is being built from the lines of a journal. The journal isn't kept.
#[derive(Drop)]
pub struct Opening {
    edited: EditedPlan,
}

impl Model for Opening {
    ghost use Rattle.balise_history.specs.Sessions as specs;
    ghost use Rattle.balise_history.specs.Openings.{IsOpening};

    ghost Value = { specs.Seen };

    ghost view = { λ o. specs.seen_at 0 o.edited };

    ghost invariant = { λ o. IsOpening o.edited };
}

impl Opening {
    /// Begins with the plan and the next serial that a journal has. Takes no memory.
    ///
    /// Refused as `JournalMismatch` where the serial isn't from 1 to 4,000,000,000.
    pub fn new(alloc: Global, plan: Plan, next: u32) -> Result<Opening, Refusal>
        requires sound { IsSound plan.groups }
        requires untagged { (n : ℕ) → Unused n plan.groups }
        requires changes { plan.changes < 2 ^ 62 }
        ensures { MatchResult result (λ o. (opened_at plan.groups next ≡ Some o.state) × (o.changes ≡ plan.changes)) (λ r. (r ≡ Refusal.JournalMismatch) × (opened_at plan.groups next ≡ None)) }
    {
        if next == 0 || next > MOST_SERIAL {
            return Err(Refusal::JournalMismatch);
        }
        Ok(Opening {
            edited: EditedPlan::new(alloc, plan, next),
        })
    }

    /// Does the edit of a line that fits: nothing was struck, its serial is above the last one and below the next, the
    /// edit is accepted and notes what the line has.
    ///
    /// Refused as `JournalMismatch` or `OutOfMemory`; then all stays, but an accepted edit that noted something else
    /// stays done. Memory may run out only where the line's serial may come next.
    #[inline(always)]
    pub fn enter(&mut self, line: Line) -> Result<(), Refusal>
        ensures enters { EntersSeen (line_in line) self.old result self.new }
        ensures memory { IsErrOf result Refusal.OutOfMemory → MayComeNext self.old.state line.serial }
    {
        self.edited.entry(line)
    }

    /// Strikes the edit of a serial, where all later ones are independent of it. Refused as `JournalMismatch` or
    /// `OutOfMemory`, and then all is as before. Memory may run out as in `Session::strike`.
    pub fn strike(&mut self, serial: u32) -> Result<(), Refusal>
        ensures strikes { StrikesSeen serial self.old result self.new }
        ensures memory { IsErrOf result Refusal.OutOfMemory → StrikeMayRunOut serial self.old.state.base self.old.state.standing }
    {
        match self.edited.strike(serial) {
            Ok(_) => Ok(()),
            Err(Refusal::OutOfMemory) => Err(Refusal::OutOfMemory),
            Err(_) => Err(Refusal::JournalMismatch),
        }
    }

    /// With the edit of a line done, as `enter` does it. Refused as there, and then it is dropped.
    pub fn entry(mut self, line: Line) -> Result<Opening, Refusal>
        ensures reads { ReadsEntry (line_in line) self result }
        ensures memory { IsErrOf result Refusal.OutOfMemory → MayComeNext self.state line.serial }
    {
        match self.enter(line) {
            Ok(()) => Ok(self),
            Err(refusal) => Err(refusal),
        }
    }

    /// With the edit of a serial struck, as `strike` does it. Refused as there, and then it is dropped.
    pub fn undone(mut self, serial: u32) -> Result<Opening, Refusal>
        ensures reads { ReadsUndone serial self result }
        ensures memory { IsErrOf result Refusal.OutOfMemory → StrikeMayRunOut serial self.state.base self.state.standing }
    {
        match self.strike(serial) {
            Ok(()) => Ok(self),
            Err(refusal) => Err(refusal),
        }
    }

    /// The session. Takes no memory.
    pub fn done(self) -> Session
        ensures { result ≡ self }
    {
        let Opening { edited } = self;
        Session { edited, count: 0 }
    }
}
