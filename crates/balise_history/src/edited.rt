//! A plan with the entries that made it: done, undone, struck and done again, before anything is counted.

mod journal_entry;

ghost use Rattle.std.specs.Prelude.{◌≡◌, ◌≢◌, ◌+◌, ◌<◌, ◌≤◌, ◌^◌, [], ℕ, length, Err, IfErr, IfOk, IsErrOf, Ok, OnOk};
ghost use Rattle.balise_commands.specs.Commands.{command_of};
ghost use Rattle.balise_history.specs.Dependents.{dependents_of};
ghost use Rattle.balise_history.specs.Held.{Answered, state_at};
ghost use Rattle.balise_history.specs.Tests.{StrikeMayRunOut};
ghost use Rattle.balise_rules.specs.Accepting.{Unused};
ghost use Rattle.balise_rules.specs.Plan.{IsSound};
ghost use Rattle.balise_rules.specs.Session.{entries, later};
ghost use Rattle.balise_rules.specs.Session as rules;
ghost use Rattle.balise_strike_laws.specs.Headline.{Promised};

use crate::dependents::{dependents_of, serials_behind};
use crate::history::{History, place_of};
use crate::resolving::edit_asked;
use crate::struck::Struck;
use balise_edits::{Command, Plan, apply};
use balise_rules::Refusal;
use balise_strike_laws::sessions_promised;
use std::alloc::Global;
use std::marker::Model;

/// A plan, the entries that made it and those undone or struck, and the next serial.
#[derive(Drop)]
pub(crate) struct EditedPlan {
    pub(crate) plan: Plan,
    pub(crate) history: History,
    pub(crate) next: u32,
}

impl Model for EditedPlan {
    ghost use Rattle.balise_history.specs.Held as specs;

    ghost Value = { specs.Edited };

    ghost view = { λ p. specs.seen p.plan.groups p.history.standing p.history.stack p.next p.plan.changes };

    ghost invariant = { λ p. specs.IsHeld p.plan.groups p.history.standing p.history.stack p.next };
}

impl EditedPlan {
    /// A plan that nothing was done to. Takes no memory.
    pub(crate) fn new(alloc: Global, plan: Plan, next: u32) -> EditedPlan
        requires sound { IsSound plan.groups }
        requires untagged { (n : ℕ) → Unused n plan.groups }
        requires first { 1 ≤ next }
        ensures { result ≡ record { base = plan.groups; standing = []; stack = []; serial = next; changes = plan.changes } }
    {
        EditedPlan {
            plan,
            history: History::new(alloc),
            next,
        }
    }

    /// What it promises as a session, whatever is counted.
    pub(crate) fn promise(&self)
        ensures { (n : ℕ) → Promised self.now.base (state_at n self.now) }
    {
        // The proof takes the invariant here, where a field is lent: the law requires it.
        let _next = &self.next;
        sessions_promised();
    }

    /// Does the edit that a command asks for, under the next serial, and answers that.
    pub(crate) fn edit(&mut self, command: Command) -> Result<u32, Refusal>
        requires changes { self.old.changes < 2 ^ 63 }
        requires serial { self.old.serial + 1 < 2 ^ 32 }
        ensures { Answered (rules.Ask (command_of command)) rules.Done self.old result self.new }
    {
        let edit = edit_asked(command, &self.plan)?;
        self.history.reserve()?;
        let serial = self.next;
        let entry = apply(&mut self.plan, edit, serial)?;
        self.history.push(entry);
        self.next += 1;
        Ok(serial)
    }

    /// Takes the last standing edit back and answers its serial.
    pub(crate) fn undo(&mut self) -> Result<u32, Refusal>
        requires { self.old.changes < 2 ^ 63 }
        ensures { Answered rules.Undo rules.Undone self.old result self.new }
    {
        let standing = self.history.standing();
        let count = standing.len();
        if count == 0 {
            return Err(Refusal::NothingToUndo);
        }
        let serial = standing[count - 1].serial();
        let behind = Vec::new(self.history.allocator());
        self.history.take_out(&mut self.plan, count - 1, behind)?;
        Ok(serial)
    }

    /// Does the edit that was undone or struck last again, at its own place, and answers its serial.
    pub(crate) fn redo(&mut self) -> Result<u32, Refusal>
        requires { self.old.changes < 2 ^ 63 }
        ensures { Answered rules.Redo rules.Redone self.old result self.new }
    {
        let Some(serial) = self.history.top() else {
            return Err(Refusal::NothingToRedo);
        };
        let place = place_of(self.history.standing(), serial);
        self.history.put_back(&mut self.plan, place)?;
        Ok(serial)
    }

    /// Takes the standing edit of a serial back, where all later ones are independent of it.
    pub(crate) fn strike(&mut self, serial: u32) -> Result<Struck, Refusal>
        requires { self.old.changes < 2 ^ 63 }
        ensures answers { Answered (rules.Strike serial) (λ s. rules.Struck s.serial) self.old result self.new }
        ensures compared { IfOk result (λ s. s.compared ≡ length (later serial (entries self.old.base self.old.standing))) }
        ensures few { OnOk result (length self.new.standing + length self.new.stack < self.new.serial) }
        ensures memory { IsErrOf result Refusal.OutOfMemory → StrikeMayRunOut serial self.old.base self.old.standing }
    {
        let standing = self.history.standing();
        let place = place_of(standing, serial);
        if place >= standing.len() {
            return Err(Refusal::NoSuchEdit);
        }
        let entry = &standing[place];
        if entry.serial() != serial {
            return Err(Refusal::NoSuchEdit);
        }
        let later = &standing[place + 1..];
        let compared = later.len();
        let homes = &self.history.homes()[place + 1..];
        let behind = serials_behind(self.history.allocator(), entry, later, homes)?;
        self.history.take_out(&mut self.plan, place, behind)?;
        Ok(Struck { serial, compared })
    }

    /// The serials of the later standing edits that depend on the standing edit of a serial, in order.
    pub(crate) fn dependents(&self, serial: u32) -> Result<Vec<u32>, Refusal>
        ensures ok { IfOk result (λ v. dependents_of serial (entries self.now.base self.now.standing) ≡ Ok v.items) }
        ensures fault { IfErr result (λ r. r ≢ Refusal.OutOfMemory → dependents_of serial (entries self.now.base self.now.standing) ≡ Err r) }
    {
        let standing = self.history.standing();
        let homes = self.history.homes();
        dependents_of(self.history.allocator(), standing, homes, serial)
    }
}
