//! The plan first read.

ghost use Rattle.std.specs.Prelude.{◌≡◌, [], MatchResult, None, Some};
ghost use Rattle.balise_cli.specs.PlanRead.{Grows};
ghost use Rattle.balise_rules.specs.Opening.{opened_at};
ghost use Rattle.balise_rules.specs.Session.{opened};

use balise_history::{GroupReader, Opening, Plan, Refusal, Session};
use std::alloc::Global;
use std::marker::Model;
use std::mem;

/// The plan first read, while its groups are read. Nothing else was done to it.
#[derive(Drop)]
pub(crate) struct BasePlan {
    plan: Plan,
}

impl Model for BasePlan {
    ghost use Rattle.std.specs.Prelude.{◌≡◌};
    ghost use Rattle.balise_rules.specs.Plan as rules;
    ghost use Rattle.balise_cli.specs.PlanRead.{WasRead};

    ghost Value = { rules.Plan };

    ghost view = { λ p. p.plan.groups };

    ghost invariant = { λ p. (p.plan.changes ≡ 0) × WasRead p.plan.groups };
}

impl BasePlan {
    /// Without groups. Takes no memory.
    pub(crate) fn new(alloc: Global) -> BasePlan
        ensures { result ≡ [] }
    {
        BasePlan {
            plan: Plan::empty(alloc),
        }
    }

    /// Takes the plan out, and leaves one without groups. Takes no memory.
    pub(crate) fn take(&mut self, alloc: Global) -> BasePlan
        ensures { result ≡ self.old }
    {
        mem::replace(self, BasePlan::new(alloc))
    }

    /// Adds a group at the end. A refusal leaves all as it was.
    pub(crate) fn push(&mut self, group: GroupReader) -> Result<(), Refusal>
        ensures { Grows group self.old result self.new }
    {
        self.plan.push_group(group)
    }

    /// The session over it. Takes no memory.
    pub(crate) fn session(self, alloc: Global) -> Session
        ensures { result.state ≡ opened self }
    {
        let BasePlan { plan } = self;
        Session::new(alloc, plan)
    }

    /// A session to be, with the next serial that a journal has. Takes no memory.
    pub(crate) fn opening(self, alloc: Global, next: u32) -> Result<Opening, Refusal>
        ensures { MatchResult result (λ o. opened_at self next ≡ Some o.state) (λ r. (r ≡ Refusal.JournalMismatch) × (opened_at self next ≡ None)) }
    {
        let BasePlan { plan } = self;
        match Opening::new(alloc, plan, next) {
            Ok(opening) => Ok(opening),
            Err(refusal) => Err(refusal),
        }
    }
}
