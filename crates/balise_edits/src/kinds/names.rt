//! A group renumbered: done and taken back.

ghost use Rattle.std.specs.Prelude.{◌≡◌, ◌<◌, ◌^◌, ℕ, IfOk};
ghost use Rattle.balise_rules.specs.declared.tagged_edit.TaggedEdit.TheVariants.{Renumber};
ghost use Rattle.balise_rules.specs.Notes.{noted};
ghost use Rattle.balise_plan.specs.Held.{Does};
ghost use Rattle.balise_edits.specs.Notes.{kind_in, note_of, OfGroup};
ghost use Rattle.balise_edits.specs.Standing.{IsLast, TakesBack};

use crate::entry::Entry;
use crate::note::Note;
use balise_plan::Plan;
use balise_rules::{Refusal, Tag};

/// Gives a group another number, and answers what that notes.
#[inline]
pub(crate) fn renumber(plan: &mut Plan, g: Tag, number: u32) -> Result<Note, Refusal>
    requires count { plan.old.changes < 2 ^ 63 }
    ensures does { Does (Renumber g number) plan.old result plan.new }
    ensures noted { IfOk result (λ m. note_of m ≡ noted (Renumber g number) plan.old.groups) }
    ensures kind { IfOk result (λ m. kind_in m ≡ OfGroup) }
{
    let own = match plan.group(g) {
        Some(group) => group.identity(),
        None => return Err(Refusal::NoSuchGroup),
    };
    match plan.rename(g, number) {
        Ok(_) => Ok(Note::Own(own)),
        Err(fault) => Err(fault),
    }
}

/// Gives it its old number back, and is refused only as out of memory.
pub(crate) fn renumber_back(plan: &mut Plan, entry: &mut Entry, g: Tag) -> Result<(), Refusal>
    requires count { plan.old.changes < 2 ^ 63 }
    requires is { (number : ℕ) × (entry.old.0.1 ≡ Renumber g number) }
    requires last { IsLast entry.old plan.old.groups }
    ensures { TakesBack entry.old plan.old result entry.new plan.new }
{
    let old = entry.note().old();
    match plan.rename(g, old) {
        Ok(_) => Ok(()),
        Err(fault) => Err(fault),
    }
}
