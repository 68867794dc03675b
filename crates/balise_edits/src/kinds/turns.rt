//! A group turned: done and taken back.

ghost use Rattle.std.specs.Prelude.{◌≡◌, ◌<◌, ◌^◌, IfOk, IsOk};
ghost use Rattle.balise_rules.specs.declared.tagged_edit.TaggedEdit.TheVariants.{TurnGroup};
ghost use Rattle.balise_rules.specs.Notes.{noted};
ghost use Rattle.balise_plan.specs.Held.{DoesAlways};
ghost use Rattle.balise_edits.specs.Notes.{kind_in, note_of, OfGroup};
ghost use Rattle.balise_edits.specs.Standing.{IsLast, TakesBack};

use crate::entry::Entry;
use crate::note::Note;
use balise_plan::Plan;
use balise_rules::{Refusal, Tag};

/// Turns a group, and answers what that notes. Takes no memory.
#[inline]
pub(crate) fn turn(plan: &mut Plan, g: Tag) -> Result<Note, Refusal>
    requires count { plan.old.changes < 2 ^ 63 }
    ensures does { DoesAlways (TurnGroup g) plan.old result plan.new }
    ensures noted { IfOk result (λ m. note_of m ≡ noted (TurnGroup g) plan.old.groups) }
    ensures kind { IfOk result (λ m. kind_in m ≡ OfGroup) }
{
    let own = match plan.group(g) {
        Some(group) => group.identity(),
        None => return Err(Refusal::NoSuchGroup),
    };
    match plan.turn(g) {
        Ok(()) => Ok(Note::Own(own)),
        Err(fault) => Err(fault),
    }
}

/// Turns it back. Takes no memory, and is never refused.
pub(crate) fn turn_back(plan: &mut Plan, entry: &mut Entry, g: Tag) -> Result<(), Refusal>
    requires count { plan.old.changes < 2 ^ 63 }
    requires is { entry.old.0.1 ≡ TurnGroup g }
    requires last { IsLast entry.old plan.old.groups }
    ensures back { TakesBack entry.old plan.old result entry.new plan.new }
    ensures ok { IsOk result }
{
    match plan.turn(g) {
        Ok(()) => Ok(()),
        Err(fault) => Err(fault),
    }
}
