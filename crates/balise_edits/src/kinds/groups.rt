//! A group put in or taken out: done, taken back and done again.

ghost use Rattle.std.specs.Prelude.{◌≡◌, ◌<◌, ◌^◌, Bool, List, Option, Ok, IfOk, IsOk, IsOkUnless};
ghost use Rattle.balise_rules.specs.declared.tag.Tag.{Tag};
ghost use Rattle.balise_rules.specs.Accepting.{Unused};
ghost use Rattle.balise_rules.specs.declared.tagged_edit.TaggedEdit.TheVariants.{AddGroup, DropGroup};
ghost use Rattle.balise_rules.specs.Notes.{noted};
ghost use Rattle.balise_rules.specs.Plan.{read_group, IsSoundGroup};
ghost use Rattle.balise_rules.specs.Plan.{Plan as Groups};
ghost use Rattle.balise_edits.specs.Notes.{kind_in, kind_of, note_of, OfAddition, OfRemoval};
ghost use Rattle.balise_edits.specs.Standing.{DoesAgain, DoesItem, IsLast, IsNext, TakesBack};

use crate::copying::copy_telegrams;
use crate::edit::Edit;
use crate::entry::Entry;
use crate::naming::names_of_group;
use crate::note::Note;
use balise_plan::{Bits, Group, Plan, Spot};
use balise_rules::{Refusal, Tag};
use std::alloc::Global;

/// Puts the group of these telegrams in after an anchor, under the tag of a serial, and answers what that notes.
pub(crate) fn add(
    plan: &mut Plan,
    serial: u32,
    after: Option<Tag>,
    telegrams: &Vec<Bits>,
) -> Result<Note, Refusal>
    requires count { plan.old.changes < 2 ^ 63 }
    requires new { Unused serial plan.old.groups }
    ensures does { DoesItem (serial, AddGroup after telegrams.now.items) plan.old result plan.new }
    ensures noted { IfOk result (λ m. note_of m ≡ noted (AddGroup after telegrams.now.items) plan.old.groups) }
    ensures kind { IfOk result (λ m. kind_in m ≡ OfAddition) }
{
    if let Some(anchor) = after {
        if plan.group(anchor).is_none() {
            return Err(Refusal::NoSuchGroup);
        }
    }
    let alloc = *telegrams.allocator();
    let group = match Group::read(alloc, copy_telegrams(telegrams)?) {
        Ok(group) => group,
        Err(fault) => return Err(fault),
    };
    let note = note_added(alloc, &group)?;
    put_after(plan, serial, after, group)?;
    Ok(note)
}

// What adding a group notes, whatever the plan.
fn note_added(alloc: Global, group: &Group) -> Result<Note, Refusal>
    ensures noted { IfOk result (λ m. (a : Option Tag) → (bs : List (List Bool)) → (plan : Groups) → read_group bs ≡ Ok group.now → note_of m ≡ noted (AddGroup a bs) plan) }
    ensures kind { IfOk result (λ m. kind_in m ≡ OfAddition) }
    ensures fault { IsOkUnless result Refusal.OutOfMemory }
{
    let own = group.identity();
    let names = names_of_group(alloc, group)?;
    let note = Note::of_addition(alloc, own, names)?;
    Ok(note)
}

// Puts this group in; where it is refused, it is dropped.
fn put_after(plan: &mut Plan, serial: u32, after: Option<Tag>, group: Group) -> Result<(), Refusal>
    requires count { plan.old.changes < 2 ^ 63 }
    requires new { Unused serial plan.old.groups }
    requires sound { IsSoundGroup group }
    ensures { (bs : List (List Bool)) → read_group bs ≡ Ok group → DoesItem (serial, AddGroup after bs) plan.old result plan.new }
{
    match plan.put_group(Spot::After(after), Tag::Fresh(serial), group) {
        Ok(()) => Ok(()),
        Err((fault, _group)) => Err(fault),
    }
}

/// Takes it out again. Takes no memory, and is never refused.
pub(crate) fn add_back(plan: &mut Plan, entry: &mut Entry) -> Result<(), Refusal>
    requires count { plan.old.changes < 2 ^ 63 }
    requires is { (a : Option Tag) × (bs : List (List Bool)) × (entry.old.0.1 ≡ AddGroup a bs) }
    requires last { IsLast entry.old plan.old.groups }
    ensures back { TakesBack entry.old plan.old result entry.new plan.new }
    ensures ok { IsOk result }
{
    if let Err(fault) = plan.take_group(Tag::Fresh(entry.serial())) {
        return Err(fault);
    }
    Ok(())
}

/// Puts it in again, and is refused only as out of memory.
pub(crate) fn add_again(plan: &mut Plan, entry: &mut Entry) -> Result<(), Refusal>
    requires count { plan.old.changes < 2 ^ 63 }
    requires is { kind_of entry.old.0.1 ≡ OfAddition }
    requires next { IsNext entry.old plan.old.groups }
    ensures { DoesAgain entry.old plan.old result entry.new plan.new }
{
    let (after, telegrams) = match entry.edit() {
        Edit::AddGroup { after, telegrams } => (*after, copy_telegrams(telegrams)?),
        _ => return Ok(()),
    };
    // They were read before, so only an allocation can fail.
    let Ok(group) = Group::read(plan.allocator(), telegrams) else {
        return Err(Refusal::OutOfMemory);
    };
    match put_after(plan, entry.serial(), after, group) {
        Ok(()) => Ok(()),
        Err(fault) => Err(fault),
    }
}

/// Takes a group out, and answers what that notes.
pub(crate) fn drop_group(alloc: Global, plan: &mut Plan, g: Tag) -> Result<Note, Refusal>
    requires count { plan.old.changes < 2 ^ 63 }
    ensures does { DoesItem (0, DropGroup g) plan.old result plan.new }
    ensures noted { IfOk result (λ m. note_of m ≡ noted (DropGroup g) plan.old.groups) }
    ensures kind { IfOk result (λ m. kind_in m ≡ OfRemoval) }
{
    let (own, names) = match plan.group(g) {
        Some(group) => (group.identity(), names_of_group(alloc, group)?),
        None => return Err(Refusal::NoSuchGroup),
    };
    let mut note = Note::of_removal(alloc, own, names)?;
    match plan.take_group(g) {
        Ok((group, before)) => {
            note.set_taken_group(group, before);
            Ok(note)
        }
        Err(fault) => Err(fault),
    }
}

/// Puts it back in front of its old next neighbour, and is refused only as out of memory.
pub(crate) fn drop_back(plan: &mut Plan, entry: &mut Entry, g: Tag) -> Result<(), Refusal>
    requires count { plan.old.changes < 2 ^ 63 }
    requires is { entry.old.0.1 ≡ DropGroup g }
    requires last { IsLast entry.old plan.old.groups }
    ensures { TakesBack entry.old plan.old result entry.new plan.new }
{
    let before = entry.note().before();
    let Some(group) = entry.take_group() else {
        return Ok(());
    };
    match plan.put_group(Spot::Before(before), g, group) {
        Ok(()) => Ok(()),
        Err((fault, group)) => {
            entry.keep_group(group);
            Err(fault)
        }
    }
}

/// Takes it out again, and is refused only as out of memory.
pub(crate) fn drop_again(plan: &mut Plan, entry: &mut Entry, g: Tag) -> Result<(), Refusal>
    requires count { plan.old.changes < 2 ^ 63 }
    requires is { entry.old.0.1 ≡ DropGroup g }
    requires next { IsNext entry.old plan.old.groups }
    ensures { DoesAgain entry.old plan.old result entry.new plan.new }
{
    match plan.take_group(g) {
        Ok((group, _before)) => {
            entry.keep_group(group);
            Ok(())
        }
        Err(fault) => Err(fault),
    }
}
