//! Edits done, taken back and done again: three tables of the nine kinds.

ghost use Rattle.std.specs.Prelude.{◌≡◌, ◌<◌, ◌^◌, false, true, Some, IfOk, IsOk, IsOkUnless, OnErr, OnOk};
ghost use Rattle.balise_rules.specs.Accepting.{Spelt, Unused};
ghost use Rattle.balise_rules.specs.Back.{back};
ghost use Rattle.balise_rules.specs.Doing.{done};
ghost use Rattle.balise_rules.specs.Notes.{noted, without_content};
ghost use Rattle.balise_rules.specs.Session.{back_needs_no_memory, needs_no_memory};
ghost use Rattle.balise_plan.specs.Held.{DoesAlways};
ghost use Rattle.balise_edits.specs.Edits.{edit_of};
ghost use Rattle.balise_edits.specs.Notes.{note_of, takes_out, Suits};
ghost use Rattle.balise_edits.specs.Standing.{changed_to, Applies, DoesAgain, DoesItem, IsLast, IsNext, TakesBack};

use crate::edit::Edit;
use crate::entry::{Entry, placed};
use crate::kinds::{fields, groups, names, packets, turns};
use crate::note::Note;
use balise_plan::Plan;
use balise_rules::Refusal;

/// Does an edit under a serial, and answers its entry. A refused edit is dropped, and the plan stays as it was. A group is
/// put in under a serial up to 4,001,000,000, the largest that a session gives; for a larger one it is `OutOfMemory`.
#[inline(always)]
pub fn apply(plan: &mut Plan, edit: Edit, serial: u32) -> Result<Entry, Refusal>
    requires count { plan.old.changes < 2 ^ 63 }
    requires new { Unused serial plan.old.groups }
    requires spelt { Spelt (edit_of edit) plan.old.groups }
    ensures { Applies (serial, edit_of edit) plan.old result plan.new }
{
    let mut done = placed(plan.allocator(), edit)?;
    match noted(plan, &done.edit, serial) {
        Ok(note) => {
            done.note = note;
            Ok(Entry::new(serial, done))
        }
        Err(fault) => Err(fault),
    }
}

/// Takes an entry's edit back, where it was the last one. The entry keeps all but what was taken out of the plan, which
/// stands there again. Refused only as out of memory, and then nothing has changed.
pub fn take_back(plan: &mut Plan, entry: &mut Entry) -> Result<(), Refusal>
    requires count { plan.old.changes < 2 ^ 63 }
    requires last { IsLast entry.old plan.old.groups }
    ensures back { OnOk result (plan.new ≡ changed_to (back entry.old.0 entry.old.1 plan.old.groups) plan.old) }
    ensures entry { OnOk result (entry.new ≡ (entry.old.0, without_content entry.old.1)) }
    ensures fault { IsOkUnless result Refusal.OutOfMemory }
    ensures left { OnErr result (plan.new ≡ plan.old) }
    ensures entry_left { OnErr result (entry.new ≡ entry.old) }
    ensures always { back_needs_no_memory (Some entry.old.0) ≡ true → IsOk result }
{
    match back(plan, entry) {
        Ok(()) => Ok(()),
        Err(fault) => Err(fault),
    }
}

/// Does an entry's edit again, where it is the next one. The entry is as it was when the edit stood. Refused only as out
/// of memory, and then nothing has changed.
pub fn again(plan: &mut Plan, entry: &mut Entry) -> Result<(), Refusal>
    requires count { plan.old.changes < 2 ^ 63 }
    requires next { IsNext entry.old plan.old.groups }
    ensures done { OnOk result (plan.new ≡ changed_to (done entry.old.0 plan.old.groups) plan.old) }
    ensures entry { OnOk result (entry.new ≡ (entry.old.0, noted entry.old.0.1 plan.old.groups)) }
    ensures fault { IsOkUnless result Refusal.OutOfMemory }
    ensures left { OnErr result (plan.new ≡ plan.old) }
    ensures entry_left { OnErr result (entry.new ≡ entry.old) }
    ensures always { needs_no_memory (Some entry.old.0) ≡ true → IsOk result }
{
    match once_more(plan, entry) {
        Ok(()) => Ok(()),
        Err(fault) => Err(fault),
    }
}

// Does an edit, and answers what it notes.
#[inline(always)]
fn noted(plan: &mut Plan, edit: &Edit, serial: u32) -> Result<Note, Refusal>
    requires count { plan.old.changes < 2 ^ 63 }
    requires new { Unused serial plan.old.groups }
    requires spelt { Spelt (edit_of edit.now) plan.old.groups }
    ensures does { DoesItem (serial, edit_of edit.now) plan.old result plan.new }
    ensures noted { IfOk result (λ m. note_of m ≡ noted (edit_of edit.now) plan.old.groups) }
    ensures suits { IfOk result (λ m. Suits (edit_of edit.now) m) }
    ensures always { needs_no_memory (Some (serial, edit_of edit.now)) ≡ true → DoesAlways (edit_of edit.now) plan.old result plan.new }
{
    let alloc = plan.allocator();
    match *edit {
        Edit::SetVar {
            g,
            t,
            p,
            var,
            k,
            value,
        } => fields::set_var(plan, g, t, p, var, k, value),
        Edit::SetHead { g, t, var, value } => fields::set_head(plan, g, t, var, value),
        Edit::InsertPacket {
            g,
            t,
            after,
            ref packet,
        } => packets::insert(alloc, plan, serial, g, t, after, packet),
        Edit::DeletePacket { g, t, p } => packets::delete(alloc, plan, g, t, p),
        Edit::MovePacket { g, t, p, after } => packets::shift(plan, g, t, p, after),
        Edit::AddGroup {
            after,
            ref telegrams,
        } => groups::add(plan, serial, after, telegrams),
        Edit::DropGroup { g } => groups::drop_group(alloc, plan, g),
        Edit::Renumber { g, number } => names::renumber(plan, g, number),
        Edit::TurnGroup { g } => turns::turn(plan, g),
    }
}

// Takes an entry's edit back.
fn back(plan: &mut Plan, entry: &mut Entry) -> Result<(), Refusal>
    requires count { plan.old.changes < 2 ^ 63 }
    requires last { IsLast entry.old plan.old.groups }
    ensures back { TakesBack entry.old plan.old result entry.new plan.new }
    ensures always { back_needs_no_memory (Some entry.old.0) ≡ true → IsOk result }
{
    match *entry.edit() {
        Edit::SetVar {
            g,
            t,
            p,
            var,
            k,
            ..
        } => fields::set_var_back(plan, entry, g, t, p, var, k),
        Edit::SetHead { g, t, var, .. } => fields::set_head_back(plan, entry, g, t, var),
        Edit::InsertPacket { g, t, .. } => packets::insert_back(plan, entry, g, t),
        Edit::DeletePacket { g, t, p } => packets::delete_back(plan, entry, g, t, p),
        Edit::MovePacket { g, t, p, .. } => packets::shift_back(plan, entry, g, t, p),
        Edit::AddGroup { .. } => groups::add_back(plan, entry),
        Edit::DropGroup { g } => groups::drop_back(plan, entry, g),
        Edit::Renumber { g, .. } => names::renumber_back(plan, entry, g),
        Edit::TurnGroup { g } => turns::turn_back(plan, entry, g),
    }
}

// Does an entry's edit again.
fn once_more(plan: &mut Plan, entry: &mut Entry) -> Result<(), Refusal>
    requires count { plan.old.changes < 2 ^ 63 }
    requires next { IsNext entry.old plan.old.groups }
    ensures again { DoesAgain entry.old plan.old result entry.new plan.new }
    ensures always { needs_no_memory (Some entry.old.0) ≡ true → IsOk result }
{
    match *entry.edit() {
        Edit::InsertPacket { .. } => packets::insert_again(plan, entry),
        Edit::DeletePacket { g, t, p } => packets::delete_again(plan, entry, g, t, p),
        Edit::AddGroup { .. } => groups::add_again(plan, entry),
        Edit::DropGroup { g } => groups::drop_again(plan, entry, g),
        _ => repeated(plan, entry),
    }
}

// Does an entry's edit again that takes nothing out. What it notes is what the entry has.
fn repeated(plan: &mut Plan, entry: &Entry) -> Result<(), Refusal>
    requires count { plan.old.changes < 2 ^ 63 }
    requires next { IsNext entry.now plan.old.groups }
    requires bare { takes_out entry.now.0.1 ≡ false }
    ensures again { DoesAgain entry.now plan.old result entry.now plan.new }
    ensures always { needs_no_memory (Some entry.now.0) ≡ true → IsOk result }
{
    if let Err(fault) = noted(plan, entry.edit(), entry.serial()) {
        return Err(fault);
    }
    Ok(())
}
