//! Fields set: done and taken back.

ghost use Rattle.std.specs.Prelude.{◌≡◌, ◌<◌, ◌^◌, ℕ, false, IfOk, IsOk};
ghost use Rattle.balise_rules.specs.declared.variable.Var.TheVariants.{NidBg};
ghost use Rattle.balise_rules.specs.declared.tagged_edit.TaggedEdit.TheVariants.{SetHead, SetVar};
ghost use Rattle.balise_rules.specs.Tags.{same_var};
ghost use Rattle.balise_rules.specs.Notes.{noted};
ghost use Rattle.balise_plan.specs.Held.{Does, DoesAlways};
ghost use Rattle.balise_edits.specs.Notes.{kind_in, note_of, OfField, OfHeader};
ghost use Rattle.balise_edits.specs.Standing.{IsLast, TakesBack};

use crate::entry::Entry;
use crate::naming::names_set;
use crate::note::Note;
use balise_plan::Plan;
use balise_rules::{Refusal, Tag, Var};

/// Sets a field of a packet, and answers what that notes. Where two identities are noted, the place for them is made
/// before the plan is changed.
#[inline]
pub(crate) fn set_var(
    plan: &mut Plan,
    g: Tag,
    t: u32,
    p: Tag,
    var: Var,
    k: u32,
    value: u32,
) -> Result<Note, Refusal>
    requires count { plan.old.changes < 2 ^ 63 }
    ensures does { Does (SetVar g t p var k value) plan.old result plan.new }
    ensures always { same_var var NidBg ≡ false → DoesAlways (SetVar g t p var k value) plan.old result plan.new }
    ensures noted { IfOk result (λ m. note_of m ≡ noted (SetVar g t p var k value) plan.old.groups) }
    ensures kind { IfOk result (λ m. kind_in m ≡ OfField) }
{
    let names = names_set(plan, g, t, p, var, k, value);
    let mut note = Note::of_field(plan.allocator(), names)?;
    match plan.set_field(g, t, p, var, k, value) {
        Ok(old) => {
            note.set_old(old);
            Ok(note)
        }
        Err(fault) => Err(fault),
    }
}

/// Sets it back to its old value. Only NID_BG takes memory. The only refusal is `OutOfMemory`.
pub(crate) fn set_var_back(
    plan: &mut Plan,
    entry: &mut Entry,
    g: Tag,
    t: u32,
    p: Tag,
    var: Var,
    k: u32,
) -> Result<(), Refusal>
    requires count { plan.old.changes < 2 ^ 63 }
    requires is { (value : ℕ) × (entry.old.0.1 ≡ SetVar g t p var k value) }
    requires last { IsLast entry.old plan.old.groups }
    ensures back { TakesBack entry.old plan.old result entry.new plan.new }
    ensures always { same_var var NidBg ≡ false → IsOk result }
{
    let old = entry.note().old();
    match plan.set_field(g, t, p, var, k, old) {
        Ok(_) => Ok(()),
        Err(fault) => Err(fault),
    }
}

/// Sets a field of a header, and answers what that notes. Takes no memory.
#[inline]
pub(crate) fn set_head(
    plan: &mut Plan,
    g: Tag,
    t: u32,
    var: Var,
    value: u32,
) -> Result<Note, Refusal>
    requires count { plan.old.changes < 2 ^ 63 }
    ensures does { DoesAlways (SetHead g t var value) plan.old result plan.new }
    ensures noted { IfOk result (λ m. note_of m ≡ noted (SetHead g t var value) plan.old.groups) }
    ensures kind { IfOk result (λ m. kind_in m ≡ OfHeader) }
{
    let old = match plan.set_head(g, t, var, value) {
        Ok(old) => old,
        Err(fault) => return Err(fault),
    };
    Ok(Note::Header { old })
}

/// Sets it back to its old value. Takes no memory, and is never refused.
pub(crate) fn set_head_back(
    plan: &mut Plan,
    entry: &mut Entry,
    g: Tag,
    t: u32,
    var: Var,
) -> Result<(), Refusal>
    requires count { plan.old.changes < 2 ^ 63 }
    requires is { (value : ℕ) × (entry.old.0.1 ≡ SetHead g t var value) }
    requires last { IsLast entry.old plan.old.groups }
    ensures back { TakesBack entry.old plan.old result entry.new plan.new }
    ensures ok { IsOk result }
{
    let old = entry.note().old();
    match plan.set_head(g, t, var, old) {
        Ok(_) => Ok(()),
        Err(fault) => Err(fault),
    }
}
