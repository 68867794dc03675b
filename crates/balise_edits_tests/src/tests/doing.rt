//! An edit done, taken back and done again.

ghost use Rattle.std.specs.Prelude.{◌≡◌, ◌+◌, ◌<◌, ◌≤◌, ◌^◌, ℕ, IsTrue};
ghost use Rattle.balise_rules.specs.Accepting.{Spelt, Unused};
ghost use Rattle.balise_rules.specs.Plan.{IsSound};
ghost use Rattle.balise_edits.specs.Edits.{edit_of};

use crate::tests::edits::{Step, edit_of};
use balise_edits::{Bits, Edit, Entry, Plan, Refusal, again, apply, take_back};
use std::alloc::Global;
use std::process::Abort;

/// A plan of these groups. No serial tags anything in it.
pub(crate) fn read(rt: &impl Abort, alloc: Global, texts: &[&str]) -> Plan
    ensures { (n : ℕ) → 1 ≤ n → Unused n result.groups }
{
    Plan::read(alloc, groups_of(rt, alloc, texts)).expect(rt, "a plan")
}

/// The bits of these groups.
fn groups_of(rt: &impl Abort, alloc: Global, texts: &[&str]) -> Vec<Vec<Bits>> {
    let mut groups = Vec::new(alloc);
    push_groups(rt, alloc, &mut groups, texts);
    groups
}

fn push_groups(rt: &impl Abort, alloc: Global, groups: &mut Vec<Vec<Bits>>, texts: &[&str]) {
    for text in texts.iter() {
        groups
            .push(telegrams(rt, alloc, *text))
            .expect(rt, "memory");
    }
}

/// The bits of a group's telegrams, whose digits stand apart by a space.
pub(crate) fn telegrams(rt: &impl Abort, alloc: Global, text: &str) -> Vec<Bits> {
    let mut telegrams = Vec::new(alloc);
    push_words(rt, alloc, &mut telegrams, text);
    telegrams
}

fn push_words(rt: &impl Abort, alloc: Global, telegrams: &mut Vec<Bits>, text: &str) {
    for word in text.split_whitespace() {
        telegrams
            .push(bits_of(rt, alloc, word))
            .expect(rt, "memory");
    }
}

fn width_of(digits: &str) -> usize {
    if digits.len() == 54 { 210 } else { 830 }
}

fn bits_of(rt: &impl Abort, alloc: Global, digits: &str) -> Bits {
    Bits::from_hex(alloc, digits, width_of(digits)).expect(rt, "digits")
}

/// Whether a plan shows these bits.
pub(crate) fn shows(rt: &impl Abort, plan: &Plan, groups: &Vec<Vec<Bits>>) -> bool {
    plan.shown().expect(rt, "memory") == *groups
}

/// An edit, its answer, and the groups that the plan shows then.
pub(crate) type Row = (Step, Result<(), Refusal>, &'static [&'static str]);

/// Does edits of a plan of these groups under serials from 1, each taken back and done again.
pub(crate) fn follow_over(rt: &impl Abort, alloc: Global, texts: &[&str], rows: &[Row]) {
    let mut plan = read(rt, alloc, texts);
    follow_each(rt, alloc, &mut plan, rows);
}

fn follow_each(rt: &impl Abort, alloc: Global, plan: &mut Plan, rows: &[Row])
    requires { (n : ℕ) → 1 ≤ n → Unused n plan.old.groups }
{
    let mut serial: u32 = 1;
    for (step, answer, texts) in rows.iter() {
        assert!(rt; serial < 1000);
        follow(rt, plan, serial, edit_of(rt, alloc, *step), *answer);
        assert!(rt; shows(rt, plan, &groups_of(rt, alloc, *texts)));
        serial += 1;
    }
}

/// Does an edit under a serial, and looks at its answer. An edit that is done is taken back, which leaves what was shown
/// before, and done again.
pub(crate) fn follow(
    rt: &impl Abort,
    plan: &mut Plan,
    serial: u32,
    edit: Edit,
    answer: Result<(), Refusal>,
)
    requires { (n : ℕ) → serial ≤ n → Unused n plan.old.groups }
    ensures { (n : ℕ) → serial + 1 ≤ n → Unused n plan.new.groups }
{
    let before = plan.shown().expect(rt, "memory");
    check_spelt(rt, plan, &edit);
    let done = there_and_back(rt, plan, serial, edit, &before);
    assert!(rt; done == answer);
}

/// The entry of an edit that is done under a serial.
pub(crate) fn made(rt: &impl Abort, plan: &mut Plan, serial: u32, edit: Edit) -> Entry
    requires { (n : ℕ) → serial ≤ n → Unused n plan.old.groups }
    ensures { (n : ℕ) → serial + 1 ≤ n → Unused n plan.new.groups }
{
    check_changes(rt, plan);
    check_spelt(rt, plan, &edit);
    apply(plan, edit, serial).expect(rt, "an entry")
}

// That a plan, which is sound, was changed less than a thousand times.
fn check_changes(rt: &impl Abort, plan: &Plan)
    ensures changes { plan.now.changes < 1000 }
    ensures sound { IsSound plan.now.groups }
{
    let _ = plan.count();
    assert!(rt; plan.changes() < 1000);
}

// That the edit inserts no packet, or one that is well-formed in the telegram's version.
fn check_spelt(rt: &impl Abort, plan: &Plan, edit: &Edit)
    ensures { Spelt (edit_of edit.now) plan.now.groups }
{
    assert!(rt; is_spelt(plan, edit));
}

fn is_spelt(plan: &Plan, edit: &Edit) -> bool
    ensures { IsTrue result → Spelt (edit_of edit.now) plan.now.groups }
{
    let Edit::InsertPacket { g, t, packet, .. } = edit else {
        return true;
    };
    match plan.telegram(*g, *t) {
        Some(telegram) => packet.is_spelt(telegram.version()),
        None => true,
    }
}

// Does the edit, takes it back and does it again.
fn there_and_back(
    rt: &impl Abort,
    plan: &mut Plan,
    serial: u32,
    edit: Edit,
    before: &Vec<Vec<Bits>>,
) -> Result<(), Refusal>
    requires new { (n : ℕ) → serial ≤ n → Unused n plan.old.groups }
    requires spelt { Spelt (edit_of edit) plan.old.groups }
    ensures { (n : ℕ) → serial + 1 ≤ n → Unused n plan.new.groups }
{
    check_changes(rt, plan);
    let changes = plan.changes();
    let mut entry = match apply(plan, edit, serial) {
        Ok(entry) => entry,
        Err(fault) => {
            check_count(rt, plan, changes);
            return Err(fault);
        }
    };
    let done = plan.shown().expect(rt, "memory");
    take_back(plan, &mut entry).expect(rt, "memory");
    check_shown(rt, plan, before);
    again(plan, &mut entry).expect(rt, "memory");
    check_shown(rt, plan, &done);
    check_count(rt, plan, changes + 3);
    Ok(())
}

fn check_shown(rt: &impl Abort, plan: &Plan, groups: &Vec<Vec<Bits>>) {
    assert!(rt; shows(rt, plan, groups));
}

fn check_count(rt: &impl Abort, plan: &Plan, changes: u64) {
    assert!(rt; plan.changes() == changes);
}
