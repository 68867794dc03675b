//! Insertions one after the other, and what is anchored anew.

ghost use Rattle.std.specs.Prelude.{◌≤◌, ℕ};
ghost use Rattle.balise_rules.specs.Accepting.{Unused};

use crate::tests::doing::{made, read};
use crate::tests::edits::{EMPTY, FIRST, Step, TSR_5, TSR_6, edit_of};
use crate::tests::pairs::check;
use balise_edits::{Entry, Plan, Tag, re_anchor};
use std::alloc::Global;
use std::process::Abort;

/// A packet put in after the one that was put in under a serial.
fn behind(serial: u32) -> Step {
    Step::Insert(FIRST, Some(Tag::Fresh(serial)), TSR_6)
}

/// Puts three packets in, each after the one before it.
fn insert(rt: &impl Abort, alloc: Global, plan: &mut Plan)
    requires { (n : ℕ) → 1 ≤ n → Unused n plan.old.groups }
{
    let edit = edit_of(rt, alloc, Step::Insert(FIRST, None, TSR_5));
    let first = made(rt, plan, 1, edit);
    let mut second = made(rt, plan, 2, edit_of(rt, alloc, behind(1)));
    let third = made(rt, plan, 3, edit_of(rt, alloc, behind(2)));
    // After the second, and so not after the first.
    check(rt, &first, &third, true, false);
    anchor_anew(rt, &first, &mut second);
}

/// Anchors the second of two edits anew, as if the first were struck, and back.
fn anchor_anew(rt: &impl Abort, first: &Entry, second: &mut Entry) {
    check(rt, first, second, false, true);
    re_anchor(second, first, false);
    assert!(rt; second.edit().anchor() == None);
    check(rt, first, second, false, false);
    re_anchor(second, first, true);
    assert!(rt; second.edit().anchor() == Some(Tag::Fresh(1)));
}

#[test]
fn insertions_behind(rt: HostRuntime) {
    let alloc = rt.alloc();
    let mut plan = read(&rt, alloc, &[EMPTY]);
    insert(&rt, alloc, &mut plan);
}
