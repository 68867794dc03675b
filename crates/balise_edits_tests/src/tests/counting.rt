//! Entries counted by where their edits lie.

use crate::tests::doing::{made, read};
use crate::tests::edits::Step::{Insert, Renumber, Set, SetHead, Turn};
use crate::tests::edits::{ELSEWHERE, FIRST, LINK, LINKING, SECOND, Step, edit_of};
use balise_edits::{Entry, Var, apart, count_apart};
use std::alloc::Global;
use std::process::Abort;

/// How many numbers are counted: two blocks, and some more.
const MANY: usize = 150;

// The entry of a step in a plan of its own.
fn entry_of(rt: &impl Abort, alloc: Global, step: Step) -> Entry {
    let mut plan = read(rt, alloc, &[LINKING, ELSEWHERE]);
    made(rt, &mut plan, 1, edit_of(rt, alloc, step))
}

// That many of one number are counted, up to one of another.
fn check_counts(rt: &impl Abort, entry: &Entry, far: u16, near: u16) {
    let mut numbers = [far; 150];
    assert!(rt; count_apart(entry, &numbers) == MANY);
    for i in 0..MANY {
        numbers[i] = near;
        assert!(rt; count_apart(entry, &numbers) == i);
        numbers[i] = far;
    }
    assert!(rt; count_apart(entry, &[]) == 0);
}

// That a step is counted after another, up to a third that isn't apart from it.
fn check(rt: &impl Abort, alloc: Global, first: Step, far: Step, near: Step) {
    let entry = entry_of(rt, alloc, first);
    let other = entry_of(rt, alloc, far);
    let meets = entry_of(rt, alloc, near);
    assert!(rt; apart(&entry, &other));
    assert!(rt; !apart(&entry, &meets));
    check_counts(rt, &entry, other.home_number(), meets.home_number());
}

const COUNTED: Step = SetHead(FIRST, Var::MMcount, 7);

const COUNTED_ELSEWHERE: Step = SetHead(SECOND, Var::MMcount, 7);

#[test]
fn in_other_groups(rt: HostRuntime) {
    check(&rt, rt.alloc(), COUNTED, COUNTED_ELSEWHERE, COUNTED);
    check(
        &rt,
        rt.alloc(),
        COUNTED_ELSEWHERE,
        COUNTED,
        COUNTED_ELSEWHERE,
    );
}

#[test]
fn of_groups(rt: HostRuntime) {
    check(&rt, rt.alloc(), Turn(FIRST), COUNTED_ELSEWHERE, Turn(FIRST));
    check(
        &rt,
        rt.alloc(),
        COUNTED_ELSEWHERE,
        Renumber(FIRST, 300),
        COUNTED_ELSEWHERE,
    );
}

// What names a group isn't counted where an edit is of a group, though it lies in another.
#[test]
fn names_and_groups(rt: HostRuntime) {
    let alloc = rt.alloc();
    let turn = entry_of(&rt, alloc, Turn(FIRST));
    let link = entry_of(&rt, alloc, Insert(SECOND, None, LINK));
    assert!(rt; count_apart(&turn, &[link.home_number()]) == 0);
    assert!(rt; count_apart(&link, &[turn.home_number()]) == 0);
    let named = entry_of(&rt, alloc, Set(FIRST, FIRST, Var::NidBg, 0, 102));
    assert!(rt; count_apart(&link, &[named.home_number()]) == 1);
}
