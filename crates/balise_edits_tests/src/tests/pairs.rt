//! Two edits one after the other: whether the later one is apart from the earlier, or stands after it.

use crate::tests::doing::{made, read};
use crate::tests::edits::Step::{Add, Delete, Drop, Insert, Move, Renumber, Set, Turn};
use crate::tests::edits::{
    ABROAD, ELSEWHERE, EMPTY, FIRST, FOUR, LINK, LINKING, REVOCATION, SECOND, Step, THIRD, TSR_5,
    TSR_6, TWO, edit_of,
};
use balise_edits::{Entry, Tag, Var, apart, independent, laws, stands_behind};
use std::alloc::Global;
use std::process::Abort;

// That a later entry is apart from an earlier one, and stands after it, or not.
pub(crate) fn check(rt: &impl Abort, entry: &Entry, later: &Entry, is_apart: bool, behind: bool) {
    assert!(rt; apart(entry, later) == is_apart);
    assert!(rt; stands_behind(entry, later) == behind);
    assert!(rt; independent(entry, later) == (is_apart | behind));
}

// That, where a plan of these groups gets both edits.
fn pair(rt: &impl Abort, alloc: Global, groups: &[&str], first: Step, later: &Later) {
    let (step, is_apart, behind) = *later;
    let mut plan = read(rt, alloc, groups);
    let entry = made(rt, &mut plan, 1, edit_of(rt, alloc, first));
    let next = made(rt, &mut plan, 2, edit_of(rt, alloc, step));
    check(rt, &entry, &next, is_apart, behind);
}

/// A later edit, whether it is apart from the earlier, and whether it stands after it.
type Later = (Step, bool, bool);

/// Groups, an edit of their plan, and edits that may follow it, each alone.
type Row = (&'static [&'static str], Step, &'static [Later]);

fn check_rows(rt: &impl Abort, alloc: Global, rows: &[Row]) {
    for (groups, first, each) in rows.iter() {
        for later in each.iter() {
            pair(rt, alloc, *groups, *first, later);
        }
    }
}

// What the first edit puts in.
const NEW: Option<Tag> = Some(Tag::Fresh(1));

const LINKED: &[&str] = &[EMPTY, LINKING];

/// The third of four packets goes to the front; it stood before the fourth. Now the second stands before the fourth,
/// and is taken out; or the first is, which stands before the second.
const MOVES: &[Row] = &[(
    &[FOUR],
    Move(THIRD, None),
    &[
        (Delete(SECOND), false, false),
        (Delete(FIRST), true, false),
        (Insert(FIRST, Some(SECOND), "2c402e"), true, false),
    ],
)];

#[test]
fn moves_in_one_telegram(rt: HostRuntime) {
    check_rows(&rt, rt.alloc(), MOVES);
}

const DELETED: Later = (Delete(FIRST), false, false);

const INSERTED: Later = (Insert(FIRST, None, TSR_5), false, false);

const ROOM: &[Row] = &[
    (&[REVOCATION], Delete(FIRST), &[INSERTED]),
    (&[REVOCATION], Insert(FIRST, None, TSR_5), &[DELETED]),
];

#[test]
fn room_of_a_deletion(rt: HostRuntime) {
    check_rows(&rt, rt.alloc(), ROOM);
}

/// A link gets another distance.
const FURTHER: Step = Set(SECOND, FIRST, Var::DLink, 0, 600);

/// A link names another group.
const NAMED: Step = Set(SECOND, FIRST, Var::NidBg, 0, 102);

const FIELDS_AND_NUMBERS: &[Row] = &[
    (LINKED, FURTHER, &[(Renumber(SECOND, 300), true, false)]),
    (
        LINKED,
        NAMED,
        &[
            (Renumber(SECOND, 300), true, false),
            (Renumber(FIRST, 300), false, false),
        ],
    ),
];

#[test]
fn fields_and_numbers(rt: HostRuntime) {
    check_rows(&rt, rt.alloc(), FIELDS_AND_NUMBERS);
}

const FIELDS_AND_TURNS: &[Row] = &[
    (
        LINKED,
        Set(SECOND, FIRST, Var::QLinkorientation, 0, 0),
        &[(NAMED, false, false), (Turn(FIRST), false, false)],
    ),
    (
        LINKED,
        Set(SECOND, FIRST, Var::QDir, 0, 0),
        &[(Turn(SECOND), false, false), (Turn(FIRST), true, false)],
    ),
];

#[test]
fn fields_and_turns(rt: HostRuntime) {
    check_rows(&rt, rt.alloc(), FIELDS_AND_TURNS);
}

/// The packet names 5.100. Where a plan has 5.100 and 5.200 and the first is renumbered, its number is free then.
const INSERTIONS_AND_NAMES: &[Row] = &[
    (
        LINKED,
        Turn(FIRST),
        &[(Insert(FIRST, None, LINK), false, false)],
    ),
    (
        LINKED,
        Renumber(SECOND, 300),
        &[(Insert(FIRST, None, LINK), true, false)],
    ),
    (
        &[EMPTY, ELSEWHERE],
        Renumber(FIRST, 300),
        &[(Insert(SECOND, None, LINK), false, false)],
    ),
];

#[test]
fn insertions_and_names(rt: HostRuntime) {
    check_rows(&rt, rt.alloc(), INSERTIONS_AND_NAMES);
}

const ALL: &[&str] = &[EMPTY, LINKING, ABROAD];

const REMOVALS_AND_NAMES: &[Row] = &[
    (
        ALL,
        Drop(SECOND),
        &[
            (Renumber(FIRST, 300), false, false),
            (Renumber(THIRD, 300), true, false),
        ],
    ),
    (ALL, FURTHER, &[(Drop(SECOND), false, false)]),
];

#[test]
fn removals_and_names(rt: HostRuntime) {
    // What the law states about every plan, seen on these.
    laws::commute();
    check_rows(&rt, rt.alloc(), REMOVALS_AND_NAMES);
}

/// What is moved after what was put in; but not where it stood before that.
const MOVES_BEHIND: &[Row] = &[
    (
        &[TWO],
        Insert(FIRST, None, TSR_5),
        &[(Move(SECOND, NEW), false, true)],
    ),
    (
        &[TWO],
        Insert(FIRST, Some(FIRST), TSR_6),
        &[(Move(FIRST, NEW), false, false)],
    ),
];

#[test]
fn moves_behind(rt: HostRuntime) {
    check_rows(&rt, rt.alloc(), MOVES_BEHIND);
}

const GROUPS_BEHIND: &[Row] = &[(
    &[EMPTY, ELSEWHERE],
    Add(Some(FIRST), LINKING),
    &[
        (Add(NEW, ABROAD), false, true),
        (Add(Some(SECOND), ABROAD), true, false),
    ],
)];

#[test]
fn groups_behind(rt: HostRuntime) {
    laws::commute_behind();
    check_rows(&rt, rt.alloc(), GROUPS_BEHIND);
}
