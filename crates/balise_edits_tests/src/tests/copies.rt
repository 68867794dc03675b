//! An entry's copy and its line.

use crate::tests::doing::{made, read};
use crate::tests::edits::{
    ABROAD, EMPTY, FIRST, FOUR, LINK, LINKING, SECOND, Step, THIRD, edit_of, is_step,
};
use balise_edits::{Bits, Entry, Line, LineEdit, Noted, Tag, Var, copy_edit};
use std::alloc::Global;
use std::process::Abort;

// The entry of an edit of a plan of these groups, under serial 7.
fn entry_of(rt: &impl Abort, alloc: Global, groups: &[&str], step: Step) -> Entry {
    let mut plan = read(rt, alloc, groups);
    made(rt, &mut plan, 7, edit_of(rt, alloc, step))
}

// A link that is put in.
const LINKED: Step = Step::Insert(FIRST, None, LINK);

// That the line of a link that is put in has the packet's digits.
fn check_line(rt: &impl Abort, line: &Line) {
    assert!(rt; line.serial == 7);
    match &line.edit {
        LineEdit::InsertPacket {
            g,
            t,
            after,
            packet,
        } => {
            assert!(rt; *g == FIRST && *t == 0 && *after == None);
            check_digits(rt, packet, LINK);
        }
        _ => assert!(rt; false),
    }
}

#[test]
fn has_a_line_of_whole_bytes(rt: HostRuntime) {
    let alloc = rt.alloc();
    let entry = entry_of(&rt, alloc, &[EMPTY], LINKED);
    check_line(&rt, &entry.line().expect(&rt, "a line"));
}

fn check_digits(rt: &impl Abort, bits: &Bits, digits: &str) {
    assert!(rt; bits.to_hex().expect(rt, "digits").as_str() == digits);
}

/// The serial of an entry, the step that its edit is, and what it noted.
pub(crate) type Facts = (u32, Step, Noted);

// That this is so of an entry, and of its line.
fn check_entry(rt: &impl Abort, alloc: Global, entry: &Entry, facts: Facts) {
    let (serial, step, noted) = facts;
    assert!(rt; entry.serial() == serial);
    assert!(rt; is_step(rt, alloc, entry.edit(), step));
    assert!(rt; entry.noted() == noted);
    let line = entry.line().expect(rt, "a line");
    assert!(rt; line.serial == serial && line.noted == noted);
}

/// That this is so of a copy of an entry, and that a copy of its edit is that edit.
pub(crate) fn check_copies(rt: &impl Abort, alloc: Global, entry: &Entry, facts: Facts) {
    check_entry(rt, alloc, &entry.copy().expect(rt, "a copy"), facts);
    let edit = copy_edit(entry.edit()).expect(rt, "a copy");
    assert!(rt; is_step(rt, alloc, &edit, facts.1));
}

type Row = (&'static [&'static str], Step, Noted);

const NOTED: &[Row] = &[
    (
        &[EMPTY, LINKING],
        Step::Set(SECOND, FIRST, Var::DLink, 0, 600),
        Noted::Value(500),
    ),
    (
        &[EMPTY],
        Step::SetHead(FIRST, Var::MMcount, 254),
        Noted::Value(255),
    ),
    (&[EMPTY], LINKED, Noted::Nothing),
    (
        &[FOUR],
        Step::Delete(SECOND),
        Noted::BeforePacket(Some(THIRD)),
    ),
    (
        &[FOUR],
        Step::Move(Tag::Base(3), None),
        Noted::BeforePacket(None),
    ),
    (&[EMPTY], Step::Add(None, ABROAD), Noted::Nothing),
    (
        &[EMPTY, LINKING, ABROAD],
        Step::Drop(SECOND),
        Noted::BeforeGroup(Some(THIRD)),
    ),
    (
        &[EMPTY, LINKING],
        Step::Renumber(SECOND, 300),
        Noted::Number(101),
    ),
    (&[LINKING], Step::Turn(FIRST), Noted::Nothing),
];

#[test]
fn copies_of_entries(rt: HostRuntime) {
    let alloc = rt.alloc();
    for (groups, step, noted) in NOTED.iter() {
        let entry = entry_of(&rt, alloc, *groups, *step);
        check_copies(&rt, alloc, &entry, (7, *step, *noted));
    }
}
