//! Sessions read from journals.

use crate::tests::sessions::{
    EMPTY, REVOCATION, Step, TSR_5, TSR_6, answer_to, ask, plan_of, session_of, shows,
};
use balise_history::{
    Bits, Entry, JournalFault, Line, LineEdit, Noted, Opening, Refusal, Session, Tag, Var,
};
use std::alloc::Global;
use std::process::Abort;

/// 5.100, with a packet 66 of NID_TSR 9.
const SET: &str = "a1007f80a03250900f84ffffffffffffffffffffffffffffffffc0";

/// 5.100, with a packet 66 of NID_TSR 7.
const SET_TO_7: &str = "a1007f80a03250900f83ffffffffffffffffffffffffffffffffc0";

const FIRST: Tag = Tag::Base(0);

/// A session to be over groups, with this next serial.
fn opening_of(
    rt: &impl Abort,
    alloc: Global,
    texts: &[&str],
    next: u32,
) -> Result<Opening, Refusal> {
    Opening::new(alloc, plan_of(rt, alloc, texts), next)
}

/// A session to be over groups, whose next serial is accepted.
fn opened(rt: &impl Abort, alloc: Global, texts: &[&str], next: u32) -> Opening {
    opening_of(rt, alloc, texts, next).expect(rt, "a next serial")
}

/// The line of NID_TSR set in a packet of the first group's first telegram.
fn set(serial: u32, p: Tag, value: u32, old: u32) -> Line {
    Line {
        serial,
        edit: LineEdit::SetVar {
            g: FIRST,
            t: 0,
            p,
            var: Var::NidTsr,
            k: 0,
            value,
        },
        noted: Noted::Value(old),
    }
}

/// The line of a packet put in there.
fn inserted(rt: &impl Abort, alloc: Global, after: Option<Tag>, text: &str) -> Line {
    Line {
        serial: 1,
        edit: LineEdit::InsertPacket {
            g: FIRST,
            t: 0,
            after,
            packet: Bits::digits(alloc, text).expect(rt, "digits"),
        },
        noted: Noted::Nothing,
    }
}

/// Reads a session's journal over the same groups.
pub(crate) fn read_back(
    rt: &impl Abort,
    alloc: Global,
    texts: &[&str],
    session: &Session,
) -> Session {
    let opening = opened(rt, alloc, texts, session.next_serial());
    let entered = enter_all(rt, opening, session.lines().expect(rt, "memory"));
    strike_each(rt, entered, session).done()
}

/// Reads lines, which are accepted.
fn enter_all(rt: &impl Abort, opening: Opening, lines: Vec<Line>) -> Opening {
    let mut opening = opening;
    for line in lines {
        opening = enter(rt, opening, line);
    }
    opening
}

fn enter(rt: &impl Abort, opening: Opening, line: Line) -> Opening {
    opening.entry(line).expect(rt, "a line that fits")
}

/// Reads which edits are undone, which stood.
fn strike_each(rt: &impl Abort, opening: Opening, session: &Session) -> Opening {
    let mut opening = opening;
    for serial in session.undone().expect(rt, "memory") {
        opening = strike_out(rt, opening, serial);
    }
    opening
}

fn strike_out(rt: &impl Abort, opening: Opening, serial: u32) -> Opening {
    opening.undone(serial).expect(rt, "an edit that stands")
}

/// That a session with this next serial is opened, or refused.
fn check_next(rt: &impl Abort, alloc: Global, next: u32, fault: Option<Refusal>) {
    assert!(rt; opening_of(rt, alloc, &[REVOCATION], next).err() == fault);
}

#[test]
fn next_serials(rt: HostRuntime) {
    let alloc = rt.alloc();
    check_next(&rt, alloc, 0, Some(Refusal::JournalMismatch));
    check_next(&rt, alloc, 1, None);
    check_next(&rt, alloc, 4_000_000_000, None);
    check_next(&rt, alloc, 4_000_000_001, Some(Refusal::JournalMismatch));
}

/// That a line fits as the first one of a journal, or is refused.
fn check_line(rt: &impl Abort, alloc: Global, line: Line, fault: Option<Refusal>) {
    check_entry(rt, opened(rt, alloc, &[REVOCATION], 3), line, fault);
}

fn check_entry(rt: &impl Abort, opening: Opening, line: Line, fault: Option<Refusal>) {
    assert!(rt; opening.entry(line).err() == fault);
}

const MISMATCH: Option<Refusal> = Some(Refusal::JournalMismatch);

#[test]
fn settings_that_fit_or_not(rt: HostRuntime) {
    let alloc = rt.alloc();
    check_line(&rt, alloc, set(1, FIRST, 9, 5), None);
    check_line(&rt, alloc, set(2, FIRST, 9, 5), None);
    check_line(&rt, alloc, set(0, FIRST, 9, 5), MISMATCH);
    check_line(&rt, alloc, set(3, FIRST, 9, 5), MISMATCH);
    check_line(&rt, alloc, set(1, FIRST, 9, 4), MISMATCH);
    check_line(&rt, alloc, set(1, FIRST, 256, 5), MISMATCH);
    check_line(&rt, alloc, set(1, Tag::Fresh(9), 9, 5), MISMATCH);
}

/// That the line of a packet put in is accepted or has this fault.
fn check_inserted(
    rt: &impl Abort,
    alloc: Global,
    after: Option<Tag>,
    text: &str,
    fault: Option<Refusal>,
) {
    check_line(rt, alloc, inserted(rt, alloc, after, text), fault);
}

#[test]
fn insertions_that_fit_or_not(rt: HostRuntime) {
    let alloc = rt.alloc();
    check_inserted(&rt, alloc, None, TSR_5, None);
    check_inserted(&rt, alloc, Some(FIRST), TSR_5, None);
    check_inserted(&rt, alloc, None, "42403e0b", MISMATCH);
    check_inserted(&rt, alloc, Some(Tag::Base(1)), TSR_5, MISMATCH);
}

fn push_line(rt: &impl Abort, lines: &mut Vec<Line>, line: Line) {
    lines.push(line).expect(rt, "memory");
}

/// The lines of two settings, the second under this serial.
fn two(rt: &impl Abort, alloc: Global, serial: u32) -> Vec<Line> {
    let mut lines = Vec::new(alloc);
    push_line(rt, &mut lines, set(1, FIRST, 9, 5));
    push_line(rt, &mut lines, set(serial, FIRST, 7, 9));
    lines
}

/// Why a journal with these lines isn't read, if it isn't.
fn fault_of(rt: &impl Abort, alloc: Global, next: u32, serial: u32) -> Option<JournalFault> {
    let plan = plan_of(rt, alloc, &[REVOCATION]);
    Session::from_entries(alloc, plan, next, two(rt, alloc, serial)).err()
}

/// That it isn't read for the line at a place, or for its next serial.
fn check_fault(rt: &impl Abort, alloc: Global, next: u32, serial: u32, at: Option<usize>) {
    let refusal = Refusal::JournalMismatch;
    assert!(rt; fault_of(rt, alloc, next, serial) == Some(JournalFault { at, refusal }));
}

#[test]
fn places_of_faults(rt: HostRuntime) {
    let alloc = rt.alloc();
    assert!(rt; fault_of(&rt, alloc, 3, 2).is_none());
    check_fault(&rt, alloc, 3, 1, Some(1));
    check_fault(&rt, alloc, 3, 3, Some(1));
    check_fault(&rt, alloc, 1, 2, Some(0));
    check_fault(&rt, alloc, 0, 2, None);
}

/// That a fault at this place is shown as this text.
fn check_text(rt: &impl Abort, alloc: Global, at: Option<usize>, refusal: Refusal, text: &str) {
    let shown = JournalFault { at, refusal }.to_string(alloc);
    assert!(rt; shown.expect(rt, "memory").as_str() == text);
}

#[test]
fn texts_of_faults(rt: HostRuntime) {
    let alloc = rt.alloc();
    check_text(
        &rt,
        alloc,
        None,
        Refusal::JournalMismatch,
        "NEXT: JournalMismatch",
    );
    check_text(
        &rt,
        alloc,
        Some(0),
        Refusal::JournalMismatch,
        "entry 0: JournalMismatch",
    );
    check_text(
        &rt,
        alloc,
        Some(12),
        Refusal::OutOfMemory,
        "entry 12: OutOfMemory",
    );
}

/// The session of a plan with those two settings done by commands.
fn set_twice(rt: &impl Abort, alloc: Global) -> Session {
    let mut session = session_of(rt, alloc, &[REVOCATION]);
    ask_twice(rt, alloc, &mut session);
    session
}

fn ask_twice(rt: &impl Abort, alloc: Global, session: &mut Session) {
    ask(rt, alloc, session, Step::Set(100, Var::NidTsr, 0, 9), Ok(1));
    ask(rt, alloc, session, Step::Set(100, Var::NidTsr, 0, 7), Ok(2));
}

/// That entries of these serials stand, which noted these values.
fn check_standing(rt: &impl Abort, session: &Session, expected: &[(u32, u32)]) {
    let standing = session.standing();
    assert!(rt; standing.len() == expected.len());
    for (entry, (serial, old)) in standing.iter().zip(expected.iter()) {
        check_entry_is(rt, entry, *serial, *old);
    }
}

fn check_entry_is(rt: &impl Abort, entry: &Entry, serial: u32, old: u32) {
    assert!(rt; entry.serial() == serial);
    assert!(rt; entry.noted() == Noted::Value(old));
}

/// The session that a journal of those two settings is read as.
fn read_twice(rt: &impl Abort, alloc: Global) -> Session {
    let plan = plan_of(rt, alloc, &[REVOCATION]);
    Session::from_entries(alloc, plan, 3, two(rt, alloc, 2)).expect(rt, "a journal that fits")
}

/// That a session has the plan, the entries and the next serial of those two settings.
fn check_set_twice(rt: &impl Abort, alloc: Global, session: &Session) {
    assert!(rt; session.next_serial() == 3);
    assert!(rt; session.plan().changes() == 2);
    assert!(rt; shows(rt, alloc, session, &[SET_TO_7]));
    check_standing(rt, session, &[(1, 5), (2, 9)]);
}

#[test]
fn a_journal_is_read_as_the_session_of_its_commands(rt: HostRuntime) {
    let alloc = rt.alloc();
    check_set_twice(&rt, alloc, &set_twice(&rt, alloc));
    check_set_twice(&rt, alloc, &read_twice(&rt, alloc));
}

/// That an edit gets the largest next serial that a journal has, and the next one the serial after it.
fn edit_at_the_largest(rt: &impl Abort, alloc: Global, session: &mut Session) {
    let head = Step::SetHead(100, Var::MMcount, 7);
    ask(rt, alloc, session, head, Ok(4_000_000_000));
    ask(rt, alloc, session, head, Ok(4_000_000_001));
    assert!(rt; session.next_serial() == 4_000_000_002);
}

#[test]
fn an_edit_after_the_largest_next_serial(rt: HostRuntime) {
    let alloc = rt.alloc();
    let mut session = opened(&rt, alloc, &[REVOCATION], 4_000_000_000).done();
    edit_at_the_largest(&rt, alloc, &mut session);
}

/// Reads an edit that is undone.
fn undo_one(rt: &impl Abort, opening: Opening) -> Opening {
    strike_out(rt, enter(rt, opening, set(1, FIRST, 9, 5)), 1)
}

/// That an edit that was undone is done again.
fn check_again(rt: &impl Abort, alloc: Global, session: &mut Session) {
    assert!(rt; session.next_serial() == 2);
    ask(rt, alloc, session, Step::Redo, Ok(1));
    assert!(rt; shows(rt, alloc, session, &[SET]));
}

#[test]
fn what_was_undone_is_done_again(rt: HostRuntime) {
    let alloc = rt.alloc();
    let opening = undo_one(&rt, opened(&rt, alloc, &[REVOCATION], 2));
    check_again(&rt, alloc, &mut opening.done());
}

fn check_undone(rt: &impl Abort, opening: Opening, serial: u32, fault: Option<Refusal>) {
    assert!(rt; opening.undone(serial).err() == fault);
}

#[test]
fn nothing_is_struck_that_does_not_stand(rt: HostRuntime) {
    let alloc = rt.alloc();
    check_undone(&rt, opened(&rt, alloc, &[REVOCATION], 2), 7, MISMATCH);
    let undone = undo_one(&rt, opened(&rt, alloc, &[REVOCATION], 2));
    check_undone(&rt, undone, 1, MISMATCH);
}

#[test]
fn no_entry_behind_one_undone(rt: HostRuntime) {
    let opening = undo_one(&rt, opened(&rt, rt.alloc(), &[REVOCATION], 3));
    check_entry(&rt, opening, set(2, FIRST, 9, 5), MISMATCH);
}

/// Reads lines in place. One whose serial is too high, and a strike of what doesn't stand, are refused before others are
/// accepted.
fn read_in_place(rt: &impl Abort, opening: &mut Opening) {
    assert!(rt; opening.enter(set(3, FIRST, 9, 5)).err() == MISMATCH);
    assert!(rt; opening.strike(1).err() == MISMATCH);
    assert!(rt; opening.enter(set(1, FIRST, 9, 5)).is_ok());
    assert!(rt; opening.strike(1).is_ok());
    assert!(rt; opening.strike(1).err() == MISMATCH);
}

/// That the one edit is undone, and done again.
fn check_in_place(rt: &impl Abort, alloc: Global, opening: Opening) {
    let mut session = opening.done();
    assert!(rt; shows(rt, alloc, &session, &[REVOCATION]));
    ask(rt, alloc, &mut session, Step::Redo, Ok(1));
    assert!(rt; shows(rt, alloc, &session, &[SET]));
}

#[test]
fn lines_are_read_in_place(rt: HostRuntime) {
    let alloc = rt.alloc();
    let mut opening = opened(&rt, alloc, &[REVOCATION], 3);
    read_in_place(&rt, &mut opening);
    check_in_place(&rt, alloc, opening);
}

/// That an edit that notes another old value is done, though its line is refused.
fn check_noted(rt: &impl Abort, alloc: Global, opening: Opening) {
    let mut opening = opening;
    assert!(rt; opening.enter(set(1, FIRST, 9, 4)).err() == MISMATCH);
    assert!(rt; shows(rt, alloc, &opening.done(), &[SET]));
}

#[test]
fn an_edit_that_notes_something_else_is_done_in_place(rt: HostRuntime) {
    check_noted(&rt, rt.alloc(), opened(&rt, rt.alloc(), &[REVOCATION], 3));
}

/// Puts two packets in and strikes the first of them.
fn insert_and_strike(rt: &impl Abort, alloc: Global, session: &mut Session) {
    ask(rt, alloc, session, Step::Insert(100, 0, TSR_5), Ok(1));
    ask(rt, alloc, session, Step::Insert(100, 1, TSR_6), Ok(2));
    ask(rt, alloc, session, Step::Strike(1), Ok(1));
}

/// That the first of two packets is struck, and done again.
fn check_struck(rt: &impl Abort, alloc: Global, session: &mut Session) {
    let struck = "a1007f80a03250900f837fffffffffffffffffffffffffffffffc0";
    let both = "a1007f80a03250900f82a1201f06ffffffffffffffffffffffffc0";
    assert!(rt; session.next_serial() == 3);
    assert!(rt; shows(rt, alloc, session, &[struck]));
    ask(rt, alloc, session, Step::Redo, Ok(1));
    assert!(rt; shows(rt, alloc, session, &[both]));
}

// That the session that a journal of one with a struck insertion is read as does it again.
fn check_read_back(rt: &impl Abort, alloc: Global, session: &mut Session) {
    insert_and_strike(rt, alloc, session);
    check_struck(rt, alloc, &mut read_back(rt, alloc, &[EMPTY], session));
}

#[test]
fn what_stood_behind_is_read_back(rt: HostRuntime) {
    let alloc = rt.alloc();
    check_read_back(&rt, alloc, &mut session_of(&rt, alloc, &[EMPTY]));
}

/// That a session's journal has this number of entries, and that they are lent if all of them stand.
fn check_told(rt: &impl Abort, session: &Session, count: usize, all_stand: bool) {
    assert!(rt; session.all_back().expect(rt, "memory").len() == count);
    match session.all_standing() {
        Some(standing) => assert!(rt; all_stand & (standing.len() == count)),
        None => assert!(rt; !all_stand),
    }
}

/// That after a step.
fn check_told_after(
    rt: &impl Abort,
    alloc: Global,
    session: &mut Session,
    step: Step,
    count: usize,
    all_stand: bool,
) {
    assert!(rt; answer_to(rt, alloc, session, step).is_ok());
    check_told(rt, session, count, all_stand);
}

fn tell(rt: &impl Abort, alloc: Global, session: &mut Session) {
    let head = Step::SetHead(100, Var::MMcount, 7);
    check_told(rt, session, 0, true);
    check_told_after(rt, alloc, session, head, 1, true);
    check_told_after(rt, alloc, session, Step::Turn(100), 2, true);
    check_told_after(rt, alloc, session, Step::Undo, 2, false);
    check_told_after(rt, alloc, session, Step::Strike(1), 2, false);
    check_told_after(rt, alloc, session, Step::Redo, 2, false);
    check_told_after(rt, alloc, session, Step::Redo, 2, true);
}

#[test]
fn entries_that_a_journal_tells(rt: HostRuntime) {
    let alloc = rt.alloc();
    let mut session = session_of(&rt, alloc, &[REVOCATION]);
    tell(&rt, alloc, &mut session);
}
