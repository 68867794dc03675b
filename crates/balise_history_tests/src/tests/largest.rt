//! As many commands, edits and later neighbours as there may be. No contract says that memory is there, so each list is
//! filled once.

use crate::tests::openings::read_back;
use crate::tests::sessions::{
    ABROAD, EMPTY, LINKING, REVOCATION, Step, TSR_6, answer_to, bits_of, id, plan_of, push_bits,
    session_of, shown,
};
use balise_history::{Bits, Command, Refusal, Session, Var};
use std::alloc::Global;
use std::process::Abort;

/// M_MCOUNT of 5.100 set.
fn counted(value: u32) -> Command {
    Command::SetHead {
        id: id(100),
        pig: 0,
        var: Var::MMcount,
        value,
    }
}

/// Nothing is done any more, whatever is asked.
fn is_worn(session: &mut Session) -> bool {
    let worn = Err(Refusal::Worn);
    session.edit(counted(0)) == worn
        && session.undo() == worn
        && session.redo() == worn
        && matches!(session.strike(1), Err(Refusal::Worn))
        && matches!(session.strike(2_000_000), Err(Refusal::Worn))
}

/// Does `count` edits, under serials from 1.
fn edit_often(rt: &impl Abort, session: &mut Session, count: u32) {
    for i in 0..count {
        assert!(rt; session.edit(counted(i % 255)) == Ok(i + 1));
    }
}

/// Undoes `count` edits, the last one first.
fn undo_each(rt: &impl Abort, session: &mut Session, count: u32) {
    for i in 0..count {
        assert!(rt; session.undo() == Ok(count - i));
    }
}

fn check_standing(rt: &impl Abort, session: &Session, count: usize) {
    assert!(rt; session.standing().len() == count);
}

fn edit_a_million_times(rt: &impl Abort, session: &mut Session) {
    edit_often(rt, session, 1_000_000);
    check_standing(rt, session, 1_000_000);
    assert!(rt; is_worn(session));
    check_standing(rt, session, 1_000_000);
}

/// All that come after the first edit depend on it.
fn check_dependents(rt: &impl Abort, session: &Session) {
    let dependents = session.dependents(1).expect(rt, "memory");
    assert!(rt; dependents.len() == 999_999);
    assert!(rt; dependents.last().copied() == Some(1_000_000));
}

#[test]
fn a_million_edits(rt: HostRuntime) {
    let mut session = session_of(&rt, rt.alloc(), &[EMPTY]);
    edit_a_million_times(&rt, &mut session);
    check_dependents(&rt, &session);
}

/// That `count` edits are undone, the last one done first.
fn check_undone(rt: &impl Abort, undone: &Vec<u32>, count: usize, first: u32) {
    assert!(rt; undone.len() == count);
    assert!(rt; undone.first().copied() == Some(first));
}

fn undo_half_a_million(rt: &impl Abort, session: &mut Session) {
    edit_often(rt, session, 500_000);
    undo_each(rt, session, 500_000);
    assert!(rt; is_worn(session));
    check_standing(rt, session, 0);
    check_undone(rt, &session.undone().expect(rt, "memory"), 500_000, 500_000);
}

#[test]
fn half_a_million_edits_undone(rt: HostRuntime) {
    let mut session = session_of(&rt, rt.alloc(), &[EMPTY]);
    undo_half_a_million(&rt, &mut session);
}

/// One edit of each kind, and a second of one that leaves the identities as they were.
fn of_each_kind(value: u32) -> [Step; 10] {
    [
        Step::Set(100, Var::NidTsr, 0, value),
        Step::SetHead(100, Var::MMcount, value),
        Step::Insert(100, 1, TSR_6),
        Step::Move(100, 1, 0),
        Step::Delete(100, 0),
        Step::Add(2, ABROAD),
        Step::Drop(102),
        Step::Turn(100),
        Step::Renumber(101, 300),
        Step::Renumber(300, 101),
    ]
}

/// Makes 1,000 edits of all kinds.
fn edit_all(rt: &impl Abort, alloc: Global, session: &mut Session) {
    for value in 0..100 {
        for step in of_each_kind(value).iter() {
            assert!(rt; answer_to(rt, alloc, session, *step).is_ok());
        }
    }
}

/// A session with 1,000 standing edits of all kinds.
fn busy(rt: &impl Abort, alloc: Global) -> Session {
    let mut session = session_of(rt, alloc, &[REVOCATION, LINKING]);
    edit_all(rt, alloc, &mut session);
    session
}

/// What the plan shows that the busy session was made over.
fn shown_as_read(rt: &impl Abort, alloc: Global) -> Vec<Vec<Bits>> {
    let read = plan_of(rt, alloc, &[REVOCATION, LINKING]);
    read.shown().expect(rt, "memory")
}

/// Whether two sessions show the same groups.
fn show_the_same(rt: &impl Abort, one: &Session, other: &Session) -> bool {
    shown(rt, one) == shown(rt, other)
}

/// Redoes `count` edits, the first one first.
fn redo_each(rt: &impl Abort, session: &mut Session, count: u32) {
    for i in 0..count {
        assert!(rt; session.redo() == Ok(i + 1));
    }
}

/// Undoes 1,000 edits, which leaves what was read, and redoes them, which leaves what was made.
fn undo_and_redo(
    rt: &impl Abort,
    session: &mut Session,
    read: &Vec<Vec<Bits>>,
    made: &Vec<Vec<Bits>>,
) {
    undo_each(rt, session, 1000);
    assert!(rt; shown(rt, session) == *read);
    assert!(rt; session.undo() == Err(Refusal::NothingToUndo));
    redo_each(rt, session, 1000);
    assert!(rt; shown(rt, session) == *made);
    assert!(rt; session.redo() == Err(Refusal::NothingToRedo));
}

#[test]
fn a_thousand_edits_of_all_kinds_undone_and_redone(rt: HostRuntime) {
    let alloc = rt.alloc();
    check_undone_and_redone(&rt, alloc, &mut busy(&rt, alloc));
}

fn check_undone_and_redone(rt: &impl Abort, alloc: Global, session: &mut Session) {
    check_next(rt, session, 1001);
    let made = shown(rt, session);
    undo_and_redo(rt, session, &shown_as_read(rt, alloc), &made);
}

fn check_next(rt: &impl Abort, session: &Session, serial: u32) {
    assert!(rt; session.next_serial() == serial);
}

fn undo_500(rt: &impl Abort, session: &mut Session) {
    for _ in 0..500 {
        assert!(rt; session.undo().is_ok());
    }
}

fn redo_500(rt: &impl Abort, session: &mut Session) {
    for _ in 0..500 {
        assert!(rt; session.redo().is_ok());
    }
}

/// That a session that was read back from a journal is as far as this one, where half was undone, and that it shows
/// what was made once all is done again.
fn check_read_back(rt: &impl Abort, again: &mut Session, session: &Session, made: &Vec<Vec<Bits>>) {
    check_next(rt, again, 1001);
    check_standing(rt, again, 500);
    assert!(rt; show_the_same(rt, again, session));
    redo_500(rt, again);
    assert!(rt; shown(rt, again) == *made);
}

#[test]
fn a_journal_of_a_thousand_edits_read_back(rt: HostRuntime) {
    let alloc = rt.alloc();
    undo_and_read_back(&rt, alloc, &mut busy(&rt, alloc));
}

fn undo_and_read_back(rt: &impl Abort, alloc: Global, session: &mut Session) {
    let made = shown(rt, session);
    undo_500(rt, session);
    check_journal(rt, alloc, session, &made);
}

fn check_journal(rt: &impl Abort, alloc: Global, session: &Session, made: &Vec<Vec<Bits>>) {
    let mut again = read_back(rt, alloc, &[REVOCATION, LINKING], session);
    check_read_back(rt, &mut again, session, made);
}

fn put_number(rt: &impl Abort, bits: &mut Bits, number: u32) {
    assert!(rt; bits.len() == 210);
    assert!(rt; number < 16384);
    bits.put(35, 14, number);
}

/// A group of one telegram without packets, of this number in country 5, to be added at a place.
fn added(rt: &impl Abort, alloc: Global, at: u32, number: u32) -> Command {
    let mut bits = bits_of(rt, alloc, EMPTY);
    put_number(rt, &mut bits, number);
    let mut telegrams = Vec::new(alloc);
    push_bits(rt, &mut telegrams, bits);
    Command::AddGroup { at, telegrams }
}

/// Adds 1,001 groups, each later one after the second place.
fn add_groups(rt: &impl Abort, alloc: Global, session: &mut Session) {
    for number in 0..1001 {
        let at = if number == 0 { 1 } else { 2 };
        assert!(rt; session.edit(added(rt, alloc, at, number + 200)) == Ok(number + 1));
    }
}

/// Strikes the first edit out, which is compared with 1,000 later ones.
fn strike_first(rt: &impl Abort, session: &mut Session) {
    let struck = session.strike(1).expect(rt, "a strike");
    assert!(rt; struck.compared == 1000);
    assert!(rt; session.plan().count() == 1001);
}

/// That a session shows the same once its journal was read back.
fn check_again(rt: &impl Abort, alloc: Global, session: &Session) {
    check_same(rt, &read_back(rt, alloc, &[EMPTY], session), session);
}

fn check_same(rt: &impl Abort, one: &Session, other: &Session) {
    assert!(rt; show_the_same(rt, one, other));
}

/// Strikes the first edit out and does it again, which leaves what was made.
fn strike_and_redo(rt: &impl Abort, alloc: Global, session: &mut Session, made: &Vec<Vec<Bits>>) {
    strike_first(rt, session);
    check_again(rt, alloc, session);
    assert!(rt; session.redo() == Ok(1));
    assert!(rt; shown(rt, session) == *made);
}

#[test]
fn struck_under_a_thousand_later_neighbours(rt: HostRuntime) {
    let alloc = rt.alloc();
    strike_under_many(&rt, alloc, &mut session_of(&rt, alloc, &[EMPTY]));
}

fn strike_under_many(rt: &impl Abort, alloc: Global, session: &mut Session) {
    add_groups(rt, alloc, session);
    let made = shown(rt, session);
    strike_and_redo(rt, alloc, session, &made);
}
