//! Undo, redo, strike and edits where one growth of memory is refused: the call answers that, all stays as it was, and
//! the same call is accepted then. `scripts/check/test_growths.py` refuses each growth of `each_growth_refused` in turn.
//! With ample memory nothing is refused.

use crate::tests::sessions::{ABROAD, EMPTY, LINKING, Step, answer_to, ask, session_of};
use balise_devices::Memory;
use balise_history::{Bits, Refusal, Session, Var};
use std::alloc::Global;
use std::process::Abort;

/// 5.103, whose packet 5 names 5.300 three times.
const NAMING: &str = "a1007f80a033c15049a04b0096630406400966300fa012cc67ffc0";

/// A packet 5 that names 5.400 three times.
const NAMES: &str = "054126812c03218c1019003218c03e80643180";

/// A packet 5 that names 5.100.
const NAME: &str = "05408a81f400c98c00";

const OVER: &[&str] = &[EMPTY, LINKING, ABROAD, NAMING];

/// A packet put in, a link that names another group, a group that gets another number, and a packet taken out. A third
/// name of one identity takes memory, each time that the first or the last of these packets is put in.
const EDITS: &[(Step, u32)] = &[
    (Step::Insert(100, 0, NAMES), 1),
    (Step::Set(102, Var::NidBg, 1, 101), 2),
    (Step::Renumber(100, 200), 3),
    (Step::Delete(103, 0), 4),
];

/// At the end edits whose notes have a place of their own: a link that names another group, a packet put in and one taken
/// out, and a group taken out.
const CALLS: &[(Step, u32)] = &[
    (Step::Undo, 4),
    (Step::Undo, 3),
    (Step::Undo, 2),
    (Step::Undo, 1),
    (Step::Redo, 1),
    (Step::Redo, 2),
    (Step::Redo, 3),
    (Step::Redo, 4),
    (Step::Strike(1), 1),
    (Step::Strike(4), 4),
    (Step::Redo, 4),
    (Step::Redo, 1),
    (Step::Set(102, Var::NidBg, 0, 300), 5),
    (Step::Insert(101, 0, NAME), 6),
    (Step::Delete(101, 0), 7),
    (Step::Drop(102), 8),
];

/// What a session shows. It is asked for again if the growth that is refused was the one of this call.
fn shown(rt: &impl Abort, session: &Session) -> Vec<Vec<Bits>> {
    match session.plan().shown() {
        Ok(groups) => groups,
        Err(_) => session.plan().shown().expect(rt, "memory"),
    }
}

/// That a session is as far as another one was.
fn check_same(
    rt: &impl Abort,
    session: &Session,
    groups: &Vec<Vec<Bits>>,
    (standing, next): (usize, u32),
) {
    assert!(rt; shown(rt, session) == *groups);
    assert!(rt; session.standing().len() == standing);
    assert!(rt; session.next_serial() == next);
}

/// Does a step, which is refused at most once, as out of memory, and changes nothing then.
fn call(
    rt: &impl Abort,
    alloc: Global,
    session: &mut Session,
    (step, serial): (Step, u32),
    memory: Memory,
) {
    let groups = shown(rt, session);
    let stage = (session.standing().len(), session.next_serial());
    let answer = answer_to(rt, alloc, session, step);
    if answer == Err(Refusal::OutOfMemory) {
        assert!(rt; memory == Memory::OneRefused);
        check_same(rt, session, &groups, stage);
        ask(rt, alloc, session, step, Ok(serial));
    } else {
        assert!(rt; answer == Ok(serial));
    }
}

/// A session of these groups, with the edits.
fn edited(rt: &impl Abort, alloc: Global) -> Session {
    let mut session = session_of(rt, alloc, OVER);
    for (step, serial) in EDITS.iter() {
        ask(rt, alloc, &mut session, *step, Ok(*serial));
    }
    session
}

/// Does the calls. At most one of them meets the growth that is refused.
fn make_calls(rt: &impl Abort, alloc: Global, session: &mut Session, memory: Memory) {
    for (step, serial) in CALLS.iter() {
        call(rt, alloc, session, (*step, *serial), memory);
    }
}

/// The growths that this test meets are those before the first undo of the next one.
#[test]
fn edits_alone(rt: HostRuntime) {
    let session = edited(&rt, rt.alloc());
    assert!(rt; session.standing().len() == EDITS.len());
}

#[test]
fn each_growth_refused(rt: HostRuntime) {
    let mut session = edited(&rt, rt.alloc());
    make_calls(&rt, rt.alloc(), &mut session, Memory::OneRefused);
}

#[test]
fn no_growth_refused(rt: HostRuntime) {
    let mut session = edited(&rt, rt.alloc());
    make_calls(&rt, rt.alloc(), &mut session, Memory::Ample);
}
