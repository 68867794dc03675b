//! Which later edits depend on one.

use crate::tests::sessions::{EMPTY, Step, TSR_5, TSR_6, ask, session_of};
use Step::{Drop, Insert, SetHead, Undo};
use balise_history::{Refusal, Session, Var};
use std::alloc::Global;
use std::process::Abort;

/// These edits depend on the one of a serial, and each refused strike names the first of them.
fn check(rt: &impl Abort, session: &Session, serial: u32, due: &[u32]) {
    let serials = session.dependents(serial).expect(rt, "it stands");
    assert!(rt; serials.as_slice() == due);
}

/// No standing edit has this serial.
fn check_none(rt: &impl Abort, session: &Session, serial: u32) {
    assert!(rt; session.dependents(serial) == Err(Refusal::NoSuchEdit));
}

/// M_MCOUNT three times, with M_DUP and a packet in between.
fn five_edits(rt: &impl Abort, alloc: Global) -> Session {
    let mut session = session_of(rt, alloc, &[EMPTY]);
    for (step, serial) in [
        (SetHead(100, Var::MMcount, 1), 1),
        (SetHead(100, Var::MDup, 1), 2),
        (SetHead(100, Var::MMcount, 3), 3),
        (Insert(100, 0, TSR_5), 4),
        (SetHead(100, Var::MMcount, 5), 5),
    ]
    .iter()
    {
        ask(rt, alloc, &mut session, *step, Ok(*serial));
    }
    session
}

fn check_five(rt: &impl Abort, session: &Session) {
    check(rt, session, 1, &[3, 5]);
    check(rt, session, 2, &[]);
    check(rt, session, 3, &[5]);
    check(rt, session, 4, &[]);
    check(rt, session, 5, &[]);
    check_none(rt, session, 0);
    check_none(rt, session, 6);
    check_none(rt, session, 4_294_967_295);
}

#[test]
fn dependents_in_order(rt: HostRuntime) {
    let session = five_edits(&rt, rt.alloc());
    check_five(&rt, &session);
}

#[test]
fn what_is_undone_depends_on_nothing(rt: HostRuntime) {
    let alloc = rt.alloc();
    let mut session = five_edits(&rt, alloc);
    ask(&rt, alloc, &mut session, Undo, Ok(5));
    check(&rt, &session, 1, &[3]);
    check_none(&rt, &session, 5);
}

#[test]
fn all_within_a_dropped_group(rt: HostRuntime) {
    let alloc = rt.alloc();
    let mut session = five_edits(&rt, alloc);
    ask(&rt, alloc, &mut session, Drop(100), Ok(6));
    check(&rt, &session, 2, &[6]);
    check(&rt, &session, 1, &[3, 5, 6]);
}

#[test]
fn what_is_anchored_on_it_is_no_dependent(rt: HostRuntime) {
    let alloc = rt.alloc();
    let mut session = five_edits(&rt, alloc);
    ask(&rt, alloc, &mut session, Insert(100, 1, TSR_6), Ok(6));
    check(&rt, &session, 4, &[]);
}
