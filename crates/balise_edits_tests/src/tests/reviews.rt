//! Reviews of groups before they are turned.

use crate::tests::doing::read;
use crate::tests::edits::{EMPTY, LINKING};
use balise_edits::{EditFault, Id, Plan, ReviewLine, Reviewed, Tag, Var, review};
use std::alloc::Global;
use std::process::Abort;

// 5.100 of three: packet 65, an unknown packet, no packet.
const THREE: &str =
    "a104ff80a032505023a0a0320096047fffffffffffffffffffffc0 a1157f80a0324b0010697fffffffffffffffffffffffffffffffc0 a1247f80a0327fffffffffffffffffffffffffffffffffffffffc0";

// 5.101, whose packet 5 names 5.100, 5.100 and 5.102.
const TWICE: &str = "a1007f80a032c15049a07d00325004096003250015e0066a07ffc0";

fn line(number: u32, pig: u32, what: Reviewed) -> ReviewLine {
    let id = Id { country: 5, number };
    ReviewLine {
        id,
        pig,
        pkt: 0,
        what,
    }
}

// That the review of the first of two groups has these lines. A third group isn't there.
fn check(rt: &impl Abort, plan: &Plan, expected: &[ReviewLine]) {
    let lines = review(plan, Tag::Base(0)).expect(rt, "lines");
    assert!(rt; lines.as_slice() == expected);
    check_none(rt, plan);
}

fn check_none(rt: &impl Abort, plan: &Plan) {
    assert!(rt; matches!(review(plan, Tag::Base(2)), Err(EditFault::NoSuchGroup)));
}

// That, of the plan of these groups.
fn check_over(rt: &impl Abort, alloc: Global, texts: &[&str], expected: &[ReviewLine]) {
    let plan = read(rt, alloc, texts);
    check(rt, &plan, expected);
}

#[test]
fn of_a_group_of_three(rt: HostRuntime) {
    let expected = [
        line(100, 1, Reviewed::Opaque(44)),
        line(100, 2, Reviewed::Field(Var::DTsr, 0, 200)),
        line(101, 0, Reviewed::Field(Var::DLink, 0, 500)),
    ];
    check_over(&rt, rt.alloc(), &[THREE, LINKING], &expected);
}

#[test]
fn of_a_group_of_one(rt: HostRuntime) {
    check_over(&rt, rt.alloc(), &[EMPTY, LINKING], &[]);
}

fn distance(k: u32, value: u32) -> ReviewLine {
    line(101, 0, Reviewed::Field(Var::DLink, k, value))
}

#[test]
fn of_a_group_named_by_two_neighbours(rt: HostRuntime) {
    let expected = [
        line(100, 1, Reviewed::Opaque(44)),
        line(100, 2, Reviewed::Field(Var::DTsr, 0, 200)),
        distance(0, 500),
        distance(1, 600),
        distance(1, 600),
        distance(2, 700),
    ];
    check_over(&rt, rt.alloc(), &[THREE, TWICE], &expected);
}
