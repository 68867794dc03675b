//! Tests of copies of a plan.

use crate::tests::comparing::same_groups;
use crate::tests::digits::{ABROAD, INFILL, LINKING, REVOCATIONS, THREE};
use crate::tests::plans::{check_shown, id, plan_of};
use crate::tests::steps::Answer::{Done, Next, Old};
use crate::tests::steps::{Step, follow};
use crate::tests::walking::{agrees, listed};
use balise_plan::{GroupTag, Id, PacketTag, Plan, Spot};
use std::alloc::Global;
use std::process::Abort;

/// 5.100, which 5.101 and 5.103 name.
const NAMED: GroupTag = GroupTag::Base(0);

const DROPPED: GroupTag = GroupTag::Base(2);

const PUT_IN: GroupTag = GroupTag::Fresh(7);

/// Identities of the groups, before and after, and of others that they name.
const KNOWN: &[(u32, u32)] = &[
    (5, 100),
    (5, 101),
    (5, 102),
    (5, 103),
    (5, 200),
    (6, 100),
    (6, 150),
];

/// Whether both plans answer the same group and the same places for an identity.
fn same_names(rt: &impl Abort, alloc: Global, plan: &Plan, other: &Plan, id: Id) -> bool {
    let group = plan.tag_of(id) == other.tag_of(id);
    match (plan.links_to(id), other.links_to(id)) {
        (None, None) => group,
        (Some(links), Some(twins)) => {
            group & (listed(rt, alloc, links) == listed(rt, alloc, twins))
        }
        _ => false,
    }
}

fn same_indexes(rt: &impl Abort, alloc: Global, plan: &Plan, other: &Plan) -> bool {
    let mut same = true;
    for (country, number) in KNOWN.iter() {
        same &= same_names(rt, alloc, plan, other, id(*country, *number));
    }
    same
}

/// That two plans are the same, and that the names of the second agree with its groups.
fn check_same(rt: &impl Abort, alloc: Global, plan: &Plan, other: &Plan) {
    assert!(rt; plan.changes() == other.changes());
    assert!(rt; same_groups(plan, other));
    check_shown(rt, other, &plan.shown().expect(rt, "memory"));
    assert!(rt; same_indexes(rt, alloc, plan, other));
    assert!(rt; agrees(rt, alloc, other, KNOWN));
}

fn copy_of(rt: &impl Abort, plan: &Plan) -> Plan {
    plan.copy().expect(rt, "memory")
}

/// Puts a packet and a group in, takes a group out, and turns one of three telegrams.
fn change(rt: &impl Abort, alloc: Global, plan: &mut Plan) {
    let packet = Step::Put(NAMED, 0, Spot::After(None), PacketTag::Fresh(1), "42403e0c");
    follow(rt, alloc, plan, packet, Done);
    let group = Step::PutGroup(Spot::After(None), PUT_IN, INFILL);
    follow(rt, alloc, plan, group, Done);
    let taken = Step::TakeGroup(DROPPED);
    follow(rt, alloc, plan, taken, Next(None));
    follow(rt, alloc, plan, Step::Turn(NAMED), Done);
}

/// Renames 5.100 in the first plan, and looks whether the second is as before.
fn rename(rt: &impl Abort, alloc: Global, plan: &mut Plan, other: &Plan) {
    let shown = other.shown().expect(rt, "memory");
    let changes = other.changes();
    let renamed = Step::Rename(NAMED, 200);
    follow(rt, alloc, plan, renamed, Old(100));
    check_shown(rt, other, &shown);
    assert!(rt; other.changes() == changes);
    assert!(rt; agrees(rt, alloc, other, KNOWN));
}

/// That a copy is the same, and that a change of either leaves the other.
fn check_apart(rt: &impl Abort, alloc: Global, plan: &mut Plan) {
    let mut copy = copy_of(rt, plan);
    check_same(rt, alloc, plan, &copy);
    rename(rt, alloc, &mut copy, plan);
    let copy = copy_of(rt, plan);
    rename(rt, alloc, plan, &copy);
}

fn check_each(rt: &impl Abort, alloc: Global, texts: &[&str]) {
    let mut plan = plan_of(rt, alloc, texts);
    check_same(rt, alloc, &plan, &copy_of(rt, &plan));
    change(rt, alloc, &mut plan);
    check_apart(rt, alloc, &mut plan);
}

#[test]
fn copies_a_plan(rt: HostRuntime) {
    check_each(&rt, rt.alloc(), &[REVOCATIONS, LINKING, ABROAD]);
    check_each(&rt, rt.alloc(), &[THREE, LINKING, ABROAD]);
}
