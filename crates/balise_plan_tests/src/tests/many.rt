//! Plans of many groups.

use crate::tests::calls::is_at;
use crate::tests::digits::{FIRST, LINKING};
use crate::tests::plans::{bits_of, check, check_shown, id, push_alone, put_number};
use crate::tests::steps::Answer::{Done, Old};
use crate::tests::steps::{Step, follow, put_back, put_there};
use crate::tests::walking::names;
use balise_plan::{Bits, Group, GroupTag, Plan, Spot};
use std::alloc::Global;
use std::process::Abort;

fn linking(rt: &impl Abort, alloc: Global, number: u32, named: u32) -> Bits {
    let mut bits = bits_of(rt, alloc, LINKING);
    put_number(rt, &mut bits, 35, number);
    put_number(rt, &mut bits, 91, named);
    bits
}

fn push_thousand(rt: &impl Abort, alloc: Global, groups: &mut Vec<Vec<Bits>>, ring: bool) {
    for number in 0..1000 {
        let named = if ring & (number < 999) { number + 1 } else { 0 };
        push_alone(rt, alloc, groups, linking(rt, alloc, number, named));
    }
}

/// 1,000 groups of country 5. Each names the next one and the last the first, or all name the first.
fn thousand(rt: &impl Abort, alloc: Global, ring: bool) -> Vec<Vec<Bits>> {
    let mut groups = Vec::new(alloc);
    push_thousand(rt, alloc, &mut groups, ring);
    groups
}

fn thousand_plan(rt: &impl Abort, alloc: Global, ring: bool) -> Plan {
    Plan::read(alloc, thousand(rt, alloc, ring)).expect(rt, "a plan")
}

/// Takes each of 1,000 groups out and puts it back.
fn put_each_back(rt: &impl Abort, alloc: Global, plan: &mut Plan, ring: bool) {
    for i in 0..1000 {
        put_back(rt, plan, GroupTag::Base(i));
    }
    assert!(rt; plan.changes() == 2000);
    check(rt, alloc, plan, &thousand(rt, alloc, ring));
}

fn check_put_back(rt: &impl Abort, alloc: Global, ring: bool) {
    let mut plan = thousand_plan(rt, alloc, ring);
    put_each_back(rt, alloc, &mut plan, ring);
}

#[test]
fn takes_1000_groups_out_and_puts_them_back(rt: HostRuntime) {
    check_put_back(&rt, rt.alloc(), true);
    check_put_back(&rt, rt.alloc(), false);
}

/// Puts a group in, under a new tag.
fn put_in(
    rt: &impl Abort,
    alloc: Global,
    plan: &mut Plan,
    spot: Spot<GroupTag>,
    tag: GroupTag,
    telegrams: Vec<Bits>,
) {
    let group = Group::read(alloc, telegrams).expect(rt, "a group");
    put_there(rt, plan, spot, tag, group);
}

/// Puts each of 1,000 groups in after the first of them.
fn put_each_in(rt: &impl Abort, alloc: Global, plan: &mut Plan) {
    let mut spot = Spot::After(None);
    let mut n: u32 = 0;
    for telegrams in thousand(rt, alloc, true) {
        put_in(rt, alloc, plan, spot, GroupTag::Fresh(n), telegrams);
        spot = Spot::After(Some(GroupTag::Fresh(0)));
        n = n.saturating_add(1);
    }
}

/// Whether the groups stand in the opposite order, after the first.
fn is_turned_round(plan: &Plan) -> bool {
    let mut same = true;
    for n in 1..1000 {
        same &= is_at(plan, 1000 - n as usize, GroupTag::Fresh(n), id(5, n));
    }
    same
}

fn put_all_in(rt: &impl Abort, alloc: Global, plan: &mut Plan) {
    put_each_in(rt, alloc, plan);
    assert!(rt; is_turned_round(plan));
}

fn put_into_empty(rt: &impl Abort, alloc: Global) {
    let mut plan = Plan::empty(alloc);
    put_all_in(rt, alloc, &mut plan);
}

#[test]
fn puts_1000_groups_in_behind_the_first(rt: HostRuntime) {
    put_into_empty(&rt, rt.alloc());
}

/// Whether 1,000 links name the one number and none the other.
fn all_name(rt: &impl Abort, alloc: Global, plan: &Plan, number: u32, old: u32) -> bool {
    names(rt, alloc, plan, id(5, number), 1000) & plan.links_to(id(5, old)).is_none()
}

/// Renumbers the group that 1,000 links name, and turns it.
fn renumber(rt: &impl Abort, alloc: Global, plan: &mut Plan, number: u32, old: u32) {
    let step = Step::Rename(FIRST, number);
    follow(rt, alloc, plan, step, Old(old));
    assert!(rt; all_name(rt, alloc, plan, number, old));
    follow(rt, alloc, plan, Step::Turn(FIRST), Done);
}

fn renumber_twice(rt: &impl Abort, alloc: Global, plan: &mut Plan) {
    renumber(rt, alloc, plan, 16382, 0);
    renumber(rt, alloc, plan, 0, 16382);
    check_shown(rt, plan, &thousand(rt, alloc, false));
}

fn read_and_renumber(rt: &impl Abort, alloc: Global) {
    let mut plan = thousand_plan(rt, alloc, false);
    renumber_twice(rt, alloc, &mut plan);
}

#[test]
fn renumbers_1000_links_at_once(rt: HostRuntime) {
    read_and_renumber(&rt, rt.alloc());
}
