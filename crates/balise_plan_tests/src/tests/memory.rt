//! Changes whose allocations may fail: a refused one leaves the plan, and returns what was to be put in.
//!
//! Each test comes twice: as it is, for a run in which one growth is refused, and with ample memory, where nothing may
//! be refused. `scripts/check/test_growths.py` refuses each growth of the first in turn.

use crate::tests::comparing::{same_group, same_groups};
use crate::tests::digits::{EMPTY, FIRST, INFILL, LINKING, REVOCATIONS, SECOND};
use crate::tests::plans::id;
use crate::tests::steps::{Answer, Step, make, put_new, put_packet};
use balise_devices::Memory;
use balise_plan::{Bits, Group, GroupTag, Id, Links, Packet, PacketTag, Plan, Refusal, Spot, Var};
use std::alloc::Global;
use std::process::Abort;

const ONE: PacketTag = PacketTag::Base(0);

const TWO: PacketTag = PacketTag::Base(1);

const NEW: GroupTag = GroupTag::Fresh(1);

/// 5.100, and 5.101, which names it.
const GROUPS: &[&str] = &[REVOCATIONS, LINKING];

/// Identities before and after the changes.
const KNOWN: &[(u32, u32)] = &[(5, 100), (5, 101), (5, 103), (5, 150), (5, 200)];

/// Changes that put nothing in, and what each answers where there is memory for it.
const CHANGES: &[(Step, Answer)] = &[
    (
        Step::Field(SECOND, 0, ONE, Var::NidBg, 0, 150),
        Answer::Old(100),
    ),
    (
        Step::Field(FIRST, 0, ONE, Var::NidTsr, 0, 9),
        Answer::Old(5),
    ),
    (Step::Head(FIRST, 0, Var::MMcount, 9), Answer::Old(255)),
    (Step::Take(SECOND, 0, ONE), Answer::Next(None)),
    (Step::Take(FIRST, 0, ONE), Answer::Next(Some(TWO))),
    (
        Step::Shift(FIRST, 0, ONE, Spot::Before(None)),
        Answer::Next(Some(TWO)),
    ),
    (Step::TakeGroup(FIRST), Answer::Next(Some(SECOND))),
    (Step::Rename(FIRST, 200), Answer::Old(100)),
    (Step::Turn(FIRST), Answer::Done),
];

/// The bits of a telegram, where there is memory for them.
fn bits_of(alloc: Global, digits: &str) -> Option<Bits> {
    Bits::from_hex(alloc, digits, 210).ok()
}

/// The bits of a group of one telegram.
fn alone(alloc: Global, digits: &str) -> Option<Vec<Bits>> {
    match bits_of(alloc, digits) {
        Some(bits) => only(alloc, bits),
        None => None,
    }
}

fn only(alloc: Global, bits: Bits) -> Option<Vec<Bits>> {
    let mut telegrams = Vec::new(alloc);
    if telegrams.push(bits).is_ok() {
        Some(telegrams)
    } else {
        None
    }
}

/// Puts a group of one telegram after the others, and says whether there was memory for it.
fn push_alone(alloc: Global, groups: &mut Vec<Vec<Bits>>, digits: &str) -> bool {
    match alone(alloc, digits) {
        Some(group) => groups.push(group).is_ok(),
        None => false,
    }
}

fn push_groups(alloc: Global, groups: &mut Vec<Vec<Bits>>) -> bool {
    let mut pushed = true;
    for text in GROUPS.iter() {
        pushed &= push_alone(alloc, groups, *text);
    }
    pushed
}

/// The bits of both groups.
fn groups_of(alloc: Global) -> Option<Vec<Vec<Bits>>> {
    let mut groups = Vec::new(alloc);
    if push_groups(alloc, &mut groups) {
        Some(groups)
    } else {
        None
    }
}

/// The plan of both groups.
fn plan_of(alloc: Global) -> Option<Plan> {
    Plan::read(alloc, groups_of(alloc)?).ok()
}

/// That plan twice: one to change, and one to compare it with.
fn two_plans(alloc: Global) -> Option<(Plan, Plan)> {
    match plan_of(alloc) {
        Some(plan) => with_other(plan, plan_of(alloc)),
        None => None,
    }
}

fn with_other(plan: Plan, other: Option<Plan>) -> Option<(Plan, Plan)> {
    match other {
        Some(other) => Some((plan, other)),
        None => None,
    }
}

/// The group 5.103, which names 5.100.
fn group_of(alloc: Global) -> Option<Group> {
    Group::read(alloc, alone(alloc, INFILL)?).ok()
}

/// The packet of that group.
fn packet_of(alloc: Global) -> Option<Packet> {
    let bits = bits_of(alloc, INFILL)?;
    let (packet, _) = Packet::read(&bits, 50, 33).ok()?;
    Some(packet)
}

fn same_links(links: &Links, other: &Links) -> bool {
    let mut same = links.len() == other.len();
    for place in links.iter() {
        same &= other.contains(&place);
    }
    same
}

/// Whether both plans have the same links to an identity.
fn same_names(plan: &Plan, other: &Plan, id: Id) -> bool {
    match (plan.links_to(id), other.links_to(id)) {
        (None, None) => true,
        (Some(links), Some(twins)) => same_links(links, twins),
        _ => false,
    }
}

fn same_indexes(plan: &Plan, other: &Plan) -> bool {
    let mut same = true;
    for (country, number) in KNOWN.iter() {
        same &= names_alike(plan, other, id(*country, *number));
    }
    same
}

/// Whether both plans have the same group of an identity, and the same links to it.
fn names_alike(plan: &Plan, other: &Plan, id: Id) -> bool {
    (plan.tag_of(id) == other.tag_of(id)) & same_names(plan, other, id)
}

/// Whether two plans are the same. Takes no memory.
fn is_same(plan: &Plan, other: &Plan) -> bool {
    (plan.changes() == other.changes()) & same_groups(plan, other) & same_indexes(plan, other)
}

/// That a change was refused as out of memory, and that the plan is as the other.
fn check_refused(rt: &impl Abort, plan: &Plan, other: &Plan, fault: Refusal, memory: Memory) {
    assert!(rt; memory == Memory::OneRefused);
    assert!(rt; fault == Refusal::OutOfMemory);
    assert!(rt; is_same(plan, other));
}

/// That a change was made, or refused.
fn check_answer(
    rt: &impl Abort,
    (plan, other): (&Plan, &Plan),
    given: Answer,
    answer: Answer,
    memory: Memory,
) {
    match given {
        Answer::Refused(fault) => check_refused(rt, plan, other, fault, memory),
        _ => assert!(rt; given == answer),
    }
}

fn change(
    rt: &impl Abort,
    alloc: Global,
    plan: &mut Plan,
    other: &Plan,
    (step, answer): (Step, Answer),
    memory: Memory,
) {
    let given = make(rt, alloc, plan, step);
    check_answer(rt, (plan, other), given, answer, memory);
}

fn check_change(rt: &impl Abort, alloc: Global, step: (Step, Answer), memory: Memory) {
    let Some((mut plan, other)) = two_plans(alloc) else {
        assert!(rt; memory == Memory::OneRefused);
        return;
    };
    change(rt, alloc, &mut plan, &other, step, memory);
}

fn check_changes(rt: &impl Abort, alloc: Global, memory: Memory) {
    for (step, answer) in CHANGES.iter() {
        check_change(rt, alloc, (*step, *answer), memory);
    }
}

#[test]
fn makes_a_change_or_leaves_the_plan(rt: HostRuntime) {
    check_changes(&rt, rt.alloc(), Memory::OneRefused);
}

#[test]
fn makes_a_change_with_ample_memory(rt: HostRuntime) {
    check_changes(&rt, rt.alloc(), Memory::Ample);
}

/// Puts a packet over the first of these bits.
fn put_over(rt: &impl Abort, packet: &Packet, bits: &mut Bits) {
    assert!(rt; packet.width() <= bits.len());
    packet.put_over(bits, 0);
}

/// The bits of a telegram with a packet over the first of them.
fn over_telegram(rt: &impl Abort, alloc: Global, packet: &Packet) -> Option<Bits> {
    let mut bits = bits_of(alloc, EMPTY)?;
    put_over(rt, packet, &mut bits);
    Some(bits)
}

/// That these are the same bits, where there was memory for them.
fn check_bits(rt: &impl Abort, bits: &Option<Bits>, wanted: &Option<Bits>) {
    if let (Some(bits), Some(wanted)) = (bits, wanted) {
        assert!(rt; *bits == *wanted);
    }
}

/// That a packet has the bits of another one.
fn check_packet(rt: &impl Abort, alloc: Global, packet: &Packet, twin: &Packet) {
    assert!(rt; packet.width() == twin.width());
    let bits = over_telegram(rt, alloc, packet);
    check_bits(rt, &bits, &over_telegram(rt, alloc, twin));
}

/// That a change that puts something in was made.
fn check_made(rt: &impl Abort, plan: &Plan) {
    assert!(rt; plan.changes() == 1);
}

fn check_put(
    rt: &impl Abort,
    alloc: Global,
    plan: &mut Plan,
    (other, twin): (&Plan, &Packet),
    packet: Packet,
    memory: Memory,
) {
    match put_packet(rt, plan, (FIRST, 0, Spot::After(None), NEW), packet) {
        Ok(()) => check_made(rt, plan),
        Err((fault, back)) => {
            check_refused(rt, plan, other, fault, memory);
            check_packet(rt, alloc, &back, twin);
        }
    }
}

fn put_in(rt: &impl Abort, alloc: Global, memory: Memory) {
    match (two_plans(alloc), packet_of(alloc), packet_of(alloc)) {
        (Some((mut plan, other)), Some(twin), Some(packet)) => {
            check_put(rt, alloc, &mut plan, (&other, &twin), packet, memory);
        }
        _ => assert!(rt; memory == Memory::OneRefused),
    }
}

fn check_put_group(
    rt: &impl Abort,
    plan: &mut Plan,
    (other, twin): (&Plan, &Group),
    group: Group,
    memory: Memory,
) {
    match put_new(rt, plan, Spot::After(Some(FIRST)), NEW, group) {
        Ok(()) => check_made(rt, plan),
        Err((fault, back)) => {
            check_refused(rt, plan, other, fault, memory);
            assert!(rt; same_group(&back, twin));
        }
    }
}

fn put_group_in(rt: &impl Abort, alloc: Global, memory: Memory) {
    match (two_plans(alloc), group_of(alloc), group_of(alloc)) {
        (Some((mut plan, other)), Some(twin), Some(group)) => {
            check_put_group(rt, &mut plan, (&other, &twin), group, memory);
        }
        _ => assert!(rt; memory == Memory::OneRefused),
    }
}

#[test]
fn puts_in_or_hands_back(rt: HostRuntime) {
    put_in(&rt, rt.alloc(), Memory::OneRefused);
    put_group_in(&rt, rt.alloc(), Memory::OneRefused);
}

#[test]
fn puts_in_with_ample_memory(rt: HostRuntime) {
    put_in(&rt, rt.alloc(), Memory::Ample);
    put_group_in(&rt, rt.alloc(), Memory::Ample);
}
