//! What is taken out of a plan, and what is pushed onto one.

use crate::tests::digits::{EMPTY, FIRST, LINKING, REVOCATIONS, SECOND};
use crate::tests::plans::{bits_of, check_texts, plan_of};
use crate::tests::reading::{
    NO_END, NOT_A_BALISE, ONE_OF_TWO, PACKET_ZERO, RESERVED, bits_of_each,
};
use crate::tests::steps::{KNOWN, group_shows};
use crate::tests::walking::agrees;
use balise_plan::{Bits, Packet, PacketTag, Plan, Refusal};
use std::alloc::Global;
use std::process::Abort;

const FIVE: PacketTag = PacketTag::Base(0);

const SEVEN: PacketTag = PacketTag::Base(1);

/// The first 31 bits are the packet 66 that takes back restriction 5.
const TSR_5: &str = "42403e0a";

fn check_digits(rt: &impl Abort, alloc: Global, packet: &Packet, digits: &str) {
    let mut bits = Bits::new(alloc);
    packet.write(&mut bits).expect(rt, "memory");
    assert!(rt; bits.to_hex().expect(rt, "memory").as_str() == digits);
}

fn take_packet(rt: &impl Abort, plan: &mut Plan) -> (Packet, Option<PacketTag>) {
    assert!(rt; plan.changes() < 1000);
    plan.take_packet(FIRST, 0, FIVE).expect(rt, "a packet")
}

#[test]
fn the_packet_that_stood_there(rt: HostRuntime) {
    let mut plan = plan_of(&rt, rt.alloc(), &[REVOCATIONS, LINKING]);
    let (packet, next) = take_packet(&rt, &mut plan);
    check_digits(&rt, rt.alloc(), &packet, TSR_5);
    assert!(rt; next == Some(SEVEN));
}

fn check_group(rt: &impl Abort, alloc: Global, plan: &mut Plan) {
    assert!(rt; plan.changes() < 1000);
    let (group, next) = plan.take_group(FIRST).expect(rt, "a group");
    let wanted = alone(rt, alloc, REVOCATIONS);
    assert!(rt; group_shows(rt, &group, &wanted));
    assert!(rt; next == Some(SECOND));
}

#[test]
fn the_group_that_stood_there(rt: HostRuntime) {
    let mut plan = plan_of(&rt, rt.alloc(), &[REVOCATIONS, LINKING]);
    check_group(&rt, rt.alloc(), &mut plan);
}

/// The bits of a group of one telegram.
fn alone(rt: &impl Abort, alloc: Global, digits: &str) -> Vec<Bits> {
    let mut telegrams = Vec::new(alloc);
    telegrams
        .push(bits_of(rt, alloc, digits))
        .expect(rt, "memory");
    telegrams
}

/// Groups that aren't put onto a plan that has 5.100, each with its refusal.
const REFUSED: &[(&[&str], Refusal)] = &[
    (&[], Refusal::GroupSize),
    (&[EMPTY; 9], Refusal::GroupSize),
    (&[NOT_A_BALISE], Refusal::NotABalise),
    (&[EMPTY, NO_END], Refusal::NoEnd),
    (&[PACKET_ZERO], Refusal::PacketZero),
    (&[ONE_OF_TWO], Refusal::HeaderDisagrees),
    (&[RESERVED], Refusal::NumberReserved),
    (&[EMPTY], Refusal::GroupTwice),
    (&[REVOCATIONS], Refusal::GroupTwice),
];

fn push(rt: &impl Abort, plan: &mut Plan, telegrams: Vec<Bits>) -> Result<(), Refusal> {
    assert!(rt; plan.changes() == 0);
    plan.push(telegrams)
}

/// That the group is refused for this reason, and that the plan still shows what it did.
fn check_refused(
    rt: &impl Abort,
    alloc: Global,
    plan: &mut Plan,
    words: &[&str],
    refusal: Refusal,
) {
    let telegrams = bits_of_each(rt, alloc, words);
    assert!(rt; push(rt, plan, telegrams) == Err(refusal));
    check_texts(rt, alloc, plan, &[EMPTY]);
    assert!(rt; agrees(rt, alloc, plan, KNOWN));
}

fn check_pushes(rt: &impl Abort, alloc: Global, plan: &mut Plan) {
    for (words, refusal) in REFUSED.iter() {
        check_refused(rt, alloc, plan, *words, *refusal);
    }
    assert!(rt; push(rt, plan, alone(rt, alloc, LINKING)).is_ok());
    check_texts(rt, alloc, plan, &[EMPTY, LINKING]);
    assert!(rt; plan.changes() == 0);
}

/// What is refused leaves the plan as it was, and what is pushed stands last.
#[test]
fn pushed_or_refused(rt: HostRuntime) {
    let mut plan = plan_of(&rt, rt.alloc(), &[EMPTY]);
    check_pushes(&rt, rt.alloc(), &mut plan);
}
