//! Plans of known digits.

use crate::tests::walking::agrees;
use balise_plan::{Bits, Id, Plan, Refusal};
use std::alloc::Global;
use std::process::Abort;

/// An identity: NID_C and NID_BG.
pub(crate) fn id(country: u32, number: u32) -> Id {
    Id { country, number }
}

/// How many bits a telegram of these digits has.
fn width_of(digits: &str) -> usize {
    match digits.len() {
        54 => 210,
        208 => 830,
        _ => 32,
    }
}

/// The bits of a telegram of these digits.
pub(crate) fn bits_of(rt: &impl Abort, alloc: Global, digits: &str) -> Bits {
    Bits::from_hex(alloc, digits, width_of(digits)).expect(rt, "digits")
}

/// The bits of this one of eight telegrams of 830 bits, which differ in N_PIG alone.
pub(crate) fn one_of_eight(rt: &impl Abort, alloc: Global, digits: &str, pig: u32) -> Bits {
    let mut bits = bits_of(rt, alloc, digits);
    // N_PIG, and after it N_TOTAL of 7, M_DUP of 0 and six bits of M_MCOUNT.
    put_number(rt, &mut bits, 9, (pig << 11) | 1855);
    bits
}

/// Puts a number of 14 bits into a telegram.
pub(crate) fn put_number(rt: &impl Abort, bits: &mut Bits, at: usize, number: u32) {
    assert!(rt; number < 16384);
    assert!(rt; at < 100);
    assert!(rt; bits.len() >= 210);
    bits.put(at, 14, number);
}

/// Puts the bits of a telegram after the others.
pub(crate) fn push_bits(rt: &impl Abort, telegrams: &mut Vec<Bits>, bits: Bits) {
    telegrams.push(bits).expect(rt, "memory");
}

fn push_words(rt: &impl Abort, alloc: Global, telegrams: &mut Vec<Bits>, text: &str) {
    for word in text.split_whitespace() {
        push_bits(rt, telegrams, bits_of(rt, alloc, word));
    }
}

/// The bits of a group's telegrams, whose digits stand apart by a space.
pub(crate) fn telegrams(rt: &impl Abort, alloc: Global, text: &str) -> Vec<Bits> {
    let mut telegrams = Vec::new(alloc);
    push_words(rt, alloc, &mut telegrams, text);
    telegrams
}

/// Puts the bits of a group after the others.
pub(crate) fn push_group(rt: &impl Abort, groups: &mut Vec<Vec<Bits>>, group: Vec<Bits>) {
    groups.push(group).expect(rt, "memory");
}

/// Puts a group of one telegram after the others.
pub(crate) fn push_alone(rt: &impl Abort, alloc: Global, groups: &mut Vec<Vec<Bits>>, bits: Bits) {
    let mut telegrams = Vec::new(alloc);
    push_bits(rt, &mut telegrams, bits);
    push_group(rt, groups, telegrams);
}

fn push_groups(rt: &impl Abort, alloc: Global, groups: &mut Vec<Vec<Bits>>, texts: &[&str]) {
    for text in texts.iter() {
        push_group(rt, groups, telegrams(rt, alloc, *text));
    }
}

/// The bits of these groups.
pub(crate) fn groups_of(rt: &impl Abort, alloc: Global, texts: &[&str]) -> Vec<Vec<Bits>> {
    let mut groups = Vec::new(alloc);
    push_groups(rt, alloc, &mut groups, texts);
    groups
}

/// What reading a plan of these groups answers.
pub(crate) fn read(rt: &impl Abort, alloc: Global, texts: &[&str]) -> Result<Plan, Refusal> {
    Plan::read(alloc, groups_of(rt, alloc, texts))
}

/// The plan of these groups.
pub(crate) fn plan_of(rt: &impl Abort, alloc: Global, texts: &[&str]) -> Plan {
    read(rt, alloc, texts).expect(rt, "a plan")
}

/// Whether a plan shows these bits.
fn shows_bits(rt: &impl Abort, plan: &Plan, groups: &Vec<Vec<Bits>>) -> bool {
    plan.shown().expect(rt, "memory") == *groups
}

/// That a plan shows these bits.
pub(crate) fn check_shown(rt: &impl Abort, plan: &Plan, groups: &Vec<Vec<Bits>>) {
    assert!(rt; shows_bits(rt, plan, groups));
}

/// That a plan shows these groups.
pub(crate) fn check_texts(rt: &impl Abort, alloc: Global, plan: &Plan, texts: &[&str]) {
    check_shown(rt, plan, &groups_of(rt, alloc, texts));
}

/// That a plan shows these bits, and that its names agree.
pub(crate) fn check(rt: &impl Abort, alloc: Global, plan: &Plan, groups: &Vec<Vec<Bits>>) {
    check_shown(rt, plan, groups);
    assert!(rt; agrees(rt, alloc, plan, &[]));
}
