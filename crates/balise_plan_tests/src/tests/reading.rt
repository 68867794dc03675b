//! Groups and plans that are read, and those that are refused.

use crate::tests::digits::{ABROAD, EMPTY, LINKING, LONG, THREE};
use crate::tests::plans::{bits_of, push_bits, read};
use crate::tests::steps::{follow_over, group_shows};
use balise_plan::{Bits, Group, Refusal};
use std::alloc::Global;
use std::process::Abort;

/// 5.100 in two telegrams, and other first and second ones.
pub(crate) const ONE_OF_TWO: &str = "a1027f80a0327fffffffffffffffffffffffffffffffffffffffc0";

const TWO_OF_TWO: &str = "a1127f80a0327fffffffffffffffffffffffffffffffffffffffc0";

const TWO_OF_THREE: &str = "a1147f80a0327fffffffffffffffffffffffffffffffffffffffc0";

const OF_ANOTHER_NUMBER: &str = "a1127f80a032ffffffffffffffffffffffffffffffffffffffffc0";

const OF_ANOTHER_COUNTRY: &str = "a1127f80c0327fffffffffffffffffffffffffffffffffffffffc0";

/// The number that no group has.
pub(crate) const RESERVED: &str = "a1007f80bfffffffffffffffffffffffffffffffffffffffffffc0";

const RESERVED_ONE_OF_TWO: &str = "a1027f80bfffffffffffffffffffffffffffffffffffffffffffc0";

/// Telegrams with a fault of their own.
pub(crate) const NOT_A_BALISE: &str = "a1807f80a0327fffffffffffffffffffffffffffffffffffffffc0";

pub(crate) const NO_END: &str = "a1007f80a0324b2050000000000000000000000000000000000000";

const PACKET_CUT: &str = "a1007f80a0324b200b3fffffffffffffffffffffffffffffffffc0";

pub(crate) const PACKET_ZERO: &str = "a1007f80a032403fffffffffffffffffffffffffffffffffffffc0";

/// Packet 136 with a length of 39.
const LONG_INFILL: &str = "a1007f80a033e2101380647fffffffffffffffffffffffffffffc0";

/// 5.100 of three telegrams.
const ONE: &str = "a104ff80a032505023a0a0320096047fffffffffffffffffffffc0";

const TWO: &str = "a1157f80a0324b0010697fffffffffffffffffffffffffffffffc0";

const OF_THREE: &str = "a1247f80a0327fffffffffffffffffffffffffffffffffffffffc0";

fn push_each(rt: &impl Abort, alloc: Global, telegrams: &mut Vec<Bits>, words: &[&str]) {
    for word in words.iter() {
        push_bits(rt, telegrams, bits_of(rt, alloc, *word));
    }
}

/// The bits of these telegrams.
pub(crate) fn bits_of_each(rt: &impl Abort, alloc: Global, words: &[&str]) -> Vec<Bits> {
    let mut telegrams = Vec::new(alloc);
    push_each(rt, alloc, &mut telegrams, words);
    telegrams
}

/// Whether reading these telegrams gave a group that shows them, or this refusal.
fn is_read(
    rt: &impl Abort,
    group: &Result<Group, Refusal>,
    telegrams: &Vec<Bits>,
    refusal: Option<Refusal>,
) -> bool {
    match group {
        Ok(group) => refusal.is_none() & group_shows(rt, group, telegrams),
        Err(fault) => refusal == Some(*fault),
    }
}

/// Whether a group of these telegrams is refused for this reason, or read.
fn reads(rt: &impl Abort, alloc: Global, words: &[&str], refusal: Option<Refusal>) -> bool {
    let group = Group::read(alloc, bits_of_each(rt, alloc, words));
    is_read(rt, &group, &bits_of_each(rt, alloc, words), refusal)
}

/// That a group of these telegrams is refused for this reason, or read.
fn check(rt: &impl Abort, alloc: Global, words: &[&str], refusal: Option<Refusal>) {
    assert!(rt; reads(rt, alloc, words, refusal));
}

/// Groups that are read.
const GROUPS: &[&[&str]] = &[
    &[EMPTY],
    &[LONG],
    &[ONE_OF_TWO, TWO_OF_TWO],
    &[ONE, TWO, OF_THREE],
];

/// Groups that are refused.
const REFUSED: &[(&[&str], Refusal)] = &[
    (&[], Refusal::GroupSize),
    (&[NOT_A_BALISE; 9], Refusal::GroupSize),
    (&[EMPTY; 8], Refusal::HeaderDisagrees),
    (&[TWO, ONE, OF_THREE], Refusal::HeaderDisagrees),
    (&[ONE, OF_THREE, TWO], Refusal::HeaderDisagrees),
    (&[OF_THREE, ONE, TWO], Refusal::HeaderDisagrees),
    (&[ONE, TWO], Refusal::HeaderDisagrees),
    (&[TWO, OF_THREE], Refusal::HeaderDisagrees),
    (&[ONE_OF_TWO], Refusal::HeaderDisagrees),
    (&[TWO_OF_TWO], Refusal::HeaderDisagrees),
    (&[ONE_OF_TWO, TWO_OF_THREE], Refusal::HeaderDisagrees),
    (&[ONE_OF_TWO, OF_ANOTHER_NUMBER], Refusal::HeaderDisagrees),
    (&[ONE_OF_TWO, OF_ANOTHER_COUNTRY], Refusal::HeaderDisagrees),
    (&[RESERVED_ONE_OF_TWO, TWO_OF_TWO], Refusal::HeaderDisagrees),
    (&[RESERVED], Refusal::NumberReserved),
    (&[NOT_A_BALISE, NO_END], Refusal::NotABalise),
    (&[EMPTY, NO_END, PACKET_CUT], Refusal::NoEnd),
    (&[RESERVED, PACKET_CUT, NO_END], Refusal::PacketCut),
    (&[EMPTY, PACKET_ZERO], Refusal::PacketZero),
    (&[LONG_INFILL], Refusal::LayoutMismatch),
    (&["a1007f80"], Refusal::BadLength),
];

fn read_each(rt: &impl Abort, alloc: Global) {
    for words in GROUPS.iter() {
        check(rt, alloc, *words, None);
    }
    for (words, refusal) in REFUSED.iter() {
        check(rt, alloc, *words, Some(*refusal));
    }
}

#[test]
fn reads_groups(rt: HostRuntime) {
    read_each(&rt, rt.alloc());
}

/// A plan that is read shows its groups again.
#[test]
fn reads_plans_of_groups(rt: HostRuntime) {
    follow_over(&rt, rt.alloc(), &[], &[]);
    follow_over(&rt, rt.alloc(), &[EMPTY, LINKING, ABROAD], &[]);
    follow_over(&rt, rt.alloc(), &[LINKING, THREE], &[]);
}

/// Plans that are refused.
const REFUSED_PLANS: &[(&[&str], Refusal)] = &[
    (&[EMPTY, EMPTY], Refusal::GroupTwice),
    (&[EMPTY, LINKING, THREE], Refusal::GroupTwice),
    (&[EMPTY, EMPTY, NOT_A_BALISE], Refusal::GroupTwice),
    (&[EMPTY, ""], Refusal::GroupSize),
    (&["", EMPTY, EMPTY], Refusal::GroupSize),
    (&[EMPTY, ONE_OF_TWO], Refusal::HeaderDisagrees),
    (&[RESERVED, RESERVED], Refusal::NumberReserved),
    (&[LINKING, PACKET_ZERO], Refusal::PacketZero),
];

/// That reading a plan of these groups is refused for this reason.
fn check_refused(rt: &impl Abort, alloc: Global, texts: &[&str], refusal: Refusal) {
    assert!(rt; read(rt, alloc, texts).err() == Some(refusal));
}

fn refuse_each(rt: &impl Abort, alloc: Global) {
    for (texts, refusal) in REFUSED_PLANS.iter() {
        check_refused(rt, alloc, *texts, *refusal);
    }
}

#[test]
fn refuses_plans_of_groups(rt: HostRuntime) {
    refuse_each(&rt, rt.alloc());
}
