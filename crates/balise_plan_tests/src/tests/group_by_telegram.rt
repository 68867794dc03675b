//! Groups read telegram by telegram.

use crate::tests::digits::{ABROAD, EMPTY, INFILL, LINKING, LONG, THREE};
use crate::tests::plans::{check_texts, one_of_eight, telegrams};
use crate::tests::walking::agrees;
use balise_plan::{Bits, Group, GroupReader, Plan, Refusal};
use std::alloc::Global;
use std::process::Abort;

/// 5.100 as the first of two telegrams.
const ONE_OF_TWO: &str = "a1027f80a0327fffffffffffffffffffffffffffffffffffffffc0";

/// The number that no group has.
const RESERVED: &str = "a1007f80bfffffffffffffffffffffffffffffffffffffffffffc0";

/// Whether a telegram is read, and then there are `count` telegrams.
fn reads(reader: &mut GroupReader, bits: Bits, count: usize) -> bool {
    reader.push(bits).is_ok() & (reader.count() == count)
}

/// Whether the telegrams of these digits are read one by one.
fn reads_each(rt: &impl Abort, alloc: Global, reader: &mut GroupReader, text: &str) -> bool {
    let mut same = true;
    let mut count: usize = 0;
    for bits in telegrams(rt, alloc, text) {
        count = count.saturating_add(1);
        same &= reads(reader, bits, count);
    }
    same
}

fn read_each(rt: &impl Abort, alloc: Global, reader: &mut GroupReader, text: &str) {
    assert!(rt; reads_each(rt, alloc, reader, text));
}

/// Pushes a group of these digits.
fn push(rt: &impl Abort, alloc: Global, plan: &mut Plan, text: &str, answer: Result<(), Refusal>) {
    let mut reader = GroupReader::new(alloc);
    read_each(rt, alloc, &mut reader, text);
    push_read(rt, plan, reader, answer);
}

fn push_read(rt: &impl Abort, plan: &mut Plan, reader: GroupReader, answer: Result<(), Refusal>) {
    assert!(rt; plan.changes() == 0);
    assert!(rt; plan.push_group(reader) == answer);
}

/// Pushes groups, some of which are refused.
fn push_each(rt: &impl Abort, alloc: Global, plan: &mut Plan) {
    push(rt, alloc, plan, THREE, Ok(()));
    push(rt, alloc, plan, LINKING, Ok(()));
    push(rt, alloc, plan, EMPTY, Err(Refusal::GroupTwice));
    push(rt, alloc, plan, "", Err(Refusal::GroupSize));
    push(rt, alloc, plan, ONE_OF_TWO, Err(Refusal::HeaderDisagrees));
    push(rt, alloc, plan, RESERVED, Err(Refusal::NumberReserved));
    assert!(rt; plan.changes() == 0);
    check_texts(rt, alloc, plan, &[THREE, LINKING]);
}

#[test]
fn groups_pushed(rt: HostRuntime) {
    let alloc = rt.alloc();
    let mut plan = Plan::empty(alloc);
    push_each(&rt, alloc, &mut plan);
}

/// Groups that name nothing; one identity, by packet 5 or 136; one twice; and more: by each of two telegrams, by two packets,
/// in the second telegram alone, by five elements, and one that says it names nothing.
const NAMING: [&str; 9] = [
    THREE,
    LINKING,
    INFILL,
    ABROAD,
    "a1027f80a03450900f8282a04540fa0064a603ffffffffffffffc0 a1127f80a034415022a07d00325301ffffffffffffffffffffffc0",
    "a1007f80a034c15022a000403253000a811500040194980fffffc0",
    "a1027f80a03550900f82ffffffffffffffffffffffffffffffffc0 a1127f80a03550900f8282a04f4003c060192980ffffffffffffc0",
    "a1007f80a035c15070a000003253080004032d300010066a6000300cf4c000801a299ffffffffffffffffffffffffffffffffffffffffffffffffffffffffffffffffffffffffffffffffffffffffffffffffffffffffffffffffffffffffffffffffffffffffffc",
    "a1007f80a03641503b2000e037fff4c0800400c84cffffffffffc0",
];

/// That the plan knows what the groups that were pushed name.
fn check_names(rt: &impl Abort, alloc: Global, plan: &Plan) {
    assert!(rt; agrees(rt, alloc, plan, &[(5, 100), (6, 100)]));
}

#[test]
fn what_groups_name_is_known(rt: HostRuntime) {
    let alloc = rt.alloc();
    let mut plan = Plan::empty(alloc);
    for text in &NAMING {
        push(&rt, alloc, &mut plan, text, Ok(()));
        check_names(&rt, alloc, &plan);
    }
}

/// Reads a telegram of 830 bits as this one of eight.
fn read_wide(
    rt: &impl Abort,
    alloc: Global,
    reader: &mut GroupReader,
    pig: u32,
    answer: Result<(), Refusal>,
) {
    let bits = one_of_eight(rt, alloc, LONG, pig % 8);
    assert!(rt; reader.push(bits) == answer);
}

/// Reads eight telegrams. A ninth is refused.
fn read_nine(rt: &impl Abort, alloc: Global, reader: &mut GroupReader) {
    for pig in 0..8 {
        read_wide(rt, alloc, reader, pig, Ok(()));
    }
    read_wide(rt, alloc, reader, 8, Err(Refusal::GroupSize));
}

fn check_eight(rt: &impl Abort, group: &Group) {
    assert!(rt; group.count() == 8);
}

#[test]
fn eight_telegrams_and_no_ninth(rt: HostRuntime) {
    let alloc = rt.alloc();
    let mut reader = GroupReader::new(alloc);
    read_nine(&rt, alloc, &mut reader);
    check_eight(&rt, &reader.done().expect(&rt, "a group"));
}
