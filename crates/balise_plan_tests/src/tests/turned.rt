//! Groups that are turned: where their telegrams stand, what is changed in them, and copies of them.

use crate::tests::comparing::same_group;
use crate::tests::digits::{EMPTY, FIRST, LONG, THREE};
use crate::tests::plans::{groups_of, one_of_eight, push_bits, push_group};
use crate::tests::steps::Answer::Done;
use crate::tests::steps::{Step, follow};
use balise_plan::{Bits, Group, PacketTag, Plan, Spot, Telegram, Var};
use std::alloc::Global;
use std::process::Abort;

/// 5.100 of two telegrams.
const TWO: &str =
    "a1027f80a0327fffffffffffffffffffffffffffffffffffffffc0 a1127f80a0327fffffffffffffffffffffffffffffffffffffffc0";

/// The packet that is put in.
const NEW: PacketTag = PacketTag::Fresh(1);

/// The groups of a plan of one group of eight telegrams, of 830 bits each.
fn eight(rt: &impl Abort, alloc: Global) -> Vec<Vec<Bits>> {
    let mut telegrams = Vec::new(alloc);
    for pig in 0..8 {
        push_bits(rt, &mut telegrams, one_of_eight(rt, alloc, LONG, pig));
    }
    let mut groups = Vec::new(alloc);
    push_group(rt, &mut groups, telegrams);
    groups
}

/// Whether the telegram of this tag is this one.
fn is_found(group: &Group, tag: u32, telegram: &Telegram) -> bool {
    match group.telegram(tag) {
        Some(found) => *found.bits() == *telegram.bits(),
        None => false,
    }
}

/// Whether the telegram of this tag stands at this place, which it has in its header.
fn is_at(group: &Group, tag: u32, place: usize) -> bool {
    match group.at(place) {
        Some((t, telegram)) => {
            let pig = telegram.head(Var::NPig).unwrap_or(8);
            (t == tag) & (pig as usize == place) & is_found(group, tag, telegram)
        }
        None => false,
    }
}

/// Whether the telegrams stand in the order of their tags, or the other way round.
fn stands(group: &Group, turned: bool) -> bool {
    let mut same = true;
    let mut tag: u32 = 0;
    for i in 0..group.count() {
        let place = if turned { group.count() - 1 - i } else { i };
        same &= is_at(group, tag, place);
        tag = tag.saturating_add(1);
    }
    same & group.telegram(tag).is_none() & group.at(group.count()).is_none()
}

/// Whether the last telegram that was read, and no other, has the packet that was put in, if one was.
fn last_has(group: &Group, put: bool) -> bool {
    let mut same = true;
    for i in 0..group.count() {
        match group.at(i) {
            Some((tag, telegram)) => {
                let last = tag as usize + 1 == group.count();
                same &= telegram.packet(NEW).is_some() == (put & last);
            }
            None => same = false,
        }
    }
    same
}

fn copy_of(rt: &impl Abort, plan: &Plan) -> Group {
    let group = plan.group(FIRST).expect(rt, "a group");
    group.copy().expect(rt, "memory")
}

/// Whether the group stands so and has the packet or not, and a copy of it as well.
fn is_so(rt: &impl Abort, plan: &Plan, turned: bool, put: bool) -> bool {
    let copy = copy_of(rt, plan);
    let same = match plan.group(FIRST) {
        Some(group) => stands(group, turned) & last_has(group, put) & same_group(group, &copy),
        None => false,
    };
    same & stands(&copy, turned) & last_has(&copy, put)
}

/// Makes a change. After it the group stands so and has the packet or not.
fn make(rt: &impl Abort, alloc: Global, plan: &mut Plan, step: Step, turned: bool, put: bool) {
    follow(rt, alloc, plan, step, Done);
    assert!(rt; is_so(rt, plan, turned, put));
}

/// Turns the group, puts a packet into its last telegram, and turns it back. A copy stays as it was.
fn turn(rt: &impl Abort, alloc: Global, plan: &mut Plan, last: u32) {
    assert!(rt; is_so(rt, plan, false, false));
    make(rt, alloc, plan, Step::Turn(FIRST), true, false);
    let copy = copy_of(rt, plan);
    let packet = Step::Put(FIRST, last, Spot::After(None), NEW, "42403e0a");
    make(rt, alloc, plan, packet, true, true);
    assert!(rt; stands(&copy, true) & last_has(&copy, false));
    make(rt, alloc, plan, Step::Turn(FIRST), false, true);
    make(rt, alloc, plan, Step::Turn(FIRST), true, true);
}

fn turn_of(rt: &impl Abort, alloc: Global, groups: Vec<Vec<Bits>>, last: u32) {
    let mut plan = Plan::read(alloc, groups).expect(rt, "a plan");
    turn(rt, alloc, &mut plan, last);
}

fn turn_each(rt: &impl Abort, alloc: Global) {
    turn_of(rt, alloc, groups_of(rt, alloc, &[EMPTY]), 0);
    turn_of(rt, alloc, groups_of(rt, alloc, &[TWO]), 1);
    turn_of(rt, alloc, groups_of(rt, alloc, &[THREE]), 2);
    turn_of(rt, alloc, eight(rt, alloc), 7);
}

#[test]
fn turns_groups_and_copies_them(rt: HostRuntime) {
    turn_each(&rt, rt.alloc());
}
