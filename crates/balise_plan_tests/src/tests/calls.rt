//! Each call on its happy path, in either form of a place.

use crate::tests::digits::{ABROAD, EMPTY, FIRST, INFILL, LINKING, REVOCATIONS, SECOND};
use crate::tests::plans::{id, plan_of};
use crate::tests::steps::Answer::{Done, Next, Old};
use crate::tests::steps::Step::{Field, Head, Put, PutGroup, Shift, Take, TakeGroup};
use crate::tests::steps::{Answer, Step, follow_one, shown_plan_of};
use crate::tests::walking::listed;
use balise_plan::Spot::{After, Before};
use balise_plan::{Group, GroupTag, Id, LinkPlace, PacketTag, Plan, Spot, Var};
use std::alloc::Global;
use std::process::Abort;

const NEW: GroupTag = GroupTag::Fresh(1);

const FIVE: PacketTag = PacketTag::Base(0);

const SEVEN: PacketTag = PacketTag::Base(1);

/// Packets 66 that take back restrictions 6 and 9.
const TSR_6: &str = "42403e0c";

const TSR_9: &str = "42403e12";

const PUT: &str = "a1007f00a03250900f83a1201f0642403e13ffffffffffffffffc0";

const MOVED_ON: &str = "a1007f00a03250900f83a1201f0942403e0dffffffffffffffffc0";

/// A change of each kind in a telegram, its answer, and the telegram then.
const IN_A_TELEGRAM: &[(Step, Answer, &str)] = &[
    (
        Field(FIRST, 0, FIVE, Var::NidTsr, 0, 9),
        Old(5),
        "a1007f80a03250900f84a1201f07ffffffffffffffffffffffffc0",
    ),
    (
        Head(FIRST, 0, Var::MMcount, 254),
        Old(255),
        "a1007f00a03250900f84a1201f07ffffffffffffffffffffffffc0",
    ),
    (
        Shift(FIRST, 0, SEVEN, After(None)),
        Next(None),
        "a1007f00a03250900f83a1201f09ffffffffffffffffffffffffc0",
    ),
    (Put(FIRST, 0, Before(Some(FIVE)), NEW, TSR_6), Done, PUT),
    (
        Shift(FIRST, 0, NEW, After(Some(FIVE))),
        Next(Some(FIVE)),
        MOVED_ON,
    ),
    (Shift(FIRST, 0, NEW, Before(Some(FIVE))), Next(None), PUT),
    (
        Shift(FIRST, 0, NEW, Before(None)),
        Next(Some(FIVE)),
        MOVED_ON,
    ),
    (
        Take(FIRST, 0, FIVE),
        Next(Some(NEW)),
        "a1007f00a03250900f83a1201f06ffffffffffffffffffffffffc0",
    ),
    (Put(FIRST, 0, After(Some(NEW)), FIVE, TSR_9), Done, PUT),
];

fn change_each(rt: &impl Abort, alloc: Global, plan: &mut Plan) {
    for (step, answer, text) in IN_A_TELEGRAM.iter() {
        follow_one(rt, alloc, plan, *step, *answer, &[*text, LINKING]);
    }
}

#[test]
fn changes_a_telegram(rt: HostRuntime) {
    let alloc = rt.alloc();
    let mut plan = shown_plan_of(&rt, alloc, &[REVOCATIONS, LINKING]);
    change_each(&rt, alloc, &mut plan);
}

/// Where a group is put in, what it stands before then, and the groups then.
type Putting = (Spot<GroupTag>, Option<GroupTag>, [&'static str; 3]);

const AT_AN_END: &[Putting] = &[
    (After(None), Some(FIRST), [ABROAD, EMPTY, LINKING]),
    (Before(None), None, [EMPTY, LINKING, ABROAD]),
];

const BESIDE_ANOTHER: &[Putting] = &[
    (Before(Some(FIRST)), Some(FIRST), [INFILL, EMPTY, LINKING]),
    (After(Some(FIRST)), Some(SECOND), [EMPTY, INFILL, LINKING]),
    (After(Some(SECOND)), None, [EMPTY, LINKING, INFILL]),
];

/// Puts a group in at each of these places, and takes it out.
fn put_at_each(
    rt: &impl Abort,
    alloc: Global,
    plan: &mut Plan,
    text: &'static str,
    rows: &[Putting],
) {
    for (spot, next, texts) in rows.iter() {
        let put = PutGroup(*spot, NEW, text);
        follow_one(rt, alloc, plan, put, Done, texts.as_slice());
        follow_one(
            rt,
            alloc,
            plan,
            TakeGroup(NEW),
            Next(*next),
            &[EMPTY, LINKING],
        );
    }
}

/// Whether the group at a place has this tag and this identity.
pub(crate) fn is_at(plan: &Plan, i: usize, tag: GroupTag, id: Id) -> bool {
    match plan.at(i) {
        Some((there, group)) => {
            (there == tag)
                & (group.identity() == id)
                & (plan.place_of(tag) == Some(i))
                & (plan.tag_of(id) == Some(tag))
        }
        None => false,
    }
}

/// Whether there are two groups, found by place, by tag and by identity.
fn tells_groups(plan: &Plan) -> bool {
    is_at(plan, 0, FIRST, id(5, 100))
        & is_at(plan, 1, SECOND, id(5, 101))
        & (plan.count() == 2)
        & plan.at(2).is_none()
        & plan.place_of(NEW).is_none()
        & plan.group(NEW).is_none()
}

/// Whether the calls of a group of one telegram return what it holds.
fn tells_one(group: &Group, id: Id) -> bool {
    (group.identity() == id)
        & (group.count() == 1)
        & (group.country(0) == Some(5))
        & group.country(1).is_none()
        & group.at(1).is_none()
}

/// Whether the calls of a group and of its copy return what they hold.
fn tells_group(rt: &impl Abort, plan: &Plan) -> bool {
    match plan.group(SECOND) {
        Some(group) => tells_one(group, id(5, 101)) & copy_tells(rt, group, id(5, 101)),
        None => false,
    }
}

fn copy_tells(rt: &impl Abort, group: &Group, id: Id) -> bool {
    tells_one(&group.copy().expect(rt, "memory"), id)
}

const LINK: LinkPlace = LinkPlace {
    group: SECOND,
    telegram: 0,
    packet: PacketTag::Base(0),
    element: 0,
};

/// Whether a link is found by what it names.
fn tells_links(rt: &impl Abort, alloc: Global, plan: &Plan) -> bool {
    match plan.links_to(id(5, 100)) {
        Some(named) => {
            (listed(rt, alloc, named).as_slice() == [LINK].as_slice())
                & plan.links_to(id(5, 101)).is_none()
        }
        None => false,
    }
}

/// Whether a telegram is found in its group.
fn tells_telegram(plan: &Plan) -> bool {
    match plan.telegram(SECOND, 0) {
        Some(telegram) => {
            (telegram.head(Var::NidBg) == Some(101))
                & plan.telegram(SECOND, 1).is_none()
                & plan.telegram(NEW, 0).is_none()
        }
        None => false,
    }
}

/// That the calls of a plan of two groups return what it holds. The second group names the first.
fn check_told(rt: &impl Abort, alloc: Global, plan: &Plan) {
    assert!(rt; tells_groups(plan));
    assert!(rt; tells_group(rt, plan));
    assert!(rt; tells_links(rt, alloc, plan));
    assert!(rt; tells_telegram(plan));
}

/// Tells that, and takes groups in at each place.
fn tell_and_put(rt: &impl Abort, alloc: Global, plan: &mut Plan) {
    check_told(rt, alloc, plan);
    put_at_each(rt, alloc, plan, ABROAD, AT_AN_END);
    put_at_each(rt, alloc, plan, INFILL, BESIDE_ANOTHER);
}

#[test]
fn tells_what_it_holds_and_takes_groups_in_anywhere(rt: HostRuntime) {
    let alloc = rt.alloc();
    tell_and_put(&rt, alloc, &mut plan_of(&rt, alloc, &[EMPTY, LINKING]));
}
