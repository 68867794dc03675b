//! What names what after each change: sessions of commands, whose digits were made by hand or by another program.

use crate::tests::digits::{ABROAD, EMPTY, FIRST, INFILL, LINKING, REVOCATION, SECOND, THREE};
use crate::tests::steps::Answer::{Done, Next, Old, Refused};
use crate::tests::steps::Step::{Field, Put, PutGroup, Rename, Take, TakeGroup, Turn};
use crate::tests::steps::{Answer, Row, Step, follow_each, follow_one, follow_over, shown_plan_of};
use balise_plan::Refusal::{NoSuchVariable, NumberTaken, Steering, ValueTooWide};
use balise_plan::{GroupTag, PacketTag, Plan, Spot, Var};
use std::alloc::Global;
use std::process::Abort;

const THIRD: GroupTag = GroupTag::Base(2);

const PACKET: PacketTag = PacketTag::Base(0);

/// What a packet names is set: the variable, which of them and its value, what that answers, and the group then.
type Setting = (Var, u32, u32, Answer, &'static str);

/// 5.102, whose packet 5 names 6.100 and 6.150, or, where it says, a group without a number.
const SET_ABROAD: &str = "a1007f80a03341503b204b20300c88c08190012d8cffffffffffc0";

const FIRST_NONE: &str = "a1007f80a03341503b204b2037ffe8c08190012d8cffffffffffc0";

const BOTH_NONE: &str = "a1007f80a03341503b204b2037ffe8c081907fff8cffffffffffc0";

const SECOND_NONE: &str = "a1007f80a03341503b204b20300c88c081907fff8cffffffffffc0";

const SET: &[Setting] = &[
    (Var::NidBg, 1, 150, Old(100), SET_ABROAD),
    (Var::NidBg, 2, 5, Refused(NoSuchVariable), SET_ABROAD),
    (Var::NidC, 0, 7, Refused(Steering), SET_ABROAD),
    (Var::NidBg, 0, 16384, Refused(ValueTooWide), SET_ABROAD),
    (Var::NidBg, 0, 4294967295, Refused(ValueTooWide), SET_ABROAD),
    (Var::NidBg, 1, 150, Old(150), SET_ABROAD),
    (Var::NidBg, 0, 16383, Old(100), FIRST_NONE),
    (Var::NidBg, 1, 16383, Old(150), BOTH_NONE),
    (Var::NidBg, 0, 100, Old(16383), SECOND_NONE),
    (Var::NidBg, 1, 100, Old(16383), ABROAD),
];

fn set_each(rt: &impl Abort, alloc: Global, plan: &mut Plan) {
    for (var, k, value, answer, text) in SET.iter() {
        let step = Field(FIRST, 0, PACKET, *var, *k, *value);
        follow_one(rt, alloc, plan, step, *answer, &[*text]);
    }
}

#[test]
fn follows_links_that_are_set(rt: HostRuntime) {
    let alloc = rt.alloc();
    set_each(&rt, alloc, &mut shown_plan_of(&rt, alloc, &[ABROAD]));
}

/// 5.200, without packets, and 5.101, whose packet 5 names it.
const RENUMBERED: &str = "a1007f80a0647fffffffffffffffffffffffffffffffffffffffc0";

const NAMING: &str = "a1007f80a032c15022a07d00646301ffffffffffffffffffffffc0";

/// 5.300, whose packet 5 names 5.200.
const NAMING_TOO: &str = "a1007f80a096415022a07d00646301ffffffffffffffffffffffc0";

/// A group gets another number: the group, its number and the one before, and the three groups then.
type Renaming = (GroupTag, u32, u32, [&'static str; 3]);

const THIRD_RENUMBERED: &str = "a1007f80a03241503b204b20300c88c0819000c98cffffffffffc0";

const FIRST_101: &str = "a1007f80a032ffffffffffffffffffffffffffffffffffffffffc0";

const NAMING_101: &str = "a1007f80a096415022a07d0032e301ffffffffffffffffffffffc0";

const NUMBERS: &[Renaming] = &[
    (FIRST, 200, 100, [RENUMBERED, NAMING, ABROAD]),
    (FIRST, 100, 200, [EMPTY, LINKING, ABROAD]),
    (FIRST, 200, 100, [RENUMBERED, NAMING, ABROAD]),
    (SECOND, 300, 101, [RENUMBERED, NAMING_TOO, ABROAD]),
    (THIRD, 100, 102, [RENUMBERED, NAMING_TOO, THIRD_RENUMBERED]),
    (FIRST, 101, 200, [FIRST_101, NAMING_101, THIRD_RENUMBERED]),
];

fn rename_each(rt: &impl Abort, alloc: Global, plan: &mut Plan) {
    for (group, number, old, texts) in NUMBERS.iter() {
        let step = Rename(*group, *number);
        follow_one(rt, alloc, plan, step, Old(*old), texts.as_slice());
    }
}

#[test]
fn follows_renumbered_groups(rt: HostRuntime) {
    let alloc = rt.alloc();
    let mut plan = shown_plan_of(&rt, alloc, &[EMPTY, LINKING, ABROAD]);
    rename_each(&rt, alloc, &mut plan);
}

const TURNED: &str =
    "a1047f80a0327fffffffffffffffffffffffffffffffffffffffc0 a114ff80a0324b1010697fffffffffffffffffffffffffffffffc0 a1257f80a032504023a0a0320096047fffffffffffffffffffffc0";

/// 5.101, whose packet 5 names 5.100 in the other direction.
const FLIPPED: &str = "a1007f80a032c15022a07d00322301ffffffffffffffffffffffc0";

const WITH_PACKET: &str =
    "a1047f80a03250900f82ffffffffffffffffffffffffffffffffc0 a114ff80a0324b1010697fffffffffffffffffffffffffffffffc0 a1257f80a032504023a0a0320096047fffffffffffffffffffffc0";

const WITH_LINK: &str =
    "a1047f80a03250900f82ffffffffffffffffffffffffffffffffc0 a114ff80a0324b1010697fffffffffffffffffffffffffffffffc0 a1257f80a032415022a07d0032630082011d05019004b023ffffc0";

const WITH_NUMBER: &str =
    "a1047f80a06450900f82ffffffffffffffffffffffffffffffffc0 a114ff80a0644b1010697fffffffffffffffffffffffffffffffc0 a1257f80a064415022a07d0064630082011d05019004b023ffffc0";

/// 5.101, whose packet 5 names 5.200 in the other direction.
const FLIPPED_TOO: &str = "a1007f80a032c15022a07d00642301ffffffffffffffffffffffc0";

const SECOND_NEW: PacketTag = PacketTag::Fresh(2);

const THIRD_NEW: PacketTag = PacketTag::Fresh(3);

/// A group is turned before and after other changes.
const TURNS: &[Row] = &[
    (Turn(FIRST), Done, &[TURNED, FLIPPED]),
    (
        Put(FIRST, 2, Spot::After(None), SECOND_NEW, "42403e0a"),
        Done,
        &[WITH_PACKET, FLIPPED],
    ),
    (
        Put(FIRST, 0, Spot::After(None), THIRD_NEW, "05408a81f400c98c00"),
        Done,
        &[WITH_LINK, FLIPPED],
    ),
    (Rename(FIRST, 200), Old(100), &[WITH_NUMBER, FLIPPED_TOO]),
    (
        Turn(FIRST),
        Done,
        &[
            "a104ff80a064414022a07d0064230082811d05019004b023ffffc0 a1157f80a0644b0010697fffffffffffffffffffffffffffffffc0 a1247f80a06450800f82ffffffffffffffffffffffffffffffffc0",
            NAMING,
        ],
    ),
    (Turn(FIRST), Done, &[WITH_NUMBER, FLIPPED_TOO]),
    (Rename(FIRST, 100), Old(200), &[WITH_LINK, FLIPPED]),
    (
        Take(FIRST, 0, THIRD_NEW),
        Next(Some(PACKET)),
        &[WITH_PACKET, FLIPPED],
    ),
    (Take(FIRST, 2, SECOND_NEW), Next(None), &[TURNED, FLIPPED]),
    (Turn(FIRST), Done, &[THREE, LINKING]),
];

#[test]
fn follows_turned_groups(rt: HostRuntime) {
    follow_over(&rt, rt.alloc(), &[THREE, LINKING], TURNS);
}

/// 5.101 with another distance, then as 5.300, with a packet before, and with the distance that it had.
const FURTHER: &str = "a1007f80a032c15022a09600326301ffffffffffffffffffffffc0";

const FURTHER_TOO: &str = "a1007f80a096415022a09600326301ffffffffffffffffffffffc0";

const FURTHER_AFTER: &str = "a1007f80a09650900f8282a045412c0064c603ffffffffffffffc0";

const SET_BACK: &str = "a1007f80a09650900f8282a04540fa0064c603ffffffffffffffc0";

const SET_600: Step = Field(SECOND, 0, PACKET, Var::DLink, 0, 600);

const SET_500: Step = Field(SECOND, 0, PACKET, Var::DLink, 0, 500);

/// A distance is set, and set back after other changes.
const DISTANCES: &[Row] = &[
    (SET_600, Old(500), &[EMPTY, FURTHER]),
    (Rename(SECOND, 300), Old(101), &[EMPTY, FURTHER_TOO]),
    (
        Put(SECOND, 0, Spot::After(None), THIRD_NEW, "42403e0a"),
        Done,
        &[EMPTY, FURTHER_AFTER],
    ),
    (SET_500, Old(600), &[EMPTY, SET_BACK]),
];

#[test]
fn follows_a_distance_set_back(rt: HostRuntime) {
    follow_over(&rt, rt.alloc(), &[EMPTY, LINKING], DISTANCES);
}

const ADDED: GroupTag = GroupTag::Fresh(3);

/// Both groups are dropped, and another is put in and taken out.
const DROPPED: &[Row] = &[
    (TakeGroup(FIRST), Next(Some(SECOND)), &[LINKING]),
    (TakeGroup(SECOND), Next(None), &[]),
    (
        PutGroup(Spot::After(None), ADDED, REVOCATION),
        Done,
        &[REVOCATION],
    ),
    (TakeGroup(ADDED), Next(None), &[]),
];

/// Both are put in again, by what they stand before, and by what they stand after.
const PUT_BEFORE: &[Row] = &[
    (
        PutGroup(Spot::Before(None), SECOND, LINKING),
        Done,
        &[LINKING],
    ),
    (
        PutGroup(Spot::Before(Some(SECOND)), FIRST, EMPTY),
        Done,
        &[EMPTY, LINKING],
    ),
];

const PUT_AFTER: &[Row] = &[
    (
        PutGroup(Spot::After(None), SECOND, LINKING),
        Done,
        &[LINKING],
    ),
    (
        PutGroup(Spot::After(None), FIRST, EMPTY),
        Done,
        &[EMPTY, LINKING],
    ),
];

fn drop_and_put(rt: &impl Abort, alloc: Global, plan: &mut Plan) {
    for put in [PUT_BEFORE, PUT_AFTER].iter() {
        follow_each(rt, alloc, plan, DROPPED);
        follow_each(rt, alloc, plan, *put);
    }
}

#[test]
fn follows_groups_dropped_and_added(rt: HostRuntime) {
    let alloc = rt.alloc();
    let mut plan = shown_plan_of(&rt, alloc, &[EMPTY, LINKING]);
    drop_and_put(&rt, alloc, &mut plan);
}

/// 5.103, whose infill names 5.200, also in the other direction, and a number that no group has, and none.
const INFILL_200: &str = "a1007f80a033e2101300c8ffffffffffffffffffffffffffffffc0";

const INFILL_TURNED: &str = "a1007f80a033e2001300c8ffffffffffffffffffffffffffffffc0";

const INFILL_DANGLING: &str = "a1007f80a033e200130096ffffffffffffffffffffffffffffffc0";

const INFILL_NONE: &str = "a1007f80a033e200133fffffffffffffffffffffffffffffffffc0";

/// 5.150, without packets, and with an infill that names 5.100.
const EMPTY_150: &str = "a1007f80a04b7fffffffffffffffffffffffffffffffffffffffc0";

const INFILL_150: &str = "a1007f80a04b6210130064ffffffffffffffffffffffffffffffc0";

/// A group is changed, and one whose infill names it.
const INFILLS: &[Row] = &[
    (Rename(FIRST, 200), Old(100), &[RENUMBERED, INFILL_200]),
    (Turn(FIRST), Done, &[RENUMBERED, INFILL_200]),
    (Turn(SECOND), Done, &[RENUMBERED, INFILL_TURNED]),
    (
        Rename(SECOND, 200),
        Refused(NumberTaken),
        &[RENUMBERED, INFILL_TURNED],
    ),
    (
        Field(SECOND, 0, PACKET, Var::NidBg, 0, 150),
        Old(200),
        &[RENUMBERED, INFILL_DANGLING],
    ),
    (
        Rename(FIRST, 150),
        Refused(NumberTaken),
        &[RENUMBERED, INFILL_DANGLING],
    ),
    (
        Field(SECOND, 0, PACKET, Var::NidBg, 0, 16383),
        Old(150),
        &[RENUMBERED, INFILL_NONE],
    ),
    (Rename(FIRST, 150), Old(200), &[EMPTY_150, INFILL_NONE]),
    (
        Put(FIRST, 0, Spot::After(None), THIRD_NEW, "88404c0190"),
        Done,
        &[INFILL_150, INFILL_NONE],
    ),
    (
        Rename(SECOND, 100),
        Refused(NumberTaken),
        &[INFILL_150, INFILL_NONE],
    ),
    (
        Take(FIRST, 0, THIRD_NEW),
        Next(None),
        &[EMPTY_150, INFILL_NONE],
    ),
];

#[test]
fn follows_infill(rt: HostRuntime) {
    follow_over(&rt, rt.alloc(), &[EMPTY, INFILL], INFILLS);
}
