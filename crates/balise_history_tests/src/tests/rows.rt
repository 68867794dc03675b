//! Commands one after another, with their answers and the plan that they leave.

use crate::tests::links::check_links;
use crate::tests::sessions::Step::{
    Add, Delete, Drop, Insert, Move, Redo, Renumber, Set, SetHead, Strike, Turn, Undo,
};
use crate::tests::sessions::{
    ABROAD, EMPTY, LINKING, REVOCATION, Stage, Step, TSR_5, TSR_6, TSR_7, TSR_9, ask, follow_over,
    session_of, shows,
};
use balise_history::Refusal::{
    BadLength, DependsOn, LayoutMismatch, NoSuchEdit, NoSuchGroup, NoSuchPacket, NoSuchVariable,
    NothingToRedo, NothingToUndo, PacketCut, PacketZero, SpareBits, Steering, ValueTooWide,
};
use balise_history::{Session, Var};
use std::alloc::Global;
use std::process::Abort;

/// 5.100 with packets 66 of NID_TSR 1, 2, 3 and 4.
const FOUR: &str = "a1007f80a03250900f80a1201f0242403e0684807c13ffffffffc0";

const NOT_THERE: &[Stage] = &[(
    &[
        (Undo, Err(NothingToUndo)),
        (Redo, Err(NothingToRedo)),
        (Strike(9), Err(NoSuchEdit)),
        (Turn(999), Err(NoSuchGroup)),
        (Delete(100, 0), Err(NoSuchPacket)),
        (Move(100, 0, 0), Err(NoSuchPacket)),
        (Set(100, Var::NidTsr, 0, 9), Err(NoSuchPacket)),
        (Add(2, LINKING), Err(NoSuchGroup)),
    ],
    &[EMPTY],
)];

const DIGITS: &[Stage] = &[(
    &[
        (Insert(100, 0, "00"), Err(PacketZero)),
        (Insert(100, 0, "ff"), Err(LayoutMismatch)),
        (Insert(100, 0, "42403e"), Err(PacketCut)),
        (Insert(100, 0, "42403e0a00"), Err(BadLength)),
        (Insert(100, 0, "42403e0b"), Err(SpareBits)),
        (Insert(100, 0, "4240400a"), Err(LayoutMismatch)),
        (Insert(100, 2, TSR_5), Err(NoSuchPacket)),
    ],
    &[EMPTY],
)];

#[test]
fn refuses_what_is_not_there_and_digits_in_order(rt: HostRuntime) {
    follow_over(&rt, rt.alloc(), &[EMPTY], NOT_THERE);
    follow_over(&rt, rt.alloc(), &[EMPTY], DIGITS);
}

const SET: &[Stage] = &[(
    &[
        (Set(100, Var::NidTsr, 0, 9), Ok(1)),
        (Undo, Ok(1)),
        (Redo, Ok(1)),
        (Strike(1), Ok(1)),
    ],
    &[REVOCATION],
)];

#[test]
fn sets_and_undoes(rt: HostRuntime) {
    follow_over(&rt, rt.alloc(), &[REVOCATION], SET);
}

const SET_ANEW: &[Stage] = &[(
    &[
        (Set(100, Var::NidTsr, 0, 9), Ok(1)),
        (Undo, Ok(1)),
        (SetHead(100, Var::QLink, 1), Ok(2)),
        (Redo, Err(NothingToRedo)),
    ],
    &[REVOCATION],
)];

#[test]
fn a_new_edit_drops_what_was_undone(rt: HostRuntime) {
    follow_over(&rt, rt.alloc(), &[REVOCATION], SET_ANEW);
}

/// 5.101, whose packet 5 names 5.100 in the other direction.
const FOLLOWING: &str = "a1007f80a032c15022a07d00322301ffffffffffffffffffffffc0";

/// 5.100 of three telegrams: packet 65 and M_DUP 1, an unknown packet and M_DUP 2, no packet.
const THREE: &str =
    "a104ff80a032505023a0a0320096047fffffffffffffffffffffc0 a1157f80a0324b0010697fffffffffffffffffffffffffffffffc0 a1247f80a0327fffffffffffffffffffffffffffffffffffffffc0";

const TURN: &[Stage] = &[
    (
        &[(Turn(100), Ok(1))],
        &[
            "a1047f80a0327fffffffffffffffffffffffffffffffffffffffc0 a114ff80a0324b1010697fffffffffffffffffffffffffffffffc0 a1257f80a032504023a0a0320096047fffffffffffffffffffffc0",
            FOLLOWING,
        ],
    ),
    (
        &[
            (Insert(100, 0, TSR_5), Ok(2)),
            (Strike(1), Err(DependsOn(2))),
        ],
        &[
            "a1047f80a03250900f82ffffffffffffffffffffffffffffffffc0 a114ff80a0324b1010697fffffffffffffffffffffffffffffffc0 a1257f80a032504023a0a0320096047fffffffffffffffffffffc0",
            FOLLOWING,
        ],
    ),
    (&[(Strike(2), Ok(2)), (Strike(1), Ok(1))], &[THREE, LINKING]),
];

#[test]
fn turns_a_group_of_three(rt: HostRuntime) {
    follow_over(&rt, rt.alloc(), &[THREE, LINKING], TURN);
}

const DELETED_BEHIND: &[Stage] = &[(
    &[
        (Move(100, 2, 0), Ok(1)),
        (Delete(100, 2), Ok(2)),
        (Strike(1), Err(DependsOn(2))),
    ],
    &["a1007f80a03250900f81a1201f0142403e09ffffffffffffffffc0"],
)];

const STRUCK: &str = "a1007f80a03250900f8121201f0342403e09ffffffffffffffffc0";

const DELETED_BEFORE: &[Stage] = &[
    (
        &[
            (Move(100, 2, 0), Ok(1)),
            (Delete(100, 1), Ok(2)),
            (Strike(1), Ok(1)),
        ],
        &[STRUCK],
    ),
    (
        &[(Redo, Ok(1))],
        &["a1007f80a03250900f81a1201f0242403e09ffffffffffffffffc0"],
    ),
    (&[(Strike(1), Ok(1))], &[STRUCK]),
];

const INSERTED_BEHIND: &[Stage] = &[(
    &[
        (Move(100, 2, 0), Ok(1)),
        (Insert(100, 3, "2c402e"), Ok(2)),
        (Strike(1), Ok(1)),
    ],
    &["a1007f80a03250900f80a1201f022c402e84807c0d0900f827ffc0"],
)];

#[test]
fn strikes_among_four_packets(rt: HostRuntime) {
    follow_over(&rt, rt.alloc(), &[FOUR], DELETED_BEHIND);
    follow_over(&rt, rt.alloc(), &[FOUR], DELETED_BEFORE);
    follow_over(&rt, rt.alloc(), &[FOUR], INSERTED_BEHIND);
}

const FILLED_AGAIN: &[Stage] = &[(
    &[
        (Delete(100, 0), Ok(1)),
        (Insert(100, 0, TSR_5), Ok(2)),
        (Strike(1), Err(DependsOn(2))),
    ],
    &[REVOCATION],
)];

#[test]
fn room_that_was_filled_again(rt: HostRuntime) {
    let telegram = "a1007f80a032505023a0a0320096047fffffffffffffffffffffc0";
    follow_over(&rt, rt.alloc(), &[telegram], FILLED_AGAIN);
}

const LATER_PACKET: &[Stage] = &[
    (
        &[
            (Insert(100, 0, TSR_5), Ok(1)),
            (Insert(100, 1, TSR_6), Ok(2)),
            (Strike(1), Ok(1)),
        ],
        &["a1007f80a03250900f837fffffffffffffffffffffffffffffffc0"],
    ),
    (
        &[(Redo, Ok(1))],
        &["a1007f80a03250900f82a1201f06ffffffffffffffffffffffffc0"],
    ),
];

const LATER_GROUP: &[Stage] = &[
    (
        &[
            (Add(1, LINKING), Ok(1)),
            (Add(2, ABROAD), Ok(2)),
            (Strike(1), Ok(1)),
        ],
        &[EMPTY, ABROAD],
    ),
    (&[(Redo, Ok(1))], &[EMPTY, LINKING, ABROAD]),
];

#[test]
fn strikes_under_a_later_packet_and_group(rt: HostRuntime) {
    follow_over(&rt, rt.alloc(), &[EMPTY], LATER_PACKET);
    follow_over(&rt, rt.alloc(), &[EMPTY], LATER_GROUP);
}

const RENUMBERED_LATER: &[Stage] = &[(
    &[
        (Add(1, LINKING), Ok(1)),
        (Renumber(101, 300), Ok(2)),
        (Strike(1), Err(DependsOn(2))),
    ],
    &[
        EMPTY,
        "a1007f80a096415022a07d00326301ffffffffffffffffffffffc0",
    ],
)];

#[test]
fn an_added_group_that_a_later_edit_needs(rt: HostRuntime) {
    follow_over(&rt, rt.alloc(), &[EMPTY], RENUMBERED_LATER);
}

const MOVED_BEHIND: &[Stage] = &[
    (
        &[
            (Insert(100, 1, TSR_6), Ok(1)),
            (Insert(100, 2, TSR_7), Ok(2)),
            (Insert(100, 0, TSR_9), Ok(3)),
            (Move(100, 3, 1), Ok(4)),
            (Strike(3), Ok(3)),
        ],
        &["a1007f80a03250900f83a1201f0542403e0dffffffffffffffffc0"],
    ),
    (
        &[(Redo, Ok(3))],
        &["a1007f80a03250900f84a1201f0742403e0a84807c1bffffffffc0"],
    ),
];

#[test]
fn strikes_under_a_move_behind(rt: HostRuntime) {
    follow_over(&rt, rt.alloc(), &[REVOCATION], MOVED_BEHIND);
}

const LINKS: &[Stage] = &[(
    &[
        (Set(102, Var::NidBg, 1, 150), Ok(1)),
        (Set(102, Var::NidBg, 2, 5), Err(NoSuchVariable)),
        (Set(102, Var::NidBg, 256, 5), Err(NoSuchVariable)),
        (Set(102, Var::NidBg, 4_294_967_295, 5), Err(NoSuchVariable)),
        (Set(102, Var::NidC, 0, 7), Err(Steering)),
        (Set(102, Var::NidBg, 0, 16384), Err(ValueTooWide)),
        (Undo, Ok(1)),
        (Redo, Ok(1)),
    ],
    &["a1007f80a03341503b204b20300c88c08190012d8cffffffffffc0"],
)];

#[test]
fn sets_links(rt: HostRuntime) {
    follow_over(&rt, rt.alloc(), &[ABROAD], LINKS);
}

/// 5.200 without packets, and 5.101, whose packet 5 names it.
const RENUMBERED: &str = "a1007f80a0647fffffffffffffffffffffffffffffffffffffffc0";

const NAMING: &str = "a1007f80a032c15022a07d00646301ffffffffffffffffffffffc0";

const RENUMBER: &[Stage] = &[
    (
        &[(Renumber(100, 200), Ok(1))],
        &[RENUMBERED, NAMING, ABROAD],
    ),
    (&[(Undo, Ok(1))], &[EMPTY, LINKING, ABROAD]),
    (&[(Redo, Ok(1))], &[RENUMBERED, NAMING, ABROAD]),
    (&[(Strike(1), Ok(1))], &[EMPTY, LINKING, ABROAD]),
];

#[test]
fn renumbers_a_group_that_is_named(rt: HostRuntime) {
    follow_over(&rt, rt.alloc(), &[EMPTY, LINKING, ABROAD], RENUMBER);
}

/// Sets a distance of a group that links, renumbers the group, and puts a packet in before.
const EDIT_LINKING: &[(Step, u32)] = &[
    (Set(101, Var::DLink, 0, 600), 1),
    (Renumber(101, 300), 2),
    (Insert(300, 0, TSR_5), 3),
];

fn edit_linking(rt: &impl Abort, alloc: Global, session: &mut Session) {
    for (step, serial) in EDIT_LINKING.iter() {
        ask(rt, alloc, session, *step, Ok(*serial));
        check_links(rt, session.plan());
    }
}

/// Strikes the first edit out, which is compared with two and is one change.
fn strike_first(rt: &impl Abort, session: &mut Session) {
    let before = session.plan().changes();
    assert!(rt; before < 100);
    let struck = session.strike(1).expect(rt, "a strike");
    assert!(rt; struck.compared == 2);
    assert!(rt; session.plan().changes() == before + 1);
    check_links(rt, session.plan());
}

#[test]
fn strikes_a_link(rt: HostRuntime) {
    let alloc = rt.alloc();
    strike_link(&rt, alloc, &mut session_of(&rt, alloc, &[EMPTY, LINKING]));
}

fn strike_link(rt: &impl Abort, alloc: Global, session: &mut Session) {
    edit_linking(rt, alloc, session);
    strike_first(rt, session);
    let struck = "a1007f80a09650900f8282a04540fa0064c603ffffffffffffffc0";
    assert!(rt; shows(rt, alloc, session, &[EMPTY, struck]));
}

const DROPPED_AND_ADDED: &[Stage] = &[(
    &[
        (Drop(100), Ok(1)),
        (Drop(101), Ok(2)),
        (Add(0, REVOCATION), Ok(3)),
        (Undo, Ok(3)),
        (Undo, Ok(2)),
        (Undo, Ok(1)),
        (Undo, Err(NothingToUndo)),
        (Redo, Ok(1)),
        (Redo, Ok(2)),
        (Redo, Ok(3)),
    ],
    &[REVOCATION],
)];

#[test]
fn groups_dropped_and_one_added(rt: HostRuntime) {
    follow_over(&rt, rt.alloc(), &[EMPTY, LINKING], DROPPED_AND_ADDED);
}
