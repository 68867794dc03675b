//! Edits of known plans: each is done, taken back and done again.

use crate::tests::doing::{Row, follow_over};
use crate::tests::edits::Step::{
    Add, Delete, Drop, Insert, InsertOld, Move, Renumber, Set, SetHead, Turn,
};
use crate::tests::edits::{ABROAD, EMPTY, FIRST, LINKING, REVOCATION, SECOND, THIRD};
use balise_edits::Refusal::{
    GroupTwice, NoRoom, NoSuchGroup, NoSuchVariable, NumberReserved, NumberTaken, SamePlace,
    Steering, ValueTooWide,
};
use balise_edits::{Tag, Var};

/// What the first edit puts in.
const NEW: Tag = Tag::Fresh(1);

const RENUMBERED: &str = "a1007f80a0647fffffffffffffffffffffffffffffffffffffffc0";

const FOLLOWING: &str = "a1007f80a032c15022a07d00646301ffffffffffffffffffffffc0";

const SET_ABROAD: &str = "a1007f80a03341503b204b20300c88c08190012d8cffffffffffc0";

const NUMBERS: &[Row] = &[
    (
        Renumber(FIRST, 200),
        Ok(()),
        &[RENUMBERED, FOLLOWING, ABROAD],
    ),
    (
        Set(THIRD, FIRST, Var::NidBg, 1, 150),
        Ok(()),
        &[RENUMBERED, FOLLOWING, SET_ABROAD],
    ),
];

#[test]
fn links_and_numbers(rt: HostRuntime) {
    follow_over(&rt, rt.alloc(), &[EMPTY, LINKING, ABROAD], NUMBERS);
}

/// 6.100, which 5.102 names by a country and then by the country of the element before.
const OTHER: &str = "a1007f80c0327fffffffffffffffffffffffffffffffffffffffc0";

const OTHER_RENUMBERED: &str = "a1007f80c0647fffffffffffffffffffffffffffffffffffffffc0";

const ABROAD_FOLLOWING: &str = "a1007f80a03341503b204b20301908c0819001918cffffffffffc0";

const INHERITED: &[Row] = &[(
    Renumber(FIRST, 200),
    Ok(()),
    &[OTHER_RENUMBERED, ABROAD_FOLLOWING, EMPTY],
)];

#[test]
fn countries_inherited(rt: HostRuntime) {
    follow_over(&rt, rt.alloc(), &[OTHER, ABROAD, EMPTY], INHERITED);
}

/// A number that is only named is taken too.
const REFUSED: &[Row] = &[
    (Renumber(FIRST, 100), Err(NumberTaken), &[LINKING]),
    (Renumber(FIRST, 16383), Err(NumberReserved), &[LINKING]),
    (Renumber(FIRST, 16384), Err(ValueTooWide), &[LINKING]),
    (Renumber(SECOND, 7), Err(NoSuchGroup), &[LINKING]),
];

#[test]
fn numbers_refused(rt: HostRuntime) {
    follow_over(&rt, rt.alloc(), &[LINKING], REFUSED);
}

/// 5.100 of three telegrams: packet 65 and M_DUP 1, an unknown packet and M_DUP 2, no packet.
const THREE: &str =
    "a104ff80a032505023a0a0320096047fffffffffffffffffffffc0 a1157f80a0324b0010697fffffffffffffffffffffffffffffffc0 a1247f80a0327fffffffffffffffffffffffffffffffffffffffc0";

/// 5.100 of three telegrams is turned, and with it the link of 5.101 to it.
const TURN: &[Row] = &[(
    Turn(FIRST),
    Ok(()),
    &[
        "a1047f80a0327fffffffffffffffffffffffffffffffffffffffc0 a114ff80a0324b1010697fffffffffffffffffffffffffffffffc0 a1257f80a032504023a0a0320096047fffffffffffffffffffffc0",
        "a1007f80a032c15022a07d00322301ffffffffffffffffffffffc0",
    ],
)];

#[test]
fn a_group_turned(rt: HostRuntime) {
    follow_over(&rt, rt.alloc(), &[THREE, LINKING], TURN);
}

const COLOURED: &str = "a1007f80a0327fc05a5a5a5a5a5a5a5a5a5a5a5a5a5a5a5a5a5a40";

const FILLED: &str = "a1007f80a03250900f82ffda5a5a5a5a5a5a5a5a5a5a5a5a5a5a40";

const PADDED: &[Row] = &[
    (Insert(FIRST, None, "42403e0a"), Ok(()), &[FILLED]),
    (Delete(NEW), Ok(()), &[COLOURED]),
];

#[test]
fn padding_stays(rt: HostRuntime) {
    follow_over(&rt, rt.alloc(), &[COLOURED], PADDED);
}

/// A telegram of 210 bits with a packet 44 that it has room for, and for no other with it.
const FULL: &str = "a1007f80a0324b204c000000000000000000000000000000003fc0";

const WIDE: &[Row] = &[
    (
        Insert(FIRST, None, "2c813000000000000000000000000000000000"),
        Ok(()),
        &[FULL],
    ),
    (Insert(FIRST, Some(NEW), "42403e0a"), Err(NoRoom), &[FULL]),
    (Move(NEW, None), Err(SamePlace), &[FULL]),
];

#[test]
fn a_telegram_filled(rt: HostRuntime) {
    follow_over(&rt, rt.alloc(), &[EMPTY], WIDE);
}

const PROFILE: &str = "1b40fa80002810659224107d062180f0";

/// A group with that packet, and with a speed in it that is set.
const SLOWER: &str = "a1007f80a03246d03ea0000a04196489041f4188603dffffffffc0";

const FASTER: &str = "a1007f80a03246d03ea0000a04196489041f4188603fffffffffc0";

const SPEEDS: &[Row] = &[
    (Insert(FIRST, None, PROFILE), Ok(()), &[SLOWER]),
    (Set(FIRST, NEW, Var::VDiff, 2, 31), Ok(()), &[FASTER]),
    (Set(FIRST, NEW, Var::QDiff, 0, 1), Err(Steering), &[FASTER]),
];

#[test]
fn a_speed_profile(rt: HostRuntime) {
    follow_over(&rt, rt.alloc(), &[EMPTY], SPEEDS);
}

const OLD_PUT: &str = "90007f80a03246d03ea0000a04196489041f4188603dffffffffc0";

/// In version 1.0 a packet 27 isn't known.
const UNKNOWN: &[Row] = &[
    (InsertOld(FIRST, PROFILE), Ok(()), &[OLD_PUT]),
    (
        Set(FIRST, NEW, Var::VDiff, 0, 1),
        Err(NoSuchVariable),
        &[OLD_PUT],
    ),
    (
        Set(FIRST, NEW, Var::QDir, 0, 2),
        Ok(()),
        &["90007f80a03246e03ea0000a04196489041f4188603dffffffffc0"],
    ),
];

#[test]
fn an_unknown_profile(rt: HostRuntime) {
    let old = "90007f80a0327fffffffffffffffffffffffffffffffffffffffc0";
    follow_over(&rt, rt.alloc(), &[old], UNKNOWN);
}

const COUNTED: &str = "a1007f00a03250900f82ffffffffffffffffffffffffffffffffc0";

const GROUPS: &[Row] = &[
    (
        SetHead(FIRST, Var::MMcount, 254),
        Ok(()),
        &[COUNTED, LINKING],
    ),
    (Drop(FIRST), Ok(()), &[LINKING]),
    (Add(Some(SECOND), EMPTY), Ok(()), &[LINKING, EMPTY]),
    (Add(None, LINKING), Err(GroupTwice), &[LINKING, EMPTY]),
];

#[test]
fn heads_and_groups(rt: HostRuntime) {
    follow_over(&rt, rt.alloc(), &[REVOCATION, LINKING], GROUPS);
}
