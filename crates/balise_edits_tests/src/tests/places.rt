//! The places that each kind of edit changes and needs.

use crate::tests::doing::{made, read};
use crate::tests::edits::{
    ABROAD, EMPTY, FIRST, FOUR, LINK, LINKING, SECOND, Step, THIRD, edit_of,
};
use balise_edits::{
    Entry, Id, InGroup, InPacket, InTelegram, Path, Tag, Var, changed_places, needed_places,
};
use std::alloc::Global;
use std::process::Abort;

/// A packet of the first telegram of a group, or a part of it.
macro_rules! packet {
    ($group:expr, $packet:expr, $part:expr) => {
        Path::Group(
            $group,
            InGroup::Telegram(0, InTelegram::Packet($packet, $part)),
        )
    };
}

/// An identity.
macro_rules! identity {
    ($country:expr, $number:expr) => {
        Path::Identity(Id {
            country: $country,
            number: $number,
        })
    };
}

pub(crate) use identity;
pub(crate) use packet;

/// That an entry changes and needs these places.
pub(crate) fn check(rt: &impl Abort, entry: &Entry, changed: &[Path], needed: &[Path]) {
    assert!(rt; changed_places(entry).expect(rt, "places").as_slice() == changed);
    assert!(rt; needed_places(entry).expect(rt, "places").as_slice() == needed);
}

/// Groups, an edit of their plan under serial 7, and the places that it changes and needs, as its copy does.
type Row = (
    &'static [&'static str],
    Step,
    &'static [Path],
    &'static [Path],
);

fn check_row(rt: &impl Abort, alloc: Global, row: &Row) {
    let (groups, step, changed, needed) = *row;
    let mut plan = read(rt, alloc, groups);
    let entry = made(rt, &mut plan, 7, edit_of(rt, alloc, step));
    check(rt, &entry, changed, needed);
    check(rt, &entry.copy().expect(rt, "a copy"), changed, needed);
}

fn check_rows(rt: &impl Abort, alloc: Global, rows: &[Row]) {
    for row in rows.iter() {
        check_row(rt, alloc, row);
    }
}

/// What the edit puts in.
const NEW: Tag = Tag::Fresh(7);

const LAST: Tag = Tag::Base(3);

const ALL: &[&str] = &[EMPTY, LINKING, ABROAD];

const FIRST_TURN: Path = Path::Group(FIRST, InGroup::Turn);

const FIELDS: &[Row] = &[
    (
        ALL,
        Step::Set(SECOND, FIRST, Var::DLink, 0, 600),
        &[packet!(SECOND, FIRST, InPacket::Field(Var::DLink, 0))],
        &[],
    ),
    (
        ALL,
        Step::Set(SECOND, FIRST, Var::QDir, 0, 0),
        &[packet!(SECOND, FIRST, InPacket::Field(Var::QDir, 0))],
        &[Path::Group(SECOND, InGroup::Turn)],
    ),
    (
        ALL,
        Step::Set(THIRD, FIRST, Var::NidBg, 1, 101),
        &[packet!(THIRD, FIRST, InPacket::Field(Var::NidBg, 1))],
        &[identity!(6, 100), identity!(6, 101)],
    ),
    // Number 16383 names nothing.
    (
        ALL,
        Step::Set(THIRD, FIRST, Var::NidBg, 1, 16383),
        &[packet!(THIRD, FIRST, InPacket::Field(Var::NidBg, 1))],
        &[identity!(6, 100)],
    ),
    (
        ALL,
        Step::Set(SECOND, FIRST, Var::QLinkorientation, 0, 0),
        &[packet!(SECOND, FIRST, InPacket::Field(Var::QLinkorientation, 0))],
        &[
            packet!(SECOND, FIRST, InPacket::Field(Var::NidBg, 0)),
            identity!(5, 100),
        ],
    ),
    (
        ALL,
        Step::SetHead(FIRST, Var::MMcount, 254),
        &[Path::Group(FIRST, InGroup::Telegram(0, InTelegram::Head(Var::MMcount)))],
        &[],
    ),
    (
        ALL,
        Step::SetHead(FIRST, Var::MDup, 1),
        &[Path::Group(FIRST, InGroup::Telegram(0, InTelegram::Head(Var::MDup)))],
        &[FIRST_TURN],
    ),
];

#[test]
fn of_fields(rt: HostRuntime) {
    check_rows(&rt, rt.alloc(), FIELDS);
}

const PACKETS: &[Row] = &[
    (
        ALL,
        Step::Insert(FIRST, None, LINK),
        &[
            packet!(FIRST, NEW, InPacket::Whole),
            Path::Group(FIRST, InGroup::Telegram(0, InTelegram::First)),
        ],
        &[FIRST_TURN, identity!(5, 100)],
    ),
    (
        &[LINKING],
        Step::Delete(FIRST),
        &[
            packet!(FIRST, FIRST, InPacket::Whole),
            Path::Group(FIRST, InGroup::Telegram(0, InTelegram::Last)),
        ],
        &[FIRST_TURN, identity!(5, 100)],
    ),
    (
        &[FOUR],
        Step::Move(LAST, Some(FIRST)),
        &[
            packet!(FIRST, LAST, InPacket::Front),
            packet!(FIRST, LAST, InPacket::After),
            Path::Group(FIRST, InGroup::Telegram(0, InTelegram::Last)),
            packet!(FIRST, FIRST, InPacket::After),
        ],
        &[],
    ),
];

#[test]
fn of_packets(rt: HostRuntime) {
    check_rows(&rt, rt.alloc(), PACKETS);
}

const GROUPS: &[Row] = &[
    (
        &[EMPTY, LINKING],
        Step::Add(None, ABROAD),
        &[
            Path::Group(NEW, InGroup::Whole),
            Path::First,
            identity!(5, 102),
        ],
        &[identity!(6, 100), identity!(6, 100)],
    ),
    (
        &[EMPTY, LINKING],
        Step::Add(Some(SECOND), ABROAD),
        &[
            Path::Group(NEW, InGroup::Whole),
            Path::Group(SECOND, InGroup::After),
            identity!(5, 102),
        ],
        &[identity!(6, 100), identity!(6, 100)],
    ),
    (
        ALL,
        Step::Drop(SECOND),
        &[
            Path::Group(SECOND, InGroup::Whole),
            Path::Group(THIRD, InGroup::Front),
            identity!(5, 101),
        ],
        &[identity!(5, 100)],
    ),
    (
        ALL,
        Step::Drop(THIRD),
        &[
            Path::Group(THIRD, InGroup::Whole),
            Path::Last,
            identity!(5, 102),
        ],
        &[identity!(6, 100), identity!(6, 100)],
    ),
    (
        ALL,
        Step::Renumber(SECOND, 300),
        &[
            Path::Group(SECOND, InGroup::Name),
            identity!(5, 101),
            identity!(5, 300),
        ],
        &[],
    ),
    (
        ALL,
        Step::Turn(FIRST),
        &[FIRST_TURN, identity!(5, 100)],
        &[],
    ),
];

#[test]
fn of_groups(rt: HostRuntime) {
    check_rows(&rt, rt.alloc(), GROUPS);
}
