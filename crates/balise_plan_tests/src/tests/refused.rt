//! What is refused, and in which order.

use crate::tests::digits::{ABROAD, FIRST, INFILL, LINKING, REVOCATIONS, SECOND};
use crate::tests::steps::Step::{Field, Head, Put, PutGroup, Rename, Shift, Take, TakeGroup, Turn};
use crate::tests::steps::{RefusedRow, refuse_over};
use balise_plan::{GroupTag, PacketTag, Refusal, Spot, Var};

const NOWHERE: GroupTag = GroupTag::Fresh(9);

const PACKET: PacketTag = PacketTag::Base(0);

const NEW: PacketTag = PacketTag::Fresh(1);

/// The largest number that a command can name.
const LAST: u32 = 4294967295;

/// The groups that changes are refused in.
const LINKS: &[&str] = &[REVOCATIONS, LINKING];

/// Before a packet that isn't there.
const LACKING: Spot<PacketTag> = Spot::Before(Some(NEW));

/// A packet 44, which isn't known, of 152 bits.
const WIDE: &str = "2c813000000000000000000000000000000000";

const NARROW: &str = "42403e0a";

/// Numbers that are refused.
const NUMBERS: &[RefusedRow] = &[
    (
        Refusal::NoSuchGroup,
        &[Rename(NOWHERE, 4294967295), Rename(NOWHERE, 7)],
    ),
    (
        Refusal::ValueTooWide,
        &[Rename(FIRST, 4294967295), Rename(FIRST, 16384)],
    ),
    (Refusal::NumberReserved, &[Rename(FIRST, 16383)]),
    (
        Refusal::NumberTaken,
        &[Rename(FIRST, 101), Rename(FIRST, 102), Rename(FIRST, 100)],
    ),
];

#[test]
fn refuses_numbers(rt: HostRuntime) {
    refuse_over(&rt, rt.alloc(), &[LINKING, ABROAD, INFILL], NUMBERS);
}

/// Groups that are refused.
const GROUPS: &[RefusedRow] = &[
    (
        Refusal::NoSuchGroup,
        &[
            PutGroup(Spot::Before(Some(NOWHERE)), NOWHERE, LINKING),
            PutGroup(Spot::After(Some(NOWHERE)), NOWHERE, INFILL),
        ],
    ),
    (
        Refusal::GroupTwice,
        &[
            PutGroup(Spot::After(None), NOWHERE, LINKING),
            PutGroup(Spot::Before(None), NOWHERE, ABROAD),
            PutGroup(Spot::Before(Some(FIRST)), NOWHERE, ABROAD),
        ],
    ),
];

#[test]
fn hands_groups_back(rt: HostRuntime) {
    refuse_over(&rt, rt.alloc(), &[LINKING, ABROAD], GROUPS);
}

/// Packets that are refused.
const PACKETS: &[RefusedRow] = &[
    (Refusal::NoSuchGroup, &[Put(NOWHERE, 1, LACKING, NEW, WIDE)]),
    (
        Refusal::NoSuchTelegram,
        &[Put(FIRST, 1, LACKING, NEW, WIDE)],
    ),
    (
        Refusal::NoSuchPacket,
        &[
            Put(FIRST, 0, LACKING, NEW, WIDE),
            Put(FIRST, 0, Spot::After(Some(PacketTag::Base(2))), NEW, NARROW),
        ],
    ),
    (
        Refusal::NoRoom,
        &[
            Put(FIRST, 0, Spot::After(None), NEW, WIDE),
            Put(FIRST, 0, Spot::Before(None), NEW, WIDE),
            Put(FIRST, 0, Spot::Before(Some(PACKET)), NEW, WIDE),
        ],
    ),
];

#[test]
fn hands_packets_back(rt: HostRuntime) {
    refuse_over(&rt, rt.alloc(), LINKS, PACKETS);
}

/// Changes that are refused.
const CHANGES: &[RefusedRow] = &[
    (
        Refusal::NoSuchGroup,
        &[
            Field(NOWHERE, 1, NEW, Var::NidBg, 1, 16384),
            Head(NOWHERE, 1, Var::NidTsr, 256),
            Take(NOWHERE, 1, NEW),
            Shift(NOWHERE, 1, NEW, Spot::After(None)),
            TakeGroup(NOWHERE),
            Turn(NOWHERE),
        ],
    ),
    (
        Refusal::NoSuchTelegram,
        &[
            Field(FIRST, 1, NEW, Var::NidBg, 1, 16384),
            Field(FIRST, 256, PACKET, Var::NidBg, 0, 7),
            Field(FIRST, LAST, PACKET, Var::NidBg, LAST, 7),
            Head(FIRST, 1, Var::NidTsr, 256),
            Take(FIRST, 1, NEW),
            Shift(FIRST, 1, NEW, Spot::After(None)),
        ],
    ),
    (
        Refusal::NoSuchPacket,
        &[
            Field(FIRST, 0, NEW, Var::NidBg, 1, 16384),
            Field(FIRST, 0, NEW, Var::NidBg, 256, 7),
            Field(FIRST, 0, NEW, Var::NidBg, LAST, 7),
            Take(FIRST, 0, NEW),
            Shift(FIRST, 0, NEW, Spot::After(None)),
            Shift(FIRST, 0, PACKET, Spot::After(Some(NEW))),
        ],
    ),
    (
        Refusal::NoSuchVariable,
        &[
            Field(FIRST, 0, PACKET, Var::NidBg, 0, 7),
            Field(SECOND, 0, PACKET, Var::NidBg, 1, 16384),
            Field(SECOND, 0, PACKET, Var::NidBg, 255, 7),
            Field(SECOND, 0, PACKET, Var::NidBg, 256, 7),
            Field(SECOND, 0, PACKET, Var::NidBg, LAST, LAST),
            Head(FIRST, 0, Var::NidTsr, 256),
        ],
    ),
    (Refusal::Steering, &[Head(FIRST, 0, Var::NidBg, 20000)]),
    (
        Refusal::ValueTooWide,
        &[
            Field(SECOND, 0, PACKET, Var::NidBg, 0, 16384),
            Field(SECOND, 0, PACKET, Var::NidBg, 0, LAST),
            Head(FIRST, 0, Var::MMcount, 256),
        ],
    ),
    (
        Refusal::SamePlace,
        &[Shift(FIRST, 0, PACKET, Spot::After(None))],
    ),
];

#[test]
fn refuses_changes(rt: HostRuntime) {
    refuse_over(&rt, rt.alloc(), LINKS, CHANGES);
}
