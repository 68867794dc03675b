//! One of four packets is moved, and then another edit is done: the copies and the places of all that is there.

ghost use Rattle.std.specs.Prelude.{◌≤◌, ℕ};
ghost use Rattle.balise_rules.specs.Accepting.{Unused};

use crate::tests::copies::{Facts, check_copies};
use crate::tests::doing::{made, read};
use crate::tests::edits::{FIRST, FOUR, SECOND, Step, THIRD, edit_of, has_digits, id};
use crate::tests::places::{check, packet};
use balise_edits::{Group, InGroup, InPacket, InTelegram, Noted, Path, Plan, Tag, Telegram};
use balise_plan::PacketRef;
use std::alloc::Global;
use std::process::Abort;

const LAST: Tag = Tag::Base(3);

/// The third packet, which stands before the last, goes to the front.
const MOVE: Step = Step::Move(THIRD, None);

const MOVED: Facts = (1, MOVE, Noted::BeforePacket(Some(LAST)));

const MOVE_CHANGES: &[Path] = &[
    packet!(FIRST, THIRD, InPacket::Front),
    packet!(FIRST, THIRD, InPacket::After),
    packet!(FIRST, LAST, InPacket::Front),
    Path::Group(FIRST, InGroup::Telegram(0, InTelegram::First)),
];

/// An edit after the move, what it notes, and the places that it changes. Each needs the group's orientation.
type Row = (Step, Noted, &'static [Path]);

const AFTER: &[Row] = &[
    (
        Step::Delete(SECOND),
        Noted::BeforePacket(Some(LAST)),
        &[
            packet!(FIRST, SECOND, InPacket::Whole),
            packet!(FIRST, LAST, InPacket::Front),
        ],
    ),
    (
        Step::Delete(FIRST),
        Noted::BeforePacket(Some(SECOND)),
        &[
            packet!(FIRST, FIRST, InPacket::Whole),
            packet!(FIRST, SECOND, InPacket::Front),
        ],
    ),
    (
        Step::Insert(FIRST, Some(SECOND), "2c402e"),
        Noted::Nothing,
        &[
            packet!(FIRST, Tag::Fresh(2), InPacket::Whole),
            packet!(FIRST, SECOND, InPacket::After),
        ],
    ),
];

const TURN: &[Path] = &[Path::Group(FIRST, InGroup::Turn)];

fn check_row(rt: &impl Abort, alloc: Global, plan: &mut Plan, row: &Row)
    requires { (n : ℕ) → 1 ≤ n → Unused n plan.old.groups }
{
    let (step, noted, changed) = *row;
    let first = made(rt, plan, 1, edit_of(rt, alloc, MOVE));
    let second = made(rt, plan, 2, edit_of(rt, alloc, step));
    check_copies(rt, alloc, &first, MOVED);
    check_copies(rt, alloc, &second, (2, step, noted));
    check(rt, &first, MOVE_CHANGES, &[]);
    check(rt, &second, changed, TURN);
}

#[test]
fn entries(rt: HostRuntime) {
    let alloc = rt.alloc();
    for row in AFTER.iter() {
        let mut plan = read(&rt, alloc, &[FOUR]);
        check_row(&rt, alloc, &mut plan, row);
    }
}

#[test]
fn copies_of_the_plan(rt: HostRuntime) {
    let alloc = rt.alloc();
    let plan = read(&rt, alloc, &[FOUR]);
    check_plan(&rt, alloc, &plan);
}

fn check_plan(rt: &impl Abort, alloc: Global, plan: &Plan) {
    let copy = plan.copy().expect(rt, "a copy");
    assert!(rt; copy.count() == 1 && copy.changes() == plan.changes());
    assert!(rt; copy.shown().expect(rt, "bits") == plan.shown().expect(rt, "bits"));
    match copy.group(FIRST) {
        Some(group) => check_group(rt, alloc, group),
        None => assert!(rt; false),
    }
}

fn check_group(rt: &impl Abort, alloc: Global, group: &Group) {
    let copy = group.copy().expect(rt, "a copy");
    assert!(rt; copy.identity() == id(100) && copy.count() == 1);
    match copy.telegram(0) {
        Some(telegram) => check_telegram(rt, alloc, telegram),
        None => assert!(rt; false),
    }
}

fn check_telegram(rt: &impl Abort, alloc: Global, telegram: &Telegram) {
    let copy = telegram.copy().expect(rt, "a copy");
    let bits = copy.shown().expect(rt, "bits").copy().expect(rt, "a copy");
    assert!(rt; bits.to_hex().expect(rt, "digits").as_str() == FOUR);
    check_packets(rt, alloc, &copy);
}

/// The packets of the four.
const DIGITS: &[&str] = &["42403e02", "42403e04", "42403e06", "42403e08"];

fn check_packets(rt: &impl Abort, alloc: Global, telegram: &Telegram) {
    let mut number: u32 = 0;
    for digits in DIGITS.iter() {
        match telegram.packet(Tag::Base(number)) {
            Some(packet) => check_packet(rt, alloc, &packet, *digits),
            None => assert!(rt; false),
        }
        assert!(rt; number < 4);
        number += 1;
    }
}

fn check_packet(rt: &impl Abort, alloc: Global, packet: &PacketRef<'_>, digits: &str) {
    let packet = packet.to_packet().expect(rt, "a packet");
    assert!(rt; has_digits(rt, alloc, &packet.copy().expect(rt, "a copy"), digits));
}
