//! What stands at an address.

use crate::tests::digits::{INFILL, LINKING, THREE};
use crate::tests::plans::plan_of;
use crate::tests::steps::{Answer, Step, follow};
use balise_plan::{Address, GroupTag, Id, PacketTag, Place, Plan, Refusal, Spot, Var};
use std::alloc::Global;
use std::process::Abort;

/// 5.101, of one telegram.
const LINKING_ONE: GroupTag = GroupTag::Base(0);

/// 5.100, of three telegrams.
const TURNED: GroupTag = GroupTag::Base(1);

/// 5.103, which was put in.
const PUT_IN: GroupTag = GroupTag::Fresh(7);

const OLD_PACKET: PacketTag = PacketTag::Base(0);

const NEW_PACKET: PacketTag = PacketTag::Fresh(1);

/// An identity: its country and its number.
macro_rules! id {
    ($country:expr, $number:expr) => {
        Id {
            country: $country,
            number: $number,
        }
    };
}

/// An identity that no group has.
const NOBODY: Id = id!(6, 100);

const LINKING_ID: Id = id!(5, 101);

const TURNED_ID: Id = id!(5, 100);

const PUT_IN_ID: Id = id!(5, 103);

/// An address, and what stands there.
type Row = (Address, Result<Place, Refusal>);

const GROUPS: &[Row] = &[
    (Address::Group(LINKING_ID), Ok(Place::Group(LINKING_ONE))),
    (Address::Group(TURNED_ID), Ok(Place::Group(TURNED))),
    (Address::Group(PUT_IN_ID), Ok(Place::Group(PUT_IN))),
    (Address::Group(NOBODY), Err(Refusal::NoSuchGroup)),
];

const TELEGRAMS: &[Row] = &[
    (
        Address::Telegram(TURNED_ID, 0),
        Ok(Place::Telegram(TURNED, 2)),
    ),
    (
        Address::Telegram(TURNED_ID, 2),
        Ok(Place::Telegram(TURNED, 0)),
    ),
    (
        Address::Telegram(PUT_IN_ID, 0),
        Ok(Place::Telegram(PUT_IN, 0)),
    ),
    (Address::Telegram(NOBODY, 3), Err(Refusal::NoSuchGroup)),
    (
        Address::Telegram(TURNED_ID, 3),
        Err(Refusal::NoSuchTelegram),
    ),
];

const PACKETS: &[Row] = &[
    (
        Address::Packet(LINKING_ID, 0, 0),
        Ok(Place::Packet(LINKING_ONE, 0, NEW_PACKET)),
    ),
    (
        Address::Packet(LINKING_ID, 0, 1),
        Ok(Place::Packet(LINKING_ONE, 0, OLD_PACKET)),
    ),
    (
        Address::Packet(TURNED_ID, 2, 0),
        Ok(Place::Packet(TURNED, 0, OLD_PACKET)),
    ),
    (Address::Packet(NOBODY, 1, 2), Err(Refusal::NoSuchGroup)),
    (
        Address::Packet(LINKING_ID, 1, 2),
        Err(Refusal::NoSuchTelegram),
    ),
    (
        Address::Packet(LINKING_ID, 0, 2),
        Err(Refusal::NoSuchPacket),
    ),
    (Address::Packet(TURNED_ID, 0, 0), Err(Refusal::NoSuchPacket)),
];

const HEADS: &[Row] = &[
    (
        Address::Head(TURNED_ID, 0, Var::MDup),
        Ok(Place::Head(TURNED, 2, Var::MDup)),
    ),
    (
        Address::Head(PUT_IN_ID, 0, Var::NidBg),
        Ok(Place::Head(PUT_IN, 0, Var::NidBg)),
    ),
    (
        Address::Head(NOBODY, 1, Var::NidTsr),
        Err(Refusal::NoSuchGroup),
    ),
    (
        Address::Head(LINKING_ID, 1, Var::NidTsr),
        Err(Refusal::NoSuchTelegram),
    ),
    (
        Address::Head(LINKING_ID, 0, Var::NidTsr),
        Err(Refusal::NoSuchVariable),
    ),
];

const FIELDS: &[Row] = &[
    (
        Address::Field(LINKING_ID, 0, 1, Var::NidBg, 0),
        Ok(Place::Field(LINKING_ONE, 0, OLD_PACKET, Var::NidBg, 0)),
    ),
    (
        Address::Field(LINKING_ID, 0, 0, Var::NidTsr, 0),
        Ok(Place::Field(LINKING_ONE, 0, NEW_PACKET, Var::NidTsr, 0)),
    ),
    (
        Address::Field(NOBODY, 1, 2, Var::NidTsr, 1),
        Err(Refusal::NoSuchGroup),
    ),
    (
        Address::Field(LINKING_ID, 1, 2, Var::NidTsr, 1),
        Err(Refusal::NoSuchTelegram),
    ),
    (
        Address::Field(LINKING_ID, 0, 2, Var::NidTsr, 1),
        Err(Refusal::NoSuchPacket),
    ),
    (
        Address::Field(LINKING_ID, 0, 1, Var::NidTsr, 0),
        Err(Refusal::NoSuchVariable),
    ),
    (
        Address::Field(LINKING_ID, 0, 1, Var::NidBg, 1),
        Err(Refusal::NoSuchVariable),
    ),
];

/// Whether two places are one.
fn is_place(found: Place, wanted: Place) -> bool {
    match (found, wanted) {
        (Place::Group(a), Place::Group(b)) => a == b,
        (Place::Telegram(a, t), Place::Telegram(b, u)) => (a == b) & (t == u),
        (Place::Packet(a, t, p), Place::Packet(b, u, q)) => (a == b) & (t == u) & (p == q),
        (Place::Head(a, t, var), Place::Head(b, u, other)) => (a == b) & (t == u) & (var == other),
        (Place::Field(a, t, p, var, k), Place::Field(b, u, q, other, n)) => {
            (a == b) & (t == u) & (p == q) & (var == other) & (k == n)
        }
        _ => false,
    }
}

fn is_answer(found: Result<Place, Refusal>, wanted: Result<Place, Refusal>) -> bool {
    match (found, wanted) {
        (Ok(place), Ok(other)) => is_place(place, other),
        (Err(fault), Err(other)) => fault == other,
        _ => false,
    }
}

/// The telegram that is lent from an address, by its tags.
fn lent_telegram(plan: &Plan, id: Id, pig: u32) -> Result<Place, Refusal> {
    let (g, t, telegram) = plan.find_telegram(id, pig)?;
    if telegram.identity() != id {
        return Err(Refusal::HeaderDisagrees);
    }
    Ok(Place::Telegram(g, t))
}

/// The packet that is lent from an address, by its tags.
fn lent_packet(plan: &Plan, id: Id, pig: u32, pkt: u32) -> Result<Place, Refusal> {
    let (g, t, telegram, p, packet) = plan.find_packet(id, pig, pkt)?;
    match telegram.packet(p) {
        Some(same) if same.width() == packet.width() => Ok(Place::Packet(g, t, p)),
        _ => Err(Refusal::PacketCut),
    }
}

/// What stands at an address, by the calls that lend it where there are such.
fn lent_at(plan: &Plan, address: Address) -> Result<Place, Refusal> {
    match address {
        Address::Group(id) => {
            let g = plan.find_group(id)?;
            Ok(Place::Group(g))
        }
        Address::Telegram(id, pig) => lent_telegram(plan, id, pig),
        Address::Packet(id, pig, pkt) => lent_packet(plan, id, pig, pkt),
        _ => plan.resolve(address),
    }
}

fn check_rows(rt: &impl Abort, plan: &Plan, rows: &[Row]) {
    for (address, wanted) in rows.iter() {
        assert!(rt; is_answer(plan.resolve(*address), *wanted));
        assert!(rt; is_answer(lent_at(plan, *address), *wanted));
    }
}

/// Puts a group and a packet in before the others, and turns the group of three telegrams.
fn change(rt: &impl Abort, alloc: Global, plan: &mut Plan) {
    let group = Step::PutGroup(Spot::After(None), PUT_IN, INFILL);
    follow(rt, alloc, plan, group, Answer::Done);
    let packet = Step::Put(LINKING_ONE, 0, Spot::After(None), NEW_PACKET, "42403e0c");
    follow(rt, alloc, plan, packet, Answer::Done);
    follow(rt, alloc, plan, Step::Turn(TURNED), Answer::Done);
}

fn check_each(rt: &impl Abort, plan: &Plan) {
    check_rows(rt, plan, GROUPS);
    check_rows(rt, plan, TELEGRAMS);
    check_rows(rt, plan, PACKETS);
    check_rows(rt, plan, HEADS);
    check_rows(rt, plan, FIELDS);
}

fn check_resolved(rt: &impl Abort, alloc: Global) {
    let mut plan = plan_of(rt, alloc, &[LINKING, THREE]);
    change(rt, alloc, &mut plan);
    check_each(rt, &plan);
}

#[test]
fn finds_what_stands_at_an_address(rt: HostRuntime) {
    check_resolved(&rt, rt.alloc());
}
