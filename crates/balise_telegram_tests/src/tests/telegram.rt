//! A telegram of two packets as it was read, and the same one after an edit: questions, changes in place, copies and
//! digits.

use crate::tests::changes::{
    BOTH_TURNED, FLIPPED, HEADER_PUT, LINKING, NAMED, RENAMED, TURNED, has_links,
};
use crate::tests::full::{FULL, holds};
use crate::tests::packets::EXCHANGED;
use crate::tests::put::{put_beside, taken};
use crate::tests::telegrams::{
    HeadSet, SET, TWO_PACKETS, check_shown, sets, sets_head, shows, telegram_of,
};
use balise_telegram::{PacketRef, PacketTag, Telegram, Var};
use std::alloc::Global;
use std::process::Abort;

/// Edits a telegram of two packets: moves the first one there and back.
fn edit(rt: &impl Abort, telegram: &mut Telegram) {
    let (first, second) = (PacketTag::Base(0), PacketTag::Base(1));
    assert!(rt; telegram.shift_after(first, Some(second)) == Ok(Some(second)));
    check_shown(rt, telegram, EXCHANGED);
    assert!(rt; telegram.shift_after(first, None) == Ok(None));
}

/// A telegram of two packets, as it was read or after an edit.
pub(crate) fn two_packets(rt: &impl Abort, alloc: Global, is_edited: bool) -> Telegram {
    let mut telegram = telegram_of(rt, alloc, TWO_PACKETS);
    if is_edited {
        edit(rt, &mut telegram);
    }
    telegram
}

/// Whether a telegram is edited before the test.
pub(crate) const EDITED: [bool; 2] = [false, true];

/// Whether the packet is a 66 that takes back this restriction.
fn takes_back(rt: &impl Abort, packet: &PacketRef<'_>, restriction: u32) -> bool {
    (packet.number() == 66)
        & (packet.field(Var::NidTsr, 0) == Some(restriction))
        & packet.field(Var::NidTsr, 1).is_none()
        & are_fields(packet.fields().expect(rt, "memory").as_slice(), restriction)
}

fn are_fields(fields: &[(Var, u32, u32)], restriction: u32) -> bool {
    (fields.len() == 4)
        && (fields[0] == (Var::NidPacket, 0, 66))
        && (fields[3] == (Var::NidTsr, 0, restriction))
}

/// Whether the packet at a place takes back this restriction.
fn has_at(rt: &impl Abort, telegram: &Telegram, i: u32, restriction: u32) -> bool {
    let Some((tag, packet)) = telegram.at(i as usize) else {
        return false;
    };
    (tag == PacketTag::Base(i)) & takes_back(rt, &packet, restriction)
}

/// Whether the packet with this tag takes back this restriction.
fn has_tagged(rt: &impl Abort, telegram: &Telegram, i: u32, restriction: u32) -> bool {
    let tag = PacketTag::Base(i);
    let Some(packet) = telegram.packet(tag) else {
        return false;
    };
    takes_back(rt, &packet, restriction) & has_links(telegram, tag, &[])
}

/// Whether the telegram has no packet with this tag.
fn lacks(telegram: &Telegram, tag: PacketTag) -> bool {
    telegram.packet(tag).is_none() & has_links(telegram, tag, &[])
}

/// Variables and what a header has for them.
const VALUES: [(Var, Option<u32>); 7] = [
    (Var::QUpdown, Some(1)),
    (Var::MVersion, Some(33)),
    (Var::MMcount, Some(255)),
    (Var::NidC, Some(5)),
    (Var::NidBg, Some(100)),
    (Var::QLink, Some(1)),
    (Var::NidTsr, None),
];

fn has_head(telegram: &Telegram) -> bool {
    let mut same = (telegram.version() == 33) & (telegram.identity() == NAMED);
    for (var, value) in &VALUES {
        same &= telegram.head(*var) == *value;
    }
    same
}

fn has_no_third(rt: &impl Abort, telegram: &Telegram) -> bool {
    telegram.at(2).is_none()
        & telegram.at(4294967296).is_none()
        & lacks(telegram, PacketTag::Base(2))
        & lacks(telegram, PacketTag::Fresh(0))
}

fn has_two(rt: &impl Abort, telegram: &Telegram) -> bool {
    has_at(rt, telegram, 0, 5)
        & has_at(rt, telegram, 1, 7)
        & has_tagged(rt, telegram, 0, 5)
        & has_tagged(rt, telegram, 1, 7)
}

fn check_answers(rt: &impl Abort, telegram: &Telegram) {
    check_shown(rt, telegram, TWO_PACKETS);
    assert!(rt; holds(telegram, 2, 120, 90, 210) & has_head(telegram));
    assert!(rt; has_two(rt, telegram) & has_no_third(rt, telegram));
}

#[test]
fn answers_as_read_and_after_an_edit(rt: HostRuntime) {
    for is_edited in &EDITED {
        check_answers(&rt, &two_packets(&rt, rt.alloc(), *is_edited));
    }
}

/// Puts two variables into the header.
#[tactic(auto, unfolding(balise_rules::specs::Variables::width_of))]
fn put_header(telegram: &mut Telegram) {
    telegram.put_head(Var::NPig, 3);
    telegram.put_head(Var::NidBg, 777);
}

/// Whether two variables that are put into the header are there.
fn puts_header(telegram: &mut Telegram) -> bool {
    put_header(telegram);
    (telegram.head(Var::NPig) == Some(3)) & (telegram.head(Var::NidBg) == Some(777))
}

/// Whether the first packet is turned, and turned back.
fn turns(rt: &impl Abort, telegram: &mut Telegram) -> bool {
    let first = PacketTag::Base(0);
    telegram.flip_dir(first);
    let turned = shows(rt, telegram, TURNED);
    telegram.flip_dir(first);
    turned & shows(rt, telegram, TWO_PACKETS)
}

/// Whether both packets are turned, and turned back.
fn turns_both(rt: &impl Abort, telegram: &mut Telegram) -> bool {
    telegram.flip_dirs();
    let turned = shows(rt, telegram, BOTH_TURNED);
    telegram.flip_dirs();
    turned & shows(rt, telegram, TWO_PACKETS)
}

/// Variables of the header, values for them, and the ones before.
const HEAD_SET: [HeadSet; 4] = [
    (Var::MMcount, 7, 255),
    (Var::MMcount, 255, 7),
    (Var::MDup, 2, 0),
    (Var::MDup, 0, 2),
];

fn sets_heads(telegram: &mut Telegram) -> bool {
    let mut same = true;
    for row in &HEAD_SET {
        same &= sets_head(telegram, row);
    }
    same
}

/// Whether a field, a direction and variables of the header of two packets' telegram are changed, and changed back but
/// for the last ones.
fn changes(rt: &impl Abort, telegram: &mut Telegram) -> bool {
    sets(rt, telegram, 9, 7, SET)
        & sets(rt, telegram, 7, 9, TWO_PACKETS)
        & turns(rt, telegram)
        & turns_both(rt, telegram)
        & sets_heads(telegram)
        & shows(rt, telegram, TWO_PACKETS)
        & puts_header(telegram)
        & shows(rt, telegram, HEADER_PUT)
}

fn check_changes(rt: &impl Abort, telegram: &mut Telegram) {
    assert!(rt; changes(rt, telegram));
}

#[test]
fn changes_in_place_as_read_and_after_an_edit(rt: HostRuntime) {
    for is_edited in &EDITED {
        check_changes(&rt, &mut two_packets(&rt, rt.alloc(), *is_edited));
    }
}

/// Whether the one element is flipped, flipped back and renamed.
fn changes_element(rt: &impl Abort, telegram: &mut Telegram, element: PacketTag) -> bool {
    telegram.flip_link(element, 0);
    let flipped = shows(rt, telegram, FLIPPED);
    telegram.flip_link(element, 0);
    telegram.name_link(element, 0, 777);
    flipped & shows(rt, telegram, RENAMED)
}

/// That the one element and the header of a telegram are changed.
fn check_element(rt: &impl Abort, telegram: &mut Telegram) {
    let element = PacketTag::Base(0);
    assert!(rt; has_links(telegram, element, &[NAMED]));
    assert!(rt; changes_element(rt, telegram, element) & puts_header(telegram));
}

/// Takes the one packet of a telegram out and puts it in again.
fn edit_one(rt: &impl Abort, telegram: &mut Telegram) {
    let element = PacketTag::Base(0);
    let packet = taken(rt, telegram, element, None);
    assert!(rt; put_beside(rt, telegram, false, None, element, packet).is_ok());
}

fn check_edited_element(rt: &impl Abort, telegram: &mut Telegram) {
    edit_one(rt, telegram);
    check_element(rt, telegram);
}

#[test]
fn changes_elements_and_header_as_read_and_after_an_edit(rt: HostRuntime) {
    check_element(&rt, &mut telegram_of(&rt, rt.alloc(), LINKING));
    check_edited_element(&rt, &mut telegram_of(&rt, rt.alloc(), LINKING));
}

/// Whether a telegram of two packets shows them when a copy is changed.
fn stays(rt: &impl Abort, telegram: &Telegram) -> bool {
    changes(rt, &mut telegram.copy().expect(rt, "memory")) & shows(rt, telegram, TWO_PACKETS)
}

/// Whether a copy shows two packets when the telegram is changed.
fn copy_stays(rt: &impl Abort, telegram: &mut Telegram) -> bool {
    let copy = telegram.copy().expect(rt, "memory");
    change(telegram) & shows(rt, &copy, TWO_PACKETS)
}

fn change(telegram: &mut Telegram) -> bool {
    (telegram.set_field(PacketTag::Base(0), Var::NidTsr, 0, 9) == Ok(5))
        & telegram.take(PacketTag::Base(1)).is_ok()
        & (telegram.set_head(Var::MDup, 2) == Ok(0))
}

fn check_copy(rt: &impl Abort, telegram: &mut Telegram) {
    assert!(rt; stays(rt, telegram) & copy_stays(rt, telegram));
}

#[test]
fn copies_as_read_and_after_an_edit(rt: HostRuntime) {
    for is_edited in &EDITED {
        check_copy(&rt, &mut two_packets(&rt, rt.alloc(), *is_edited));
    }
}

/// Whether the digits are written in place of what was written.
fn writes(telegram: &Telegram, digits: &mut Vec<u8>, text: &str) -> bool {
    telegram.hex_into(digits).is_ok() & (digits.as_slice() == text.as_bytes())
}

/// That they are so twice.
fn check_written(rt: &impl Abort, telegram: &Telegram, digits: &mut Vec<u8>, text: &str) {
    assert!(rt; writes(telegram, digits, text) & writes(telegram, digits, text));
}

fn write_each(rt: &impl Abort, alloc: Global, digits: &mut Vec<u8>) {
    check_written(rt, &telegram_of(rt, alloc, FULL), digits, FULL);
    for is_edited in &EDITED {
        check_written(rt, &two_packets(rt, alloc, *is_edited), digits, TWO_PACKETS);
    }
}

#[test]
fn writes_the_digits_as_read_and_after_an_edit(rt: HostRuntime) {
    write_each(&rt, rt.alloc(), &mut Vec::new(rt.alloc()));
}
