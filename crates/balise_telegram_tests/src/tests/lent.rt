//! Packets lent from a telegram: by tag, by place and one after another.

use crate::tests::full::{FULL, LONG, SHORT};
use crate::tests::kinds::{EACH_KIND, Kept, PACKETS, TELEGRAMS};
use crate::tests::packets::ONE_PACKET;
use crate::tests::put::put_beside;
use crate::tests::telegrams::{TWO_PACKETS, check_shown, telegram_of};
use balise_telegram::{Bits, PacketRef, PacketTag, Packets, Telegram};
use std::alloc::Global;
use std::process::Abort;

/// The bits of the packet that is cut out.
fn bits_of(rt: &impl Abort, packet: &PacketRef<'_>, alloc: Global) -> Bits {
    let mut bits = Bits::new(alloc);
    let cut = packet.to_packet().expect(rt, "memory");
    cut.write(&mut bits).expect(rt, "memory");
    bits
}

fn same_bits(rt: &impl Abort, one: &PacketRef<'_>, other: &PacketRef<'_>, alloc: Global) -> bool {
    bits_of(rt, one, alloc) == bits_of(rt, other, alloc)
}

fn same_links(rt: &impl Abort, one: &PacketRef<'_>, other: &PacketRef<'_>) -> bool {
    let links = one.links(5).expect(rt, "memory");
    other.links(5).expect(rt, "memory").as_slice() == links.as_slice()
}

fn same_fields(rt: &impl Abort, one: &PacketRef<'_>, other: &PacketRef<'_>) -> bool {
    let fields = one.fields().expect(rt, "memory");
    other.fields().expect(rt, "memory").as_slice() == fields.as_slice()
}

/// Whether the two packets answer alike.
fn same_packet(rt: &impl Abort, one: &PacketRef<'_>, other: &PacketRef<'_>, alloc: Global) -> bool {
    (one.kind() == other.kind())
        & (one.number() == other.number())
        & (one.width() == other.width())
        & (one.q_dir() == other.q_dir())
        & same_fields(rt, one, other)
        & same_links(rt, one, other)
        & same_bits(rt, one, other, alloc)
}

/// A packet that is lent, with its tag.
type Pair<'a> = Option<(PacketTag, PacketRef<'a>)>;

/// Whether both are the same packet with the same tag.
fn same_pair(rt: &impl Abort, alloc: Global, one: Pair<'_>, other: Pair<'_>) -> bool {
    let Some((tag, packet)) = one else {
        return false;
    };
    let Some((other_tag, other_packet)) = other else {
        return false;
    };
    (tag == other_tag) & same_packet(rt, &packet, &other_packet, alloc)
}

/// Whether the packet at a place is the one with this tag.
fn lends_at(rt: &impl Abort, alloc: Global, telegram: &Telegram, i: usize, tag: PacketTag) -> bool {
    let Some(packet) = telegram.packet(tag) else {
        return false;
    };
    same_pair(rt, alloc, Some((tag, packet)), telegram.at(i))
}

/// The tag of the packet at a place: as it was read, or a new one.
fn tag_at(i: u32, is_new: bool) -> PacketTag {
    if is_new {
        PacketTag::Fresh(i)
    } else {
        PacketTag::Base(i)
    }
}

/// Whether these are the packets at all places, in order, and then none, twice.
fn are_all(rt: &impl Abort, telegram: &Telegram, packets: &mut Packets<'_>) -> bool {
    let mut same = true;
    for i in 0..telegram.count() {
        same &= same_pair(
            rt,
            telegram.bits().allocator(),
            packets.next(),
            telegram.at(i),
        );
    }
    same & packets.next().is_none() & packets.next().is_none()
}

/// Whether the packet at a place is lent by its tag too, and by no other tag.
fn has_tag(rt: &impl Abort, telegram: &Telegram, i: u32, is_new: bool) -> bool {
    let alloc = telegram.bits().allocator();
    lends_at(rt, alloc, telegram, i as usize, tag_at(i, is_new))
        & telegram.packet(tag_at(i, !is_new)).is_none()
}

/// Whether the packets at all places are, and there is no further one.
fn has_tags(rt: &impl Abort, telegram: &Telegram, is_new: bool) -> bool {
    let count = u32::try_from(telegram.count()).expect(rt, "few packets");
    let mut same = true;
    for i in 0..count {
        same &= has_tag(rt, telegram, i, is_new);
    }
    same & telegram.at(count as usize).is_none() & telegram.packet(tag_at(count, is_new)).is_none()
}

/// The header and the packets, one written after another.
fn written(rt: &impl Abort, telegram: &Telegram) -> Bits {
    let given = telegram.bits();
    assert!(rt; given.len() >= 50);
    let mut bits = given.slice(0, 50).expect(rt, "memory");
    for (_, packet) in telegram.packets() {
        let packet = packet.to_packet().expect(rt, "memory");
        packet.write(&mut bits).expect(rt, "memory");
    }
    bits
}

/// Whether they are the telegram's bits up to packet 255.
fn writes(rt: &impl Abort, telegram: &Telegram) -> bool {
    let used = telegram.used();
    assert!(rt; used >= 8 && used <= telegram.bits().len());
    written(rt, telegram) == telegram.bits().slice(0, used - 8).expect(rt, "memory")
}

fn check_lent(rt: &impl Abort, telegram: &Telegram, is_new: bool) {
    assert!(rt; are_all(rt, telegram, &mut telegram.packets()));
    assert!(rt; has_tags(rt, telegram, is_new));
    assert!(rt; writes(rt, telegram));
}

/// Takes the first packet out and puts it in last, under a new tag.
fn renew(rt: &impl Abort, telegram: &mut Telegram, i: u32) {
    let (packet, _) = telegram.take(tag_at(i, false)).expect(rt, "a packet");
    assert!(rt; put_beside(rt, telegram, true, None, tag_at(i, true), packet).is_ok());
}

/// That a telegram lends its packets as it was read, and once each has a new tag.
fn check_renewed(rt: &impl Abort, telegram: &mut Telegram, count: u32) {
    assert!(rt; telegram.count() == count as usize);
    check_lent(rt, telegram, false);
    for i in 0..count {
        renew(rt, telegram, i);
    }
    check_lent(rt, telegram, true);
}

fn check_text(rt: &impl Abort, telegram: &mut Telegram, count: u32, text: &str) {
    check_renewed(rt, telegram, count);
    check_shown(rt, telegram, text);
}

/// The digits of telegrams, and how many packets they have.
const COUNTS: [(&str, u32); 6] = [
    (SHORT, 0),
    (LONG, 0),
    (ONE_PACKET, 1),
    (TWO_PACKETS, 2),
    (EACH_KIND, 10),
    (FULL, 33),
];

#[test]
fn lends_each_packet(rt: HostRuntime) {
    for (text, count) in &COUNTS {
        check_text(&rt, &mut telegram_of(&rt, rt.alloc(), text), *count, text);
    }
}

fn check_as_read(rt: &impl Abort, telegram: &Telegram) {
    check_lent(rt, telegram, false);
}

#[test]
fn lends_packets_of_each_kind(rt: HostRuntime) {
    for text in &TELEGRAMS {
        check_as_read(&rt, &telegram_of(&rt, rt.alloc(), text));
    }
}

/// Whether the packet has these answers.
fn has_kept(rt: &impl Abort, packet: &PacketRef<'_>, kept: &Kept) -> bool {
    (packet.number() == kept.0)
        & (packet.q_dir() == kept.1)
        & (packet.width() == kept.2)
        & (packet.links(5).expect(rt, "memory").as_slice() == kept.3)
}

fn keeps(rt: &impl Abort, telegram: &Telegram, i: usize, kept: &Kept) -> bool {
    match telegram.at(i) {
        Some((_, packet)) => has_kept(rt, &packet, kept),
        None => false,
    }
}

fn check_kept(rt: &impl Abort, telegram: &Telegram) {
    for (i, kept) in PACKETS.iter().enumerate() {
        assert!(rt; keeps(rt, telegram, i, kept));
    }
}

#[test]
fn lends_known_packets(rt: HostRuntime) {
    check_kept(&rt, &telegram_of(&rt, rt.alloc(), EACH_KIND));
}
