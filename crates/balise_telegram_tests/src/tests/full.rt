//! The fullest telegrams: 33 packets, and packets as long as the room. No contract says that memory is
//! there, so each call that takes it is made on them.

use crate::tests::packets::{Moved, check_moves, read_packet};
use crate::tests::put::{hands_back, put_beside};
use crate::tests::telegrams::{check_shown, shows, telegram_of};
use balise_telegram::{Bits, Packet, PacketTag, Telegram, TelegramFault};
use std::alloc::Global;
use std::process::Abort;

/// 830 bits with packets 100 to 132 in order, of 23 bits each; 13 bits of padding are left.
pub(crate) const FULL: &str =
    "a1007f80a03259100bb2a01766402ece805da100bb4a0176a402ed6805db100bb6a0176e402ede805dc100bb8a01772402ee6805dd100bbaa01776402eee805de100bbca0177a402ef6805df100bbea0177e402efe805e0100bc0a01782402f06805e1100bfffffc";

/// The packets of `FULL`, with packet 132 before all others.
const LAST_FIRST: &str =
    "a1007f80a03261100bb2201765402ecc805d9d00bb4201769402ed4805dad00bb620176d402edc805dbd00bb8201771402ee4805dcd00bba201775402eec805ddd00bbc201779402ef4805ded00bbe20177d402efc805dfd00bc0201781402f04805e0d00bfffffc";

/// 830 bits without packets.
pub(crate) const LONG: &str =
    "a1007f80a0327ffffffffffffffffffffffffffffffffffffffffffffffffffffffffffffffffffffffffffffffffffffffffffffffffffffffffffffffffffffffffffffffffffffffffffffffffffffffffffffffffffffffffffffffffffffffffffffffffffc";

/// 210 bits without packets.
pub(crate) const SHORT: &str = "a1007f80a0327fffffffffffffffffffffffffffffffffffffffc0";

/// 210 and 830 bits with the longest packet 44 that they have room for.
const SHORT_FILLED: &str = "a1007f80a0324b104c000000000000000000000000000000003fc0";

pub(crate) const LONG_FILLED: &str =
    "a1007f80a0324b118200000000000000000000000000000000000000000000000000000000000000000000000000000000000000000000000000000000000000000000000000000000000000000000000000000000000000000000000000000000000000000003fc";

/// The `width` bits of a packet 44, which isn't known: zeros after its first three fields.
fn opaque(rt: &impl Abort, alloc: Global, width: u32) -> Bits {
    let mut bits = Bits::from_hex(alloc, "2c40", 10).expect(rt, "digits");
    assert!(rt; width >= 23 && width < 8192);
    bits.push(13, width).expect(rt, "memory");
    bits.push_zeros((width - 23) as usize).expect(rt, "memory");
    bits
}

/// Takes the packet with this tag out.
fn taken(rt: &impl Abort, telegram: &mut Telegram, tag: PacketTag) -> Packet {
    telegram.take(tag).expect(rt, "a packet").0
}

/// Whether the telegram has these numbers of packets, of bits used, of bits left and of all bits.
pub(crate) fn holds(
    telegram: &Telegram,
    count: usize,
    used: usize,
    room: usize,
    width: usize,
) -> bool {
    (telegram.count() == count)
        & (telegram.used() == used)
        & (telegram.room() == room)
        & (telegram.width() == width)
}

/// That the telegram and a copy show 33 packets.
fn check_copy(rt: &impl Abort, telegram: &Telegram) {
    check_shown(rt, telegram, FULL);
    check_shown(rt, &telegram.copy().expect(rt, "memory"), FULL);
}

fn check_full(rt: &impl Abort, alloc: Global) {
    check_copy(rt, &telegram_of(rt, alloc, FULL));
}

#[test]
fn shows_and_copies_33_packets(rt: HostRuntime) {
    check_full(&rt, rt.alloc());
}

/// Moves a packet into another telegram, after the last one.
fn move_after(
    rt: &impl Abort,
    from: &mut Telegram,
    to: &mut Telegram,
    place: u32,
    last: Option<PacketTag>,
) {
    let packet = taken(rt, from, PacketTag::Base(place));
    assert!(rt; put_beside(rt, to, false, last, PacketTag::Fresh(place), packet).is_ok());
}

/// Moves 33 packets into another telegram, from the first one on.
fn fill_from_front(rt: &impl Abort, from: &mut Telegram, to: &mut Telegram) {
    let mut last = None;
    for place in 0..33 {
        move_after(rt, from, to, place, last);
        last = Some(PacketTag::Fresh(place));
    }
    check_shown(rt, to, FULL);
    check_shown(rt, from, LONG);
}

fn check_front(rt: &impl Abort, alloc: Global, from: &mut Telegram) {
    fill_from_front(rt, from, &mut telegram_of(rt, alloc, LONG));
}

/// Moves a packet into another telegram, before the first one.
fn move_before(
    rt: &impl Abort,
    from: &mut Telegram,
    to: &mut Telegram,
    place: u32,
    tag: PacketTag,
    first: Option<PacketTag>,
) {
    let packet = taken(rt, from, PacketTag::Base(place));
    assert!(rt; put_beside(rt, to, true, first, tag, packet).is_ok());
}

/// Moves 33 packets into another telegram, from the last one on.
fn fill_from_back(rt: &impl Abort, from: &mut Telegram, to: &mut Telegram) {
    let mut first = None;
    for count in 0..33 {
        let tag = PacketTag::Base(count);
        move_before(rt, from, to, 32 - count, tag, first);
        first = Some(tag);
    }
    check_shown(rt, to, FULL);
    check_shown(rt, from, LONG);
}

fn check_back(rt: &impl Abort, alloc: Global, from: &mut Telegram) {
    fill_from_back(rt, from, &mut telegram_of(rt, alloc, LONG));
}

fn check_both(rt: &impl Abort, alloc: Global) {
    check_front(rt, alloc, &mut telegram_of(rt, alloc, FULL));
    check_back(rt, alloc, &mut telegram_of(rt, alloc, FULL));
}

#[test]
fn fills_a_telegram_from_either_end(rt: HostRuntime) {
    check_both(&rt, rt.alloc());
}

const LAST: PacketTag = PacketTag::Base(32);

const AMONG_33: &[Moved] = &[
    (false, LAST, None, None, LAST_FIRST),
    (
        false,
        LAST,
        Some(PacketTag::Base(31)),
        Some(PacketTag::Base(0)),
        FULL,
    ),
    (true, LAST, Some(PacketTag::Base(0)), None, LAST_FIRST),
    (true, LAST, None, Some(PacketTag::Base(0)), FULL),
];

#[test]
fn moves_among_33_packets(rt: HostRuntime) {
    check_moves(&rt, rt.alloc(), FULL, AMONG_33);
}

/// Whether a packet is put in that is as long as the room.
fn fills(
    rt: &impl Abort,
    telegram: &mut Telegram,
    ahead: bool,
    packet: Packet,
    after: &str,
) -> bool {
    let put = put_beside(rt, telegram, ahead, None, PacketTag::Fresh(1), packet);
    put.is_ok() & shows(rt, telegram, after) & (telegram.room() == 0)
}

/// That a packet that is as long as the room is put in, taken out and put in again.
fn check_fitting(rt: &impl Abort, telegram: &mut Telegram, fitting: &Bits, after: &str) {
    assert!(rt; fills(rt, telegram, false, read_packet(rt, fitting), after));
    let packet = taken(rt, telegram, PacketTag::Fresh(1));
    assert!(rt; fills(rt, telegram, true, packet, after));
}

/// That a packet that is longer than the room is handed back.
pub(crate) fn check_longer(rt: &impl Abort, telegram: &mut Telegram, longer: &Bits, before: &str) {
    assert!(rt; hands_back(rt, telegram, longer, None, TelegramFault::NoRoom));
    check_shown(rt, telegram, before);
}

/// The digits of a telegram, the width of a packet that fits, and the digits with it.
type Room = (&'static str, u32, &'static str);

const ROOMS: [Room; 2] = [(SHORT, 152, SHORT_FILLED), (LONG, 772, LONG_FILLED)];

fn check_room(rt: &impl Abort, alloc: Global, telegram: &mut Telegram, row: &Room) {
    check_fitting(rt, telegram, &opaque(rt, alloc, row.1), row.2);
}

/// The digits of a telegram, and the width of a packet that is too long.
const LONGER: [(&str, u32); 3] = [(SHORT, 153), (LONG, 773), (FULL, 23)];

fn check_no_room(rt: &impl Abort, alloc: Global, telegram: &mut Telegram, row: &(&str, u32)) {
    check_longer(rt, telegram, &opaque(rt, alloc, row.1), row.0);
}

fn check_rooms(rt: &impl Abort, alloc: Global) {
    for row in &ROOMS {
        check_room(rt, alloc, &mut telegram_of(rt, alloc, row.0), row);
    }
    for row in &LONGER {
        check_no_room(rt, alloc, &mut telegram_of(rt, alloc, row.0), row);
    }
}

#[test]
fn fills_the_room_exactly(rt: HostRuntime) {
    check_rooms(&rt, rt.alloc());
}
