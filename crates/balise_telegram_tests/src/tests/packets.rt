//! Packets taken out and put in, with digits made by hand.

use crate::tests::full::SHORT;
use crate::tests::put::{hands_back, put_beside};
use crate::tests::telegram::{EDITED, two_packets};
use crate::tests::telegrams::{TWO_PACKETS, check_shown, shows, telegram_of};
use balise_telegram::{Bits, Packet, PacketTag, Telegram, TelegramFault, Var};
use std::alloc::Global;
use std::process::Abort;

pub(crate) const ONE_PACKET: &str = "a1007f80a03250900f82ffffffffffffffffffffffffffffffffc0";

pub(crate) const COLOURED: &str = "a1007f80a0327fc05a5a5a5a5a5a5a5a5a5a5a5a5a5a5a5a5a5a40";

const COLOURED_ONE: &str = "a1007f80a03250900f82ffda5a5a5a5a5a5a5a5a5a5a5a5a5a5a40";

/// The two packets, the second one first.
pub(crate) const EXCHANGED: &str = "a1007f80a03250900f83a1201f05ffffffffffffffffffffffffc0";

/// Packets 66, which take back restrictions 5 and 9.
pub(crate) const FIVE: &str = "42403e0a";

pub(crate) const NINE: &str = "42403e12";

const FIRST: PacketTag = PacketTag::Base(0);

const SECOND: PacketTag = PacketTag::Base(1);

const LACKING: PacketTag = PacketTag::Base(2);

/// The bits of such a packet.
pub(crate) fn packet_bits(rt: &impl Abort, alloc: Global, text: &str) -> Bits {
    Bits::from_hex(alloc, text, 31).expect(rt, "digits")
}

pub(crate) fn packet(rt: &impl Abort, alloc: Global, text: &str) -> Packet {
    read_packet(rt, &packet_bits(rt, alloc, text))
}

pub(crate) fn read_packet(rt: &impl Abort, bits: &Bits) -> Packet {
    Packet::read(bits, 0, 33).expect(rt, "a packet").0
}

pub(crate) type Outcome = Result<(), (TelegramFault, Packet)>;

/// Whether a packet of these bits was handed back for this reason.
pub(crate) fn is_back(
    rt: &impl Abort,
    outcome: Outcome,
    bits: &Bits,
    fault: TelegramFault,
) -> bool {
    match outcome {
        Err((why, packet)) => (why == fault) & has_bits(rt, &packet, bits),
        Ok(()) => false,
    }
}

/// Whether the packet has these bits.
pub(crate) fn has_bits(rt: &impl Abort, packet: &Packet, bits: &Bits) -> bool {
    let mut given = bits.slice(0, 0).expect(rt, "memory");
    packet.write(&mut given).is_ok() & (given == *bits)
}

/// Whether the packets have these restrictions, in order.
pub(crate) fn has_order(telegram: &Telegram, restrictions: &[u32]) -> bool {
    let mut same = telegram.count() == restrictions.len();
    for (i, restriction) in restrictions.iter().enumerate() {
        match telegram.at(i) {
            Some((_, packet)) => same &= packet.field(Var::NidTsr, 0) == Some(*restriction),
            None => same = false,
        }
    }
    same
}

/// Puts a packet in before the one beside it, or after it.
fn put(
    rt: &impl Abort,
    alloc: Global,
    telegram: &mut Telegram,
    ahead: bool,
    text: &str,
    beside: Option<PacketTag>,
    tag: PacketTag,
) {
    let packet = packet(rt, alloc, text);
    assert!(rt; put_beside(rt, telegram, ahead, beside, tag, packet).is_ok());
}

/// Whether the one packet is taken out, which takes back restriction 5.
fn takes(rt: &impl Abort, telegram: &mut Telegram, tag: PacketTag) -> bool {
    let (packet, next) = telegram.take(tag).expect(rt, "a packet");
    (packet.field(Var::NidTsr, 0) == Some(5)) & next.is_none()
}

/// Whether a packet 66 with this tag stands first.
fn is_first(telegram: &Telegram, tag: PacketTag) -> bool {
    match telegram.at(0) {
        Some((first, packet)) => (first == tag) & (packet.number() == 66),
        None => false,
    }
}

/// Whether a telegram shows its one packet, and without it these digits.
fn takes_out(
    rt: &impl Abort,
    telegram: &mut Telegram,
    tag: PacketTag,
    before: &str,
    after: &str,
) -> bool {
    shows(rt, telegram, after)
        & is_first(telegram, tag)
        & takes(rt, telegram, tag)
        & shows(rt, telegram, before)
        & telegram.take(tag).is_err()
}

/// Whether a packet is put in last, the digits of a telegram, and those with the packet.
const EMPTY: &[(bool, &str, &str)] = &[
    (false, SHORT, ONE_PACKET),
    (true, SHORT, ONE_PACKET),
    (false, COLOURED, COLOURED_ONE),
];

/// That a packet is put in and taken out again.
fn check_put(rt: &impl Abort, alloc: Global, telegram: &mut Telegram, row: &(bool, &str, &str)) {
    let tag = PacketTag::Fresh(1);
    put(rt, alloc, telegram, row.0, FIVE, None, tag);
    assert!(rt; takes_out(rt, telegram, tag, row.1, row.2));
}

fn check_each_put(rt: &impl Abort, alloc: Global) {
    for row in EMPTY.iter() {
        check_put(rt, alloc, &mut telegram_of(rt, alloc, row.1), row);
    }
}

#[test]
fn puts_a_packet_in_and_takes_it_out(rt: HostRuntime) {
    check_each_put(&rt, rt.alloc());
}

/// `COLOURED_ONE` after its packet was deleted. Its padding was read after the packet, so ones fill the packet's place.
const PADDED_LATER: &str = "a1007f80a0327fffffffffda5a5a5a5a5a5a5a5a5a5a5a5a5a5a40";

#[test]
fn pads_with_ones_where_a_packet_was_read(rt: HostRuntime) {
    let mut telegram = telegram_of(&rt, rt.alloc(), COLOURED_ONE);
    assert!(rt; takes_out(&rt, &mut telegram, FIRST, PADDED_LATER, COLOURED_ONE));
}

/// Whether a packet is put in before or after another one, which one, its tag, the restrictions of all packets then,
/// and what stands after it.
type Row = (
    bool,
    Option<PacketTag>,
    PacketTag,
    [u32; 3],
    Option<PacketTag>,
);

const BESIDE: &[Row] = &[
    (
        false,
        Some(FIRST),
        PacketTag::Fresh(1),
        [5, 9, 7],
        Some(SECOND),
    ),
    (false, Some(SECOND), PacketTag::Fresh(2), [5, 7, 9], None),
    (false, None, PacketTag::Fresh(3), [9, 5, 7], Some(FIRST)),
    (
        true,
        Some(FIRST),
        PacketTag::Fresh(1),
        [9, 5, 7],
        Some(FIRST),
    ),
    (
        true,
        Some(SECOND),
        PacketTag::Fresh(2),
        [5, 9, 7],
        Some(SECOND),
    ),
    (true, None, PacketTag::Fresh(3), [5, 7, 9], None),
];

/// What stands after the packet that is taken out.
fn next_of(rt: &impl Abort, telegram: &mut Telegram, tag: PacketTag) -> Option<PacketTag> {
    telegram.take(tag).expect(rt, "a packet").1
}

/// Whether the packet that was put in is changed and taken out.
fn changes_and_takes(rt: &impl Abort, telegram: &mut Telegram, row: &Row) -> bool {
    has_order(telegram, &row.3)
        & (telegram.set_field(row.2, Var::NidTsr, 0, 8) == Ok(9))
        & (next_of(rt, telegram, row.2) == row.4)
        & shows(rt, telegram, TWO_PACKETS)
}

/// That a packet is put in, changed and taken out.
fn check_each_beside(rt: &impl Abort, alloc: Global, telegram: &mut Telegram) {
    for row in BESIDE.iter() {
        put(rt, alloc, telegram, row.0, NINE, row.1, row.2);
        assert!(rt; changes_and_takes(rt, telegram, row));
    }
}

fn check_beside(rt: &impl Abort, alloc: Global) {
    check_each_beside(rt, alloc, &mut telegram_of(rt, alloc, TWO_PACKETS));
}

#[test]
fn puts_a_packet_in_beside_another(rt: HostRuntime) {
    check_beside(&rt, rt.alloc());
}

/// Puts two packets in last.
fn put_two_last(rt: &impl Abort, alloc: Global, telegram: &mut Telegram) {
    for n in 0..2 {
        put(rt, alloc, telegram, true, FIVE, None, PacketTag::Fresh(n));
    }
}

/// That what is lacking isn't changed, and that a packet is handed back that is put in beside it, or that there is no
/// room for.
fn check_refused(rt: &impl Abort, alloc: Global, telegram: &mut Telegram, given: &Bits) {
    telegram.flip_dir(LACKING);
    telegram.flip_link(FIRST, 0);
    telegram.name_link(FIRST, 0, 777);
    let (beside, lacking) = (Some(LACKING), TelegramFault::NoSuchPacket);
    assert!(rt; hands_back(rt, telegram, given, beside, lacking));
    check_shown(rt, telegram, TWO_PACKETS);
    put_two_last(rt, alloc, telegram);
    assert!(rt; telegram.room() == 28);
    assert!(rt; hands_back(rt, telegram, given, None, TelegramFault::NoRoom));
    assert!(rt; has_order(telegram, &[5, 7, 5, 5]));
}

fn check_each_refused(rt: &impl Abort, alloc: Global, given: &Bits) {
    for is_edited in &EDITED {
        check_refused(rt, alloc, &mut two_packets(rt, alloc, *is_edited), given);
    }
}

fn check_nine(rt: &impl Abort, alloc: Global) {
    check_each_refused(rt, alloc, &packet_bits(rt, alloc, NINE));
}

#[test]
fn a_refused_change_leaves_a_telegram(rt: HostRuntime) {
    check_nine(&rt, rt.alloc());
}

/// Moves a packet before the one beside it, or after it.
pub(crate) fn shift(
    telegram: &mut Telegram,
    ahead: bool,
    tag: PacketTag,
    beside: Option<PacketTag>,
) -> Result<Option<PacketTag>, TelegramFault> {
    if ahead {
        telegram.shift_before(tag, beside)
    } else {
        telegram.shift_after(tag, beside)
    }
}

/// Whether a packet is moved before or after another one, the two, what stood after it, and the digits then.
pub(crate) type Moved = (
    bool,
    PacketTag,
    Option<PacketTag>,
    Option<PacketTag>,
    &'static str,
);

const MOVED: &[Moved] = &[
    (false, FIRST, Some(SECOND), Some(SECOND), EXCHANGED),
    (false, FIRST, None, None, TWO_PACKETS),
    (true, SECOND, Some(FIRST), None, EXCHANGED),
    (true, SECOND, None, Some(FIRST), TWO_PACKETS),
];

fn moves(rt: &impl Abort, telegram: &mut Telegram, row: &Moved) -> bool {
    (shift(telegram, row.0, row.1, row.2) == Ok(row.3)) & shows(rt, telegram, row.4)
}

fn check_each_move(rt: &impl Abort, telegram: &mut Telegram, rows: &[Moved]) {
    for row in rows.iter() {
        assert!(rt; moves(rt, telegram, row));
    }
}

/// That packets of a telegram are moved.
pub(crate) fn check_moves(rt: &impl Abort, alloc: Global, text: &str, rows: &[Moved]) {
    check_each_move(rt, &mut telegram_of(rt, alloc, text), rows);
}

#[test]
fn moves_one_of_two_packets(rt: HostRuntime) {
    check_moves(&rt, rt.alloc(), TWO_PACKETS, MOVED);
}

const THIRD: PacketTag = PacketTag::Fresh(1);

/// A move, as in `Moved`, with the restrictions of three packets after it.
type Ordered = (
    bool,
    PacketTag,
    Option<PacketTag>,
    Option<PacketTag>,
    [u32; 3],
);

const ORDERED: &[Ordered] = &[
    (false, THIRD, Some(FIRST), None, [5, 9, 7]),
    (false, FIRST, Some(THIRD), Some(THIRD), [9, 5, 7]),
    (false, SECOND, None, None, [7, 9, 5]),
    (true, FIRST, Some(SECOND), None, [5, 7, 9]),
    (true, FIRST, Some(THIRD), Some(SECOND), [7, 5, 9]),
    (true, THIRD, Some(FIRST), None, [7, 9, 5]),
];

fn orders(telegram: &mut Telegram, row: &Ordered) -> bool {
    (shift(telegram, row.0, row.1, row.2) == Ok(row.3)) & has_order(telegram, &row.4)
}

fn check_each_order(rt: &impl Abort, alloc: Global, telegram: &mut Telegram) {
    put(rt, alloc, telegram, true, NINE, None, THIRD);
    for row in ORDERED.iter() {
        assert!(rt; orders(telegram, row));
    }
}

fn check_orders(rt: &impl Abort, alloc: Global) {
    check_each_order(rt, alloc, &mut telegram_of(rt, alloc, TWO_PACKETS));
}

#[test]
fn moves_one_of_three_packets(rt: HostRuntime) {
    check_orders(&rt, rt.alloc());
}

/// Whether a packet is to be moved before or after another one, the two, and why it isn't.
type Refused = (bool, PacketTag, Option<PacketTag>, TelegramFault);

const NOT_MOVED: &[Refused] = &[
    (true, LACKING, Some(LACKING), TelegramFault::NoSuchPacket),
    (true, FIRST, Some(LACKING), TelegramFault::NoSuchPacket),
    (true, SECOND, None, TelegramFault::SamePlace),
    (true, FIRST, Some(SECOND), TelegramFault::SamePlace),
    (true, SECOND, Some(SECOND), TelegramFault::SamePlace),
    (false, LACKING, Some(LACKING), TelegramFault::NoSuchPacket),
    (false, LACKING, None, TelegramFault::NoSuchPacket),
    (false, FIRST, Some(LACKING), TelegramFault::NoSuchPacket),
    (false, FIRST, None, TelegramFault::SamePlace),
    (false, SECOND, Some(FIRST), TelegramFault::SamePlace),
    (false, SECOND, Some(SECOND), TelegramFault::SamePlace),
];

fn is_not_moved(rt: &impl Abort, telegram: &mut Telegram, row: &Refused) -> bool {
    (shift(telegram, row.0, row.1, row.2) == Err(row.3)) & shows(rt, telegram, TWO_PACKETS)
}

fn check_each_not_moved(rt: &impl Abort, telegram: &mut Telegram) {
    for row in NOT_MOVED.iter() {
        assert!(rt; is_not_moved(rt, telegram, row));
    }
}

#[test]
fn says_why_a_packet_is_not_moved(rt: HostRuntime) {
    for is_edited in &EDITED {
        check_each_not_moved(&rt, &mut two_packets(&rt, rt.alloc(), *is_edited));
    }
}
