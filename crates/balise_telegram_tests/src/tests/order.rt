//! Each packet of five moved to each place, compared with a list of tags.

use crate::tests::kinds::EACH_KIND;
use crate::tests::packets::shift;
use crate::tests::telegram::EDITED;
use crate::tests::telegrams::telegram_of;
use balise_telegram::{Bits, PacketTag, Telegram, TelegramFault};
use std::alloc::Global;
use std::process::Abort;

/// A telegram of the first five packets of ten: as its bits are read, or as the edits leave it.
fn five(rt: &impl Abort, alloc: Global, is_edited: bool) -> Telegram {
    let mut telegram = telegram_of(rt, alloc, EACH_KIND);
    for place in 5..10 {
        assert!(rt; telegram.take(PacketTag::Base(place)).is_ok());
    }
    if is_edited {
        return telegram;
    }
    Telegram::read(telegram.bits()).expect(rt, "a telegram")
}

/// Adds the packet of a telegram that was read at a place.
fn add_packet(rt: &impl Abort, telegram: &Telegram, bits: &mut Bits, place: u32) {
    let packet = telegram
        .packet(PacketTag::Base(place))
        .expect(rt, "a packet");
    let packet = packet.to_packet().expect(rt, "memory");
    packet.write(bits).expect(rt, "memory");
}

/// Adds the bits from packet 255 on.
fn add_end(rt: &impl Abort, telegram: &Telegram, bits: &mut Bits) {
    let (given, used) = (telegram.bits(), telegram.used());
    assert!(rt; used >= 8 && used <= given.len());
    let start = used - 8;
    let end = given.slice(start, given.len() - start);
    bits.append(&end.expect(rt, "memory")).expect(rt, "memory");
}

/// The bits of a telegram with its packets in another order.
fn printed(rt: &impl Abort, telegram: &Telegram, order: &[u32]) -> Bits {
    let given = telegram.bits();
    assert!(rt; given.len() >= 50);
    let mut bits = given.slice(0, 50).expect(rt, "memory");
    for place in order.iter() {
        add_packet(rt, telegram, &mut bits, *place);
    }
    add_end(rt, telegram, &mut bits);
    bits
}

/// The five places in order, but for one, which is taken out and put in at a place.
fn order_of(rt: &impl Abort, alloc: Global, moved: u32, at: usize) -> Vec<u32> {
    let mut order = Vec::new(alloc);
    for place in 0..5 {
        if place != moved {
            order.push(place).expect(rt, "memory");
        }
    }
    assert!(rt; at <= order.len());
    order.insert(at, moved).expect(rt, "memory");
    order
}

fn tag_of(place: u32) -> Option<PacketTag> {
    if place < 5 {
        Some(PacketTag::Base(place))
    } else {
        None
    }
}

/// What stands beside the gap before place `gap`: the packet after it, or the one before it.
fn beside(ahead: bool, gap: u32) -> Option<PacketTag> {
    if ahead {
        tag_of(gap)
    } else if gap == 0 {
        None
    } else {
        tag_of(gap - 1)
    }
}

/// Whether these are the bits with one packet moved to a gap.
fn is_moved(rt: &impl Abort, telegram: &Telegram, moved: u32, gap: u32, bits: &Bits) -> bool {
    let at = if gap > moved { gap - 1 } else { gap };
    let order = order_of(rt, bits.allocator(), moved, at as usize);
    *bits == printed(rt, telegram, order.as_slice())
}

/// Whether a packet is moved to a gap, or refused where that is its own place.
fn moves(rt: &impl Abort, telegram: &Telegram, ahead: bool, moved: u32, gap: u32) -> bool {
    assert!(rt; moved < 5);
    let mut copy = telegram.copy().expect(rt, "memory");
    let tag = PacketTag::Base(moved);
    let answer = shift(&mut copy, ahead, tag, beside(ahead, gap));
    if gap == moved || gap == moved + 1 {
        return (answer == Err(TelegramFault::SamePlace)) & (*copy.bits() == *telegram.bits());
    }
    (answer == Ok(tag_of(moved + 1))) & is_moved(rt, telegram, moved, gap, copy.bits())
}

fn check_all_moves(rt: &impl Abort, telegram: &Telegram) {
    for moved in 0..5 {
        for gap in 0..6 {
            assert!(rt; moves(rt, telegram, false, moved, gap));
            assert!(rt; moves(rt, telegram, true, moved, gap));
        }
    }
}

#[test]
fn moves_each_of_five_packets(rt: HostRuntime) {
    for is_edited in &EDITED {
        check_all_moves(&rt, &five(&rt, rt.alloc(), *is_edited));
    }
}
