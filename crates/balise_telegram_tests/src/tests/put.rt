//! Packets put into a telegram, taken out of it and handed back.

use crate::tests::packets::{EXCHANGED, ONE_PACKET, Outcome, is_back, read_packet};
use crate::tests::telegrams::{TWO_PACKETS, shows, telegram_of};
use balise_telegram::{Bits, Packet, PacketTag, Telegram, TelegramFault};
use std::process::Abort;

/// Takes a packet out that stands before this one.
pub(crate) fn taken(
    rt: &impl Abort,
    telegram: &mut Telegram,
    tag: PacketTag,
    next: Option<PacketTag>,
) -> Packet {
    let (packet, was) = telegram.take(tag).expect(rt, "a packet");
    assert!(rt; was == next);
    packet
}

/// Puts a packet in before the one beside it, or after it, under a new tag.
pub(crate) fn put_beside(
    rt: &impl Abort,
    telegram: &mut Telegram,
    ahead: bool,
    beside: Option<PacketTag>,
    tag: PacketTag,
    packet: Packet,
) -> Outcome {
    assert!(rt; telegram.packet(tag).is_none() && packet.is_spelt(telegram.version()));
    if ahead {
        telegram.put_before(beside, tag, packet)
    } else {
        telegram.insert_after(beside, tag, packet)
    }
}

const FIRST: PacketTag = PacketTag::Base(0);

const SECOND: PacketTag = PacketTag::Base(1);

/// Whether the second packet is taken out from before this one, and put in beside the first one.
fn moves(
    rt: &impl Abort,
    telegram: &mut Telegram,
    next: Option<PacketTag>,
    ahead: bool,
    text: &str,
) -> bool {
    let packet = taken(rt, telegram, SECOND, next);
    shows(rt, telegram, ONE_PACKET)
        & put_beside(rt, telegram, ahead, Some(FIRST), SECOND, packet).is_ok()
        & shows(rt, telegram, text)
}

fn check_moved(rt: &impl Abort, telegram: &mut Telegram) {
    assert!(rt; moves(rt, telegram, None, true, EXCHANGED));
    assert!(rt; moves(rt, telegram, Some(FIRST), false, TWO_PACKETS));
}

#[test]
fn takes_out_of_a_telegram_as_read(rt: HostRuntime) {
    check_moved(&rt, &mut telegram_of(&rt, rt.alloc(), TWO_PACKETS));
}

/// Whether a packet is handed back for this reason that is put in after or before this one.
pub(crate) fn hands_back(
    rt: &impl Abort,
    telegram: &mut Telegram,
    given: &Bits,
    beside: Option<PacketTag>,
    fault: TelegramFault,
) -> bool {
    hands_one_back(rt, telegram, given, (false, beside), fault)
        & hands_one_back(rt, telegram, given, (true, beside), fault)
}

fn hands_one_back(
    rt: &impl Abort,
    telegram: &mut Telegram,
    given: &Bits,
    place: (bool, Option<PacketTag>),
    fault: TelegramFault,
) -> bool {
    let packet = read_packet(rt, given);
    let outcome = put_beside(rt, telegram, place.0, place.1, PacketTag::Fresh(9), packet);
    is_back(rt, outcome, given, fault)
}
