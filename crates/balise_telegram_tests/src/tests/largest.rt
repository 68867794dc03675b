//! The largest packets and the fullest telegrams: refused for room, or taken out and put in again.

use crate::tests::full::{FULL, LONG, LONG_FILLED, SHORT, check_longer};
use crate::tests::put::put_beside;
use crate::tests::telegrams::{check_shown, shows, telegram_of};
use balise_telegram::{Bits, PacketTag, Telegram};
use std::process::Abort;

/// A packet 5 of 32 elements, which no telegram has room for: 1,278 bits. Element k names 500 k + 1.
const LINKING: &str =
    "0549fc8000000200f83e803eb410fa00fa5042ee02eec0c7d007d1221388138b852ee02ee40c6d606d6d1cfa00fa1442328232b094e204e2494abe0abee2d77017710632c832cb4d6d606d651cea60ea6c3df401f41284268426b918ca08ca42528e128ed4e71027114a5208520b15abe0abe4ad6761676e5eee02ee10c61a861ab59cb20cb2535a5e1a5ec6f6b036b12e7148714b9dea60ea643de461e46d7c";

#[test]
fn has_no_room_for_32_elements(rt: HostRuntime) {
    let bits = Bits::from_hex(rt.alloc(), LINKING, 1278).expect(&rt, "memory");
    for text in &[FULL, LONG, SHORT, LONG_FILLED] {
        check_longer(&rt, &mut telegram_of(&rt, rt.alloc(), text), &bits, text);
    }
}

/// Whether a packet is taken out, which changes what is shown, and put in where it stood.
fn goes_and_comes(rt: &impl Abort, telegram: &mut Telegram, tag: PacketTag, text: &str) -> bool {
    let (packet, next) = telegram.take(tag).expect(rt, "a packet");
    let goes = !shows(rt, telegram, text) & telegram.packet(tag).is_none();
    put_beside(rt, telegram, true, next, tag, packet).is_ok() & goes & shows(rt, telegram, text)
}

fn check_each(rt: &impl Abort, telegram: &mut Telegram) {
    assert!(rt; telegram.width() == 830 && telegram.count() == 33);
    for place in 0..33 {
        assert!(rt; goes_and_comes(rt, telegram, PacketTag::Base(place), FULL));
    }
}

#[test]
fn takes_each_of_33_packets_out_and_puts_it_in(rt: HostRuntime) {
    check_each(&rt, &mut telegram_of(&rt, rt.alloc(), FULL));
}

/// That the widest packet of a telegram of 830 bits, which isn't known, is taken out and put in again.
fn check_widest(rt: &impl Abort, telegram: &mut Telegram) {
    let tag = PacketTag::Base(0);
    let (packet, next) = telegram.take(tag).expect(rt, "a packet");
    assert!(rt; packet.width() == 772 && next.is_none() && telegram.room() == 772);
    check_shown(rt, telegram, LONG);
    assert!(rt; put_beside(rt, telegram, true, None, tag, packet).is_ok());
    check_shown(rt, telegram, LONG_FILLED);
}

#[test]
fn takes_the_widest_packet_out_and_puts_it_in(rt: HostRuntime) {
    check_widest(&rt, &mut telegram_of(&rt, rt.alloc(), LONG_FILLED));
}
