//! Telegrams of known digits, each read and shown again.

use crate::tests::changes::LINKING;
use crate::tests::full::SHORT;
use crate::tests::packets::{COLOURED, ONE_PACKET};
use crate::tests::telegram::{EDITED, two_packets};
use balise_telegram::{Bits, PacketTag, Refusal, Telegram, TelegramFault, Var};
use std::alloc::Global;
use std::process::Abort;

/// Whether the telegram shows these bits, lent and copied.
fn shows_bits(rt: &impl Abort, telegram: &Telegram, bits: &Bits) -> bool {
    (telegram.shown().expect(rt, "memory") == *bits) & (*telegram.bits() == *bits)
}

/// Whether this is the outcome of reading these bits: a telegram that shows them, or this fault.
fn is_read(
    rt: &impl Abort,
    outcome: Result<Telegram, TelegramFault>,
    bits: &Bits,
    fault: Option<TelegramFault>,
) -> bool {
    match outcome {
        Ok(telegram) => fault.is_none() & shows_bits(rt, &telegram, bits),
        Err(why) => fault == Some(why),
    }
}

/// Whether reading these bits answers this, and leaves them.
fn reads(rt: &impl Abort, bits: &Bits, fault: Option<TelegramFault>) -> bool {
    let given = bits.copy().expect(rt, "memory");
    is_read(rt, Telegram::read(&given), bits, fault)
        & (given == *bits)
        & is_read(rt, Telegram::of_bits(given), bits, fault)
}

/// That reading these digits answers this, and that what is read shows them.
fn check_read(
    rt: &impl Abort,
    alloc: Global,
    text: &str,
    len: usize,
    fault: Option<TelegramFault>,
) {
    let bits = Bits::from_hex(alloc, text, len).expect(rt, "digits");
    assert!(rt; reads(rt, &bits, fault));
}

/// Digits of telegrams of 210 bits.
const SHOWN: [&str; 6] = [
    SHORT,
    ONE_PACKET,
    "a1007f80a032505023a0a0320096047fffffffffffffffffffffc0",
    LINKING,
    "a1007f80a03341503b204b20300c88c0819000c98cffffffffffc0",
    COLOURED,
];

#[test]
fn shows_what_was_read(rt: HostRuntime) {
    for text in &SHOWN {
        check_read(&rt, rt.alloc(), text, 210, None);
    }
}

/// Digits, how many bits they are to be, and why those are no telegram.
const FAULTS: [(&str, usize, TelegramFault); 6] = [
    (
        "a1807f80a0327fffffffffffffffffffffffffffffffffffffffc0",
        210,
        TelegramFault::NotABalise,
    ),
    (
        "a1007f80a0324b2050000000000000000000000000000000000000",
        210,
        TelegramFault::NoEnd,
    ),
    (
        "a1007f80a0324b200b3fffffffffffffffffffffffffffffffffc0",
        210,
        TelegramFault::PacketCut,
    ),
    (
        "a1007f80a032403fffffffffffffffffffffffffffffffffffffc0",
        210,
        TelegramFault::PacketZero,
    ),
    (
        "a1007f80a03250901002bfffffffffffffffffffffffffffffffc0",
        210,
        TelegramFault::LayoutMismatch,
    ),
    ("a1007f80", 32, TelegramFault::BadLength),
];

/// Whether faults are refusals of these numbers.
fn tells_refusals() -> bool {
    (TelegramFault::NoEnd.refusal().number() == 6)
        & (TelegramFault::NoRoom.refusal().number() == 20)
        & (TelegramFault::SamePlace.refusal().number() == 22)
        & (Refusal::from(TelegramFault::PacketCut) == Refusal::PacketCut)
}

#[test]
fn says_the_first_fault(rt: HostRuntime) {
    for (text, len, fault) in &FAULTS {
        check_read(&rt, rt.alloc(), text, *len, Some(*fault));
    }
    assert!(rt; tells_refusals());
}

/// Two packets 66, which take back restrictions 5 and 7.
pub(crate) const TWO_PACKETS: &str = "a1007f80a03250900f82a1201f07ffffffffffffffffffffffffc0";

/// The bits of a telegram's digits, 54 or 208 of them.
pub(crate) fn bits(rt: &impl Abort, alloc: Global, text: &str) -> Bits {
    let len = if text.len() == 208 { 830 } else { 210 };
    Bits::from_hex(alloc, text, len).expect(rt, "digits")
}

pub(crate) fn telegram_of(rt: &impl Abort, alloc: Global, text: &str) -> Telegram {
    Telegram::of_bits(bits(rt, alloc, text)).expect(rt, "a telegram")
}

/// Whether these are the bits of a telegram's digits.
fn are_digits(rt: &impl Abort, shown: &Bits, text: &str) -> bool {
    *shown == bits(rt, shown.allocator(), text)
}

/// Whether the telegram shows these digits.
pub(crate) fn shows(rt: &impl Abort, telegram: &Telegram, text: &str) -> bool {
    are_digits(rt, telegram.bits(), text)
        & are_digits(rt, &telegram.shown().expect(rt, "memory"), text)
}

/// That the telegram shows these digits.
pub(crate) fn check_shown(rt: &impl Abort, telegram: &Telegram, text: &str) {
    assert!(rt; shows(rt, telegram, text));
}

/// A variable of a packet, a value, and why it isn't set.
type NotSet = (PacketTag, Var, u32, u32, TelegramFault);

const SECOND: PacketTag = PacketTag::Base(1);

const NOT_SET: [NotSet; 6] = [
    (
        PacketTag::Base(2),
        Var::LPacket,
        0,
        9000,
        TelegramFault::NoSuchPacket,
    ),
    (
        PacketTag::Fresh(1),
        Var::NidTsr,
        0,
        9,
        TelegramFault::NoSuchPacket,
    ),
    (SECOND, Var::NidC, 0, 9000, TelegramFault::NoSuchVariable),
    (SECOND, Var::NidTsr, 1, 9, TelegramFault::NoSuchVariable),
    (SECOND, Var::LPacket, 0, 9000, TelegramFault::Steering),
    (SECOND, Var::NidTsr, 0, 256, TelegramFault::ValueTooWide),
];

/// Whether a field isn't set, and nothing changes.
fn is_not_set(rt: &impl Abort, telegram: &mut Telegram, row: &NotSet) -> bool {
    (telegram.set_field(row.0, row.1, row.2, row.3) == Err(row.4))
        & shows(rt, telegram, TWO_PACKETS)
}

/// Whether the second packet's restriction is set, and these digits are shown then.
pub(crate) fn sets(
    rt: &impl Abort,
    telegram: &mut Telegram,
    value: u32,
    old: u32,
    text: &str,
) -> bool {
    (telegram.set_field(SECOND, Var::NidTsr, 0, value) == Ok(old)) & shows(rt, telegram, text)
}

/// The two packets, the second one with restriction 9.
pub(crate) const SET: &str = "a1007f80a03250900f82a1201f09ffffffffffffffffffffffffc0";

fn set_fields(rt: &impl Abort, telegram: &mut Telegram) -> bool {
    let mut same = true;
    for row in &NOT_SET {
        same &= is_not_set(rt, telegram, row);
    }
    same & sets(rt, telegram, 9, 7, SET) & sets(rt, telegram, 7, 9, TWO_PACKETS)
}

/// A variable of the header, a value, and why it isn't set.
type HeadNotSet = (Var, u32, TelegramFault);

const HEAD_NOT_SET: [HeadNotSet; 6] = [
    (Var::NidTsr, 256, TelegramFault::NoSuchVariable),
    (Var::NidBg, 20000, TelegramFault::Steering),
    (Var::MVersion, 32, TelegramFault::Steering),
    (Var::MDup, 4, TelegramFault::ValueTooWide),
    (Var::MMcount, 256, TelegramFault::ValueTooWide),
    (Var::QLink, 2, TelegramFault::ValueTooWide),
];

/// Whether a variable of the header isn't set, and nothing changes.
fn head_is_not_set(rt: &impl Abort, telegram: &mut Telegram, row: &HeadNotSet) -> bool {
    (telegram.set_head(row.0, row.1) == Err(row.2)) & shows(rt, telegram, TWO_PACKETS)
}

/// A variable of the header, a value, and the one before.
pub(crate) type HeadSet = (Var, u32, u32);

const HEAD_SET: [HeadSet; 3] = [
    (Var::MDup, 2, 0),
    (Var::MMcount, 7, 255),
    (Var::QLink, 0, 1),
];

/// Whether a variable of the header is set.
pub(crate) fn sets_head(telegram: &mut Telegram, row: &HeadSet) -> bool {
    (telegram.set_head(row.0, row.1) == Ok(row.2)) & (telegram.head(row.0) == Some(row.1))
}

/// The two packets under the header that was set.
const HEAD_IS_SET: &str = "a1010380a03210900f82a1201f07ffffffffffffffffffffffffc0";

fn set_heads(rt: &impl Abort, telegram: &mut Telegram) -> bool {
    let mut same = true;
    for row in &HEAD_NOT_SET {
        same &= head_is_not_set(rt, telegram, row);
    }
    for row in &HEAD_SET {
        same &= sets_head(telegram, row);
    }
    same & shows(rt, telegram, HEAD_IS_SET)
}

fn check_set(rt: &impl Abort, telegram: &mut Telegram) {
    assert!(rt; set_fields(rt, telegram));
    assert!(rt; set_heads(rt, telegram));
}

#[test]
fn sets_variables_of_packets_and_of_the_header(rt: HostRuntime) {
    for is_edited in &EDITED {
        check_set(&rt, &mut two_packets(&rt, rt.alloc(), *is_edited));
    }
}
