//! Telegrams with packets of each kind.

use crate::tests::changes::{LINKING, NAMED};
use crate::tests::full::{FULL, LONG, SHORT, holds};
use crate::tests::telegrams::telegram_of;
use balise_telegram::{Bits, Id, PacketTag, Telegram, TelegramNames};
use std::alloc::Global;
use std::process::Abort;

/// A packet of each kind, 5 and 136 with and without a country, an unknown one, and coloured padding.
pub(crate) const EACH_KIND: &str =
    "a1007f80a03241503b204b20300c88c0819000c98c05408a81f400c98c00aa04e4000414204b1fe3681f500005020cb244820fa0c4301e2940b2806421200c82000a20a047414064012c0842403e0b10809803244203080c032160020d2ffad2d2d2d2d2d2d2d2d0";

/// The packets of `EACH_KIND` and another one of 73 bits, so that no bit is left.
const EACH_KIND_FILLED: &str =
    "a1007f80a03241503b204b20300c88c0819000c98c05408a81f400c98c00aa04e4000414204b1fe3681f500005020cb244820fa0c4301e2940b2806421200c82000a20a047414064012c0842403e0b10809803244203080c032160020d2962049b5ad6b5ad6b5bfc";

pub(crate) const TELEGRAMS: [&str; 9] = [
    EACH_KIND,
    // `EACH_KIND` in version 1.0, in which 27 and 41 are not known.
    "90007f80a03241503b204b20300c88c0819000c98c05408a81f400c98c00aa04e4000414204b1fe3681f500005020cb244820fa0c4301e2940b2806421200c82000a20a047414064012c0842403e0b10809803244203080c032160020d2ffad2d2d2d2d2d2d2d2d0",
    EACH_KIND_FILLED,
    ELEMENTS,
    // A packet 27 of 52 differences.
    "a1007f80a03246d17d2000103e0035c75c64548e2f8dd15151a145b3f32dc6d0820f6cd449496083b9e31d455b96670f9341612041b7d34cc4d78a47ae905743fffffeace88398e19e2329c313a6caa7a0c8629df786d2ef4903964923b4a8019aefae922d4ffffc",
    FULL,
    LONG,
    SHORT,
    // One packet 66, and coloured padding.
    "a1007f80a03250900f82ffda5a5a5a5a5a5a5a5a5a5a5a5a5a5a40",
];

/// What the elements of another country name.
const OTHER: Id = Id {
    country: 6,
    number: 100,
};

/// NID_PACKET, Q_DIR and the width of a packet, and what its elements name.
pub(crate) type Kept = (u32, u32, usize, &'static [Id]);

/// The packets of the first telegram.
pub(crate) const PACKETS: [Kept; 10] = [
    (5, 1, 118, &[OTHER, OTHER]),
    (5, 1, 69, &[NAMED]),
    (21, 1, 78, &[]),
    (27, 1, 125, &[]),
    (41, 1, 89, &[]),
    (65, 1, 71, &[]),
    (66, 1, 31, &[]),
    (136, 1, 38, &[NAMED]),
    (136, 1, 48, &[OTHER]),
    (44, 0, 32, &[]),
];

/// Whether each of the ten packets has the elements of its row.
fn have_elements(telegram: &Telegram) -> bool {
    let country = telegram.identity().country;
    let mut same = true;
    for (tag, packet) in telegram.packets() {
        let PacketTag::Base(place) = tag else {
            return false;
        };
        let Some(row) = PACKETS.get(place as usize) else {
            return false;
        };
        same &= packet.has_elements() == !row.3.is_empty();
        same &= packet.elements(country).as_slice() == row.3;
    }
    same
}

/// The places of those that have elements.
const PLACES: [u32; 4] = [0, 1, 7, 8];

/// Whether these are the packets that are gone to, and then none.
fn goes_to_linking(telegram: &Telegram) -> bool {
    let mut packets = telegram.packets();
    let mut same = true;
    for place in &PLACES {
        same &= match packets.next_linking() {
            Some((tag, packet)) => (tag == PacketTag::Base(*place)) & packet.has_elements(),
            None => false,
        };
    }
    same & packets.next_linking().is_none()
}

/// Moves the last of ten packets there and back.
fn edit_last(rt: &impl Abort, telegram: &mut Telegram) {
    assert!(rt; telegram.shift_after(PacketTag::Base(9), None) == Ok(None));
    assert!(rt; telegram.shift_before(PacketTag::Base(9), None) == Ok(Some(PacketTag::Base(0))));
}

fn check_elements(rt: &impl Abort, telegram: &mut Telegram) {
    assert!(rt; have_elements(telegram) & goes_to_linking(telegram));
    edit_last(rt, telegram);
    assert!(rt; have_elements(telegram) & goes_to_linking(telegram));
}

#[test]
fn names_the_packets_that_have_elements(rt: HostRuntime) {
    check_elements(&rt, &mut telegram_of(&rt, rt.alloc(), EACH_KIND));
}

/// Whether what was seen of a telegram is what its packets name.
fn is_seen(telegram: &Telegram, names: &TelegramNames) -> bool {
    let mut packets = telegram.packets();
    let Some((tag, packet)) = packets.next_linking() else {
        return matches!(names, TelegramNames::Nothing);
    };
    let elements = packet.elements(telegram.identity().country);
    let alone = packets.next_linking().is_none();
    match names {
        TelegramNames::Nothing => false,
        TelegramNames::One(place, few) => {
            alone & (tag == PacketTag::Base(*place)) & (few.as_slice() == elements.as_slice())
        }
        TelegramNames::Many => !alone | (elements.len() > 4),
    }
}

/// That telegrams are read as `of_bits` reads them, and what they name is seen.
fn check_seen(rt: &impl Abort, bits: Bits, digits: &str) {
    let (telegram, names) = Telegram::named(bits).expect(rt, "a telegram");
    assert!(rt; is_seen(&telegram, &names));
    let shown = telegram.bits().to_hex().expect(rt, "memory");
    assert!(rt; shown.as_str() == digits);
}

/// Telegrams of one packet 5, of one element and of two, and one that names nothing.
const SHORT_ONES: [&str; 3] = [
    LINKING,
    "a1007f80a03341503b204b20300c88c0819000c98cffffffffffc0",
    SHORT,
];

#[test]
fn what_telegrams_name_is_seen(rt: HostRuntime) {
    let alloc = rt.alloc();
    for digits in TELEGRAMS.iter().chain(SHORT_ONES.iter()) {
        let due = if digits.len() == 54 { 210 } else { 830 };
        let bits = Bits::from_hex(alloc, digits, due).expect(&rt, "memory");
        check_seen(&rt, bits, digits);
    }
}

/// A packet 5 of 18 elements, so that no bit is left.
const ELEMENTS: &str =
    "a1007f80a0324151822001c00080220fbc1c2d143ebc061c25142effff951b0f1f4efffca84e3c000664bbb95190f1b5f313b633e8e7085508cbe003f4b2d4e2e8ca4e4abfd356edd773aa311e32cf5b6b416d6ec4e50cea7da5ec2df43b84128426fbffde2e57fc";

/// The digits of a telegram, and what it holds: its numbers of packets, of bits used, of bits left and of all bits.
type Row = (&'static str, usize, usize, usize, usize);

const HELD: [Row; 5] = [
    (EACH_KIND_FILLED, 11, 830, 0, 830),
    (ELEMENTS, 1, 830, 0, 830),
    (FULL, 33, 817, 13, 830),
    (LONG, 0, 58, 772, 830),
    (SHORT, 0, 58, 152, 210),
];

fn check_held(rt: &impl Abort, telegram: &Telegram, row: &Row) {
    assert!(rt; holds(telegram, row.1, row.2, row.3, row.4));
}

fn check_each_held(rt: &impl Abort, alloc: Global) {
    for row in &HELD {
        check_held(rt, &telegram_of(rt, alloc, row.0), row);
    }
}

#[test]
fn the_fullest_have_no_room(rt: HostRuntime) {
    check_each_held(&rt, rt.alloc());
}
