//! The longest packets of a long telegram: read, with all their fields and elements.

use crate::tests::lent::check_lent;
use crate::tests::packets::{check_digits, check_hex, packet_of};
use balise_bits::Bits;
use balise_layout::{Id, Packet, Var};
use std::alloc::Global;
use std::process::Abort;

// A packet 27 of two sections with 31 and 21 differences, the most that a long telegram holds: 762 bits.
const MOST_DIFFERENCES: &str =
    "1b45f4800040f800d71d71915238be374545468516cfccb71b42083db3512525820ee78c75156e599c3e4d05848106df4d33135e291eba415d0ffffffab3a20e6386788ca70c4e9b2a9e83218a77de1b4bbd240e59248ed2a0066bbeba48b500";

// A variable, how often it stands in the packet, and some of its occurrences with their values: the first, the last,
// and those at the border of the sections.
type Values = (Var, u32, &'static [(u32, u32)]);

const DIFFERENCES: [Values; 8] = [
    (Var::LPacket, 1, &[(0, 762)]),
    (Var::NIter, 3, &[(0, 31), (1, 1), (2, 21)]),
    (Var::DStatic, 2, &[(1, 32767)]),
    (Var::VStatic, 2, &[(1, 127)]),
    (Var::QDiff, 52, &[(51, 0)]),
    (Var::NcCddiff, 18, &[(17, 5)]),
    (Var::NcDiff, 34, &[(33, 14)]),
    (Var::VDiff, 52, &[(0, 3), (30, 93), (31, 104), (51, 84)]),
];

// A packet 5 of 18 elements, four with a country, which fills a long telegram: 772 bits.
const FULL_LINKS: &str =
    "0546088007000200883ef070b450faf018709450bbfffe546c3c7d3bfff2a138f0001992eee54643c6d7cc4ed8cfa39c2154232f800fd2cb538ba329392aff4d5bb75dcea8c478cb3d6dad05b5bb139433a9f697b0b7d0ee104a109befff78b950";

// The countries and numbers that the elements name in a telegram of country 5.
const NAMED: [(u32, u32); 18] = [
    (5, 1),
    (5, 901),
    (6, 1801),
    (1023, 2701),
    (1023, 16383),
    (1023, 0),
    (1023, 5401),
    (1023, 6301),
    (1023, 7201),
    (0, 8101),
    (0, 9001),
    (0, 9901),
    (0, 10801),
    (0, 11701),
    (0, 12601),
    (0, 13501),
    (0, 14401),
    (511, 15301),
];

// That the packet has these numbers of bits and fields, and that the fields' values one after another are its digits.
fn check_spelling(
    rt: &impl Abort,
    alloc: Global,
    packet: &Packet,
    digits: &str,
    width: usize,
    count: usize,
) {
    assert!(rt; packet.width() == width);
    check_digits(rt, alloc, packet, digits);
    let fields = packet.fields().expect(rt, "memory");
    assert!(rt; fields.len() == count);
    check_values(rt, alloc, packet, fields.as_slice(), digits);
}

// That the packet has these fields, whose values one after another are its digits.
fn check_values(
    rt: &impl Abort,
    alloc: Global,
    packet: &Packet,
    fields: &[(Var, u32, u32)],
    digits: &str,
) {
    let mut bits = Bits::new(alloc);
    for (var, occurrence, value) in fields.iter() {
        assert!(rt; packet.field(*var, *occurrence) == Some(*value));
        push(rt, &mut bits, *var, *value);
    }
    check_hex(rt, &bits, digits);
}

fn push(rt: &impl Abort, bits: &mut Bits, var: Var, value: u32) {
    assert!(rt; value >> var.width() == 0);
    bits.push(var.width(), value).expect(rt, "memory");
}

fn check_values_of(rt: &impl Abort, packet: &Packet, row: &Values) {
    let (var, count, values) = *row;
    for (occurrence, value) in values.iter() {
        assert!(rt; packet.field(var, *occurrence) == Some(*value));
    }
    assert!(rt; packet.field(var, count).is_none());
}

fn check_differences(rt: &impl Abort, packet: &Packet) {
    for row in &DIFFERENCES {
        check_values_of(rt, packet, row);
    }
}

#[test]
fn a_packet_27_of_52_differences_is_read(rt: HostRuntime) {
    let packet = packet_of(&rt, rt.alloc(), MOST_DIFFERENCES, 33);
    check_spelling(&rt, rt.alloc(), &packet, MOST_DIFFERENCES, 762, 169);
    check_differences(&rt, &packet);
}

fn check_named(rt: &impl Abort, links: &[Id]) {
    assert!(rt; links.len() == NAMED.len());
    for (id, (country, number)) in links.iter().zip(NAMED.iter()) {
        assert!(rt; id.country == *country && id.number == *number);
    }
}

#[test]
fn a_packet_5_of_18_elements_is_read(rt: HostRuntime) {
    let packet = packet_of(&rt, rt.alloc(), FULL_LINKS, 33);
    check_spelling(&rt, rt.alloc(), &packet, FULL_LINKS, 772, 117);
    check_named(&rt, packet.links(5).expect(&rt, "memory").as_slice());
}

// A packet 5 of 19 elements without a country, the most that a long telegram holds: 771 bits. Element k names 100 k + 1.
const MOST_ELEMENTS: &str =
    "05460600640002009006500cb4100cc032504019c096f0c034019102006903eb4500d409650c01ac15ef1c036032104006d070b4900dc0fa51401bc226f2c03804b10600710a2b4d00e415e51c01cc2eef3c03a06410800750d4b5100ec1c25240";

fn check_most(rt: &impl Abort, links: &[Id]) {
    assert!(rt; links.len() == 19);
    for (k, id) in links.iter().enumerate() {
        assert!(rt; id.country == 5 && id.number == 100 * k as u32 + 1);
    }
}

#[test]
fn a_packet_5_of_19_elements_is_read(rt: HostRuntime) {
    let packet = packet_of(&rt, rt.alloc(), MOST_ELEMENTS, 33);
    check_spelling(&rt, rt.alloc(), &packet, MOST_ELEMENTS, 771, 119);
    check_most(&rt, packet.links(5).expect(&rt, "memory").as_slice());
}

fn check_standing(rt: &impl Abort, alloc: Global, digits: &str) {
    let bits = Bits::digits(alloc, digits).expect(rt, "memory");
    check_lent(rt, &bits, 0, 33, digits);
}

#[test]
fn the_longest_packets_of_telegrams_are_lent(rt: HostRuntime) {
    for digits in &[MOST_DIFFERENCES, FULL_LINKS, MOST_ELEMENTS] {
        check_standing(&rt, rt.alloc(), digits);
    }
}
