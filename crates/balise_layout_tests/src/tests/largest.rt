//! The largest packets that there are, longer than any telegram: a packet 5 of 32 elements, and the most fields.

ghost use Rattle.std.specs.Prelude.{◌<◌};

use crate::tests::known::is_named;
use crate::tests::lent::check_lent;
use balise_bits::Bits;
use balise_layout::{Elements, Id, MOST_ELEMENTS, Packet, Var};
use std::alloc::Global;
use std::process::Abort;

fn push(rt: &impl Abort, bits: &mut Bits, fields: &[(Var, u32)]) {
    for (var, value) in fields.iter() {
        assert!(rt; *value >> var.width() == 0);
        bits.push(var.width(), *value).expect(rt, "memory");
    }
}

fn push_front(rt: &impl Abort, bits: &mut Bits, number: u32, width: u32) {
    push(
        rt,
        bits,
        &[
            (Var::NidPacket, number),
            (Var::QDir, 1),
            (Var::LPacket, width),
            (Var::QScale, 1),
        ],
    );
}

// Element k names 500 k + 1.
fn push_element(rt: &impl Abort, bits: &mut Bits, k: u32)
    requires { k < 32 }
{
    push(
        rt,
        bits,
        &[
            (Var::DLink, 1000 * k),
            (Var::QNewcountry, 0),
            (Var::NidBg, 500 * k + 1),
            (Var::QLinkorientation, k % 2),
            (Var::QLinkreaction, k % 3),
            (Var::QLocacc, k),
        ],
    );
}

// A packet 5 of `count` elements: 1 to 32.
fn linking(rt: &impl Abort, alloc: Global, count: u32) -> Bits {
    assert!(rt; (1 <= count) & (count <= 32));
    let mut bits = Bits::new(alloc);
    push_front(rt, &mut bits, 5, 30 + 39 * count);
    push_element(rt, &mut bits, 0);
    push(rt, &mut bits, &[(Var::NIter, count - 1)]);
    for k in 1..count {
        push_element(rt, &mut bits, k);
    }
    bits
}

fn check_named(rt: &impl Abort, links: &[Id]) {
    assert!(rt; links.len() == 32);
    for (k, id) in links.iter().enumerate() {
        assert!(rt; id.country == 7 && id.number == 500 * k as u32 + 1);
    }
}

fn check_all_named(rt: &impl Abort, packet: &Packet) {
    check_named(rt, packet.links(7).expect(rt, "memory").as_slice());
    check_named(rt, packet.lend().links(7).expect(rt, "memory").as_slice());
    check_elements(rt, &packet.elements(7));
    check_elements(rt, &packet.lend().elements(7));
}

// That all are held in place, one by one too.
fn check_elements(rt: &impl Abort, elements: &Elements) {
    check_named(rt, elements.as_slice());
    assert!(rt; elements.len() == MOST_ELEMENTS);
    assert!(rt;
        elements.get(0).is_some() & elements.get(31).is_some() & elements.get(32).is_none()
    );
    let last = elements.get(31);
    assert!(rt; last.map(|id| id.number) == Some(15501));
}

// That the packet is read with `count` fields, and lent with the same.
fn check_count(rt: &impl Abort, packet: &Packet, count: usize) {
    assert!(rt; packet.fields().expect(rt, "memory").len() == count);
    assert!(rt; packet.lend().fields().expect(rt, "memory").len() == count);
}

fn read(rt: &impl Abort, bits: &Bits) -> Packet {
    let (packet, end) = Packet::read(bits, 0, 33).expect(rt, "a packet");
    assert!(rt; end == bits.len());
    packet
}

fn check_large(rt: &impl Abort, bits: &Bits, count: usize) {
    check_count(rt, &read(rt, bits), count);
    let digits = bits.to_hex().expect(rt, "memory");
    check_lent(rt, bits, 0, 33, digits.as_str());
}

// That the elements are few where they are at most four, and then are these.
fn check_few(rt: &impl Abort, packet: &Packet, count: usize) {
    let elements = packet.elements(7);
    assert!(rt; elements.len() == count);
    match packet.lend().few_elements(7) {
        Some(few) => assert!(rt; (count <= 4) & (few.as_slice() == elements.as_slice())),
        None => assert!(rt; count > 4),
    }
}

// That what is seen of the packet, while it is checked, is what it names.
fn check_seen(rt: &impl Abort, bits: &Bits, links: &[Id]) {
    let (_, named) = Packet::check_named(bits, 0, 33, 7).expect(rt, "a packet");
    assert!(rt; is_named(&named, links));
}

#[test]
fn up_to_four_elements_are_few(rt: HostRuntime) {
    for count in &[1_u32, 3, 4, 5, 6, 32] {
        let bits = linking(&rt, rt.alloc(), *count);
        let packet = read(&rt, &bits);
        check_few(&rt, &packet, *count as usize);
        check_seen(&rt, &bits, packet.elements(7).as_slice());
    }
}

#[test]
fn a_packet_5_of_32_elements_is_read(rt: HostRuntime) {
    let bits = linking(&rt, rt.alloc(), 32);
    check_all_named(&rt, &read(&rt, &bits));
    check_large(&rt, &bits, 197);
}

// A section with this number of differences.
fn push_section(rt: &impl Abort, bits: &mut Bits, differences: u32) {
    push(
        rt,
        bits,
        &[
            (Var::DStatic, 900),
            (Var::VStatic, 24),
            (Var::QFront, 0),
            (Var::NIter, differences),
        ],
    );
    for k in 0..differences {
        push(
            rt,
            bits,
            &[(Var::QDiff, 1), (Var::NcDiff, k % 16), (Var::VDiff, k)],
        );
    }
}

// A packet 27 of 19 sections, all but the last with 31 differences: 8180 of the 8191 bits that L_PACKET can say.
fn speeds(rt: &impl Abort, alloc: Global) -> Bits {
    let mut bits = Bits::new(alloc);
    push_front(rt, &mut bits, 27, 8180);
    push_section(rt, &mut bits, 31);
    push(rt, &mut bits, &[(Var::NIter, 18)]);
    for _ in 0..17 {
        push_section(rt, &mut bits, 31);
    }
    push_section(rt, &mut bits, 28);
    bits
}

#[test]
fn a_packet_27_of_1839_fields_is_read(rt: HostRuntime) {
    check_large(&rt, &speeds(&rt, rt.alloc()), 1839);
}
