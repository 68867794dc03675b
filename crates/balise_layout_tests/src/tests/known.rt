//! Packets read, shown and listed.

use crate::tests::packets::{
    GRADIENTS, INFILL, INFILL_ABROAD, LEVELS, LINK, LINKS, OPAQUE, RESTRICTION, REVOCATION, SPEEDS,
    check_digits, check_fields, packet_of,
};
use balise_bits::Bits;
use balise_layout::{Id, Named, Packet, PacketRef, Var, may_have_elements};
use std::alloc::Global;
use std::process::Abort;

// A packet in digits, the versions of the telegrams that it stands in, its length, number and direction.
pub(crate) type Row = (&'static str, &'static [u32], usize, u32, u32);

pub(crate) const ROWS: [Row; 10] = [
    (LINKS, &[33], 118, 5, 1),
    (LINK, &[33], 69, 5, 1),
    (GRADIENTS, &[33], 78, 21, 1),
    (SPEEDS, &[16, 33], 125, 27, 1),
    (LEVELS, &[16, 33], 89, 41, 1),
    (RESTRICTION, &[16], 71, 65, 1),
    (REVOCATION, &[33], 31, 66, 1),
    (INFILL, &[33], 38, 136, 1),
    (INFILL_ABROAD, &[16], 48, 136, 1),
    (OPAQUE, &[33], 32, 44, 0),
];

// That the packet that stands alone in these bits is checked and found there.
fn check_bits(rt: &impl Abort, bits: &Bits, version: u32, row: &Row) {
    assert!(rt; Packet::check(bits, 0, version) == Ok(row.2));
}

fn check_packet(rt: &impl Abort, packet: &Packet, version: u32, row: &Row) {
    let shown = (packet.width(), packet.number(), packet.q_dir());
    assert!(rt; shown == (row.2, row.3, row.4));
    assert!(rt; packet.is_spelt(version));
}

fn check_read(rt: &impl Abort, bits: &Bits, version: u32, row: &Row) {
    let (packet, end) = Packet::read(bits, 0, version).expect(rt, "memory");
    assert!(rt; end == row.2);
    check_packet(rt, &packet, version, row);
    check_digits(rt, bits.allocator(), &packet, row.0)
}

fn check_row(rt: &impl Abort, alloc: Global, row: &Row) {
    let bits = Bits::digits(alloc, row.0).expect(rt, "memory");
    for version in row.1 {
        check_read(rt, &bits, *version, row);
        check_bits(rt, &bits, *version, row);
    }
}

#[test]
fn packets_are_read_and_written(rt: HostRuntime) {
    for row in &ROWS {
        check_row(&rt, rt.alloc(), row);
    }
}

fn check_copy(rt: &impl Abort, alloc: Global, packet: &Packet, digits: &str) {
    check_digits(rt, alloc, &packet.copy().expect(rt, "memory"), digits);
}

fn check_copies(rt: &impl Abort, alloc: Global, digits: &str, versions: &[u32]) {
    for version in versions {
        check_copy(rt, alloc, &packet_of(rt, alloc, digits, *version), digits);
    }
}

#[test]
fn packets_are_copied(rt: HostRuntime) {
    for row in &ROWS {
        check_copies(&rt, rt.alloc(), row.0, row.1);
    }
}

#[test]
fn packets_5_and_136_may_have_elements(rt: HostRuntime) {
    for number in 0..256 {
        assert!(&rt; may_have_elements(number) == ((number == 5) | (number == 136)));
    }
    assert!(&rt; !may_have_elements(5 + 256) & !may_have_elements(u32::MAX));
}

// That packet 66 is read from bit 50 on.
fn check_standing(rt: &impl Abort, bits: &Bits) {
    let (packet, end) = Packet::read(bits, 50, 33).expect(rt, "memory");
    assert!(rt; end == 81);
    check_digits(rt, bits.allocator(), &packet, REVOCATION)
}

#[test]
fn a_packet_is_read_where_it_stands(rt: HostRuntime) {
    // A header, packet 66 from bit 50 on, and packet 255.
    let bits = Bits::digits(rt.alloc(), "a1007f80a03250900f82ff");
    check_standing(&rt, &bits.expect(&rt, "memory"));
}

// A variable, its occurrence and its value.
type Field = (Var, u32, u32);

// The fields of a packet, in parts.
type Parts = &'static [&'static [Field]];

const LINKS_FIELDS: Parts = &[&[
    (Var::NidPacket, 0, 5),
    (Var::QDir, 0, 1),
    (Var::LPacket, 0, 118),
    (Var::QScale, 0, 1),
    (Var::DLink, 0, 300),
    (Var::QNewcountry, 0, 1),
    (Var::NidC, 0, 6),
    (Var::NidBg, 0, 100),
    (Var::QLinkorientation, 0, 0),
    (Var::QLinkreaction, 0, 2),
    (Var::QLocacc, 0, 12),
    (Var::NIter, 0, 1),
    (Var::DLink, 1, 400),
    (Var::QNewcountry, 1, 0),
    (Var::NidBg, 1, 100),
    (Var::QLinkorientation, 1, 1),
    (Var::QLinkreaction, 1, 2),
    (Var::QLocacc, 1, 12),
]];

// What version 1.0 reads of the speeds.
const SPEEDS_KEPT: &[Field] = &[
    (Var::NidPacket, 0, 27),
    (Var::QDir, 0, 1),
    (Var::LPacket, 0, 125),
];

const SPEEDS_FIELDS: Parts = &[
    SPEEDS_KEPT,
    &[
        (Var::QScale, 0, 1),
        (Var::DStatic, 0, 0),
        (Var::VStatic, 0, 20),
        (Var::QFront, 0, 0),
        (Var::NIter, 0, 2),
        (Var::QDiff, 0, 0),
        (Var::NcCddiff, 0, 3),
        (Var::VDiff, 0, 22),
        (Var::QDiff, 1, 1),
        (Var::NcDiff, 0, 2),
        (Var::VDiff, 1, 18),
        (Var::NIter, 1, 1),
        (Var::DStatic, 1, 1000),
        (Var::VStatic, 1, 24),
        (Var::QFront, 1, 1),
        (Var::NIter, 2, 1),
        (Var::QDiff, 2, 2),
        (Var::NcDiff, 1, 0),
        (Var::VDiff, 2, 30),
    ],
];

// A packet in digits, the version of its telegram, and its fields.
const LISTED: [(&str, u32, Parts); 3] = [
    (LINKS, 33, LINKS_FIELDS),
    (SPEEDS, 33, SPEEDS_FIELDS),
    (SPEEDS, 16, &[SPEEDS_KEPT]),
];

fn joined(rt: &impl Abort, alloc: Global, parts: &[&[Field]]) -> Vec<Field> {
    let mut fields = Vec::new(alloc);
    for part in parts {
        fields.extend_from_slice(part).expect(rt, "memory");
    }
    fields
}

#[test]
fn fields_are_listed(rt: HostRuntime) {
    for (digits, version, parts) in &LISTED {
        let packet = packet_of(&rt, rt.alloc(), digits, *version);
        check_fields(&rt, &packet, joined(&rt, rt.alloc(), parts).as_slice());
    }
}

fn check_links(rt: &impl Abort, packet: &Packet, expected: &[Id]) {
    let links = packet.links(5).expect(rt, "memory");
    assert!(rt; links.as_slice() == expected);
}

const SIX: Id = Id {
    country: 6,
    number: 100,
};

const FIVE: Id = Id {
    country: 5,
    number: 100,
};

// An element that names nothing.
const NONE: Id = Id {
    country: 6,
    number: 16383,
};

#[test]
fn links_are_listed(rt: HostRuntime) {
    let mut packet = packet_of(&rt, rt.alloc(), LINKS, 33);
    check_links(&rt, &packet, &[SIX, SIX]);
    packet.name_link(0, 16383);
    check_links(&rt, &packet, &[NONE, SIX])
}

// A packet in digits, the version of its telegram, and what its elements name in country 5.
type NamedRow = (&'static str, u32, &'static [Id]);

const NAMED: [NamedRow; 6] = [
    (LINKS, 33, &[SIX, SIX]),
    (LINK, 16, &[FIVE]),
    (INFILL, 33, &[FIVE]),
    (INFILL_ABROAD, 33, &[SIX]),
    (SPEEDS, 33, &[]),
    (OPAQUE, 33, &[]),
];

// Whether what was seen of a packet is what it names.
pub(crate) fn is_named(named: &Named, links: &[Id]) -> bool {
    match named {
        Named::Nothing => links.is_empty(),
        Named::Few(few) => !links.is_empty() & (few.as_slice() == links),
        Named::Many => links.len() > 4,
    }
}

// That the check of the packet at a place ends there, and sees what it names.
fn check_seen(rt: &impl Abort, bits: &Bits, at: usize, end: usize, row: &NamedRow) {
    let (checked, named) = Packet::check_named(bits, at, row.1, 5).expect(rt, "a packet");
    assert!(rt; (checked == end) & is_named(&named, row.2));
}

// That the elements of the packet at a place are listed there.
fn check_links_in(rt: &impl Abort, bits: &Bits, at: usize, row: &NamedRow) {
    let (packet, end) = Packet::read(bits, at, row.1).expect(rt, "a packet");
    check_links(rt, &packet, row.2);
    check_seen(rt, bits, at, end, row);
    let links = PacketRef::new(bits, at, row.1).links(5);
    assert!(rt; links.expect(rt, "memory").as_slice() == row.2);
    let lent = PacketRef::new(bits, at, row.1);
    assert!(rt; lent.elements(5).as_slice() == row.2);
    let few = lent.few_elements(5).expect(rt, "few elements");
    assert!(rt; few.as_slice() == row.2);
    assert!(rt; lent.has_elements() == (row.2.len() > 0));
}

fn check_named(rt: &impl Abort, packet: &Packet, alloc: Global, row: &NamedRow) {
    let mut bits = Bits::new(alloc);
    bits.push_zeros(50).expect(rt, "memory");
    packet.write(&mut bits).expect(rt, "memory");
    check_links_in(rt, &bits, 50, row);
}

#[test]
fn links_are_listed_where_a_packet_stands(rt: HostRuntime) {
    let alloc = rt.alloc();
    for row in &NAMED {
        check_named(&rt, &packet_of(&rt, alloc, row.0, row.1), alloc, row);
    }
}

#[test]
fn links_have_the_telegrams_country(rt: HostRuntime) {
    check_links(&rt, &packet_of(&rt, rt.alloc(), LINK, 33), &[FIVE]);
    check_links(&rt, &packet_of(&rt, rt.alloc(), SPEEDS, 33), &[])
}

fn change_infill(rt: &impl Abort, alloc: Global, packet: &mut Packet) {
    check_links(rt, packet, &[FIVE]);
    packet.flip_link(0);
    check_digits(rt, alloc, packet, INFILL);
    packet.name_link(0, 150);
    packet.flip_dir();
    check_digits(rt, alloc, packet, "88004c0258");
}

fn change_infill_abroad(rt: &impl Abort, alloc: Global, packet: &mut Packet) {
    check_links(rt, packet, &[SIX]);
    packet.name_link(0, 16383);
    packet.name_link(1, 5);
    check_links(rt, packet, &[NONE]);
    check_digits(rt, alloc, packet, "88406101bfff")
}

#[test]
fn an_infill_location_names_one_group(rt: HostRuntime) {
    let alloc = rt.alloc();
    change_infill(&rt, alloc, &mut packet_of(&rt, alloc, INFILL, 33));
    let mut abroad = packet_of(&rt, alloc, INFILL_ABROAD, 33);
    change_infill_abroad(&rt, alloc, &mut abroad);
}

// A version, and whether it knows packet 27.
const SPELT: [(u32, bool); 5] = [
    (16, false),
    (31, false),
    (32, true),
    (47, true),
    (48, false),
];

fn check_spelt(rt: &impl Abort, packet: &Packet, is_known: bool) {
    for (version, known) in &SPELT {
        assert!(rt; packet.is_spelt(*version) == (*known == is_known));
    }
}

#[test]
fn versions_spell_what_they_know(rt: HostRuntime) {
    check_spelt(&rt, &packet_of(&rt, rt.alloc(), SPEEDS, 33), true);
    check_spelt(&rt, &packet_of(&rt, rt.alloc(), SPEEDS, 16), false);
}
