//! Packets that are lent: what they answer where they stand is what the packets answer.

use crate::tests::known::ROWS;
use crate::tests::packets::{check_digits, packet_of};
use balise_bits::Bits;
use balise_layout::{Packet, PacketRef, Var};
use std::alloc::Global;
use std::process::Abort;

// What stands before a packet, and after it.
const PLACES: [(usize, usize); 6] = [(0, 0), (0, 9), (1, 0), (7, 3), (50, 8), (803, 0)];

fn check_front(rt: &impl Abort, packet: &Packet, lent: &PacketRef<'_>) {
    assert!(rt; lent.kind() == packet.kind());
    assert!(rt; lent.number() == packet.number());
    assert!(rt; lent.q_dir() == packet.q_dir());
    assert!(rt; lent.width() == packet.width());
    for version in 0..64 {
        assert!(rt; lent.is_spelt(version) == packet.is_spelt(version));
    }
}

// That each field is found, after those before it, and one more of its variable isn't.
fn check_found(rt: &impl Abort, packet: &Packet, lent: &PacketRef<'_>, fields: &[(Var, u32, u32)]) {
    let mut place = 0usize;
    for (var, k, value) in fields.iter() {
        assert!(rt; packet.field(*var, *k) == Some(*value));
        assert!(rt; lent.field(*var, *k) == Some(*value));
        assert!(rt; lent.place_of(*var, *k) == Some(place));
        place = place.saturating_add(var.width() as usize);
    }
    assert!(rt; lent.field(Var::LPacket, 1).is_none() && lent.place_of(Var::QDir, 1).is_none());
}

fn check_fields(rt: &impl Abort, packet: &Packet, lent: &PacketRef<'_>) {
    let fields = packet.fields().expect(rt, "memory");
    let same = lent.fields().expect(rt, "memory");
    assert!(rt; same.as_slice() == fields.as_slice());
    check_found(rt, packet, lent, fields.as_slice())
}

fn check_links(rt: &impl Abort, packet: &Packet, lent: &PacketRef<'_>) {
    let links = packet.links(5).expect(rt, "memory");
    assert!(rt; lent.links(5).expect(rt, "memory").as_slice() == links.as_slice());
}

// That the packet cut out of the bits is the packet.
fn check_cut(rt: &impl Abort, alloc: Global, lent: &PacketRef<'_>, digits: &str) {
    check_digits(rt, alloc, &lent.to_packet().expect(rt, "memory"), digits);
}

// That what is lent answers what the packet does.
pub(crate) fn check_alike(rt: &impl Abort, packet: &Packet, lent: &PacketRef<'_>) {
    check_front(rt, packet, lent);
    check_fields(rt, packet, lent);
    check_links(rt, packet, lent);
}

// That the packet at a place of bits answers as the packet read there. Cut out of the bits, or out of that packet, it
// has the digits.
pub(crate) fn check_lent(rt: &impl Abort, bits: &Bits, at: usize, version: u32, digits: &str) {
    let (packet, _) = Packet::read(bits, at, version).expect(rt, "a packet");
    check_cut(rt, bits.allocator(), &packet.lend(), digits);
    let lent = PacketRef::new(bits, at, version);
    check_alike(rt, &packet, &lent);
    check_cut(rt, bits.allocator(), &lent, digits);
    let Some(left) = bits.len().checked_sub(at) else {
        panic!(rt; "a place after the bits");
    };
    assert!(rt; left >= 23);
    check_alike(
        rt,
        &packet,
        &PacketRef::of_head(bits, at, version, bits.number(at, 23)),
    );
}

// The packet with other bits before it and after it.
fn placed(rt: &impl Abort, packet: &Packet, alloc: Global, place: (usize, usize)) -> Bits {
    let mut bits = Bits::new(alloc);
    bits.push_zeros(place.0).expect(rt, "memory");
    packet.write(&mut bits).expect(rt, "memory");
    bits.push_zeros(place.1).expect(rt, "memory");
    bits
}

fn check_places(rt: &impl Abort, alloc: Global, digits: &str, version: u32) {
    let packet = packet_of(rt, alloc, digits, version);
    for place in &PLACES {
        let bits = placed(rt, &packet, alloc, *place);
        check_lent(rt, &bits, place.0, version, digits);
    }
}

#[test]
fn packets_are_lent_where_they_stand(rt: HostRuntime) {
    for row in &ROWS {
        for version in row.1 {
            check_places(&rt, rt.alloc(), row.0, *version);
        }
    }
}
