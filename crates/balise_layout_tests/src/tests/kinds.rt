//! What kind of packet each is, and the laws at a packet of each layout.

use crate::tests::packets::{
    GRADIENTS, INFILL, LEVELS, LINKS, OPAQUE, RESTRICTION, REVOCATION, SPEEDS, check_digits,
    packet_of,
};
use balise_bits::Bits;
use balise_layout::laws::{
    as_long_as_said, is_steady, one_spelling, reads_what_is_spelt, setting_keeps, spells_once,
    spelt_where_known, written_is_read,
};
use balise_layout::{
    GradientProfile, InfillLocation, Layout, LevelTransition, Linking, Opaque, Packet, PacketKind,
    Revocation, SpeedProfile, SpeedRestriction, Var, is_known,
};
use std::alloc::Global;
use std::process::Abort;

// A packet in digits, the version of its telegram, and its kind.
type Row = (&'static str, u32, PacketKind);

const ROWS: [Row; 10] = [
    (LINKS, 33, PacketKind::Linking),
    (GRADIENTS, 33, PacketKind::GradientProfile),
    (SPEEDS, 33, PacketKind::SpeedProfile),
    (SPEEDS, 16, PacketKind::Opaque),
    (LEVELS, 33, PacketKind::LevelTransition),
    (LEVELS, 16, PacketKind::Opaque),
    (RESTRICTION, 16, PacketKind::SpeedRestriction),
    (REVOCATION, 33, PacketKind::Revocation),
    (INFILL, 16, PacketKind::InfillLocation),
    (OPAQUE, 33, PacketKind::Opaque),
];

fn check_kind(rt: &impl Abort, packet: &Packet, version: u32, kind: PacketKind) {
    assert!(rt; packet.kind() == kind);
    assert!(rt; PacketKind::of(version, packet.number()) == kind);
    assert!(rt; kind.is_known() == (kind != PacketKind::Opaque));
}

#[test]
fn packets_are_of_their_kinds(rt: HostRuntime) {
    for (digits, version, kind) in &ROWS {
        let packet = packet_of(&rt, rt.alloc(), digits, *version);
        check_kind(&rt, &packet, *version, *kind);
    }
}

// A version, the numbers of packets that it knows, and others.
const KNOWN: &[(u32, &[u32], &[u32])] = &[
    (16, &[5, 21, 65, 66, 136], &[27]),
    (31, &[], &[41]),
    (32, &[27], &[]),
    (33, &[], &[44, 255]),
    (47, &[41], &[]),
    (48, &[], &[27]),
];

fn check_known(rt: &impl Abort, version: u32, numbers: &[u32], known: bool) {
    for number in numbers {
        assert!(rt; is_known(version, *number) == known);
    }
}

#[test]
fn versions_know_their_packets(rt: HostRuntime) {
    for (version, known, others) in KNOWN.iter() {
        check_known(&rt, *version, *known, true);
        check_known(&rt, *version, *others, false);
    }
}

// What the laws state about this packet: read again with other bits after it, it is the same, of the length in
// L_PACKET and well-formed, whatever Q_DIR is.
fn check_again(rt: &impl Abort, alloc: Global, packet: &mut Packet, version: u32) {
    for dir in 0..4 {
        packet.set_field(Var::QDir, 0, dir).expect(rt, "memory");
        assert!(rt; packet.is_spelt(version));
        check_written(rt, alloc, packet, version);
    }
}

fn check_written(rt: &impl Abort, alloc: Global, packet: &Packet, version: u32) {
    let mut bits = Bits::new(alloc);
    packet.write(&mut bits).expect(rt, "memory");
    assert!(rt; packet.field(Var::LPacket, 0) == u32::try_from(bits.len()).ok());
    let text = bits.to_hex().expect(rt, "memory");
    bits.push(8, 255).expect(rt, "memory");
    check_read(rt, &bits, version, packet.width(), text.as_str());
}

fn check_read(rt: &impl Abort, bits: &Bits, version: u32, width: usize, text: &str) {
    let (again, end) = Packet::read(bits, 0, version).expect(rt, "memory");
    assert!(rt; end == width);
    check_digits(rt, bits.allocator(), &again, text);
}

// Calls the laws of a layout, and checks what they state about a packet of it.
fn check_laws<R: Abort, L: Layout>(rt: &R, alloc: Global, digits: &str, version: u32) {
    is_steady::<L>();
    spelt_where_known::<L>();
    written_is_read::<L>();
    as_long_as_said::<L>();
    one_spelling::<L>();
    let mut packet = packet_of(rt, alloc, digits, version);
    assert!(rt; L::takes(packet.number()));
    check_again(rt, alloc, &mut packet, version)
}

#[test]
fn the_laws_hold_at_a_packet_of_each_layout(rt: HostRuntime) {
    reads_what_is_spelt();
    spells_once();
    setting_keeps();
    check_laws::<_, Linking>(&rt, rt.alloc(), LINKS, 33);
    check_laws::<_, GradientProfile>(&rt, rt.alloc(), GRADIENTS, 33);
    check_laws::<_, SpeedProfile>(&rt, rt.alloc(), SPEEDS, 33);
    check_laws::<_, LevelTransition>(&rt, rt.alloc(), LEVELS, 33);
    check_laws::<_, SpeedRestriction>(&rt, rt.alloc(), RESTRICTION, 16);
    check_laws::<_, Revocation>(&rt, rt.alloc(), REVOCATION, 33);
    check_laws::<_, InfillLocation>(&rt, rt.alloc(), INFILL, 16);
    check_laws::<_, Opaque>(&rt, rt.alloc(), SPEEDS, 16)
}
