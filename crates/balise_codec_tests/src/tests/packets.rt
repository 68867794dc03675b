//! Packets encoded from their fields.

use balise_bits::Bits;
use balise_codec::{Misfit, SpellFault, Var, spell_given, spell_packet, write_values};
use std::alloc::Global;
use std::process::Abort;

/// Packet 66, with identity 5: 31 bits, and its values.
pub(crate) const REVOCATION: &str = "42403e0a";

pub(crate) const REVOCATION_VALUES: [(Var, u32); 3] = [
    (Var::NidPacket, 66),
    (Var::QDir, 1),
    (Var::NidTsr, 5),
];

/// Packet 5 with two links: 118 bits, and its values.
pub(crate) const LINKS: &str = "0540ec812c80c03223020640032630";

pub(crate) const LINKS_VALUES: [(Var, u32); 17] = [
    (Var::NidPacket, 5),
    (Var::QDir, 1),
    (Var::QScale, 1),
    (Var::DLink, 300),
    (Var::QNewcountry, 1),
    (Var::NidC, 6),
    (Var::NidBg, 100),
    (Var::QLinkorientation, 0),
    (Var::QLinkreaction, 2),
    (Var::QLocacc, 12),
    (Var::NIter, 1),
    (Var::DLink, 400),
    (Var::QNewcountry, 0),
    (Var::NidBg, 100),
    (Var::QLinkorientation, 1),
    (Var::QLinkreaction, 2),
    (Var::QLocacc, 12),
];

/// Packet 44, which isn't known: 32 bits, nine of them after its fields.
const OPAQUE: &str = "2c0041a5";

const OPAQUE_VALUES: [(Var, u32); 2] = [(Var::NidPacket, 44), (Var::QDir, 0)];

/// The first bits of some digits.
pub(crate) fn first_bits(rt: &impl Abort, alloc: Global, digits: &str, len: usize) -> Bits {
    let all = Bits::digits(alloc, digits).expect(rt, "digits");
    assert!(rt; all.len() >= len);
    all.slice(0, len).expect(rt, "memory")
}

// Whether the values and the rest are encoded as these bits.
fn spells(rt: &impl Abort, values: &[(Var, u32)], rest: &Bits, bits: &Bits) -> bool {
    let alloc = bits.allocator();
    let packet = match spell_packet(alloc, 33, values, rest) {
        Ok(packet) => packet,
        Err(_) => return false,
    };
    let mut out = Bits::new(alloc);
    packet.write(&mut out).expect(rt, "memory");
    out == *bits
}

#[test]
fn a_known_packet_is_spelt(rt: HostRuntime) {
    let none = Bits::new(rt.alloc());
    let short = first_bits(&rt, rt.alloc(), REVOCATION, 31);
    assert!(rt; spells(&rt, &REVOCATION_VALUES, &none, &short));
    let long = first_bits(&rt, rt.alloc(), LINKS, 118);
    assert!(rt; spells(&rt, &LINKS_VALUES, &none, &long));
}

#[test]
fn an_unknown_packet_is_spelt_with_its_rest(rt: HostRuntime) {
    let bits = first_bits(&rt, rt.alloc(), OPAQUE, 32);
    assert!(rt; bits.len() == 32);
    let rest = bits.slice(23, 9).expect(&rt, "memory");
    assert!(rt; spells(&rt, &OPAQUE_VALUES, &rest, &bits));
}

// What is answered if packet 44 is encoded with this number of bits after its fields.
fn spelt_with(rt: &impl Abort, alloc: Global, count: usize) -> Option<SpellFault> {
    let mut rest = Bits::new(alloc);
    rest.push_zeros(count).expect(rt, "memory");
    spell_packet(alloc, 33, &OPAQUE_VALUES, &rest).err()
}

#[test]
fn a_packet_has_8191_bits_at_most(rt: HostRuntime) {
    assert!(rt; spelt_with(&rt, rt.alloc(), 8168).is_none());
    assert!(rt; spelt_with(&rt, rt.alloc(), 8169) == Some(SpellFault::TooLong));
}

#[test]
fn a_known_packet_has_no_rest(rt: HostRuntime) {
    let rest = first_bits(&rt, rt.alloc(), OPAQUE, 1);
    let fault = spell_packet(rt.alloc(), 33, &REVOCATION_VALUES, &rest).err();
    assert!(rt; fault == Some(SpellFault::BitsLeft));
}

// Values of packet 66 with L_PACKET, and the fault.
const GIVEN: [(&[(Var, u32)], Option<SpellFault>); 5] = [
    (
        &[
            (Var::NidPacket, 66),
            (Var::QDir, 1),
            (Var::LPacket, 31),
            (Var::NidTsr, 5),
        ],
        None,
    ),
    (&REVOCATION_VALUES, None),
    (
        &[
            (Var::NidPacket, 66),
            (Var::QDir, 1),
            (Var::LPacket, 30),
            (Var::NidTsr, 5),
        ],
        Some(SpellFault::OtherLength(31)),
    ),
    (
        &[(Var::NidPacket, 66), (Var::QDir, 1), (Var::LPacket, 31)],
        Some(SpellFault::Misfit(3, Misfit::Missing(Var::NidTsr))),
    ),
    (
        &[(Var::NidPacket, 66), (Var::QDir, 4), (Var::LPacket, 31)],
        Some(SpellFault::Misfit(1, Misfit::TooWide)),
    ),
];

#[test]
fn a_length_that_is_given_is_compared(rt: HostRuntime) {
    let none = Bits::new(rt.alloc());
    for (values, fault) in &GIVEN {
        assert!(rt; spell_given(rt.alloc(), 33, values, &none).err() == *fault);
    }
}

#[test]
fn values_are_written_in_their_widths(rt: HostRuntime) {
    let mut bits = first_bits(&rt, rt.alloc(), REVOCATION, 8);
    assert!(rt; write_values(&mut bits, &[(Var::QDir, 1), (Var::LPacket, 31)]).is_ok());
    assert!(rt; bits == first_bits(&rt, rt.alloc(), REVOCATION, 23));
}
