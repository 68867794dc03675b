//! Packets of the known kinds and others read, listed, set and written, and bits that are no packet refused.

use balise_bits::Bits;
use balise_layout::{Packet, Var};
use std::alloc::Global;
use std::process::Abort;

// Two links, the first with a country: 118 bits.
pub(crate) const LINKS: &str = "0540ec812c80c03223020640032630";
// One link: 69 bits.
pub(crate) const LINK: &str = "05408a81f400c98c00";
// Two gradients: 78 bits.
pub(crate) const GRADIENTS: &str = "15409c800082840963fc";
// Two sections with three differences: 125 bits.
pub(crate) const SPEEDS: &str = "1b40fa80002810659224107d062180f0";
// Two levels, the first with a national system: 89 bits.
pub(crate) const LEVELS: &str = "2940b2806421200c82000a00";
// 71 bits.
pub(crate) const RESTRICTION: &str = "41408e8280c8025810";
// 31 bits.
pub(crate) const REVOCATION: &str = "42403e0a";
// An infill location reference without a country: 38 bits.
pub(crate) const INFILL: &str = "88404c0190";
// An infill location reference with a country: 48 bits.
pub(crate) const INFILL_ABROAD: &str = "884061018064";
// A packet 44, which isn't known: 32 bits.
pub(crate) const OPAQUE: &str = "2c0041a5";

// The packet of these digits in a telegram of this version.
pub(crate) fn packet_of(rt: &impl Abort, alloc: Global, digits: &str, version: u32) -> Packet {
    let bits = Bits::digits(alloc, digits).expect(rt, "memory");
    Packet::read(&bits, 0, version).expect(rt, "memory").0
}

pub(crate) fn check_hex(rt: &impl Abort, bits: &Bits, digits: &str) {
    assert!(rt; bits.to_hex().expect(rt, "memory").as_str() == digits);
}

// That the packet put over zeros is these bits.
fn check_over(rt: &impl Abort, packet: &Packet, bits: &Bits) {
    let mut over = Bits::new(bits.allocator());
    over.push_zeros(3).expect(rt, "memory");
    over.push_zeros(packet.width()).expect(rt, "memory");
    packet.put_over(&mut over, 3);
    assert!(rt; over.slice(3, packet.width()).expect(rt, "memory") == *bits);
}

// That the packet is written as these digits, and the same is put over zeros.
pub(crate) fn check_digits(rt: &impl Abort, alloc: Global, packet: &Packet, digits: &str) {
    let mut bits = Bits::new(alloc);
    packet.write(&mut bits).expect(rt, "memory");
    check_hex(rt, &bits, digits);
    check_over(rt, packet, &bits);
}

// That a packet has these fields.
pub(crate) fn check_fields(rt: &impl Abort, packet: &Packet, expected: &[(Var, u32, u32)]) {
    let fields = packet.fields().expect(rt, "memory");
    assert!(rt; fields.as_slice() == expected);
}
