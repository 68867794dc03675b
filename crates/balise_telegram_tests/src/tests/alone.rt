//! Packets by themselves, in the bits of digits.

use crate::tests::packets::has_bits;
use balise_telegram::{Bits, Refusal, packet_in};
use std::alloc::Global;
use std::process::Abort;

/// Digits and how many bits they are, which are refused in the order of the refusals.
const REFUSED: &[(&str, usize, Refusal)] = &[
    ("42", 8, Refusal::PacketCut),
    ("000000", 24, Refusal::PacketZero),
    ("ff", 8, Refusal::LayoutMismatch),
    ("4240", 16, Refusal::PacketCut),
    ("42402c", 24, Refusal::PacketCut),
    ("42403e", 24, Refusal::PacketCut),
    ("42403e0a00", 40, Refusal::BadLength),
    ("42403e0b", 32, Refusal::SpareBits),
    ("42403c08", 32, Refusal::LayoutMismatch),
];

fn bits_of(rt: &impl Abort, alloc: Global, digits: &str, len: usize) -> Bits {
    Bits::from_hex(alloc, digits, len).expect(rt, "digits")
}

fn check_refused(rt: &impl Abort, bits: &Bits, refusal: Refusal) {
    match packet_in(bits, 33) {
        Ok(_) => assert!(rt; false),
        Err(found) => assert!(rt; found == refusal),
    }
}

#[test]
fn judges_a_packet_by_itself(rt: HostRuntime) {
    for (digits, len, refusal) in REFUSED {
        check_refused(&rt, &bits_of(&rt, rt.alloc(), digits, *len), *refusal);
    }
    let packet = packet_in(&bits_of(&rt, rt.alloc(), "42403e0a", 32), 33).expect(&rt, "a packet");
    assert!(&rt; has_bits(&rt, &packet, &bits_of(&rt, rt.alloc(), "42403e0a", 31)));
}
