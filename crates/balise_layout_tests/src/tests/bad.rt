//! Bits that are no packet.

use crate::tests::packets::REVOCATION;
use balise_bits::Bits;
use balise_layout::LayoutFault::{LayoutMismatch, PacketCut, PacketZero};
use balise_layout::{LayoutFault, Packet};
use std::process::Abort;

// Digits, a place among their bits, and the fault there in a telegram of version 2.1.
const ROWS: [(&str, usize, LayoutFault); 14] = [
    // No bits, no bits after the place, and a place past the end.
    ("", 0, PacketCut),
    (REVOCATION, 32, PacketCut),
    (REVOCATION, 4294967295, PacketCut),
    // Less than 8 bits, number 0, number 255, and less than 23 bits.
    (REVOCATION, 25, PacketCut),
    ("00", 0, PacketZero),
    ("ff", 0, LayoutMismatch),
    ("4240", 0, PacketCut),
    // L_PACKET 22, and past the end.
    ("2c002c0000", 0, PacketCut),
    ("42403e", 0, PacketCut),
    // Longer and shorter than the fields.
    ("4240400a", 0, LayoutMismatch),
    ("42403c0a", 0, LayoutMismatch),
    ("88404e0190", 0, LayoutMismatch),
    ("1b40fc80002810659224107d062180f0", 0, LayoutMismatch),
    // Q_DIFF 3.
    ("1b40fa80002816659224107d062180f0", 0, LayoutMismatch),
];

fn check_bad(rt: &impl Abort, bits: &Bits, at: usize, fault: LayoutFault) {
    assert!(rt; Packet::read(bits, at, 33).err() == Some(fault));
    assert!(rt; Packet::check(bits, at, 33) == Err(fault));
    assert!(rt; Packet::check_named(bits, at, 33, 5).err() == Some(fault));
}

#[test]
fn bits_that_are_no_packet_are_refused(rt: HostRuntime) {
    for (digits, at, fault) in &ROWS {
        let bits = Bits::digits(rt.alloc(), digits).expect(&rt, "memory");
        check_bad(&rt, &bits, *at, *fault);
    }
}
