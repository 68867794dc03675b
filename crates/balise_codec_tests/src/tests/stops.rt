//! Tests of where a telegram's packets end.

use balise_bits::Bits;
use balise_codec::{Stop, packets_end};
use balise_telegram::TelegramFault;
use std::process::Abort;

const ONE_PACKET: &str = "a1007f80a03250900f82ffffffffffffffffffffffffffffffffc0";

// Digits of at least 50 bits, and by a telegram of version 2.1 how many packets stand there, the place after them, and the
// fault.
const ROWS: [(&str, usize, usize, Option<TelegramFault>); 6] = [
    (ONE_PACKET, 1, 81, None),
    // Six bits after the header, and eight zeros.
    ("a1007f80a03250", 0, 50, Some(TelegramFault::NoEnd)),
    ("a1007f80a0324000", 0, 50, Some(TelegramFault::PacketZero)),
    // The packet runs past the end.
    ("a1007f80a03250900f", 0, 50, Some(TelegramFault::PacketCut)),
    // One bit short of its last field.
    (
        "a1007f80a03250900f02ff",
        0,
        50,
        Some(TelegramFault::LayoutMismatch),
    ),
    (
        "a1007f80a03250900f82",
        0,
        50,
        Some(TelegramFault::PacketCut),
    ),
];

fn check_row(rt: &impl Abort, bits: &Bits, stop: Stop) {
    assert!(rt; bits.len() >= 50);
    assert!(rt; packets_end(bits, 33) == stop);
}

#[test]
fn packets_end_at_the_fault(rt: HostRuntime) {
    for (digits, count, at, fault) in &ROWS {
        let bits = Bits::digits(rt.alloc(), digits).expect(&rt, "digits");
        let stop = Stop {
            count: *count,
            at: *at,
            fault: *fault,
        };
        check_row(&rt, &bits, stop);
    }
}
