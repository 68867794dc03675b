//! A telegram of 830 bits, full of packets 66.

use crate::tests::telegrams::{ONE_PACKET, bits_of, header_of, spelt_again};
use balise_bits::Bits;
use balise_codec::{Header, PacketValues, Var, explain_telegram, spell_telegram};
use std::alloc::Global;
use std::process::Abort;

/// How many packets of 31 bits stand between the header and packet 255.
const MOST: usize = 24;

fn header(rt: &impl Abort, alloc: Global) -> Header {
    let bits = bits_of(rt, alloc, ONE_PACKET);
    let telegram = explain_telegram(alloc, &bits).expect(rt, "a telegram");
    header_of(&telegram.header)
}

// A packet 66 of this NID_TSR.
fn revocation(rt: &impl Abort, alloc: Global, number: u32) -> PacketValues {
    let mut values = Vec::new(alloc);
    for value in &[(Var::NidPacket, 66), (Var::QDir, 1), (Var::NidTsr, number)] {
        values.push(*value).expect(rt, "memory");
    }
    PacketValues {
        values,
        rest: Bits::new(alloc),
    }
}

fn revocations(rt: &impl Abort, alloc: Global) -> Vec<PacketValues> {
    let mut packets = Vec::new(alloc);
    for number in 0..24 {
        packets
            .push(revocation(rt, alloc, number))
            .expect(rt, "memory");
    }
    packets
}

// That it has all packets, and is encoded again as the same bits.
fn check_full(rt: &impl Abort, bits: &Bits) {
    let telegram = explain_telegram(bits.allocator(), bits).expect(rt, "a telegram");
    assert!(rt; telegram.packets.len() == MOST);
    assert!(rt; telegram.end == 794);
    assert!(rt; telegram.padding.len() == 28);
    assert!(rt; spelt_again(rt, bits, &telegram) == *bits);
}

#[test]
fn a_full_telegram_of_830_bits(rt: HostRuntime) {
    let alloc = rt.alloc();
    let packets = revocations(&rt, alloc);
    let padding = Bits::from_hex(alloc, "5a5a5a50", 28).expect(&rt, "digits");
    let outcome = spell_telegram(alloc, &header(&rt, alloc), &packets, &padding);
    let bits = outcome.expect(&rt, "a telegram");
    assert!(rt; bits.len() == 830);
    check_full(&rt, &bits);
}
