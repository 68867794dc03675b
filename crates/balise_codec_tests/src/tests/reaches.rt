//! Bits of a packet up to their fault.

use crate::tests::packets::first_bits;
use balise_bits::Bits;
use balise_codec::{Due, Reach, Var, fields_to_fault, packet_fault};
use std::process::Abort;

// Digits, how many of their bits are looked at, and by a telegram of version 2.1 the number of fields before the fault, the
// bit where it stands and what is due there.
const ROWS: [(&str, usize, usize, usize, Due); 7] = [
    ("", 0, 0, 0, Due::Field(Var::NidPacket)),
    ("42403e0a", 9, 1, 8, Due::Field(Var::QDir)),
    ("42403c0a", 30, 3, 23, Due::Field(Var::NidTsr)),
    ("4240400a", 32, 4, 31, Due::End),
    ("88404e0190", 39, 5, 38, Due::End),
    ("000000", 24, 3, 23, Due::Another),
    // Q_DIFF 3, in the bits 53 and 54.
    ("1b40fa80002816659224107d062180f0", 125, 9, 55, Due::Another),
];

fn is_reached(reach: Option<Reach>, count: usize, at: usize, due: Due) -> bool {
    match reach {
        Some(reach) => (reach.fields.len() == count) & (reach.at == at) & (reach.due == due),
        None => false,
    }
}

fn reach_of(rt: &impl Abort, bits: &Bits) -> Option<Reach> {
    let outcome = fields_to_fault(bits.allocator(), bits, 0, bits.len(), 33);
    outcome.expect(rt, "memory")
}

#[test]
fn fields_are_told_up_to_the_fault(rt: HostRuntime) {
    for (digits, len, count, at, due) in &ROWS {
        let bits = first_bits(&rt, rt.alloc(), digits, *len);
        assert!(rt; is_reached(reach_of(&rt, &bits), *count, *at, *due));
    }
}

#[test]
fn a_whole_packet_has_no_fault(rt: HostRuntime) {
    let bits = first_bits(&rt, rt.alloc(), "42403e0a", 31);
    assert!(rt; reach_of(&rt, &bits).is_none());
}

fn has_fields(reach: Option<Reach>, fields: &[(Var, u32, u32)]) -> bool {
    match reach {
        Some(reach) => reach.fields.as_slice() == fields,
        None => false,
    }
}

#[test]
fn the_fields_have_their_values(rt: HostRuntime) {
    let bits = first_bits(&rt, rt.alloc(), "42403c0a", 30);
    let fields = [
        (Var::NidPacket, 0, 66),
        (Var::QDir, 0, 1),
        (Var::LPacket, 0, 30),
    ];
    assert!(rt; has_fields(reach_of(&rt, &bits), &fields));
}

// Digits of a telegram's last bits, and by a telegram of version 2.1 the number of fields before the fault of the packet
// that begins there, the bit where it stands and what is due there.
const PACKETS: [(&str, usize, usize, Due); 9] = [
    ("", 0, 0, Due::Field(Var::NidPacket)),
    // Packets 0 and 255.
    ("00", 1, 8, Due::Another),
    ("ff", 1, 8, Due::Another),
    ("4240", 2, 10, Due::Field(Var::LPacket)),
    // L_PACKET is 22, and goes past the end.
    ("2c002c0000", 3, 23, Due::Another),
    ("42403e", 3, 23, Due::Another),
    // A bit too many, and one too few.
    ("4240400a", 4, 31, Due::End),
    ("42403c0a", 3, 23, Due::Field(Var::NidTsr)),
    // Q_DIFF 3.
    ("1b40fa80002816659224107d062180f0", 9, 55, Due::Another),
];

fn fault_of(rt: &impl Abort, bits: &Bits) -> Option<Reach> {
    let outcome = packet_fault(bits.allocator(), bits, 0, 33);
    outcome.expect(rt, "memory")
}

#[test]
fn the_fault_of_a_packet_is_found(rt: HostRuntime) {
    for (digits, count, at, due) in &PACKETS {
        let bits = Bits::digits(rt.alloc(), digits).expect(&rt, "digits");
        assert!(rt; is_reached(fault_of(&rt, &bits), *count, *at, *due));
    }
}

#[test]
fn a_packet_that_is_read_has_no_fault(rt: HostRuntime) {
    let bits = Bits::digits(rt.alloc(), "42403e0a").expect(&rt, "digits");
    assert!(rt; fault_of(&rt, &bits).is_none());
}
