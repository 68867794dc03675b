//! Fields that are no telegram's, with the first reason.

use crate::tests::packets::{REVOCATION_VALUES, first_bits};
use balise_bits::Bits;
use balise_codec::{
    Header, Misfit, PacketValues, SpellFault, TelegramMisfit, Var, explain_header, explain_packets,
    spell_telegram,
};
use balise_telegram::TelegramFault;
use std::alloc::Global;
use std::process::Abort;

// The header of a telegram of version 2.1.
fn header_of(rt: &impl Abort, alloc: Global) -> Header {
    let bits = first_bits(rt, alloc, "a1007f80a03250", 50);
    assert!(rt; bits.len() >= 50);
    Header::read(&bits)
}

fn packet_of(rt: &impl Abort, alloc: Global, values: &[(Var, u32)]) -> PacketValues {
    PacketValues {
        values: Vec::from_slice(alloc, values).expect(rt, "memory"),
        rest: Bits::new(alloc),
    }
}

// What is answered if a telegram of these packets is encoded, with this number of bits after packet 255.
fn fault_of(
    rt: &impl Abort,
    alloc: Global,
    header: &Header,
    rows: &[&[(Var, u32)]],
    padding: usize,
) -> Option<TelegramMisfit> {
    let mut packets = Vec::new(alloc);
    for values in rows {
        packets
            .push(packet_of(rt, alloc, values))
            .expect(rt, "memory");
    }
    let mut rest = Bits::new(alloc);
    rest.push_zeros(padding).expect(rt, "memory");
    spell_telegram(alloc, header, &packets, &rest).err()
}

#[test]
fn a_telegram_of_each_length_is_spelt(rt: HostRuntime) {
    let alloc = rt.alloc();
    let header = header_of(&rt, alloc);
    assert!(rt; fault_of(&rt, alloc, &header, &[&REVOCATION_VALUES], 121).is_none());
    assert!(rt; fault_of(&rt, alloc, &header, &[], 772).is_none());
}

#[test]
fn the_first_reason_is_told(rt: HostRuntime) {
    let alloc = rt.alloc();
    let header = header_of(&rt, alloc);
    let wide = Header {
        n_total: 8,
        nid_bg: 16384,
        ..header
    };
    let bad: &[(Var, u32)] = &[(Var::NidPacket, 66), (Var::QDir, 1)];
    let number = fault_of(&rt, alloc, &wide, &[bad], 0);
    assert!(rt; number == Some(TelegramMisfit::Header(Var::NTotal)));
    let train = Header {
        q_updown: 0,
        ..header
    };
    let packet = fault_of(&rt, alloc, &train, &[&REVOCATION_VALUES, bad], 0);
    let missing = SpellFault::Misfit(2, Misfit::Missing(Var::NidTsr));
    assert!(rt; packet == Some(TelegramMisfit::Packet(1, missing)));
    let short = fault_of(&rt, alloc, &train, &[&REVOCATION_VALUES], 120);
    assert!(rt; short == Some(TelegramMisfit::BadLength(209)));
    let other = fault_of(&rt, alloc, &train, &[&REVOCATION_VALUES], 121);
    assert!(rt; other == Some(TelegramMisfit::NotABalise));
}

// Six bits after packet 66.
fn check_listed(rt: &impl Abort, bits: &Bits) {
    assert!(rt; bits.len() >= 50);
    let header = explain_header(bits.allocator(), bits).expect(rt, "memory");
    assert!(rt; header.len() == 10);
    let listed = explain_packets(bits.allocator(), bits, 33);
    let (packets, stop) = listed.expect(rt, "memory");
    assert!(rt; packets.len() == 1);
    assert!(rt; (stop.count, stop.at) == (1, 81));
    assert!(rt; stop.fault == Some(TelegramFault::NoEnd));
}

#[test]
fn packets_are_listed_up_to_the_fault(rt: HostRuntime) {
    let bits = Bits::digits(rt.alloc(), "a1007f80a03250900f8280");
    check_listed(&rt, &bits.expect(&rt, "digits"));
}
