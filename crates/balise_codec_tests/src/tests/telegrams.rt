//! Telegrams explained, and encoded again from what was explained.

use balise_bits::Bits;
use balise_codec::{
    Header, PacketFields, PacketValues, Placed, TelegramFault, TelegramFields, Var,
    explain_telegram, spell_telegram,
};
use std::alloc::Global;
use std::process::Abort;

/// A header, packet 66 and padding of ones.
pub(crate) const ONE_PACKET: &str = "a1007f80a03250900f82ffffffffffffffffffffffffffffffffc0";

// Telegrams of 210 bits, with the number of their packets and the place of packet 255.
const ROWS: [(&str, usize, usize); 5] = [
    (ONE_PACKET, 1, 81),
    // A packet 65.
    (
        "a1007f80a032505023a0a0320096047fffffffffffffffffffffc0",
        1,
        121,
    ),
    // A packet 5.
    (
        "a1007f80a03341503b204b20300c88c0819000c98cffffffffffc0",
        1,
        168,
    ),
    // No packet, and a padding with a pattern.
    (
        "a1007f80a0327fc05a5a5a5a5a5a5a5a5a5a5a5a5a5a5a5a5a5a40",
        0,
        50,
    ),
    // A packet 44, which isn't known, up to packet 255 at the end.
    (
        "a1007f80a0324b104c000000000000000000000000000000003fc0",
        1,
        202,
    ),
];

pub(crate) fn bits_of(rt: &impl Abort, alloc: Global, digits: &str) -> Bits {
    Bits::from_hex(alloc, digits, 210).expect(rt, "digits")
}

fn check_row(rt: &impl Abort, bits: &Bits, count: usize, end: usize) {
    let telegram = explain_telegram(bits.allocator(), bits).expect(rt, "a telegram");
    assert!(rt; telegram.packets.len() == count);
    assert!(rt; telegram.end == end);
    assert!(rt; end <= 202);
    assert!(rt; telegram.padding.len() == 202 - end);
    assert!(rt; spelt_again(rt, bits, &telegram) == *bits);
}

// The number of the header field at an index.
fn number(fields: &[Placed], i: usize) -> u32 {
    match fields.get(i) {
        Some(field) => field.value,
        None => 0,
    }
}

pub(crate) fn header_of(fields: &[Placed]) -> Header {
    Header {
        q_updown: number(fields, 0),
        m_version: number(fields, 1),
        q_media: number(fields, 2),
        n_pig: number(fields, 3),
        n_total: number(fields, 4),
        m_dup: number(fields, 5),
        m_mcount: number(fields, 6),
        nid_c: number(fields, 7),
        nid_bg: number(fields, 8),
        q_link: number(fields, 9),
    }
}

fn values_of(rt: &impl Abort, alloc: Global, packet: &PacketFields) -> PacketValues {
    let mut values = Vec::new(alloc);
    for field in packet.fields.as_slice() {
        if field.var != Var::LPacket {
            values.push((field.var, field.value)).expect(rt, "memory");
        }
    }
    PacketValues {
        values,
        rest: packet.rest.copy().expect(rt, "memory"),
    }
}

pub(crate) fn spelt_again(rt: &impl Abort, bits: &Bits, telegram: &TelegramFields) -> Bits {
    let alloc = bits.allocator();
    let mut packets = Vec::new(alloc);
    for packet in telegram.packets.as_slice() {
        packets
            .push(values_of(rt, alloc, packet))
            .expect(rt, "memory");
    }
    let header = header_of(&telegram.header);
    let outcome = spell_telegram(alloc, &header, &packets, &telegram.padding);
    outcome.expect(rt, "a telegram")
}

#[test]
fn what_is_explained_is_spelt_again(rt: HostRuntime) {
    for (digits, count, end) in &ROWS {
        let bits = bits_of(&rt, rt.alloc(), digits);
        check_row(&rt, &bits, *count, *end);
    }
}

const HEADER: [(usize, u32, Var, u32); 10] = [
    (0, 1, Var::QUpdown, 1),
    (1, 7, Var::MVersion, 33),
    (8, 1, Var::QMedia, 0),
    (9, 3, Var::NPig, 0),
    (12, 3, Var::NTotal, 0),
    (15, 2, Var::MDup, 0),
    (17, 8, Var::MMcount, 255),
    (25, 10, Var::NidC, 5),
    (35, 14, Var::NidBg, 100),
    (49, 1, Var::QLink, 1),
];

const PACKET: [(usize, u32, Var, u32); 4] = [
    (50, 8, Var::NidPacket, 66),
    (58, 2, Var::QDir, 1),
    (60, 13, Var::LPacket, 31),
    (73, 8, Var::NidTsr, 5),
];

fn check_fields(rt: &impl Abort, fields: &[Placed], rows: &[(usize, u32, Var, u32)]) {
    assert!(rt; fields.len() == rows.len());
    for i in 0..rows.len() {
        let field = fields[i];
        assert!(rt; (field.at, field.width(), field.var, field.value) == rows[i]);
        assert!(rt; field.occurrence == 0);
    }
}

fn check_packet(rt: &impl Abort, packets: &[PacketFields]) {
    for packet in packets {
        assert!(rt; packet.at == 50);
        assert!(rt; packet.rest.is_empty());
        check_fields(rt, &packet.fields, &PACKET);
    }
}

#[test]
fn each_field_has_its_place(rt: HostRuntime) {
    let bits = bits_of(&rt, rt.alloc(), ONE_PACKET);
    let telegram = explain_telegram(rt.alloc(), &bits).expect(&rt, "a telegram");
    check_fields(&rt, &telegram.header, &HEADER);
    check_packet(&rt, &telegram.packets);
}

// Digits that are no telegram, and their fault.
const FAULTS: [(&str, TelegramFault); 5] = [
    ("a1007f80a03250900f82ff", TelegramFault::BadLength),
    (
        "21007f80a03250900f82ffffffffffffffffffffffffffffffffc000",
        TelegramFault::BadLength,
    ),
    (
        "21007f80a03250900f82ffffffffffffffffffffffffffffffffc0",
        TelegramFault::NotABalise,
    ),
    (
        "a1007f80a03240000f82ffffffffffffffffffffffffffffffffc0",
        TelegramFault::PacketZero,
    ),
    (
        "a1007f80a03250901002ffffffffffffffffffffffffffffffffc0",
        TelegramFault::LayoutMismatch,
    ),
];

fn fault_of(rt: &impl Abort, alloc: Global, digits: &str) -> Option<TelegramFault> {
    let all = Bits::digits(alloc, digits).expect(rt, "digits");
    let len = all.len();
    let bits = if len == 216 {
        all.slice(0, 210).expect(rt, "memory")
    } else {
        all
    };
    explain_telegram(alloc, &bits).err()
}

#[test]
fn what_is_no_telegram_is_refused(rt: HostRuntime) {
    for (digits, fault) in &FAULTS {
        assert!(rt; fault_of(&rt, rt.alloc(), digits) == Some(*fault));
    }
}
