//! Fields read and set, directions and links flipped, and settings refused.

use crate::tests::packets::{
    GRADIENTS, INFILL, INFILL_ABROAD, LEVELS, LINK, LINKS, OPAQUE, RESTRICTION, REVOCATION, SPEEDS,
    check_digits, packet_of,
};
use balise_layout::LayoutFault::{NoSuchVariable, Steering, ValueTooWide};
use balise_layout::Var::{
    DGradient, DLink, GA, LPacket, MLeveltr, NIter, NidBg, NidC, NidNtc, NidTsr, QDiff, QDir,
    QNewcountry, VDiff, VTsr,
};
use balise_layout::{LayoutFault, Packet, Var};
use balise_rules::Refusal;
use std::alloc::Global;
use std::process::Abort;

// A packet and the version of its telegram, a variable, its occurrence and a value.
type Setting = (&'static str, u32, Var, u32, u32);

// A setting, the old value, and the packet with the new one.
const ROWS: [(Setting, u32, &str); 11] = [
    (
        (LINKS, 33, NidBg, 1, 150),
        100,
        "0540ec812c80c0322302064004b630",
    ),
    ((LINK, 33, DLink, 0, 600), 500, "05408a825800c98c00"),
    ((GRADIENTS, 33, GA, 1, 7), 255, "15409c8000828409601c"),
    (
        (SPEEDS, 33, VDiff, 2, 31),
        30,
        "1b40fa80002810659224107d062180f8",
    ),
    (
        (SPEEDS, 16, QDir, 0, 2),
        1,
        "1b80fa80002810659224107d062180f0",
    ),
    ((LEVELS, 33, NidNtc, 0, 22), 9, "2940b2806422c00c82000a00"),
    ((RESTRICTION, 16, VTsr, 0, 127), 8, "41408e8280c80258fe"),
    ((REVOCATION, 33, NidTsr, 0, 9), 5, "42403e12"),
    ((INFILL, 33, NidBg, 0, 150), 100, "88404c0258"),
    ((INFILL_ABROAD, 16, NidBg, 0, 16383), 100, "88406101bfff"),
    ((OPAQUE, 33, QDir, 0, 3), 0, "2cc041a5"),
];

fn check_set(rt: &impl Abort, packet: &mut Packet, row: &(Setting, u32, &str)) {
    let (_, _, var, k, value) = row.0;
    assert!(rt; packet.field(var, k) == Some(row.1));
    assert!(rt; packet.set_field(var, k, value) == Ok(row.1));
}

fn check_row(rt: &impl Abort, alloc: Global, row: &(Setting, u32, &str)) {
    let mut packet = packet_of(rt, alloc, row.0.0, row.0.1);
    check_set(rt, &mut packet, row);
    check_digits(rt, alloc, &packet, row.2)
}

#[test]
fn fields_are_read_and_set(rt: HostRuntime) {
    for row in &ROWS {
        check_row(&rt, rt.alloc(), row);
    }
}

const REFUSED: [(Setting, LayoutFault); 14] = [
    ((LINKS, 33, NidBg, 2, 5), NoSuchVariable),
    ((LINKS, 33, NidC, 1, 7), NoSuchVariable),
    ((GRADIENTS, 33, DGradient, 2, 1), NoSuchVariable),
    ((SPEEDS, 16, VDiff, 0, 1), NoSuchVariable),
    ((LEVELS, 33, NidNtc, 1, 3), NoSuchVariable),
    ((INFILL, 33, NidC, 0, 6), NoSuchVariable),
    ((LINKS, 33, NidC, 0, 7), Steering),
    ((GRADIENTS, 33, NIter, 0, 2), Steering),
    ((SPEEDS, 33, QDiff, 0, 1), Steering),
    ((LEVELS, 33, MLeveltr, 0, 2), Steering),
    ((INFILL_ABROAD, 33, QNewcountry, 0, 0), Steering),
    ((OPAQUE, 33, LPacket, 0, 9999), Steering),
    ((LINKS, 33, NidBg, 0, 16384), ValueTooWide),
    ((REVOCATION, 33, NidTsr, 0, 4294967295), ValueTooWide),
];

fn check_refused(rt: &impl Abort, alloc: Global, setting: &Setting, fault: LayoutFault) {
    let (digits, version, var, k, value) = *setting;
    let mut packet = packet_of(rt, alloc, digits, version);
    assert!(rt; packet.set_field(var, k, value) == Err(fault));
    check_digits(rt, alloc, &packet, digits)
}

#[test]
fn settings_are_refused(rt: HostRuntime) {
    for (setting, fault) in &REFUSED {
        check_refused(&rt, rt.alloc(), setting, *fault);
    }
    assert!(rt; LayoutFault::Steering.refusal() == Refusal::Steering);
    let words = LayoutFault::Steering.to_string(rt.alloc());
    assert!(rt; words.expect(&rt, "memory").as_str() == "the variable isn't set in place");
}

#[test]
fn directions_and_links_are_flipped(rt: HostRuntime) {
    let mut packet = packet_of(&rt, rt.alloc(), LINKS, 33);
    packet.flip_link(1);
    packet.name_link(0, 16383);
    packet.flip_dir();
    packet.flip_link(2);
    check_digits(&rt, rt.alloc(), &packet, "0500ec812c80dfffa3020640032230")
}
