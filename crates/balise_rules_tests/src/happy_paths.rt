//! Each function once on its happy path, with values of the standard's tables.

use balise_rules::{Refusal, Tag, Var};
use std::alloc::{AllocError, Global};
use std::process::Abort;

/// That the variable with this name is this one, as wide as this, and steers or not.
fn check(rt: &impl Abort, name: &str, var: Var, width: u32, steers: bool) {
    assert!(rt; Var::from_name(name) == Some(var));
    assert!(rt; var.name() == name);
    assert!(rt; var.width() == width);
    assert!(rt; var.steers() == steers);
}

#[test]
fn knows_the_variables(rt: HostRuntime) {
    check(&rt, "NID_PACKET", Var::NidPacket, 8, true);
    check(&rt, "NID_BG", Var::NidBg, 14, false);
    check(&rt, "Q_LINKORIENTATION", Var::QLinkorientation, 1, false);
    check(&rt, "N_ITER", Var::NIter, 5, true);
    check(&rt, "M_VERSION", Var::MVersion, 7, false);
    assert!(rt; Var::from_name("nid_bg").is_none());
    assert!(rt; Var::from_bytes(b"D_LINK") == Some(Var::DLink));
}

/// Each refusal, in the order of their numbers, and its name.
const NAMES: &[(Refusal, &str)] = &[
    (Refusal::BadLine, "BadLine"),
    (Refusal::BadHex, "BadHex"),
    (Refusal::BadLength, "BadLength"),
    (Refusal::SpareBits, "SpareBits"),
    (Refusal::NotABalise, "NotABalise"),
    (Refusal::NoEnd, "NoEnd"),
    (Refusal::PacketCut, "PacketCut"),
    (Refusal::LayoutMismatch, "LayoutMismatch"),
    (Refusal::PacketZero, "PacketZero"),
    (Refusal::GroupSize, "GroupSize"),
    (Refusal::HeaderDisagrees, "HeaderDisagrees"),
    (Refusal::NumberReserved, "NumberReserved"),
    (Refusal::GroupTwice, "GroupTwice"),
    (Refusal::NoSuchGroup, "NoSuchGroup"),
    (Refusal::NoSuchTelegram, "NoSuchTelegram"),
    (Refusal::NoSuchPacket, "NoSuchPacket"),
    (Refusal::NoSuchVariable, "NoSuchVariable"),
    (Refusal::Steering, "Steering"),
    (Refusal::ValueTooWide, "ValueTooWide"),
    (Refusal::NoRoom, "NoRoom"),
    (Refusal::NumberTaken, "NumberTaken"),
    (Refusal::SamePlace, "SamePlace"),
    (Refusal::NothingToUndo, "NothingToUndo"),
    (Refusal::NothingToRedo, "NothingToRedo"),
    (Refusal::NoSuchEdit, "NoSuchEdit"),
    (Refusal::DependsOn(2), "DependsOn"),
    (Refusal::JournalMismatch, "JournalMismatch"),
    (Refusal::Worn, "Worn"),
    (Refusal::InputTooLong, "InputTooLong"),
    (Refusal::OutOfMemory, "OutOfMemory"),
    (Refusal::ReadFault, "ReadFault"),
    (Refusal::WriteFault, "WriteFault"),
];

/// That the refusal has this number and is shown as this name.
fn check_name(rt: &impl Abort, alloc: Global, refusal: Refusal, number: u32, name: &str) {
    assert!(rt; refusal.number() == number);
    assert!(rt; refusal.name() == name);
    let shown = refusal.to_string(alloc).expect(rt, "memory");
    assert!(rt; shown.as_str() == name);
    let shown = format!(in alloc; "{refusal:?}").expect(rt, "memory");
    assert!(rt; shown.as_str() == name);
}

#[test]
fn numbers_and_names_the_refusals(rt: HostRuntime) {
    assert!(rt; NAMES.len() == 32);
    for (number, (refusal, name)) in (1..33u32).zip(NAMES.iter()) {
        check_name(&rt, rt.alloc(), *refusal, number, *name);
    }
}

#[test]
fn an_allocation_that_fails_is_out_of_memory(rt: HostRuntime) {
    assert!(rt; Refusal::from(AllocError) == Refusal::OutOfMemory);
}

#[test]
fn a_tag_by_default_is_the_first_place(rt: HostRuntime) {
    assert!(rt; Tag::default() == Tag::Base(0));
}
