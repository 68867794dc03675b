//! Runs from digits to fields and back: what they print, and what they end with.

use crate::tests::ran::{Texts, check, check_all_failing, texts_of};
use balise_fields_run::{Refusal, RunFault, Status, Way};

/// A plan of one telegram and a packet by itself.
const EXPLAINED: Texts<'static> = Texts {
    way: Way::Explain,
    input: "plan 1\ngroup\na1007f80a0327fd555555555555555555555555555555555555540\npacket 33 42403e0a\n",
    output: "plan 1\ngroup\ntelegram 210\n0 1 Q_UPDOWN 0 1\n1 7 M_VERSION 0 33\n8 1 Q_MEDIA 0 0\n9 3 N_PIG 0 0\n12 3 N_TOTAL 0 0\n15 2 M_DUP 0 0\n17 8 M_MCOUNT 0 255\n25 10 NID_C 0 5\n35 14 NID_BG 0 100\n49 1 Q_LINK 0 1\nend\npadding 152 55555555555555555555555555555555555555\npacket 33\n0 8 NID_PACKET 0 66\n8 2 Q_DIR 0 1\n10 13 L_PACKET 0 31\n23 8 NID_TSR 0 5\n",
};

/// A plan of one telegram without padding, a packet by itself with each form of a field, and lines of no item.
const SPELT: Texts<'static> = Texts {
    way: Way::Spell,
    input: "plan 1\ngroup\ntelegram 210\nQ_UPDOWN 1\nM_VERSION 33\nQ_MEDIA 0\nN_PIG 0\nN_TOTAL 0\nM_DUP 0\nM_MCOUNT 255\nNID_C 5\nNID_BG 100\nQ_LINK 1\nend\npacket 33\nNID_PACKET 66\nQ_DIR 0 1\n23 8 NID_TSR 0 5\ngroup\nNID_TSR 5\npacket 33 42403e0a",
    output: "plan 1\ngroup\na1007f80a0327fffffffffffffffffffffffffffffffffffffffc0\npacket 33 42403e0a\ngroup\nbad 20 BadLine\nbad 21 BadLine\n",
};

#[test]
fn each_line_is_explained(rt: HostRuntime) {
    for step in [1, 7, 4096] {
        check(&rt, rt.alloc(), &EXPLAINED, step, Status::AllDone);
    }
    let none = texts_of(Way::Explain, "", "");
    check(&rt, rt.alloc(), &none, 1, Status::AllDone);
}

#[test]
fn a_refused_line_and_those_after_it(rt: HostRuntime) {
    let output = "fault 2 BadHex - 4 digit\ngroup\n";
    let refused = texts_of(Way::Explain, "4z\ngroup", output);
    check(&rt, rt.alloc(), &refused, 3, Status::SomeRefused);
    assert!(rt; Status::SomeRefused.code() == 1);
    assert!(rt; Status::AllDone.code() == 0);
}

#[test]
fn each_item_is_spelt(rt: HostRuntime) {
    for step in [1, 7, 4096] {
        check(&rt, rt.alloc(), &SPELT, step, Status::SomeRefused);
    }
    for (input, output) in [("", ""), ("group", "group\n")] {
        let done = texts_of(Way::Spell, input, output);
        check(&rt, rt.alloc(), &done, 1, Status::AllDone);
    }
}

#[test]
fn a_read_or_a_write_fails(rt: HostRuntime) {
    check_all_failing(&rt, rt.alloc(), &EXPLAINED, 4, 89);
    check_all_failing(&rt, rt.alloc(), &SPELT, 11, 39);
    assert!(rt; RunFault::WriteFault.refusal() == Refusal::WriteFault);
}
