//! Replies, reviews and refused plans, printed.

use balise_text::{
    Bits, Counted, Id, Refusal, Reply, ReviewLine, Reviewed, Var, put_bad, put_digits, put_fault,
    put_fours, put_reply, put_review, put_texts,
};
use std::alloc::Global;
use std::process::Abort;

/// A writer that keeps what is written.
type Text = Counted<Vec<u8>>;

fn check_text(rt: &impl Abort, writer: &Text, text: &str) {
    assert!(rt; writer.inner().as_slice() == text.as_bytes());
}

const REPLIES: &[Reply] = &[
    Reply::Done(1),
    Reply::Undone(2),
    Reply::Redone(3),
    Reply::Struck(4_294_967_295),
    Reply::Refused(Refusal::NothingToUndo),
    Reply::Refused(Refusal::DependsOn(7)),
];

fn put_replies(rt: &impl Abort, writer: &mut Text) {
    for reply in REPLIES.iter() {
        put_reply(writer, *reply).expect(rt, "memory");
    }
    let wanted =
        "ok 1\nundone 2\nredone 3\nstruck 4294967295\nrefused 23 NothingToUndo\nrefused 26 DependsOn 7\n";
    check_text(rt, writer, wanted);
}

#[test]
fn replies(rt: HostRuntime) {
    assert!(rt; Reply::Refused(Refusal::BadLine).is_refused());
    assert!(rt; !Reply::Done(1).is_refused());
    let mut writer = Counted::new(Vec::new(rt.alloc()));
    put_replies(&rt, &mut writer);
}

fn refused(rt: &impl Abort, alloc: Global) -> Text {
    let mut writer = Counted::new(Vec::new(alloc));
    put_bad(&mut writer, 18_446_744_073_709_551_615, Refusal::SpareBits).expect(rt, "memory");
    put_fault(&mut writer, Refusal::ReadFault).expect(rt, "memory");
    writer
}

#[test]
fn refused_plans_and_faults(rt: HostRuntime) {
    let wanted = "bad 18446744073709551615 4 SpareBits\nfault 31 ReadFault\n";
    check_text(&rt, &refused(&rt, rt.alloc()), wanted);
}

/// The line of a review of a packet of 5.100.
fn line(what: Reviewed) -> ReviewLine {
    let id = Id {
        country: 5,
        number: 100,
    };
    ReviewLine {
        id,
        pig: 1,
        pkt: 0,
        what,
    }
}

fn reviewed(rt: &impl Abort, alloc: Global) -> Text {
    let mut writer = Counted::new(Vec::new(alloc));
    for what in [Reviewed::Field(Var::DLink, 2, 300), Reviewed::Opaque(136)] {
        put_review(&mut writer, line(what)).expect(rt, "memory");
    }
    writer
}

#[test]
fn reviews(rt: HostRuntime) {
    let wanted = "review 5.100 1 0 D_LINK 2 300\nreview 5.100 1 0 opaque 136\n";
    check_text(&rt, &reviewed(&rt, rt.alloc()), wanted);
}

fn put_digits_and_texts(rt: &impl Abort, writer: &mut Text, bits: &Bits) {
    put_digits(writer, bits).expect(rt, "memory");
    put_texts(writer, &[b" ", b"", b"end"]).expect(rt, "memory");
    let wanted = "a1007f80a0327fffffffffffffffffffffffffffffffffffffffc0 end";
    check_text(rt, writer, wanted);
}

#[test]
fn digits(rt: HostRuntime) {
    let mut writer = Counted::new(Vec::new(rt.alloc()));
    let text = "a1007f80a0327fffffffffffffffffffffffffffffffffffffffc0";
    let bits = Bits::from_hex(rt.alloc(), text, 210).expect(&rt, "memory");
    put_digits_and_texts(&rt, &mut writer, &bits);
}

/// Digits, how many bits they are, and the same bits in whole digits.
const FOURS: &[(&str, usize, &str)] = &[
    ("", 0, ""),
    ("80", 1, "8"),
    ("f0", 4, "f"),
    ("a8", 5, "a8"),
    ("0123456780", 36, "012345678"),
];

fn check_fours(rt: &impl Abort, bits: &Bits, wanted: &str) {
    let mut writer = Counted::new(Vec::new(bits.allocator()));
    put_fours(&mut writer, bits).expect(rt, "memory");
    check_text(rt, &writer, wanted);
}

#[test]
fn digits_of_four_bits(rt: HostRuntime) {
    for (text, len, wanted) in FOURS.iter() {
        let bits = Bits::from_hex(rt.alloc(), *text, *len).expect(&rt, "memory");
        check_fours(&rt, &bits, *wanted);
    }
}
