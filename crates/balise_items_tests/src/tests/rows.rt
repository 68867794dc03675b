//! Worked items: each reason once, in the order in which they come.

use crate::tests::items::check;
use balise_items::Reason;
use std::alloc::Global;
use std::process::Abort;

// Further lines of an item, and what is printed for it.
type Row = (&'static [&'static str], &'static str);

// That this is printed for the items that have these lines first.
fn check_rows(rt: &impl Abort, alloc: Global, front: &[&str], rows: &[Row]) {
    for (lines, text) in rows {
        let mut all = Vec::new(alloc);
        assert!(rt; all.extend_from_slice(front).is_ok());
        assert!(rt; all.extend_from_slice(*lines).is_ok());
        check(rt, alloc, &all, *text);
    }
}

const ROWS: [Row; 12] = [
    (
        &[
            "packet 33",
            "NID_PACKET 66",
            "Q_DIR 0 1",
            "23 8 NID_TSR 0 0",
        ],
        "packet 33 42403e00\n",
    ),
    (&["fault 2 BadHex - 0 digit"], "bad 1 BadLine\n"),
    (
        &["packet 33", "NID_PACKET 0", "Q_DIR 4"],
        "bad 2 NoFields\n",
    ),
    (&["packet 33", "NID_PACKET 255"], "bad 2 NoFields\n"),
    (&["packet 33", "NID_PACKET 256"], "bad 2 TooWide\n"),
    (&["packet 33", "L_PACKET 31"], "bad 2 NotDue NID_PACKET\n"),
    (
        &["packet 4294967295", "NID_PACKET 44", "Q_DIR 0"],
        "packet 4294967295 2c002e\n",
    ),
    (&["telegram 210"], "bad 2 Missing Q_UPDOWN\n"),
    (&["telegram 211", "Q_UPDOWN 1"], "bad 1 BadLine\n"),
    (&["NID_TSR 0"], "bad 1 BadLine\n"),
    (
        &["packet 33", "NID_PACKET 66", "NID_TSR 0"],
        "bad 3 NotDue Q_DIR\n",
    ),
    (
        &["packet 33", "NID_PACKET 66", "Q_DIRECTION 1"],
        "bad 3 UnknownName\n",
    ),
];

#[test]
fn packets_and_first_reasons(rt: HostRuntime) {
    check_rows(&rt, rt.alloc(), &[], &ROWS);
}

const REVOCATION: [&str; 3] = ["packet 33", "NID_PACKET 66", "Q_DIR 1"];

const AFTER_Q_DIR: [Row; 6] = [
    (&[], "bad 4 Missing NID_TSR\n"),
    (&["L_PACKET 32", "NID_TSR 0"], "bad 1 OtherLength 31\n"),
    (&["L_PACKET 9000", "NID_TSR 300"], "bad 5 TooWide\n"),
    (
        &["NID_TSR 0", "fault 6 NoEnd 1 81 NID_PACKET"],
        "bad 5 BadLine\n",
    ),
    (&["NID_TSR 0", "NID_TSR 0"], "bad 5 TooMany\n"),
    (&["NID_TSR 0", "rest 1 8"], "bad 5 BitsLeft\n"),
];

#[test]
fn lines_of_a_known_packet(rt: HostRuntime) {
    check_rows(&rt, rt.alloc(), &REVOCATION, &AFTER_Q_DIR);
}

const OPAQUE: [&str; 3] = ["packet 33", "NID_PACKET 44", "Q_DIR 2"];

const RESTS: [Row; 4] = [
    (&["rest 5 B0"], "packet 33 2c803960\n"),
    (&["rest 0 0"], "bad 4 BadHex\n"),
    (&["rest 5 b1"], "bad 4 BadHex\n"),
    (&["rest 5 b1", "rest 5 b0"], "bad 5 BadLine\n"),
];

#[test]
fn bits_of_an_unknown_packet(rt: HostRuntime) {
    check_rows(&rt, rt.alloc(), &OPAQUE, &RESTS);
}

const HEADER: [&str; 11] = [
    "telegram 210",
    "Q_UPDOWN 1",
    "M_VERSION 33",
    "Q_MEDIA 0",
    "N_PIG 0",
    "N_TOTAL 0",
    "M_DUP 0",
    "M_MCOUNT 255",
    "NID_C 5",
    "NID_BG 100",
    "Q_LINK 1",
];

const AFTER: [Row; 9] = [
    (
        &["end"],
        "a1007f80a0327fffffffffffffffffffffffffffffffffffffffc0\n",
    ),
    (
        &["end", "padding 152 55555555555555555555555555555555555555"],
        "a1007f80a0327fd555555555555555555555555555555555555540\n",
    ),
    (&["end", "padding 2 c"], "bad 1 BadLength 60\n"),
    (&[], "bad 12 Missing end\n"),
    (&["Q_LINK 0"], "bad 12 TooMany\n"),
    (
        &["packet", "NID_PACKET 66", "Q_DIR 1", "NID_TSR 5", "end"],
        "a1007f80a03250900f82ffffffffffffffffffffffffffffffffc0\n",
    ),
    (
        &[
            "packet",
            "NID_PACKET 66",
            "Q_DIR 1",
            "L_PACKET 30",
            "NID_TSR 5",
            "packet",
        ],
        "bad 12 OtherLength 31\n",
    ),
    (
        &[
            "packet",
            "NID_PACKET 27",
            "Q_DIR 1",
            "Q_SCALE 0",
            "D_STATIC 0",
            "V_STATIC 0",
            "Q_FRONT 0",
            "N_ITER 1",
            "Q_DIFF 3",
        ],
        "bad 20 Spare\n",
    ),
    (&["padding 2 c", "end"], "bad 12 BadLine\n"),
];

#[test]
fn telegrams(rt: HostRuntime) {
    check_rows(&rt, rt.alloc(), &HEADER, &AFTER);
}

#[test]
fn not_a_balise(rt: HostRuntime) {
    let mut all = Vec::new(rt.alloc());
    assert!(&rt; all.extend_from_slice(HEADER.as_slice()).is_ok());
    assert!(&rt; all.push("end").is_ok());
    all.as_mut_slice()[1] = "Q_UPDOWN 0";
    check(&rt, rt.alloc(), &all, "bad 1 NotABalise\n");
    assert!(&rt; Reason::NoEnd.name() == "Missing");
}
