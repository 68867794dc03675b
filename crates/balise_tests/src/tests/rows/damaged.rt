//! Damaged journals of a plan with a packet 66.

use crate::tests::runs;
use crate::tests::runs::{PLAIN, Row, push};
use balise_cli::Status;
use std::alloc::Global;
use std::process::Abort;

const FRONT: &str =
    "plan 1\ngroup\na1007f80a03250900f82ffffffffffffffffffffffffffffffffc0\njournal ";

/// Words and lines after a version, each with what is printed. They are refused in both versions.
const DAMAGED: &[(&str, &str)] = &[
    (
        " 3\n1 set b0/0/b0 NID_TSR 0 9 5\n1 set b0/0/b0 NID_TSR 0 7 9\nedits\n",
        "bad 6 27 JournalMismatch\n",
    ),
    (
        " 3\n3 set b0/0/b0 NID_TSR 0 9 5\nedits\n",
        "bad 5 27 JournalMismatch\n",
    ),
    (
        " 3\n1 set b0/0/n9 NID_TSR 0 9 5\nedits\n",
        "bad 5 27 JournalMismatch\n",
    ),
    (" 0\nedits\n", "bad 4 27 JournalMismatch\n"),
    (" 4000000001\nedits\n", "bad 4 27 JournalMismatch\n"),
    (
        " 3\n1 set b0/0/b0 SPEED 0 9 5\nedits\n",
        "bad 5 1 BadLine\n",
    ),
    (" 3\n1 insert b0/0 ^ 4z\nedits\n", "bad 5 2 BadHex\n"),
];

/// Lines `undone`: of an edit that no longer stands, of one that a later edit depends on, and before an entry.
const UNDONE: &[(&str, &str)] = &[
    (
        " 3\n1 set b0/0/b0 NID_TSR 0 9 5\nundone 1\nundone 1\nedits\n",
        "bad 7 27 JournalMismatch\n",
    ),
    (
        " 3\n1 set b0/0/b0 NID_TSR 0 9 5\n2 set b0/0/b0 NID_TSR 0 7 9\nundone 1\nedits\n",
        "bad 7 27 JournalMismatch\n",
    ),
    (
        " 3\n1 set b0/0/b0 NID_TSR 0 9 5\nundone 1\n2 set b0/0/b0 NID_TSR 0 7 5\nedits\n",
        "bad 7 1 BadLine\n",
    ),
];

/// That a journal of this version is refused so.
fn check(rt: &impl Abort, alloc: Global, version: &str, journal: &str, output: &str) {
    let mut input = String::new(alloc);
    push(rt, &mut input, FRONT);
    push(rt, &mut input, version);
    push(rt, &mut input, journal);
    check_refused(rt, alloc, input.as_bytes(), output.as_bytes());
}

fn check_refused(rt: &impl Abort, alloc: Global, input: &[u8], output: &[u8]) {
    let row = Row {
        flags: PLAIN,
        input,
        output,
        status: Status::BadInput,
    };
    runs::check(rt, alloc, &row, 1);
    runs::check(rt, alloc, &row, 4096);
}

#[test]
fn damaged_journals(rt: HostRuntime) {
    for (journal, output) in DAMAGED.iter() {
        check(&rt, rt.alloc(), "1", *journal, *output);
        check(&rt, rt.alloc(), "2", *journal, *output);
    }
    for (journal, output) in UNDONE.iter() {
        check(&rt, rt.alloc(), "2", *journal, *output);
    }
}
