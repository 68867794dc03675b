//! An input with a journal that has an edit undone, cut after each byte.

use crate::tests::cuts::{Cut, FIRST_LINES, check_cuts};
use crate::tests::runs::JOURNAL;
use balise_cli::Status::{Accepted, BadInput, SomeRefused};

const INPUT: &[u8] =
    b"plan 1\ngroup\na1007f80a0327fffffffffffffffffffffffffffffffffffffffc0\njournal 2 3\n1 insert b0/0 ^ 42403e0a\n2 insert b0/0 n1 42403e0c\nundone 1\nedits\nredo\n";

/// The plan with its journal, as it is read, and after the edit is done again.
const READ: &str =
    "plan 1\ngroup\na1007f80a03250900f837fffffffffffffffffffffffffffffffc0\njournal 2 3\n1 insert b0/0 ^ 42403e0a\n2 insert b0/0 n1 42403e0c\nundone 1\n";

const REDONE: &str =
    "plan 1\ngroup\na1007f80a03250900f82a1201f06ffffffffffffffffffffffffc0\njournal 2 3\n1 insert b0/0 ^ 42403e0a\n2 insert b0/0 n1 42403e0c\n";

const CUTS: &[Cut] = &[
    ((67, 68, true), &["bad 4 1 BadLine\n"], BadInput),
    ((69, 75, true), &["bad 4 2 BadHex\n"], BadInput),
    ((76, 78, true), &["bad 4 1 BadLine\n"], BadInput),
    ((79, 96, true), &["bad 5 1 BadLine\n"], BadInput),
    ((97, 103, false), &["bad 5 2 BadHex\n"], BadInput),
    ((98, 102, false), &["bad 5 27 JournalMismatch\n"], BadInput),
    ((104, 122, true), &["bad 6 1 BadLine\n"], BadInput),
    ((123, 129, false), &["bad 6 2 BadHex\n"], BadInput),
    ((124, 128, false), &["bad 6 27 JournalMismatch\n"], BadInput),
    ((130, 138, true), &["bad 7 1 BadLine\n"], BadInput),
    ((139, 144, true), &["bad 8 1 BadLine\n"], BadInput),
    ((145, 146, true), &[READ], Accepted),
    (
        (147, 149, true),
        &["refused 1 BadLine\n", READ],
        SomeRefused,
    ),
    ((150, 151, true), &["redone 1\n", REDONE], Accepted),
];

#[test]
fn each_cut(rt: HostRuntime) {
    check_cuts(&rt, rt.alloc(), JOURNAL, INPUT, &[FIRST_LINES, CUTS]);
}
