//! More plans that are refused on a line, and one whose last line has no end.

use crate::tests::runs::{PLAIN, check_at_once};
use balise_cli::Status;

const LONG_INPUT: &str =
    "plan 1\ngroup\na1007f80a0327ffffffffffffffffffffffffffffffffffffffffffffffffffffffffffffffffffffffffffffffffffffffffffffffffffffffffffffffffffffffffffffffffffffffffffffffffffffffffffffffffffffffffffffffffffffffffffffffffffc\nedits";

const LONG_OUTPUT: &str =
    "plan 1\ngroup\na1007f80a0327ffffffffffffffffffffffffffffffffffffffffffffffffffffffffffffffffffffffffffffffffffffffffffffffffffffffffffffffffffffffffffffffffffffffffffffffffffffffffffffffffffffffffffffffffffffffffffffffffffc\n";

const REFUSED: &[(&str, &str)] = &[
    ("plan 2\n", "bad 1 1 BadLine\n"),
    ("plan 1", "bad 2 1 BadLine\n"),
    ("plan 1\njournal 1 2\n", "bad 3 1 BadLine\n"),
    ("plan 1\njournal 3 0\nedits\n", "bad 2 1 BadLine\n"),
    ("plan 1\njournal 1 0\nedits\n", "bad 2 27 JournalMismatch\n"),
    (
        "plan 1\njournal 2 2\nundone 1\nedits\n",
        "bad 3 27 JournalMismatch\n",
    ),
    (
        "plan 1\njournal 1 2\nundone 1\nedits\n",
        "bad 3 1 BadLine\n",
    ),
    ("plan 1\njournal 1 2\ngroup\nedits\n", "bad 3 1 BadLine\n"),
    (
        "plan 1\ngroup\na1007f80a0327fffffffffffffffffffffffffffffffffffffffc\nedits\n",
        "bad 3 2 BadHex\n",
    ),
    (
        "plan 1\ngroup\na1047f80a0327fffffffffffffffffffffffffffffffffffffffc0\nedits\n",
        "bad 2 11 HeaderDisagrees\n",
    ),
    (
        "plan 1\ngroup\na1007f80bfffffffffffffffffffffffffffffffffffffffffffc0\n",
        "bad 2 12 NumberReserved\n",
    ),
    (
        "plan 1\ngroup\na1007f80a0327fffffffffffffffffffffffffffffffffffffffc0\njournal 1 2\n",
        "bad 5 1 BadLine\n",
    ),
    (
        "plan 1\ngroup\na1007f80a0327fffffffffffffffffffffffffffffffffffffffc0\na1007f80a0327fffffffffffffffffffffffffffffffffffffffc0\n",
        "bad 2 11 HeaderDisagrees\n",
    ),
];

#[test]
fn last_line_without_end(rt: HostRuntime) {
    let texts = (LONG_INPUT, LONG_OUTPUT);
    check_at_once(&rt, rt.alloc(), PLAIN, texts, Status::Accepted);
}

#[test]
fn refuses_plans(rt: HostRuntime) {
    for (input, output) in REFUSED.iter() {
        check_at_once(&rt, rt.alloc(), PLAIN, (*input, *output), Status::BadInput);
    }
}
