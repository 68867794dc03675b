//! An input with a turn, an insertion and a strike, cut after each byte.

use crate::tests::runs;
use crate::tests::runs::{PLAIN, Row, push};
use balise_cli::Status::{Accepted, BadInput, SomeRefused};
use balise_cli::{Flags, Status};
use std::alloc::Global;
use std::process::Abort;

/// The plan that is read.
const READ: &str =
    "plan 1\ngroup\na104ff80a032505023a0a0320096047fffffffffffffffffffffc0\na1157f80a0324b0010697fffffffffffffffffffffffffffffffc0\na1247f80a0327fffffffffffffffffffffffffffffffffffffffc0\ngroup\na1007f80a032c15022a07d00326301ffffffffffffffffffffffc0\n";

const COMMANDS: &str = "edits\nturn 5.100\ninsert 5.100 0 0 42403e0a\nstrike 1\n";

/// What a command is answered whose line is cut.
const BAD_LINE: &str = "refused 1 BadLine\n";

/// What the turn is answered, and the plan after it.
const TURN: &str =
    "ok 1\nreview 5.100 1 0 opaque 44\nreview 5.100 2 0 D_TSR 0 200\nreview 5.101 0 0 D_LINK 0 500\n";

const TURNED: &str =
    "plan 1\ngroup\na1047f80a0327fffffffffffffffffffffffffffffffffffffffc0\na114ff80a0324b1010697fffffffffffffffffffffffffffffffc0\na1257f80a032504023a0a0320096047fffffffffffffffffffffc0\ngroup\na1007f80a032c15022a07d00322301ffffffffffffffffffffffc0\n";

/// What the insertion is answered, and the plan after it.
const OK: &str = "ok 2\n";

const PUT_IN: &str =
    "plan 1\ngroup\na1047f80a03250900f82ffffffffffffffffffffffffffffffffc0\na114ff80a0324b1010697fffffffffffffffffffffffffffffffc0\na1257f80a032504023a0a0320096047fffffffffffffffffffffc0\ngroup\na1007f80a032c15022a07d00322301ffffffffffffffffffffffc0\n";

/// A run of lengths, from the first up to the last, all of them or each second one.
type Lengths = (usize, usize, bool);

/// What is printed, part by part, and how the run ends, if these numbers of bytes are left of the input.
pub(crate) type Cut = (Lengths, &'static [&'static str], Status);

/// In the first three lines of a plan. The third has a telegram of 210 bits.
pub(crate) const FIRST_LINES: &[Cut] = &[
    ((0, 5, true), &["bad 1 1 BadLine\n"], BadInput),
    ((6, 11, true), &["bad 2 1 BadLine\n"], BadInput),
    ((12, 13, true), &["bad 2 10 GroupSize\n"], BadInput),
    ((14, 66, false), &["bad 3 2 BadHex\n"], BadInput),
    ((15, 65, false), &["bad 3 3 BadLength\n"], BadInput),
];

const CUTS: &[Cut] = &[
    ((67, 68, true), &["bad 2 11 HeaderDisagrees\n"], BadInput),
    ((69, 121, false), &["bad 4 2 BadHex\n"], BadInput),
    ((70, 120, false), &["bad 4 3 BadLength\n"], BadInput),
    ((122, 123, true), &["bad 2 11 HeaderDisagrees\n"], BadInput),
    ((124, 176, false), &["bad 5 2 BadHex\n"], BadInput),
    ((125, 175, false), &["bad 5 3 BadLength\n"], BadInput),
    ((177, 178, true), &["bad 6 1 BadLine\n"], BadInput),
    ((179, 182, true), &["bad 6 2 BadHex\n"], BadInput),
    ((183, 184, true), &["bad 6 10 GroupSize\n"], BadInput),
    ((185, 237, false), &["bad 7 2 BadHex\n"], BadInput),
    ((186, 236, false), &["bad 7 3 BadLength\n"], BadInput),
    ((238, 239, true), &["bad 8 1 BadLine\n"], BadInput),
    ((240, 242, false), &["bad 8 2 BadHex\n"], BadInput),
    ((241, 241, true), &["bad 8 3 BadLength\n"], BadInput),
    ((243, 243, true), &["bad 8 2 BadHex\n"], BadInput),
    ((244, 245, true), &[READ], Accepted),
    ((246, 252, true), &[BAD_LINE, READ], SomeRefused),
    (
        (253, 254, true),
        &["refused 14 NoSuchGroup\n", READ],
        SomeRefused,
    ),
    ((255, 256, true), &[TURN, TURNED], Accepted),
    ((257, 273, true), &[TURN, BAD_LINE, TURNED], SomeRefused),
    (
        (274, 280, false),
        &[TURN, "refused 2 BadHex\n", TURNED],
        SomeRefused,
    ),
    (
        (275, 279, false),
        &[TURN, "refused 7 PacketCut\n", TURNED],
        SomeRefused,
    ),
    ((281, 282, true), &[TURN, OK, PUT_IN], Accepted),
    ((283, 289, true), &[TURN, OK, BAD_LINE, PUT_IN], SomeRefused),
    (
        (290, 291, true),
        &[TURN, OK, "refused 26 DependsOn 2\n", PUT_IN],
        SomeRefused,
    ),
];

fn holds(lengths: Lengths, length: usize) -> bool {
    let (first, last, is_each) = lengths;
    first <= length && length <= last && (is_each || length % 2 == first % 2)
}

/// That a run over this input prints the parts of a row, and ends as it says.
fn check_cut(rt: &impl Abort, alloc: Global, flags: Flags, input: &[u8], cut: &Cut) {
    let (_, parts, status) = *cut;
    let mut output = String::new(alloc);
    for part in parts.iter() {
        push(rt, &mut output, *part);
    }
    let row = Row {
        flags,
        input,
        output: output.as_bytes(),
        status,
    };
    runs::check(rt, alloc, &row, 1);
    runs::check(rt, alloc, &row, 4096);
}

/// Looks at the rows that hold the length of an input, and returns how many there are.
fn check_length(
    rt: &impl Abort,
    alloc: Global,
    flags: Flags,
    input: &[u8],
    tables: &[&[Cut]],
) -> u32 {
    let mut rows: u32 = 0;
    for cuts in tables {
        for cut in cuts.iter() {
            if holds(cut.0, input.len()) {
                rows = rows.saturating_add(1);
                check_cut(rt, alloc, flags, input, cut);
            }
        }
    }
    rows
}

/// That each length is in one row of the tables, and that what stands there is printed.
pub(crate) fn check_cuts(
    rt: &impl Abort,
    alloc: Global,
    flags: Flags,
    input: &[u8],
    tables: &[&[Cut]],
) {
    for length in 0..=input.len() {
        let input = input.get(..length).unwrap_or(&[]);
        assert!(rt; check_length(rt, alloc, flags, input, tables) == 1);
    }
}

#[test]
fn each_cut(rt: HostRuntime) {
    let mut input = String::new(rt.alloc());
    push(&rt, &mut input, READ);
    push(&rt, &mut input, COMMANDS);
    let tables = &[FIRST_LINES, CUTS];
    check_cuts(&rt, rt.alloc(), PLAIN, input.as_bytes(), tables);
}
