//! Tests of the calls.

use crate::{
    baliseplan_abi, baliseplan_explain, baliseplan_facts, baliseplan_run, baliseplan_size,
    baliseplan_spell,
};
use std::alloc::Global;
use std::process::Abort;

const PLAN: &[u8] =
    b"plan 1\ngroup\na1007f80a03250900f82ffffffffffffffffffffffffffffffffc0\nedits\nset 5.100 0 0 NID_TSR 0 9\nundo\n";

const REPLIES: &[u8] =
    b"ok 1\nundone 1\nplan 1\ngroup\na1007f80a03250900f82ffffffffffffffffffffffffffffffffc0\n";

const QUIET: &[u8] = b"plan 1\ngroup\na1007f80a03250900f82ffffffffffffffffffffffffffffffffc0\n";

const JOURNAL: &[u8] =
    b"plan 1\ngroup\na1007f80a03250900f82ffffffffffffffffffffffffffffffffc0\njournal 2 2\n1 set b0/0/b0 NID_TSR 0 9 5\nundone 1\n";

const EDITED: &[u8] =
    b"plan 1\ngroup\na1007f80a03250900f82ffffffffffffffffffffffffffffffffc0\nedits\nset 5.100 0 0 NID_TSR 0 9\nseth 5.100 0 M_MCOUNT 254\n";

const FACTS: &[u8] =
    b"facts 1\nedit 1\nchanges b0/0/b0.NID_TSR.0\nedit 2\nchanges b0/0/head.M_MCOUNT\n";

const SECOND: &[u8] = b"facts 1\nedit 2\nchanges b0/0/head.M_MCOUNT\n";

const TAGS: &[u8] = b"facts 1\ngroup 5.100 b0\ntelegram 5.100 0 0\npacket 5.100 0 0 b0\n";

const FIELDS: &[u8] =
    b"packet 33\n0 8 NID_PACKET 0 66\n8 2 Q_DIR 0 1\n10 13 L_PACKET 0 31\n23 8 NID_TSR 0 4\ngroup\n";

const DIGITS: &[u8] = b"packet 33 42403e08\ngroup\n";

/// A call that writes to an output, by its flags, or by its facts and their serial.
#[derive(Clone, Copy)]
enum Call {
    Run(u32),
    Facts(u32, u32),
    Explain,
    Spell,
}

/// A call over an input, with the answer and the text that are due.
#[derive(Clone, Copy)]
struct Row<'a>(Call, &'a [u8], i32, &'a [u8]);

const RUNS: &[Row<'static>] = &[
    Row(Call::Run(0), PLAN, 0, REPLIES),
    Row(Call::Run(1), PLAN, 0, QUIET),
    Row(Call::Run(1 + 4), PLAN, 0, JOURNAL),
    Row(Call::Run(0), b"", 2, b"bad 1 1 BadLine\n"),
    Row(Call::Run(16), PLAN, 64, b""),
];

const FACTS_ROWS: &[Row<'static>] = &[
    Row(Call::Facts(0, 2), EDITED, 0, FACTS),
    Row(Call::Facts(1, 2), EDITED, 0, SECOND),
    Row(Call::Facts(2, 2), EDITED, 0, TAGS),
    Row(Call::Facts(0, 0), b"", 2, b"bad 1 1 BadLine\n"),
    Row(Call::Facts(3, 1), EDITED, 64, b""),
];

const FIELDS_ROWS: &[Row<'static>] = &[
    Row(Call::Explain, DIGITS, 0, FIELDS),
    Row(
        Call::Explain,
        b"packet 33 42403e09\n",
        1,
        b"fault 4 SpareBits - 31 zero\n",
    ),
    Row(Call::Explain, b"", 0, b""),
    Row(Call::Spell, FIELDS, 0, DIGITS),
    Row(
        Call::Spell,
        b"packet 33\nNID_PACKET 66\nQ_DIR 1\n",
        1,
        b"bad 4 Missing NID_TSR\n",
    ),
];

fn make(alloc: Global, call: Call, input: &[u8], output: &mut [u8], written: &mut usize) -> i32 {
    match call {
        Call::Run(flags) => baliseplan_run(alloc, input, flags, output, written),
        Call::Facts(what, serial) => baliseplan_facts(alloc, input, what, serial, output, written),
        Call::Explain => baliseplan_explain(alloc, input, output, written),
        Call::Spell => baliseplan_spell(alloc, input, output, written),
    }
}

fn check(rt: &impl Abort, alloc: Global, row: &Row, output: &mut [u8]) {
    let Row(call, input, answer, text) = *row;
    let mut written = 999;
    let answered = make(alloc, call, input, output, &mut written);
    assert!(rt; (answered == answer) & (written == text.len()));
    assert!(rt; output.starts_with(text));
    assert!(rt; output[written..].iter().all(|byte| *byte == 7));
}

fn check_all(rt: &impl Abort, alloc: Global, rows: &[Row]) {
    for row in rows {
        let mut output = [7; 200];
        check(rt, alloc, row, output.as_mut_slice());
    }
}

/// Over an output that has room for the text alone.
fn check_full(rt: &impl Abort, alloc: Global, row: &Row) {
    let mut output = [7; 200];
    let size = row.3.len();
    assert!(rt; size <= 200);
    check(rt, alloc, row, &mut output[..size]);
}

fn check_size(rt: &impl Abort, alloc: Global, row: &Row) {
    let Row(call, input, answer, text) = *row;
    let Call::Run(flags) = call else {
        return assert!(rt; false);
    };
    let mut size = 999;
    let answered = baliseplan_size(alloc, input, flags, &mut size);
    assert!(rt; (answered == answer) & (size == text.len()));
}

#[test]
fn writes_what_the_program_prints(rt: HostRuntime) {
    check_all(&rt, rt.alloc(), RUNS);
}

#[test]
fn counts_what_the_program_prints(rt: HostRuntime) {
    for row in RUNS {
        check_size(&rt, rt.alloc(), row);
    }
}

#[test]
fn tells_facts(rt: HostRuntime) {
    check_all(&rt, rt.alloc(), FACTS_ROWS);
}

#[test]
fn explains_digits_and_spells_fields(rt: HostRuntime) {
    check_all(&rt, rt.alloc(), FIELDS_ROWS);
}

#[test]
fn writes_a_beginning_to_a_small_output(rt: HostRuntime) {
    let row = Row(Call::Run(0), PLAN, 32, &REPLIES[..81]);
    check_full(&rt, rt.alloc(), &row);
}

#[test]
fn writes_a_beginning_of_facts(rt: HostRuntime) {
    let row = Row(Call::Facts(0, 2), EDITED, 32, &FACTS[..30]);
    check_full(&rt, rt.alloc(), &row);
}

#[test]
fn writes_a_beginning_of_fields_and_of_digits(rt: HostRuntime) {
    let row = Row(Call::Explain, DIGITS, 32, &FIELDS[..20]);
    check_full(&rt, rt.alloc(), &row);
    let row = Row(Call::Spell, FIELDS, 32, &DIGITS[..24]);
    check_full(&rt, rt.alloc(), &row);
}

#[test]
fn has_the_interface_of_its_header(rt: HostRuntime) {
    assert!(rt; baliseplan_abi() == 1);
}
