//! Runs that print facts of the session in place of the plan.

use crate::tests::runs::{check_ended, check_text};
use balise_cli::{Counted, Facts, RunFault, Status, facts_asked, run_facts, work};
use balise_devices::{Failure, Narrow, Slow};
use std::alloc::Global;
use std::io::BufWriter;
use std::process::Abort;

/// Facts that are asked for of an input, and what is printed of them.
struct Row {
    facts: Facts,
    input: &'static str,
    output: &'static str,
    status: Status,
}

/// The second edit depends on the first, and the third doesn't. A refused command is shown, and the run goes on.
const EDITED: &str =
    "plan 1\ngroup\na1007f80a03250900f82ffffffffffffffffffffffffffffffffc0\nedits\nset 5.100 0 0 NID_TSR 0 9\nset 5.100 0 0 NID_TSR 0 8\nredo\nseth 5.100 0 M_MCOUNT 254\n";

const ROWS: &[Row] = &[
    Row {
        facts: Facts::Edits,
        input: EDITED,
        output: "refused 24 NothingToRedo\nfacts 1\nedit 1\nchanges b0/0/b0.NID_TSR.0\ndependent 2\nedit 2\nchanges b0/0/b0.NID_TSR.0\nedit 3\nchanges b0/0/head.M_MCOUNT\n",
        status: Status::SomeRefused,
    },
    Row {
        facts: Facts::Edit(3),
        input: EDITED,
        output: "refused 24 NothingToRedo\nfacts 1\nedit 3\nchanges b0/0/head.M_MCOUNT\n",
        status: Status::SomeRefused,
    },
    Row {
        facts: Facts::Tags,
        input: "plan 1\nedits\n",
        output: "facts 1\n",
        status: Status::Accepted,
    },
    Row {
        facts: Facts::Tags,
        input: "plan 1\ngroup\nedits\n",
        output: "bad 2 10 GroupSize\n",
        status: Status::BadInput,
    },
];

fn run_row(alloc: Global, row: &Row, writer: &mut Counted<Vec<u8>>) -> Result<Status, RunFault> {
    let mut reader = Slow::new(row.input.as_bytes(), 7);
    run_facts(alloc, &mut reader, writer, row.facts)
}

fn check_run(rt: &impl Abort, alloc: Global, row: &Row) {
    let mut writer = Counted::new(Vec::new(alloc));
    let ended = run_row(alloc, row, &mut writer);
    check_ended(rt, ended, row.status);
    check_text(rt, &writer, row.output.as_bytes());
}

#[test]
fn facts_in_place_of_the_plan(rt: HostRuntime) {
    for row in ROWS.iter() {
        check_run(&rt, rt.alloc(), row);
    }
}

fn work_row(alloc: Global, row: &Row, writer: &mut Counted<BufWriter<Narrow>>) -> u8 {
    let mut reader = Slow::new(row.input.as_bytes(), 4096);
    work(alloc, facts_asked(row.facts), &mut reader, writer).code
}

/// That a row's run and flush end so. The writer takes three bytes a call, and fails at the call of this number.
fn check_work(rt: &impl Abort, alloc: Global, row: &Row, fails_at: u64, text: &str, code: u8) {
    let narrow = Narrow::new(alloc, 3, fails_at, Failure::TakesNone).into_inner();
    let mut writer = Counted::new(BufWriter::new(alloc, narrow).expect(rt, "memory"));
    assert!(rt; work_row(alloc, row, &mut writer) == code);
    assert!(rt; writer.inner().get_ref().text.as_slice() == text.as_bytes());
}

#[test]
fn facts_are_flushed(rt: HostRuntime) {
    for row in ROWS.iter() {
        check_work(&rt, rt.alloc(), row, 0, row.output, row.status.code());
    }
    check_work(&rt, rt.alloc(), &ROWS[2], 2, "fac", 3);
}
