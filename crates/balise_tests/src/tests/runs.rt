//! Runs over an input, with what they print and end with.

use crate::tests::repeated::Repeated;
use balise_cli::{Counted, Flags, RunFault, Status, run};
use balise_devices::Slow;
use std::alloc::Global;
use std::process::Abort;

pub(crate) const PLAIN: Flags = Flags {
    quiet: false,
    stop: false,
    journal: false,
    json: false,
};

pub(crate) const QUIET: Flags = Flags {
    quiet: true,
    ..PLAIN
};

pub(crate) const JOURNAL: Flags = Flags {
    journal: true,
    ..PLAIN
};

/// An input with its flags, and what a run over it prints and ends with.
#[derive(Clone, Copy)]
pub(crate) struct Row<'a> {
    pub(crate) flags: Flags,
    pub(crate) input: &'a [u8],
    pub(crate) output: &'a [u8],
    pub(crate) status: Status,
}

/// Runs over an input, by reads of `step` bytes.
pub(crate) fn check(rt: &impl Abort, alloc: Global, row: &Row, step: usize) {
    let mut writer = Counted::new(Vec::new(alloc));
    let ended = run_slowly(alloc, row, step, &mut writer);
    check_ended(rt, ended, row.status);
    check_text(rt, &writer, row.output);
}

/// Runs over an input that is read at once, with what it prints.
pub(crate) fn check_at_once(
    rt: &impl Abort,
    alloc: Global,
    flags: Flags,
    texts: (&str, &str),
    status: Status,
) {
    let (input, output) = texts;
    let row = Row {
        flags,
        input: input.as_bytes(),
        output: output.as_bytes(),
        status,
    };
    check(rt, alloc, &row, 4096);
}

fn run_slowly(
    alloc: Global,
    row: &Row,
    step: usize,
    writer: &mut Counted<Vec<u8>>,
) -> Result<Status, RunFault> {
    let mut reader = Slow::new(row.input, step);
    run(alloc, &mut reader, writer, row.flags)
}

pub(crate) fn check_ended(rt: &impl Abort, ended: Result<Status, RunFault>, status: Status) {
    assert!(rt; ended == Ok(status));
}

/// That this was written.
pub(crate) fn check_text(rt: &impl Abort, writer: &Counted<Vec<u8>>, text: &[u8]) {
    assert!(rt; writer.inner().as_slice() == text);
}

/// Runs over a text and over a part that is repeated.
pub(crate) fn run_often(
    alloc: Global,
    text: (&[u8], &[u8], u64),
    writer: &mut Counted<Vec<u8>>,
    flags: Flags,
) -> Result<Status, RunFault> {
    let (front, part, times) = text;
    let mut reader = Repeated::new(front, part, times);
    run(alloc, &mut reader, writer, flags)
}

/// Adds to a text.
pub(crate) fn push(rt: &impl Abort, text: &mut String, more: &str) {
    text.push_str(more).expect(rt, "memory");
}
