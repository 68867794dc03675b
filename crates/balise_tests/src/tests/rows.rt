//! Whole runs: what is printed for an input, however few bytes a read gives.

#[cfg(test)]
mod damaged;
#[cfg(test)]
mod edges;
#[cfg(test)]
mod edits;
#[cfg(test)]
mod journals;
#[cfg(test)]
mod plans;
#[cfg(test)]
mod strikes;

use crate::tests::runs;
use balise_cli::{Flags, Status};
use std::alloc::Global;
use std::process::Abort;

/// An input with its flags, and what a run over it prints and ends with.
pub(crate) struct Row {
    pub(crate) flags: Flags,
    pub(crate) input: &'static str,
    pub(crate) output: &'static str,
    pub(crate) status: Status,
}

/// How many bytes a read gives.
const STEPS: &[usize] = &[1, 2, 3, 4096];

/// Runs over an input, by reads of each of these lengths.
fn check(rt: &impl Abort, alloc: Global, row: &Row) {
    let row = runs::Row {
        flags: row.flags,
        input: row.input.as_bytes(),
        output: row.output.as_bytes(),
        status: row.status,
    };
    for step in STEPS.iter() {
        runs::check(rt, alloc, &row, *step);
    }
}

// Runs over each input of a table.
fn check_all(rt: &impl Abort, alloc: Global, rows: &[Row]) {
    for row in rows {
        check(rt, alloc, row);
    }
}

#[test]
fn rows_of_edges(rt: HostRuntime) {
    check_all(&rt, rt.alloc(), edges::ROWS);
}

#[test]
fn rows_of_edits(rt: HostRuntime) {
    check_all(&rt, rt.alloc(), edits::ROWS);
}

#[test]
fn rows_of_journals(rt: HostRuntime) {
    check_all(&rt, rt.alloc(), journals::ROWS);
}

#[test]
fn rows_of_plans(rt: HostRuntime) {
    check_all(&rt, rt.alloc(), plans::ROWS);
}

#[test]
fn rows_of_strikes(rt: HostRuntime) {
    check_all(&rt, rt.alloc(), strikes::ROWS);
}
