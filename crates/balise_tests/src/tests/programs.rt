//! `baliseplan` over its words: what it writes on each stream, and its exit status.

use crate::tests::runs::PLAIN;
use balise_cli::{
    Counted, Exit, Refusal, asked_by, launch, report, start, stop_without_memory, work,
};
use balise_devices::{Failure, Narrow, Slow, arguments};
use std::alloc::Global;
use std::env::Args;
use std::io;
use std::io::{BufWriter, ErrorKind};
use std::process::Abort;

/// Words with an input, and what they write and end with.
struct Row {
    words: &'static [&'static str],
    input: &'static str,
    output: &'static str,
    errors: &'static str,
    exit: Exit,
}

const ROWS: &[Row] = &[
    Row {
        words: &["baliseplan", "--quiet"],
        input: "plan 1\nedits\n",
        output: "plan 1\n",
        errors: "",
        exit: Exit {
            code: 0,
            fault: None,
        },
    },
    Row {
        words: &["baliseplan", "--journal", "--json"],
        input: "plan 1\nedits\nundo\nredo\n",
        output: "refused 23 NothingToUndo\nrefused 24 NothingToRedo\nplan 1\njournal 2 1\n",
        errors: "",
        exit: Exit {
            code: 1,
            fault: None,
        },
    },
    Row {
        words: &["baliseplan", "--stop"],
        input: "plan 1\nedits\nundo\nredo\n",
        output: "refused 23 NothingToUndo\nplan 1\n",
        errors: "",
        exit: Exit {
            code: 1,
            fault: None,
        },
    },
    Row {
        words: &["baliseplan"],
        input: "plan 2\n",
        output: "bad 1 1 BadLine\n",
        errors: "",
        exit: Exit {
            code: 2,
            fault: None,
        },
    },
    Row {
        words: &["baliseplan", "--version"],
        input: "plan 1\nedits\n",
        output: "",
        errors: "error: unexpected argument '--version' found\n\nUsage: baliseplan [OPTIONS]\n\nFor more information, try '--help'.\n",
        exit: Exit {
            code: 64,
            fault: None,
        },
    },
];

/// A buffer over a writer that fails at the call of a number.
fn buffered(rt: &impl Abort, alloc: Global, fails_at: u64) -> Counted<BufWriter<Narrow>> {
    let narrow = Narrow::new(alloc, 4096, fails_at, Failure::TakesNone).into_inner();
    Counted::new(BufWriter::new(alloc, narrow).expect(rt, "memory"))
}

fn check_exit(rt: &impl Abort, exit: Exit, wanted: Exit) {
    assert!(rt; exit == wanted);
}

/// That this has reached the device.
fn check_output(rt: &impl Abort, writer: &Counted<BufWriter<Narrow>>, text: &str) {
    assert!(rt; writer.inner().get_ref().text.as_slice() == text.as_bytes());
}

fn check_errors(rt: &impl Abort, errors: &Counted<Vec<u8>>, text: &str) {
    assert!(rt; errors.inner().as_slice() == text.as_bytes());
}

fn start_row(
    alloc: Global,
    row: &Row,
    writer: &mut Counted<BufWriter<Narrow>>,
    errors: &mut Counted<Vec<u8>>,
) -> Exit {
    let mut reader = Slow::new(row.input.as_bytes(), 4096);
    start(alloc, row.words, &mut reader, writer, errors)
}

/// Starts a row as `start_row` does, but with owned words, as the system hands them over.
fn launch_row(
    alloc: Global,
    row: &Row,
    words: io::Result<Args>,
    writer: &mut Counted<BufWriter<Narrow>>,
    errors: &mut Counted<Vec<u8>>,
) -> Exit {
    let mut reader = Slow::new(row.input.as_bytes(), 4096);
    launch(alloc, words, &mut reader, writer, errors)
}

fn check_started(rt: &impl Abort, alloc: Global, row: &Row) {
    let mut writer = buffered(rt, alloc, 0);
    let mut errors = Counted::new(Vec::new(alloc));
    check_exit(
        rt,
        start_row(alloc, row, &mut writer, &mut errors),
        row.exit,
    );
    check_output(rt, &writer, row.output);
    check_errors(rt, &errors, row.errors);
}

fn check_launched(rt: &impl Abort, alloc: Global, row: &Row) {
    let mut writer = buffered(rt, alloc, 0);
    let mut errors = Counted::new(Vec::new(alloc));
    let words = Ok(arguments(alloc, row.words).expect(rt, "memory"));
    check_exit(
        rt,
        launch_row(alloc, row, words, &mut writer, &mut errors),
        row.exit,
    );
    check_output(rt, &writer, row.output);
    check_errors(rt, &errors, row.errors);
}

#[test]
fn starts_and_launches(rt: HostRuntime) {
    for row in ROWS.iter() {
        check_started(&rt, rt.alloc(), row);
        check_launched(&rt, rt.alloc(), row);
    }
}

/// That help is the only text, and nothing was read.
fn check_help(rt: &impl Abort, alloc: Global, reader: &mut Counted<Slow<'_>>) {
    let mut writer = buffered(rt, alloc, 0);
    let mut errors = Counted::new(Vec::new(alloc));
    let words = &["baliseplan", "--help"];
    let exit = start(alloc, words, reader, &mut writer, &mut errors);
    check_exit(rt, exit, ROWS[0].exit);
    check_errors(rt, &errors, "");
    let text = writer.inner().get_ref().text.as_slice();
    assert!(rt; text.starts_with(b"baliseplan 0.1.0: edits a plan"));
}

#[test]
fn helps(rt: HostRuntime) {
    let mut reader = Slow::new(b"plan 1\n", 4096);
    check_help(&rt, rt.alloc(), &mut reader);
    assert!(rt; reader.inner().calls == 0);
}

const READ_FAULT: Exit = Exit {
    code: 3,
    fault: Some(Refusal::ReadFault),
};

const WRITE_FAULT: Exit = Exit {
    code: 3,
    fault: Some(Refusal::WriteFault),
};

const NO_MEMORY: Exit = Exit {
    code: 3,
    fault: Some(Refusal::OutOfMemory),
};

/// The second read fails: the reply to the one command that came is flushed.
#[test]
fn a_read_fails(rt: HostRuntime) {
    let alloc = rt.alloc();
    let mut writer = buffered(&rt, alloc, 0);
    let mut reader = Slow::failing(b"plan 1\nedits\nundo\n", 4096, 2, ErrorKind::Other);
    let exit = work(alloc, asked_by(PLAIN), &mut reader, &mut writer);
    check_exit(&rt, exit, READ_FAULT);
    check_output(&rt, &writer, "refused 23 NothingToUndo\n");
}

/// All is written by the flush, which fails.
#[test]
fn a_flush_fails(rt: HostRuntime) {
    let alloc = rt.alloc();
    let mut writer = buffered(&rt, alloc, 1);
    let mut reader = Slow::new(b"plan 1\nedits\n", 4096);
    let exit = work(alloc, asked_by(PLAIN), &mut reader, &mut writer);
    check_exit(&rt, exit, WRITE_FAULT);
    check_output(&rt, &writer, "");
}

fn check_report(rt: &impl Abort, alloc: Global, exit: Exit, text: &str) {
    let mut errors = Counted::new(Vec::new(alloc));
    assert!(rt; report(&mut errors, exit).is_ok());
    check_errors(rt, &errors, text);
}

#[test]
fn reports(rt: HostRuntime) {
    let alloc = rt.alloc();
    check_report(&rt, alloc, READ_FAULT, "fault 31 ReadFault\n");
    check_report(&rt, alloc, WRITE_FAULT, "fault 32 WriteFault\n");
    check_report(&rt, alloc, ROWS[1].exit, "");
}

#[test]
fn stops_without_memory(rt: HostRuntime) {
    let mut errors = Counted::new(Vec::new(rt.alloc()));
    check_exit(&rt, stop_without_memory(&mut errors), NO_MEMORY);
    check_errors(&rt, &errors, "fault 30 OutOfMemory\n");
}

/// That a command line that can't be had ends the program so, without a run.
fn check_no_words(rt: &impl Abort, alloc: Global, kind: ErrorKind, wanted: Exit, text: &str) {
    let mut writer = buffered(rt, alloc, 0);
    let mut errors = Counted::new(Vec::new(alloc));
    let words = Err(io::Error::from(kind));
    let exit = launch_row(alloc, &ROWS[0], words, &mut writer, &mut errors);
    check_exit(rt, exit, wanted);
    check_output(rt, &writer, "");
    check_errors(rt, &errors, text);
}

#[test]
fn no_words(rt: HostRuntime) {
    let alloc = rt.alloc();
    let (none, bad) = (ErrorKind::OutOfMemory, ErrorKind::InvalidData);
    check_no_words(&rt, alloc, none, NO_MEMORY, "fault 30 OutOfMemory\n");
    let text = "error: an argument is not UTF-8\n";
    check_no_words(&rt, alloc, bad, ROWS[4].exit, text);
}
