//! `balisefacts` over its words: what it writes on each stream, and its exit status.

use crate::tests::rows::{OTHERS, ROWS, Row};
use balise_devices::arguments;
use balise_facts_cli::{Balisefacts, Counted, Exit, Refusal, launch};
use std::alloc::Global;
use std::env::Args;
use std::io::BufWriter;
use std::process::Abort;

fn buffered(rt: &impl Abort, alloc: Global) -> Counted<BufWriter<Vec<u8>>> {
    Counted::new(BufWriter::new(alloc, Vec::new(alloc)).expect(rt, "memory"))
}

fn check_exit(rt: &impl Abort, exit: Exit, code: u8, fault: Option<Refusal>) {
    assert!(rt; exit.code == code);
    assert!(rt; exit.fault == fault);
}

fn check_errors(rt: &impl Abort, errors: &Counted<Vec<u8>>, text: &str) {
    assert!(rt; errors.inner().as_slice() == text.as_bytes());
}

/// That this was written and flushed, and not more.
fn check_output(rt: &impl Abort, writer: &Counted<BufWriter<Vec<u8>>>, text: &str) {
    assert!(rt; writer.inner().get_ref().as_slice() == text.as_bytes());
}

fn check_read(rt: &impl Abort, left: usize, row: &Row) {
    assert!(rt; (left < row.input.len()) == row.reads);
}

fn check_row(rt: &impl Abort, alloc: Global, row: &Row, words: Args) {
    let mut reader = Counted::new(row.input.as_bytes());
    let mut writer = buffered(rt, alloc);
    let mut errors = Counted::new(Vec::new(alloc));
    let exit = launch::<Balisefacts, _, _, _>(
        alloc,
        Ok(words),
        &mut reader,
        &mut writer,
        &mut errors,
    );
    check_exit(rt, exit, row.code, row.fault);
    check_output(rt, &writer, row.output);
    check_errors(rt, &errors, row.errors);
    check_read(rt, reader.inner().len(), row);
}

#[test]
fn words_with_an_input(rt: HostRuntime) {
    for row in ROWS.iter() {
        let words = arguments(rt.alloc(), row.words).expect(&rt, "memory");
        check_row(&rt, rt.alloc(), row, words);
    }
}

fn check_other(rt: &impl Abort, alloc: Global, words: &[&str]) {
    let mut reader = Counted::new(b"plan 1\nedits\n".as_slice());
    let mut writer = buffered(rt, alloc);
    let mut errors = Counted::new(Vec::new(alloc));
    let words = Ok(arguments(alloc, words).expect(rt, "memory"));
    let exit = launch::<Balisefacts, _, _, _>(alloc, words, &mut reader, &mut writer, &mut errors);
    check_exit(rt, exit, 64, None);
    check_output(rt, &writer, "");
    assert!(rt; errors.inner().as_slice().starts_with(b"error: "));
}

#[test]
fn other_words(rt: HostRuntime) {
    for words in OTHERS.iter() {
        check_other(&rt, rt.alloc(), *words);
    }
}
