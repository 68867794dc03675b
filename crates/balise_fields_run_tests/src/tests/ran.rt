//! Runs either way over a text, and what they end with.

use balise_devices::{Failure, Narrow, Slow};
use balise_fields_run::{Counted, RunFault, Status, Way, explain_lines, run, spell_lines};
use std::alloc::Global;
use std::io::ErrorKind;
use std::process::Abort;

/// What goes in and what comes out.
#[derive(Clone, Copy)]
pub(crate) struct Texts<'a> {
    pub(crate) way: Way,
    pub(crate) input: &'a str,
    pub(crate) output: &'a str,
}

/// The texts of a run this way.
pub(crate) fn texts_of<'a>(way: Way, input: &'a str, output: &'a str) -> Texts<'a> {
    Texts { way, input, output }
}

/// Runs by reads of `step` bytes, and checks what is printed and the status.
pub(crate) fn check(rt: &impl Abort, alloc: Global, texts: &Texts, step: usize, status: Status) {
    let mut reader = Slow::new(texts.input.as_bytes(), step);
    let mut writer = Counted::new(Vec::new(alloc));
    let ended = run(alloc, texts.way, &mut reader, &mut writer);
    assert!(rt; ended == Ok(status));
    assert!(rt; writer.inner().as_slice() == texts.output.as_bytes());
}

// Runs where the calls of these numbers fail, none for 0, and checks the fault and that a beginning was written.
fn check_failing(
    rt: &impl Abort,
    alloc: Global,
    texts: &Texts,
    calls: (u64, u64),
    fault: RunFault,
) {
    let mut reader = Slow::failing(texts.input.as_bytes(), 20, calls.0, ErrorKind::Other);
    let mut writer = Narrow::new(alloc, 3, calls.1, Failure::Error(ErrorKind::Other));
    let ended = run(alloc, texts.way, &mut reader, &mut writer);
    assert!(rt; ended == Err(fault));
    let written = writer.inner().text.as_slice();
    assert!(rt; texts.output.as_bytes().starts_with(written));
}

/// Runs where each of the first reads fails, and then each of the first writes.
pub(crate) fn check_all_failing(
    rt: &impl Abort,
    alloc: Global,
    texts: &Texts,
    reads: u64,
    writes: u64,
) {
    for call in 0..reads {
        check_failing(rt, alloc, texts, (call + 1, 0), RunFault::ReadFault);
    }
    for call in 0..writes {
        check_failing(rt, alloc, texts, (0, call + 1), RunFault::WriteFault);
    }
}

#[test]
fn each_way_has_a_call(rt: HostRuntime) {
    let alloc = rt.alloc();
    let mut writer = Counted::new(Vec::new(alloc));
    let mut plan = Slow::new(b"plan 1\n", 3);
    assert!(rt; explain_lines(alloc, &mut plan, &mut writer) == Ok(Status::AllDone));
    let mut item = Slow::new(b"packet 33\n", 3);
    assert!(rt; spell_lines(alloc, &mut item, &mut writer) == Ok(Status::SomeRefused));
    let written = writer.inner().as_slice();
    assert!(rt; written == b"plan 1\nbad 2 Missing NID_PACKET\n".as_slice());
}
