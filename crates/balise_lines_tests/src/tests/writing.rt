//! Texts by a writer that takes three bytes a call, and what is counted.

use balise_devices::{Failure, Narrow};
use balise_lines::{Counted, LineFault, WriteFault, put};
use std::alloc::Global;
use std::io;
use std::io::{BufWriter, Write};
use std::process::Abort;

const TEXT: &[u8] = b"refused 1 BadLine\n";

/// That the write of a number failed, and only what was written before it is there.
fn check_failed(rt: &impl Abort, writer: &Counted<Narrow>, fails_at: u64) {
    let text = writer.inner().text.as_slice();
    assert!(rt; writer.failed() == 1);
    assert!(rt; fails_at >= 1 && fails_at <= 6);
    assert!(rt; text.len() as u64 == 3 * (fails_at - 1));
    assert!(rt; TEXT.starts_with(text));
}

/// That all of the text was written.
fn check_done(rt: &impl Abort, writer: &Counted<Narrow>) {
    assert!(rt; writer.failed() == 0);
    assert!(rt; writer.inner().text.as_slice() == TEXT);
}

fn check_write(rt: &impl Abort, alloc: Global, failure: Failure, fails_at: u64) {
    let mut writer = Narrow::new(alloc, 3, fails_at, failure);
    let done = put(&mut writer, TEXT);
    if fails_at <= 6 {
        assert!(rt; done == Err(WriteFault::Write));
        check_failed(rt, &writer, fails_at);
    } else {
        assert!(rt; done == Ok(()));
        check_done(rt, &writer);
    }
}

#[test]
fn each_write_fails(rt: HostRuntime) {
    let alloc = rt.alloc();
    for fails_at in 1..9u64 {
        check_write(&rt, alloc, Failure::Error(io::ErrorKind::Other), fails_at);
        let interrupted = Failure::Error(io::ErrorKind::Interrupted);
        check_write(&rt, alloc, interrupted, fails_at);
        check_write(&rt, alloc, Failure::TakesNone, fails_at);
    }
}

#[test]
fn empty_text(rt: HostRuntime) {
    let mut writer = Narrow::new(rt.alloc(), 3, 1, Failure::TakesNone);
    assert!(rt; put(&mut writer, b"") == Ok(()));
    assert!(rt; writer.inner().calls == 0);
}

/// That a write of some bytes that takes none is counted, and no other call here.
fn check_writes(rt: &impl Abort, writer: &mut Counted<Narrow>) {
    assert!(rt; writer.write(b"").expect(rt, "memory") == 0);
    assert!(rt; writer.failed() == 0);
    assert!(rt; writer.write(b"ok").expect(rt, "memory") == 0);
    assert!(rt; writer.failed() == 1);
    writer.flush().expect(rt, "memory");
    assert!(rt; writer.failed() == 1);
}

/// That a flush that fails is counted.
fn check_flush(rt: &impl Abort, writer: &mut Counted<Narrow>) {
    assert!(rt; writer.flush().is_err());
    assert!(rt; writer.failed() == 1);
}

#[test]
fn counts(rt: HostRuntime) {
    let mut writer = Narrow::new(rt.alloc(), 3, 2, Failure::TakesNone);
    check_writes(&rt, &mut writer);
}

#[test]
fn counts_a_flush(rt: HostRuntime) {
    let mut writer = Narrow::new(rt.alloc(), 3, 1, Failure::TakesNone);
    check_flush(&rt, &mut writer);
    assert!(rt; writer.into_inner().calls == 1);
}

/// The text in a buffer, over a writer that takes three bytes a call.
fn buffered(rt: &impl Abort, alloc: Global, fails_at: u64) -> Counted<BufWriter<Narrow>> {
    let narrow = Narrow::new(alloc, 3, fails_at, Failure::TakesNone).into_inner();
    let mut writer = Counted::new(BufWriter::new(alloc, narrow).expect(rt, "memory"));
    put(&mut writer, TEXT).expect(rt, "memory");
    writer
}

/// That the text is written by six calls and a flush, and that a failed one is counted.
fn check_flushed(rt: &impl Abort, writer: &mut Counted<BufWriter<Narrow>>, fails_at: u64) {
    assert!(rt; writer.inner().get_ref().calls == 0);
    let done = writer.flush_buffer().is_ok();
    assert!(rt; done == (fails_at > 7));
    assert!(rt; writer.failed() == u64::from(!done));
    let text = writer.inner().get_ref().text.as_slice();
    assert!(rt; text == TEXT || fails_at <= 6);
    assert!(rt; TEXT.starts_with(text));
}

#[test]
fn flushes_a_buffer(rt: HostRuntime) {
    for fails_at in 1..9u64 {
        let mut writer = buffered(&rt, rt.alloc(), fails_at);
        check_flushed(&rt, &mut writer, fails_at);
    }
}

#[test]
fn faults_by_name(rt: HostRuntime) {
    let words = LineFault::TooLong.to_string(rt.alloc());
    assert!(rt; words.expect(&rt, "memory").as_str() == "a line or the input is too long");
    let words = LineFault::Read.to_string(rt.alloc());
    assert!(rt; words.expect(&rt, "memory").as_str() == "the reader failed");
    let words = WriteFault::Write.to_string(rt.alloc());
    assert!(rt; words.expect(&rt, "memory").as_str() == "the writer failed");
}
