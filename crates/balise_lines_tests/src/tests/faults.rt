//! Readers that fail.

use crate::tests::ends::{LAST, LINE};
use balise_devices::Slow;
use balise_lines::{Counted, LineFault, Lines, Next};
use std::io;
use std::process::Abort;

const INPUT: &[u8] = b"plan 1\n\ngroup";

const LINES: [(&[u8], Next); 3] = [(b"plan 1", LINE), (b"", LINE), (b"group", LAST)];

/// That a read failed, and no line was read.
fn check_failed(rt: &impl Abort, lines: &Lines, reader: &Counted<Slow<'_>>) {
    assert!(rt; lines.line() == b"".as_slice());
    assert!(rt; reader.failed() == 1);
}

/// One read fails, and the call after it gives the line that was asked for.
fn check_read(rt: &impl Abort, kind: io::ErrorKind, fails_at: u64) {
    let mut reader = Slow::failing(INPUT, 2, fails_at, kind);
    let mut lines = Lines::new();
    let mut faults = 0u8;
    for (line, next) in LINES {
        let mut read = lines.next(&mut reader);
        if read == Err(LineFault::Read) {
            faults = faults.saturating_add(1);
            check_failed(rt, &lines, &reader);
            read = lines.next(&mut reader);
        }
        assert!(rt; read == Ok(next));
        assert!(rt; lines.line() == line);
    }
    assert!(rt; lines.next(&mut reader) == Ok(Next::End));
    // seven reads for the thirteen bytes, and one that shows the end
    assert!(rt; faults == if fails_at <= 8 { 1 } else { 0 });
    assert!(rt; reader.failed() == u64::from(faults));
}

#[test]
fn each_read_fails(rt: HostRuntime) {
    for fails_at in 1..10u64 {
        check_read(&rt, io::ErrorKind::Other, fails_at);
        check_read(&rt, io::ErrorKind::Interrupted, fails_at);
    }
}
