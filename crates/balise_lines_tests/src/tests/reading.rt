//! Lines by readers that give a few bytes at a time.

use crate::tests::ends::{LAST, LINE};
use balise_devices::Slow;
use balise_lines::{Counted, Lines, Next};
use std::process::Abort;

const STEPS: [usize; 4] = [1, 2, 3, 4096];

/// That this line was read last.
fn check_line(rt: &impl Abort, lines: &Lines, line: &[u8]) {
    assert!(rt; lines.line() == line);
}

/// That the next line has this number and this place.
fn check_next(rt: &impl Abort, lines: &Lines, number: u64, place: u64) {
    assert!(rt; lines.number() == number);
    assert!(rt; lines.place() == place);
}

/// The lines of a text by a reader that gives `step` bytes at a time.
fn check_by(rt: &impl Abort, input: &[u8], want: &[&[u8]], last: Next, step: usize) {
    let mut reader = Slow::new(input, step);
    let mut lines = Lines::new();
    for (i, line) in want.iter().enumerate() {
        assert!(rt; lines.number() == i as u64 + 1);
        let next = if i + 1 == want.len() { last } else { LINE };
        assert!(rt; lines.next(&mut reader) == Ok(next));
        check_line(rt, &lines, line);
    }
    for _ in 0..2u8 {
        assert!(rt; lines.next(&mut reader) == Ok(Next::End));
        check_line(rt, &lines, b"");
    }
    check_next(rt, &lines, want.len() as u64 + 1, input.len() as u64);
    assert!(rt; reader.failed() == 0);
}

/// The lines of a text without an end at its last line, or with one.
fn check(rt: &impl Abort, input: &[u8], want: &[&[u8]], last: Next) {
    for step in &STEPS {
        check_by(rt, input, want, last, *step);
    }
}

#[test]
fn short_lines(rt: HostRuntime) {
    check(&rt, b"", &[], Next::End);
    check(&rt, b"\n", &[b""], LINE);
    check(&rt, b"a", &[b"a"], LAST);
    check(&rt, b"plan 1\nedits\n", &[b"plan 1", b"edits"], LINE);
    check(&rt, b"plan 1\nedits", &[b"plan 1", b"edits"], LAST);
    check(
        &rt,
        b"\n\na\r\n\0\n ",
        &[b"", b"", b"a\r", b"\0", b" "],
        LAST,
    );
}

#[test]
fn reads_on_where_a_slice_goes_on(rt: HostRuntime) {
    let mut reader = Counted::new(b"one\ntwo".as_slice());
    let mut lines = Lines::new();
    assert!(rt; lines.next(&mut reader) == Ok(LINE));
    check_line(&rt, &lines, b"one");
    check_next(&rt, &lines, 2, 4);
}
