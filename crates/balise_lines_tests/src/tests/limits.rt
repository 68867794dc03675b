//! The longest line and the longest input.

use crate::tests::ends::{LAST, LINE};
use crate::tests::pattern::Pattern;
use balise_devices::Slow;
use balise_lines::{LineFault, Lines, Next};
use std::process::Abort;

const STEPS: [usize; 4] = [1, 2, 3, 4096];

/// A first line of one letter, then one of 4,096 letters and its end, and a last one of 4,097 letters.
fn text() -> [u8; 8196] {
    let mut text = [b'x'; 8196];
    text[1] = b'\n';
    text[4098] = b'\n';
    text
}

/// That the third line is too long.
fn check_place(rt: &impl Abort, lines: &Lines) {
    assert!(rt; lines.number() == 3);
    assert!(rt; lines.place() == 4099);
}

fn check_longest(rt: &impl Abort, text: &[u8], longest: &[u8], step: usize) {
    let mut reader = Slow::new(text, step);
    let mut lines = Lines::new();
    assert!(rt; lines.next(&mut reader) == Ok(LINE));
    assert!(rt; lines.next(&mut reader) == Ok(LINE));
    assert!(rt; lines.line() == longest);
    for _ in 0..2u8 {
        assert!(rt; lines.next(&mut reader) == Err(LineFault::TooLong));
        check_place(rt, &lines);
    }
    assert!(rt; reader.failed() == 0);
}

#[test]
fn longest_line(rt: HostRuntime) {
    let text = text();
    for step in &STEPS {
        check_longest(&rt, &text, &text[2..4098], *step);
    }
}

fn check_last(rt: &impl Abort, text: &[u8], step: usize) {
    let mut reader = Slow::new(text, step);
    let mut lines = Lines::new();
    assert!(rt; lines.next(&mut reader) == Ok(LAST));
    assert!(rt; lines.line() == text);
    assert!(rt; lines.next(&mut reader) == Ok(Next::End));
}

fn check_too_long(rt: &impl Abort, text: &[u8], step: usize) {
    let mut reader = Slow::new(text, step);
    let mut lines = Lines::new();
    assert!(rt; lines.next(&mut reader) == Err(LineFault::TooLong));
}

#[test]
fn longest_last_line(rt: HostRuntime) {
    let text = text();
    for step in &STEPS {
        check_last(&rt, &text[4099..8195], *step);
        check_too_long(&rt, &text[4099..], *step);
    }
}

/// An input's bytes, the distance of its line ends, how many lines have one, and what comes then.
type Row = (u64, u64, u64, Result<Next, LineFault>);

const ROWS: [Row; 5] = [
    (67_108_864, 4_096, 16_384, Ok(Next::End)),
    (67_108_865, 4_096, 16_384, Err(LineFault::TooLong)),
    // 253,241 lines of 265 bytes: the last line's end is byte 67,108,865
    (67_108_865, 265, 253_240, Err(LineFault::TooLong)),
    (67_108_864, 265, 253_240, Ok(LAST)),
    (u64::MAX, 4_096, 16_384, Err(LineFault::TooLong)),
];

fn check_input(rt: &impl Abort, row: &Row) {
    let (bytes, distance, count, then) = *row;
    let mut reader = Pattern::new(bytes, distance);
    let mut lines = Lines::new();
    for _ in 0..count {
        assert!(rt; lines.next(&mut reader) == Ok(LINE));
    }
    assert!(rt; lines.line().len() as u64 + 1 == distance);
    assert!(rt; lines.next(&mut reader) == then);
}

#[test]
fn longest_input(rt: HostRuntime) {
    for row in &ROWS {
        check_input(&rt, row);
    }
}
