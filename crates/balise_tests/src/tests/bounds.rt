//! The longest line, the longest input, and the most commands.

use crate::tests::repeated::{Repeated, Tally};
use crate::tests::runs::{PLAIN, QUIET, check_ended, check_text, run_often};
use balise_cli::{Counted, RunFault, Status, run};
use std::alloc::Global;
use std::process::Abort;

const FRONT: &[u8] = b"plan 1\nedits\n";

const GROUP: &[u8] =
    b"plan 1\ngroup\na1007f80a0327fffffffffffffffffffffffffffffffffffffffc0\nedits\n";

/// What is printed of the same plan.
const PLAN: &[u8] = b"plan 1\ngroup\na1007f80a0327fffffffffffffffffffffffffffffffffffffffc0\n";

/// A plan with a packet 66.
const REVOCATION: &[u8] =
    b"plan 1\ngroup\na1007f80a03250900f82ffffffffffffffffffffffffffffffffc0\nedits\n";

const TOO_LONG: Result<Status, RunFault> = Err(RunFault::InputTooLong);

/// Two commands. The second undoes the first.
const PART: &[u8] = b"seth 5.100 0 M_MCOUNT 7\nundo\n";

/// That a run over this beginning and a line of this number of letters prints this and ends so.
fn check_line(
    rt: &impl Abort,
    alloc: Global,
    (front, letters): (&[u8], u64),
    ended: Result<Status, RunFault>,
    output: &[u8],
) {
    let mut writer = Counted::new(Vec::new(alloc));
    let answer = run_often(alloc, (front, b"x", letters), &mut writer, PLAIN);
    assert!(rt; answer == ended);
    check_text(rt, &writer, output);
}

#[test]
fn longest_line(rt: HostRuntime) {
    let refused = Ok(Status::SomeRefused);
    let output = b"refused 1 BadLine\nplan 1\n";
    check_line(&rt, rt.alloc(), (FRONT, 4_096), refused, output);
    check_line(&rt, rt.alloc(), (FRONT, 4_097), TOO_LONG, b"");
    let bad = Ok(Status::BadInput);
    let plan = b"plan 1\n";
    check_line(&rt, rt.alloc(), (plan, 4_096), bad, b"bad 2 1 BadLine\n");
    check_line(&rt, rt.alloc(), (plan, 4_097), TOO_LONG, b"");
    let journal = b"plan 1\njournal 2 1\n";
    check_line(&rt, rt.alloc(), (journal, 4_096), bad, b"bad 3 1 BadLine\n");
    check_line(&rt, rt.alloc(), (journal, 4_097), TOO_LONG, b"");
}

/// That the two commands, given `times` times, print two lines each time, and end so.
fn check_lines(rt: &impl Abort, alloc: Global, times: u64, status: Status) {
    let mut reader = Repeated::new(GROUP, PART, times);
    let mut writer = Tally::new();
    check_ended(rt, run(alloc, &mut reader, &mut writer, PLAIN), status);
    assert!(rt; times < 1_000_000);
    assert!(rt; writer.inner().lines == 2 * times + 3);
}

/// After 1,000,000 accepted commands each further one is refused.
#[test]
fn most_commands(rt: HostRuntime) {
    check_lines(&rt, rt.alloc(), 500_000, Status::Accepted);
    check_lines(&rt, rt.alloc(), 500_001, Status::SomeRefused);
}

/// That a text is these replies and the plan.
fn check_replies(rt: &impl Abort, text: &[u8], replies: &[u8]) {
    assert!(rt; text.starts_with(replies));
    assert!(rt; text.len() == replies.len().saturating_add(PLAN.len()));
    assert!(rt; text.ends_with(PLAN));
}

/// That the two commands, given `times` times, are answered with these replies, quietly.
fn check_quiet(rt: &impl Abort, alloc: Global, times: u64, replies: &[u8]) {
    let mut writer = Counted::new(Vec::new(alloc));
    let answer = run_often(alloc, (GROUP, PART, times), &mut writer, QUIET);
    assert!(rt; answer.is_ok());
    check_replies(rt, writer.inner().as_slice(), replies);
}

/// The millionth command is the last that is done, whatever comes after it.
#[test]
fn replies_at_the_limit(rt: HostRuntime) {
    check_quiet(&rt, rt.alloc(), 500_000, b"");
    check_quiet(
        &rt,
        rt.alloc(),
        500_001,
        b"refused 28 Worn\nrefused 28 Worn\n",
    );
}

fn check_end(rt: &impl Abort, writer: &Counted<Vec<u8>>, end: &[u8]) {
    assert!(rt; writer.inner().as_slice().ends_with(end));
}

/// A line that is no command is refused as such after the millionth command, too.
#[test]
fn bad_lines_at_the_limit(rt: HostRuntime) {
    let part = b"seth 5.100 0 M_MCOUNT 7\nundo\nfrobnicate\n";
    let end =
        b"refused 1 BadLine\nrefused 28 Worn\nrefused 28 Worn\nrefused 1 BadLine\nplan 1\ngroup\na1007f80a0327fffffffffffffffffffffffffffffffffffffffc0\n";
    let mut writer = Counted::new(Vec::new(rt.alloc()));
    let answer = run_often(rt.alloc(), (GROUP, part, 500_001), &mut writer, QUIET);
    check_ended(&rt, answer, Status::SomeRefused);
    check_end(&rt, &writer, end);
}

fn push_often(rt: &impl Abort, text: &mut String, line: &str) {
    for _ in 0..1_000 {
        text.push_str(line).expect(rt, "memory");
    }
}

/// 1,000 edits, all undone, give the plan that was read.
#[test]
fn a_thousand_edits_undone(rt: HostRuntime) {
    let mut edits = String::new(rt.alloc());
    push_often(&rt, &mut edits, "turn 5.100\n");
    push_often(&rt, &mut edits, "undo\n");
    let mut writer = Counted::new(Vec::new(rt.alloc()));
    let answer = run_often(rt.alloc(), (GROUP, edits.as_bytes(), 1), &mut writer, QUIET);
    check_ended(&rt, answer, Status::Accepted);
    check_text(&rt, &writer, PLAN);
}

/// That a run over this beginning and 13,421,770 lines of five bytes ends so, after this number of lines was written.
fn check_input(
    rt: &impl Abort,
    alloc: Global,
    front: &[u8],
    ended: Result<Status, RunFault>,
    lines: u64,
) {
    let mut reader = Repeated::new(front, b"undo\n", 13_421_770);
    let mut writer = Tally::new();
    assert!(rt; run(alloc, &mut reader, &mut writer, PLAIN) == ended);
    assert!(rt; writer.inner().lines == lines);
}

/// 67,108,864 bytes, and one more: the last line is answered, or it is too long.
#[test]
fn longest_input(rt: HostRuntime) {
    let refused = Ok(Status::SomeRefused);
    let fits = b"plan 1\nedits\n\n";
    check_input(&rt, rt.alloc(), fits, refused, 13_421_772);
    let long = b"plan 1\nedits\n\n\n";
    check_input(&rt, rt.alloc(), long, TOO_LONG, 13_421_771);
}

/// An input without end is too long at last.
#[test]
fn input_without_end(rt: HostRuntime) {
    let mut reader = Repeated::new(REVOCATION, b"undo\n", u64::MAX);
    let mut writer = Tally::new();
    let answer = run(rt.alloc(), &mut reader, &mut writer, PLAIN);
    assert!(rt; answer == Err(RunFault::InputTooLong));
    assert!(rt; reader.failed() == 0);
    assert!(rt; writer.failed() == 0);
}
