//! Readers that give few bytes a call and writers that take few, and each call of either failing in turn.

use crate::tests::runs::{JOURNAL, PLAIN, check_ended, check_text};
use balise_cli::{Counted, Flags, RunFault, Status, run};
use balise_devices::{Failure, Narrow, Slow};
use std::alloc::Global;
use std::io::ErrorKind;
use std::process::Abort;

/// An input, its number of lines before the commands, the reply to each command, and what is printed after them.
struct Case {
    flags: Flags,
    input: &'static [u8],
    front: usize,
    answers: [&'static str; 3],
    end: &'static str,
    status: Status,
}

const CASES: [Case; 5] = [
    Case {
        flags: PLAIN,
        input: b"plan 1\ngroup\na1007f80a03250900f82ffffffffffffffffffffffffffffffffc0\nedits\nset 5.100 0 0 NID_TSR 0 9\nseth 5.100 0 M_MCOUNT 254\nundo\n",
        front: 4,
        answers: ["ok 1\n", "ok 2\n", "undone 2\n"],
        end: "plan 1\ngroup\na1007f80a03250900f84ffffffffffffffffffffffffffffffffc0\n",
        status: Status::Accepted,
    },
    Case {
        flags: PLAIN,
        input: b"plan 1\ngroup\na104ff80a032505023a0a0320096047fffffffffffffffffffffc0\na1157f80a0324b0010697fffffffffffffffffffffffffffffffc0\na1247f80a0327fffffffffffffffffffffffffffffffffffffffc0\ngroup\na1007f80a032c15022a07d00326301ffffffffffffffffffffffc0\nedits\nturn 5.100\ninsert 5.100 0 0 42403e0a\nstrike 1\n",
        front: 8,
        answers: [
            "ok 1\nreview 5.100 1 0 opaque 44\nreview 5.100 2 0 D_TSR 0 200\nreview 5.101 0 0 D_LINK 0 500\n",
            "ok 2\n",
            "refused 26 DependsOn 2\n",
        ],
        end: "plan 1\ngroup\na1047f80a03250900f82ffffffffffffffffffffffffffffffffc0\na114ff80a0324b1010697fffffffffffffffffffffffffffffffc0\na1257f80a032504023a0a0320096047fffffffffffffffffffffc0\ngroup\na1007f80a032c15022a07d00322301ffffffffffffffffffffffc0\n",
        status: Status::SomeRefused,
    },
    Case {
        flags: Flags {
            json: true,
            ..JOURNAL
        },
        input: b"plan 1\ngroup\na1007f80a03250900f82ffffffffffffffffffffffffffffffffc0\nedits\nset 5.100 0 0 NID_TSR 0 9\n",
        front: 4,
        answers: ["ok 1\n", "", ""],
        end: "plan 1\ngroup\na1007f80a03250900f84ffffffffffffffffffffffffffffffffc0\njournal 2 2\n1 set b0/0/b0 NID_TSR 0 9 5\n{\"country\":5,\"number\":100,\"telegrams\":[{\"bits\":210,\"m_dup\":0,\"m_mcount\":255,\"m_version\":33,\"packets\":[{\"fields\":[[\"NID_PACKET\",66],[\"Q_DIR\",1],[\"L_PACKET\",31],[\"NID_TSR\",9]],\"known\":true}],\"q_link\":1,\"used\":89}]}\n",
        status: Status::Accepted,
    },
    Case {
        flags: JOURNAL,
        input: b"plan 1\ngroup\na1007f80a03250900f82ffffffffffffffffffffffffffffffffc0\njournal 1 2\n1 set b0/0/b0 NID_TSR 0 9 5\nedits\nundo\n",
        front: 6,
        answers: ["undone 1\n", "", ""],
        end: "plan 1\ngroup\na1007f80a03250900f82ffffffffffffffffffffffffffffffffc0\njournal 2 2\n1 set b0/0/b0 NID_TSR 0 9 5\nundone 1\n",
        status: Status::Accepted,
    },
    Case {
        flags: JOURNAL,
        input: b"plan 1\ngroup\na1007f80a0327fffffffffffffffffffffffffffffffffffffffc0\njournal 2 3\n1 insert b0/0 ^ 42403e0a\n2 insert b0/0 n1 42403e0c\nundone 1\nedits\nundo\nredo\nredo\n",
        front: 8,
        answers: ["undone 2\n", "redone 2\n", "redone 1\n"],
        end: "plan 1\ngroup\na1007f80a03250900f82a1201f06ffffffffffffffffffffffffc0\njournal 2 3\n1 insert b0/0 ^ 42403e0a\n2 insert b0/0 n1 42403e0c\n",
        status: Status::Accepted,
    },
];

/// How many bytes a call gives or takes.
const STEPS: &[usize] = &[1, 2, 3, 4096];

/// What has been written after `lines` lines were read, and the input goes on.
fn written(rt: &impl Abort, alloc: Global, case: &Case, lines: usize) -> String {
    let mut text = String::new(alloc);
    for (i, answer) in case.answers.iter().enumerate() {
        if case.front.saturating_add(i) < lines {
            text.push_str(answer).expect(rt, "memory");
        }
    }
    text
}

/// The whole output.
fn output(rt: &impl Abort, alloc: Global, case: &Case) -> String {
    let mut text = written(rt, alloc, case, usize::MAX);
    text.push_str(case.end).expect(rt, "memory");
    text
}

fn lines_in(bytes: &[u8]) -> usize {
    let mut lines: usize = 0;
    for byte in bytes {
        if *byte == b'\n' {
            lines = lines.saturating_add(1);
        }
    }
    lines
}

/// Runs with reads of `step` bytes, and returns the number of reads.
fn reads_of(rt: &impl Abort, alloc: Global, case: &Case, step: usize) -> u64 {
    let mut reader = Slow::new(case.input, step);
    let mut writer = Counted::new(Vec::new(alloc));
    let ended = run(alloc, &mut reader, &mut writer, case.flags);
    check_ended(rt, ended, case.status);
    check_text(rt, &writer, output(rt, alloc, case).as_bytes());
    reader.inner().calls
}

/// Runs with writes of `step` bytes, and returns the number of writes.
fn writes_of(rt: &impl Abort, alloc: Global, case: &Case, step: usize) -> u64 {
    let mut writer = Narrow::new(alloc, step, 0, Failure::TakesNone);
    check_ended(rt, write(alloc, case, &mut writer), case.status);
    check_narrow(rt, &writer, output(rt, alloc, case).as_bytes());
    writer.inner().calls
}

/// Runs with reads of all that is asked for.
fn write(alloc: Global, case: &Case, writer: &mut Counted<Narrow>) -> Result<Status, RunFault> {
    let mut reader = Slow::new(case.input, 4096);
    run(alloc, &mut reader, writer, case.flags)
}

/// That this was written.
fn check_narrow(rt: &impl Abort, writer: &Counted<Narrow>, text: &[u8]) {
    assert!(rt; writer.inner().text.as_slice() == text);
}

/// That the read of this number fails, and is the last one. Returns how many lines were given before.
fn lines_given(rt: &impl Abort, case: &Case, reader: &Counted<Slow>, call: u64) -> usize {
    assert!(rt; reader.failed() == 1);
    assert!(rt; reader.inner().calls == call);
    let given = case.input.len().saturating_sub(reader.inner().bytes.len());
    lines_in(case.input.get(..given).unwrap_or(case.input))
}

/// That the replies to the commands of this number of lines have been written, and nothing else.
fn check_replies(
    rt: &impl Abort,
    alloc: Global,
    case: &Case,
    writer: &Counted<Vec<u8>>,
    lines: usize,
) {
    assert!(rt; writer.failed() == 0);
    check_text(rt, writer, written(rt, alloc, case, lines).as_bytes());
}

/// Runs with reads of `step` bytes. Read number `call` fails so.
fn fail_read(rt: &impl Abort, alloc: Global, case: &Case, step: usize, call: u64, kind: ErrorKind) {
    let mut reader = Slow::failing(case.input, step, call, kind);
    let mut writer = Counted::new(Vec::new(alloc));
    let answer = run(alloc, &mut reader, &mut writer, case.flags);
    assert!(rt; answer == Err(RunFault::ReadFault));
    let lines = lines_given(rt, case, &reader, call);
    check_replies(rt, alloc, case, &writer, lines);
}

fn fail_reads(rt: &impl Abort, alloc: Global, case: &Case, step: usize) {
    for call in 1..=reads_of(rt, alloc, case, step) {
        fail_read(rt, alloc, case, step, call, ErrorKind::Other);
        fail_read(rt, alloc, case, step, call, ErrorKind::Interrupted);
        fail_read(rt, alloc, case, step, call, ErrorKind::WouldBlock);
    }
}

/// The replies to the commands whose lines came before the failing call have been written, and nothing else. No read
/// comes after it.
#[test]
fn each_read_fails(rt: HostRuntime) {
    for case in &CASES {
        for step in STEPS.iter() {
            fail_reads(&rt, rt.alloc(), case, *step);
        }
    }
}

/// That the write of this number fails and is the last one, and that what was written is a beginning.
fn check_beginning(rt: &impl Abort, writer: &Counted<Narrow>, whole: &[u8], call: u64) {
    assert!(rt; writer.failed() == 1);
    assert!(rt; writer.inner().calls == call);
    let text = writer.inner().text.as_slice();
    assert!(rt; text.len() < whole.len());
    assert!(rt; whole.starts_with(text));
}

/// Runs with writes of `step` bytes. Write number `call` fails so.
fn fail_write(
    rt: &impl Abort,
    alloc: Global,
    case: &Case,
    whole: &[u8],
    step: usize,
    call: u64,
    how: Failure,
) {
    let mut writer = Narrow::new(alloc, step, call, how);
    let answer = write(alloc, case, &mut writer);
    assert!(rt; answer == Err(RunFault::WriteFault));
    check_beginning(rt, &writer, whole, call);
}

fn fail_writes(rt: &impl Abort, alloc: Global, case: &Case, whole: &[u8], step: usize) {
    let (other, interrupted) = (ErrorKind::Other, ErrorKind::Interrupted);
    for call in 1..=writes_of(rt, alloc, case, step) {
        fail_write(rt, alloc, case, whole, step, call, Failure::Error(other));
        fail_write(
            rt,
            alloc,
            case,
            whole,
            step,
            call,
            Failure::Error(interrupted),
        );
        fail_write(rt, alloc, case, whole, step, call, Failure::TakesNone);
    }
}

/// What was written is a beginning of the output, which ends where the failing call came. No write comes after it.
#[test]
fn each_write_fails(rt: HostRuntime) {
    for case in &CASES {
        let whole = output(&rt, rt.alloc(), case);
        for step in STEPS.iter() {
            fail_writes(&rt, rt.alloc(), case, whole.as_bytes(), *step);
        }
    }
}

/// Three bytes in one call, and then a fault: `ok` and a space are held.
#[test]
fn a_beginning_is_written(rt: HostRuntime) {
    let mut writer = Narrow::new(rt.alloc(), 3, 2, Failure::Error(ErrorKind::Other));
    let answer = write(rt.alloc(), &CASES[0], &mut writer);
    assert!(rt; answer == Err(RunFault::WriteFault));
    check_narrow(&rt, &writer, b"ok ");
}
