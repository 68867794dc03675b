//! `balisefields` over its words: what it writes on each stream, and its exit status.

use balise_devices::{Failure, Narrow, Slow, arguments};
use balise_fields_cli::{Balisefields, Exit, Refusal, launch};
use balise_fields_run::Counted;
use std::alloc::Global;
use std::env::Args;
use std::io::{BufWriter, ErrorKind};
use std::process::Abort;

/// Where a call that is made would show.
const NO_CALL: (u64, u64) = (1, 1);

const HELP: &str = "\
balisefields 0.1.0: fields of ETCS balise telegrams and packets. Reads digits, a telegram or a packet a line, from standard input, and prints their fields; or the other way.

Usage: balisefields [OPTIONS]

Options:
      --spell  Read fields, and print the digits of each telegram and packet
  -h, --help   Print help

Status:
  0   nothing refused
  1   some item refused
  3   a line too long, too little memory, or a read or write that failed
  64  an unknown argument

The formats: man balisefields, or docs/FIELDS.md
";

/// Words and an input, and what is written.
type Row = (&'static [&'static str], &'static str, &'static str);

const WELL: &[Row] = &[
    (
        &["balisefields"],
        "packet 33 42403e00",
        "packet 33\n0 8 NID_PACKET 0 66\n8 2 Q_DIR 0 1\n10 13 L_PACKET 0 31\n23 8 NID_TSR 0 0\n",
    ),
    (
        &["balisefields", "--"],
        "plan 1\ngroup\n",
        "plan 1\ngroup\n",
    ),
    (
        &["balisefields", "--spell"],
        "packet 33\nNID_PACKET 66\nQ_DIR 1\nNID_TSR 5\ngroup",
        "packet 33 42403e0a\ngroup\n",
    ),
];

const REFUSED: &[Row] = &[
    (
        &["balisefields"],
        "4z\npacket 33 42403e05\ngroup\n",
        "fault 2 BadHex - 4 digit\nfault 4 SpareBits - 31 zero\ngroup\n",
    ),
    (
        &["balisefields", "--spell"],
        "packet 33 42403e0a\n",
        "bad 1 BadLine\n",
    ),
];

/// How a program ends: its status, its fault, and what it writes for errors.
struct End {
    code: u8,
    fault: Option<Refusal>,
    errors: &'static str,
}

const NO_FAULT: End = End {
    code: 0,
    fault: None,
    errors: "",
};

const SOME_REFUSED: End = End {
    code: 1,
    fault: None,
    errors: "",
};

const READ_FAULT: End = End {
    code: 3,
    fault: Some(Refusal::ReadFault),
    errors: "fault 31 ReadFault\n",
};

const WRITE_FAULT: End = End {
    code: 3,
    fault: Some(Refusal::WriteFault),
    errors: "fault 32 WriteFault\n",
};

const OTHER_WORD: End = End {
    code: 64,
    fault: None,
    errors: "error: unexpected argument '--loud' found\n\nUsage: balisefields [OPTIONS]\n\nFor more information, try '--help'.\n",
};

/// With which calls of the reader and of the writer fail, 0 for none.
const FAILING: &[(Row, (u64, u64), &End)] = &[
    (
        (&["balisefields"], "group\ngr", "group\n"),
        (2, 0),
        &READ_FAULT,
    ),
    ((&["balisefields"], "group\n", "gro"), (0, 2), &WRITE_FAULT),
    (
        (&["balisefields", "-h", "--loud"], "group\n", HELP),
        (1, 0),
        &NO_FAULT,
    ),
    (
        (&["balisefields", "--help"], "group\n", HELP),
        (1, 0),
        &NO_FAULT,
    ),
    (
        (&["another_name", "--loud"], "group\n", ""),
        NO_CALL,
        &OTHER_WORD,
    ),
];

/// A buffer over a writer that fails at the call of a number.
fn buffered(rt: &impl Abort, alloc: Global, fails_at: u64) -> Counted<BufWriter<Narrow>> {
    let narrow = Narrow::new(alloc, 3, fails_at, Failure::Error(ErrorKind::Other)).into_inner();
    Counted::new(BufWriter::new(alloc, narrow).expect(rt, "memory"))
}

fn launch_over(
    alloc: Global,
    (words, input): (Args, &str),
    read_fails_at: u64,
    writer: &mut Counted<BufWriter<Narrow>>,
    errors: &mut Counted<Vec<u8>>,
) -> Exit {
    let mut reader = Slow::failing(input.as_bytes(), 4096, read_fails_at, ErrorKind::Other);
    launch::<Balisefields, _, _, _>(alloc, Ok(words), &mut reader, writer, errors)
}

/// That the program ends so, and that this has reached the device, and not more.
fn check_end(
    rt: &impl Abort,
    exit: Exit,
    (writer, output): (&Counted<BufWriter<Narrow>>, &str),
    errors: &Counted<Vec<u8>>,
    end: &End,
) {
    assert!(rt; (exit.code == end.code) & (exit.fault == end.fault));
    assert!(rt; writer.inner().get_ref().text.as_slice() == output.as_bytes());
    assert!(rt; errors.inner().as_slice() == end.errors.as_bytes());
}

fn check_row(rt: &impl Abort, alloc: Global, row: &Row, fails_at: (u64, u64), end: &End) {
    let words = arguments(alloc, row.0).expect(rt, "memory");
    let mut writer = buffered(rt, alloc, fails_at.1);
    let mut errors = Counted::new(Vec::new(alloc));
    let exit = launch_over(alloc, (words, row.1), fails_at.0, &mut writer, &mut errors);
    check_end(rt, exit, (&writer, row.2), &errors, end);
}

#[test]
fn words_with_an_input(rt: HostRuntime) {
    for row in WELL.iter() {
        check_row(&rt, rt.alloc(), row, (0, 0), &NO_FAULT);
    }
    for row in REFUSED.iter() {
        check_row(&rt, rt.alloc(), row, (0, 0), &SOME_REFUSED);
    }
    for (row, fails_at, end) in FAILING.iter() {
        check_row(&rt, rt.alloc(), row, *fails_at, *end);
    }
}

/// Words that aren't the program's. Nothing is read for them or written.
const OTHERS: &[&[&str]] = &[
    &["balisefields", "--loud"],
    &["balisefields", "--hel"],
    &["balisefields", "--help=true"],
    &["balisefields", "--spell", "--spell"],
    &["balisefields", "--spell=true"],
    &["balisefields", "--version"],
    &["balisefields", "-V"],
    &["balisefields", "help"],
    &["balisefields", "-"],
    &["balisefields", ""],
    &["balisefields", "--", "--"],
    &["balisefields", "--loud", "--help"],
];

fn check_other(rt: &impl Abort, alloc: Global, words: &[&str]) {
    let mut writer = buffered(rt, alloc, 1);
    let mut errors = Counted::new(Vec::new(alloc));
    let words = arguments(alloc, words).expect(rt, "memory");
    let exit = launch_over(alloc, (words, "group\n"), 1, &mut writer, &mut errors);
    assert!(rt; (exit.code == 64) & exit.fault.is_none());
    assert!(rt; writer.inner().get_ref().text.is_empty());
    assert!(rt; errors.inner().as_slice().starts_with(b"error: "));
}

#[test]
fn refuses_other_words(rt: HostRuntime) {
    for words in OTHERS.iter() {
        check_other(&rt, rt.alloc(), *words);
    }
}
