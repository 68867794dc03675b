//! Lines of journals, read and printed again.

use balise_text::{
    Counted, Head, JournalLine, Refusal, Section, Version, put_entry, put_head, put_undone,
    read_head, read_journal_line,
};
use std::alloc::Global;
use std::process::Abort;

const LONG: &str =
    "a1007f80a0327ffffffffffffffffffffffffffffffffffffffffffffffffffffffffffffffffffffffffffffffffffffffffffffffffffffffffffffffffffffffffffffffffffffffffffffffffffffffffffffffffffffffffffffffffffffffffffffffffffc";

fn put(rt: &impl Abort, writer: &mut Counted<Vec<u8>>, line: &JournalLine) {
    match line {
        JournalLine::Entry(entry) => put_entry(writer, entry).expect(rt, "memory"),
        JournalLine::Undone(serial) => put_undone(writer, *serial).expect(rt, "memory"),
        JournalLine::Edits => {}
    }
}

fn check_text(rt: &impl Abort, writer: &Counted<Vec<u8>>, text: &[u8]) {
    assert!(rt; writer.inner().as_slice() == text);
}

// What is printed where this line is read.
fn printed_of(rt: &impl Abort, alloc: Global, section: Section, line: &str) -> Counted<Vec<u8>> {
    let mut writer = Counted::new(Vec::new(alloc));
    let read = read_journal_line(alloc, section, line.as_bytes()).expect(rt, "memory");
    put(rt, &mut writer, &read);
    writer
}

fn check_line(rt: &impl Abort, text: &[u8], line: &[u8]) {
    match text {
        [printed @ .., b'\n'] => assert!(rt; printed == line),
        _ => assert!(rt; false),
    }
}

// The line is read, and printed as the other.
fn check_printed(rt: &impl Abort, alloc: Global, section: Section, line: &str, printed: &str) {
    let writer = printed_of(rt, alloc, section, line);
    check_line(rt, writer.inner().as_slice(), printed.as_bytes());
}

/// Lines that are printed as they are read.
const ENTRIES: &[&str] = &[
    "1 set b0/0/b0 NID_TSR 0 9 5",
    "2 seth n4294967295/7 M_DUP 0 255",
    "4 insert b0/0 n3 42403e0c",
    "5 delete b0/0/n3 $",
    "6 move b0/0/b1 ^ $",
    "7 move b0/0/b1 n4 b7",
    "8 drop b0 b1",
    "9 renumber b0 101 100",
    "10 turn n10",
    "4294967295 set n4294967295/4294967295/n4294967295 Q_LINKORIENTATION 4294967295 4294967295 4294967295",
    "4294967295 move n4294967295/4294967295/n4294967295 n4294967295 n4294967295",
];

/// Lines with digits of upper case, and as they are printed.
const LOWERED: &[(&str, &str)] = &[
    ("3 insert b0/0 ^ 42403E0C", "3 insert b0/0 ^ 42403e0c"),
    (
        "11 add ^ A1007f80a0327fffffffffffffffffffffffffffffffffffffffc0",
        "11 add ^ a1007f80a0327fffffffffffffffffffffffffffffffffffffffc0",
    ),
];

#[test]
fn each_kind_of_entry(rt: HostRuntime) {
    let section = Section::Entries(Version::One);
    for line in ENTRIES.iter() {
        check_printed(&rt, rt.alloc(), section, *line, *line);
    }
    for (line, printed) in LOWERED.iter() {
        check_printed(&rt, rt.alloc(), section, *line, *printed);
    }
}

fn push(rt: &impl Abort, text: &mut String, more: &str) {
    text.push_str(more).expect(rt, "memory");
}

// A line that adds a group of two telegrams.
fn two_added(rt: &impl Abort, alloc: Global) -> String {
    let mut line = String::new(alloc);
    push(rt, &mut line, "1 add b3 ");
    push(rt, &mut line, LONG);
    push(rt, &mut line, " ");
    push(rt, &mut line, LONG);
    line
}

fn check_two(rt: &impl Abort, alloc: Global, line: &str) {
    check_printed(rt, alloc, Section::Entries(Version::Two), line, line);
}

#[test]
fn a_group_of_two(rt: HostRuntime) {
    check_two(&rt, rt.alloc(), two_added(&rt, rt.alloc()).as_str());
}

#[test]
fn undone_edits(rt: HostRuntime) {
    let alloc = rt.alloc();
    let (entries, last) = (Section::Entries(Version::Two), "undone 4294967295");
    check_printed(&rt, alloc, entries, "undone 3", "undone 3");
    check_printed(&rt, alloc, Section::Undone, last, last);
    check_text(&rt, &printed_of(&rt, alloc, Section::Undone, "edits"), b"")
}

fn is_refused(answer: &Result<JournalLine, Refusal>, refusal: Refusal) -> bool {
    match answer {
        Ok(_) => false,
        Err(found) => *found == refusal,
    }
}

fn check_refused(rt: &impl Abort, alloc: Global, section: Section, line: &str, refusal: Refusal) {
    assert!(rt; is_refused(&read_journal_line(alloc, section, line.as_bytes()), refusal));
}

/// Lines that are refused, by where they stand and what for: digits are judged after the grammar, and nothing but
/// undone edits comes after the first of them.
const REFUSED: &[(Section, Refusal, &[&str])] = &[
    (
        Section::Entries(Version::One),
        Refusal::BadLine,
        &[
            "",
            "1",
            "x turn b0",
            "01 turn b0",
            "1 turn c0",
            "1 turn b",
            "1 turn b0 ",
            "1  turn b0",
            "1 turn b0 b1",
            "1 set b0/0 NID_TSR 0 9 5",
            "1 set b0/0/b0 NID_TSX 0 9 5",
            "1 set b0/0/b0 NID_TSR 0 9",
            "1 delete b0/0/b0 ^",
            "1 move b0/0/b0 $ $",
            "1 insert b0/0 ^",
            "1 insert b0/0 ^ ",
            "1 insert b0/0 ^ zz x",
            "1 add ^",
            "1 add ^ zz ",
            "undone 3",
            "edits ",
        ],
    ),
    (
        Section::Entries(Version::Two),
        Refusal::BadHex,
        &[
            "1 insert b0/0 ^ zz",
            "1 insert b0/0 ^ 4",
            "1 add ^ zz",
            "1 add ^ zz 00",
        ],
    ),
    (
        Section::Entries(Version::Two),
        Refusal::JournalMismatch,
        &[
            "1 add ^ 00 zz",
            "1 add ^ a1007f80a0327fffffffffffffffffffffffffffffffffffffffc1",
        ],
    ),
    (
        Section::Undone,
        Refusal::BadLine,
        &[
            "1 turn b0",
            "1 insert b0/0 ^ zz",
            "undone",
            "undone 1 2",
            "",
        ],
    ),
];

#[test]
fn refused_lines(rt: HostRuntime) {
    for (section, refusal, lines) in REFUSED.iter() {
        for line in lines.iter() {
            check_refused(&rt, rt.alloc(), *section, *line, *refusal);
        }
    }
}

const HEADS: &[(&str, Version, u32)] = &[
    ("journal 1 1", Version::One, 1),
    ("journal 2 0", Version::Two, 0),
    ("journal 2 4000000001", Version::Two, 4_000_000_001),
];

const BAD_HEADS: &[&str] = &[
    "journal 3 0",
    "journal 1 4294967296",
    "journal 1 02",
    "journal 2 2 ",
    "journal 2",
    "journal ",
    "journals 2 1",
];

fn check_head(rt: &impl Abort, line: &str, answer: Result<Head, Refusal>) {
    assert!(rt; read_head(line.as_bytes()) == answer);
}

fn put_last_head(rt: &impl Abort, writer: &mut Counted<Vec<u8>>) {
    put_head(writer, 4_000_000_000).expect(rt, "memory");
    check_text(rt, writer, b"journal 2 4000000000\n");
}

#[test]
fn heads(rt: HostRuntime) {
    for (line, version, next) in HEADS.iter() {
        let (version, next) = (*version, *next);
        check_head(&rt, *line, Ok(Head { version, next }));
    }
    for line in BAD_HEADS.iter() {
        check_head(&rt, *line, Err(Refusal::BadLine));
    }
    put_last_head(&rt, &mut Counted::new(Vec::new(rt.alloc())));
}
