//! Lines of commands and of plans.

use balise_text::{
    Bits, Command, Id, PlanLine, Refusal, Request, Var, check_request, read_number, read_plan_line,
    read_request,
};
use std::alloc::Global;
use std::process::Abort;

const GROUP: Id = Id {
    country: 5,
    number: 100,
};

/// What reading a line answers.
type Answer = Result<Request, Refusal>;

/// The command of an edit that was read.
fn edit(answer: &Answer) -> Option<&Command> {
    match answer {
        Ok(Request::Edit(command)) => Some(command),
        _ => None,
    }
}

fn is_set(answer: &Answer) -> bool {
    matches!(
        edit(answer),
        Some(Command::SetVar {
            id,
            pig: 0,
            pkt: 1,
            var: Var::NidTsr,
            k: 2,
            value: 9,
        }) if *id == GROUP
    )
}

fn is_head(answer: &Answer) -> bool {
    match edit(answer) {
        Some(
            Command::SetHead {
                id,
                pig,
                var,
                value,
            },
        ) => { (*id == GROUP) & (*pig == 7) & (*var == Var::MMcount) & (*value == 4_294_967_295) }
        _ => false,
    }
}

#[test]
fn edits_of_fields_are_read(rt: HostRuntime) {
    let alloc = rt.alloc();
    assert!(rt; is_set(&read_request(alloc, b"set 5.100 0 1 NID_TSR 2 9")));
    assert!(rt; is_head(&read_request(alloc, b"seth 5.100 7 M_MCOUNT 4294967295")));
}

fn is_insert(answer: &Answer) -> bool {
    matches!(
        edit(answer),
        Some(Command::InsertPacket { id, pig: 0, at: 1, digits })
            if *id == GROUP && digits.len() == 32
    )
}

fn is_delete(answer: &Answer) -> bool {
    matches!(edit(answer), Some(Command::DeletePacket { id, pig: 0, pkt: 3 }) if *id == GROUP)
}

fn is_move(answer: &Answer) -> bool {
    matches!(edit(answer), Some(Command::MovePacket { id, pig: 0, pkt: 3, at: 1 }) if *id == GROUP)
}

#[test]
fn edits_of_packets_are_read(rt: HostRuntime) {
    let alloc = rt.alloc();
    assert!(rt; is_insert(&read_request(alloc, b"insert 5.100 0 1 42403E0c")));
    assert!(rt; is_delete(&read_request(alloc, b"delete 5.100 0 3")));
    assert!(rt; is_move(&read_request(alloc, b"move 5.100 0 3 1")));
}

const ADD: &[u8] = b"add 2 a1007f80a0327fffffffffffffffffffffffffffffffffffffffc0";

fn is_add(answer: &Answer) -> bool {
    matches!(edit(answer), Some(Command::AddGroup { at: 2, telegrams }) if telegrams.len() == 1)
}

fn is_drop(answer: &Answer) -> bool {
    matches!(edit(answer), Some(Command::DropGroup { id }) if *id == GROUP)
}

fn is_renumber(answer: &Answer) -> bool {
    matches!(edit(answer), Some(Command::Renumber { id, number: 16383 }) if *id == GROUP)
}

fn is_turn(answer: &Answer) -> bool {
    matches!(edit(answer), Some(Command::TurnGroup { id }) if *id == GROUP)
}

#[test]
fn edits_of_groups_are_read(rt: HostRuntime) {
    let alloc = rt.alloc();
    assert!(rt; is_add(&read_request(alloc, ADD)));
    assert!(rt; is_drop(&read_request(alloc, b"drop 5.100")));
    assert!(rt; is_renumber(&read_request(alloc, b"renumber 5.100 16383")));
    assert!(rt; is_turn(&read_request(alloc, b"turn 5.100")));
}

#[test]
fn other_commands_are_read(rt: HostRuntime) {
    let alloc = rt.alloc();
    assert!(rt; matches!(read_request(alloc, b"undo"), Ok(Request::Undo)));
    assert!(rt; matches!(read_request(alloc, b"redo"), Ok(Request::Redo)));
    assert!(rt; matches!(read_request(alloc, b"strike 0"), Ok(Request::Strike(0))));
}

/// Whether a line is refused for this reason.
fn is_refused(answer: &Answer, refusal: Refusal) -> bool {
    match answer {
        Ok(_) => false,
        Err(found) => *found == refusal,
    }
}

fn check_refused(rt: &impl Abort, alloc: Global, line: &[u8], refusal: Refusal) {
    assert!(rt; is_refused(&read_request(alloc, line), refusal));
    assert!(rt; check_request(line).err() == Some(refusal));
}

/// Lines outside the grammar, and one that is no text.
const BAD: &[&[u8]] = &[
    b"",
    b" ",
    b"frobnicate",
    b"undo ",
    b"undo  now",
    b"undo\r",
    b"redo 1",
    b"strike",
    b"strike 01",
    b"strike 4294967296",
    b"set 5.100 0 1 NID_TSR 2",
    b"set 5.100 0 1 NID_TSR 2 9 1",
    b"seth 5.100 0 SPEED 1",
    b"seth 5.100.1 0 M_DUP 1",
    b"seth 5 0 M_DUP 1",
    b"delete 5.100 0",
    b"move 5.100 0 0 -1",
    b"drop 5.100 ",
    b"renumber 5.100",
    b"turn",
    &[b't', b'u', b'r', b'n', 0xff],
];

#[test]
fn lines_outside_the_grammar_and_bytes_that_are_no_text(rt: HostRuntime) {
    for line in BAD.iter() {
        check_refused(&rt, rt.alloc(), *line, Refusal::BadLine);
    }
}

/// The digits of 830 bits, and the same with the second of the two bits after the last one set.
const LONG: &str =
    "add 0 0000000000000000000000000000000000000000000000000000000000000000000000000000000000000000000000000000000000000000000000000000000000000000000000000000000000000000000000000000000000000000000000000000000000000004";

const LONG_SPARE: &str =
    "add 0 0000000000000000000000000000000000000000000000000000000000000000000000000000000000000000000000000000000000000000000000000000000000000000000000000000000000000000000000000000000000000000000000000000000000000005";

/// Lines whose grammar is judged before their digits, by what they are refused for.
const DIGITS: &[(Refusal, &[&str])] = &[
    (
        Refusal::BadLine,
        &[
            "insert 5.100 0 0",
            "insert 5.100 0 0 ",
            "insert 5.100 0 0 zz x",
            "add 0",
            "add 0 ",
            "add 0 zz ",
        ],
    ),
    (
        Refusal::BadHex,
        &[
            "insert 5.100 0 0 zz",
            "insert 5.100 0 0 421",
            "insert 5.100 0 0 42\r",
            "add 0 zz 00",
            "add 0 a1007f80a0327fffffffffffffffffffffffffffffffffffffffc",
            "add 0 a1007f80a0327fffffffffffffffffffffffffffffffffffffffc0 0G",
        ],
    ),
    (
        Refusal::BadLength,
        &[
            "add 0 00 zz",
            "add 0 a1007f80a0327fffffffffffffffffffffffffffffffffffffffc0 00",
        ],
    ),
    (
        Refusal::SpareBits,
        &[
            "add 0 a1007f80a0327fffffffffffffffffffffffffffffffffffffffc1",
            "add 0 a1007f80a0327fffffffffffffffffffffffffffffffffffffffe0",
            LONG_SPARE,
        ],
    ),
];

#[test]
fn digits_are_judged_after_the_grammar(rt: HostRuntime) {
    for (refusal, lines) in DIGITS.iter() {
        for line in lines.iter() {
            check_refused(&rt, rt.alloc(), line.as_bytes(), *refusal);
        }
    }
}

/// A line of each kind, and digits of either case and of both lengths.
const GOOD: &[&str] = &[
    "set 5.100 0 1 NID_TSR 2 9",
    "seth 5.100 7 M_MCOUNT 4294967295",
    "insert 5.100 0 1 0a9fAF",
    "delete 5.100 0 1",
    "move 5.100 0 1 2",
    "add 0 A1007f80a0327fffffffffffffffffffffffffffffffffffffffC0",
    LONG,
    "drop 5.100",
    "renumber 5.100 7",
    "turn 5.100",
    "undo",
    "redo",
    "strike 4294967295",
];

#[test]
fn lines_are_judged_good_where_they_are_read(rt: HostRuntime) {
    for line in GOOD.iter() {
        assert!(rt; read_request(rt.alloc(), line.as_bytes()).is_ok());
        assert!(rt; check_request(line.as_bytes()).is_ok());
    }
}

const TELEGRAM: &str = "a1007f80a0327fffffffffffffffffffffffffffffffffffffffc0";

fn are_all(telegrams: &[Bits], telegram: &Bits) -> bool {
    for bits in telegrams {
        if bits != telegram {
            return false;
        }
    }
    true
}

/// Whether `count` telegrams are added at place 2, each with these bits.
fn is_add_of(answer: &Answer, telegram: &Bits, count: usize) -> bool {
    match edit(answer) {
        Some(Command::AddGroup { at: 2, telegrams }) => {
            telegrams.len() == count && are_all(telegrams, telegram)
        }
        _ => false,
    }
}

fn push(rt: &impl Abort, line: &mut String, text: &str) {
    line.push_str(text).expect(rt, "memory");
}

fn push_telegrams(rt: &impl Abort, line: &mut String, count: usize) {
    push(rt, line, "add 2");
    for _ in 0..count {
        push(rt, line, " ");
        push(rt, line, TELEGRAM);
    }
}

fn check_added(rt: &impl Abort, alloc: Global, telegram: &Bits, count: usize) {
    let mut line = String::new(alloc);
    push_telegrams(rt, &mut line, count);
    assert!(rt; is_add_of(&read_request(alloc, line.as_bytes()), telegram, count));
}

/// A line has room for 74 telegrams. How many a group may have is no matter of its text.
#[test]
fn each_number_of_telegrams_is_read(rt: HostRuntime) {
    let telegram = Bits::from_hex(rt.alloc(), TELEGRAM, 210).expect(&rt, "digits");
    for count in 1..75 {
        check_added(&rt, rt.alloc(), &telegram, count);
    }
}

/// That nine telegrams and a word after them are refused so.
fn check_tenth(rt: &impl Abort, alloc: Global, word: &str, refusal: Refusal) {
    let mut line = String::new(alloc);
    push_telegrams(rt, &mut line, 9);
    push(rt, &mut line, word);
    check_refused(rt, alloc, line.as_bytes(), refusal);
}

#[test]
fn words_after_a_ninth_telegram(rt: HostRuntime) {
    check_tenth(&rt, rt.alloc(), " zz", Refusal::BadHex);
    check_tenth(&rt, rt.alloc(), " 00", Refusal::BadLength);
    check_tenth(&rt, rt.alloc(), " ", Refusal::BadLine);
}

const PLAN_LINES: &[(&str, PlanLine)] = &[
    ("plan 1", PlanLine::FirstLine),
    ("plan 2", PlanLine::TelegramLine),
    ("group", PlanLine::GroupLine),
    ("edits", PlanLine::EditsLine),
    ("edits ", PlanLine::TelegramLine),
    ("journal ", PlanLine::JournalLine),
    ("journal 2 1", PlanLine::JournalLine),
    ("journal", PlanLine::TelegramLine),
    ("", PlanLine::Empty),
    ("a1", PlanLine::TelegramLine),
];

fn check_known(rt: &impl Abort, line: &str, known: PlanLine) {
    assert!(rt; read_plan_line(line.as_bytes()) == known);
}

#[test]
fn lines_of_a_plan(rt: HostRuntime) {
    for (line, known) in PLAN_LINES.iter() {
        check_known(&rt, *line, *known);
    }
}

const NUMBERS: &[(&str, Option<u32>)] = &[
    ("0", Some(0)),
    ("4294967295", Some(4_294_967_295)),
    ("4294967296", None),
    ("99999999999", None),
    ("00", None),
    ("01", None),
    ("-1", None),
    ("1a", None),
    ("10", Some(10)),
    ("1 2", None),
    ("1 ", None),
    (" 1", None),
    (" ", None),
    ("1.2", None),
    ("", None),
];

#[test]
fn decimal_numbers(rt: HostRuntime) {
    for (word, number) in NUMBERS.iter() {
        assert!(rt; read_number(word.as_bytes()) == *number);
    }
}
