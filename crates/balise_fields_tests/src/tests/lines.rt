//! Lines read: what each is.

use balise_fields::{
    Bits, Counted, DigitLine, FieldLine, Var, first_word, put_fours, read_digit_line,
    read_field_line, read_fours,
};
use std::process::Abort;

const DIGITS: [(&str, DigitLine<'static>); 8] = [
    ("plan 1", DigitLine::Plan),
    ("group", DigitLine::Group),
    ("packet 33 42403e00", DigitLine::Packet(33, b"42403e00")),
    ("packet 33 4z", DigitLine::Packet(33, b"4z")),
    ("packet 33 ", DigitLine::Telegram),
    ("packet 033 42", DigitLine::Telegram),
    ("plan 1 ", DigitLine::Telegram),
    ("", DigitLine::Telegram),
];

#[test]
fn lines_of_digits(rt: HostRuntime) {
    for (line, wanted) in &DIGITS {
        assert!(rt; read_digit_line(line.as_bytes()) == *wanted);
    }
}

// A word for what a line of fields is.
fn name(line: &FieldLine) -> &'static str {
    match line {
        FieldLine::Plan => "plan",
        FieldLine::Group => "group",
        FieldLine::Telegram(Some(210)) => "telegram 210",
        FieldLine::Telegram(Some(_)) => "telegram 830",
        FieldLine::Telegram(None) => "telegram",
        FieldLine::Alone(Some(33)) => "packet 33",
        FieldLine::Alone(_) => "packet of another version",
        FieldLine::Packet => "packet",
        FieldLine::Field(Some(Var::NidTsr), 5) => "NID_TSR 5",
        FieldLine::Field(Some(_), _) => "another field",
        FieldLine::Field(None, _) => "no variable",
        FieldLine::Rest(Some(_)) => "rest",
        FieldLine::Rest(None) => "rest of bad digits",
        FieldLine::End => "end",
        FieldLine::Padding(Some(_)) => "padding",
        FieldLine::Padding(None) => "padding of bad digits",
        FieldLine::Other => "other",
    }
}

const FIELDS: [(&str, &str); 36] = [
    ("plan 1", "plan"),
    ("plan 2", "other"),
    ("group", "group"),
    ("group 1", "other"),
    ("telegram 210", "telegram 210"),
    ("telegram 830", "telegram 830"),
    ("telegram 211", "telegram"),
    ("telegram", "telegram"),
    ("telegram 210 1", "telegram"),
    ("packet", "packet"),
    ("packet 33", "packet 33"),
    ("packet 033", "packet of another version"),
    ("packet 33 42", "packet of another version"),
    ("NID_TSR 5", "NID_TSR 5"),
    ("NID_TSR 0 5", "NID_TSR 5"),
    ("73 8 NID_TSR 0 5", "NID_TSR 5"),
    ("73 NID_TSR 0 5", "other"),
    ("x 8 NID_TSR 0 5", "other"),
    ("NID_TSR x 5", "other"),
    ("NID_TSR 05", "other"),
    ("NID_TSR 4294967296", "other"),
    ("NID_TSR", "other"),
    (" 5", "other"),
    ("nid_tsr 5", "no variable"),
    ("5 6", "no variable"),
    ("Q_DIR 4294967295", "another field"),
    ("rest 9 d28", "rest"),
    ("rest 9 D28", "rest"),
    ("rest 9 d29", "rest of bad digits"),
    ("rest 9 d2800", "rest of bad digits"),
    ("rest 9 d2z", "rest of bad digits"),
    ("rest 0 ", "other"),
    ("padding 4 f", "padding"),
    ("padding 3 f", "padding of bad digits"),
    ("end", "end"),
    ("fault 6 NoEnd 1 89 NID_PACKET", "other"),
];

#[test]
fn lines_of_fields(rt: HostRuntime) {
    for (line, wanted) in &FIELDS {
        let read = read_field_line(rt.alloc(), line.as_bytes()).expect(&rt, "memory");
        assert!(rt; name(&read) == *wanted);
    }
}

fn check_fours(rt: &impl Abort, bits: &Bits, digits: &str) {
    let mut writer = Counted::new(Vec::new(bits.allocator()));
    put_fours(&mut writer, bits).expect(rt, "memory");
    assert!(rt; writer.inner().as_slice() == digits.as_bytes());
}

#[test]
fn digits_of_four_bits(rt: HostRuntime) {
    let read = read_fours(rt.alloc(), 9, b"D28").expect(&rt, "memory");
    let bits = read.expect(&rt, "digits");
    assert!(rt; bits.len() == 9);
    check_fours(&rt, &bits, "d28");
}

#[test]
fn first_words(rt: HostRuntime) {
    assert!(&rt; first_word(b"end") == (b"end".as_slice(), None));
    assert!(&rt; first_word(b"") == (b"".as_slice(), None));
    assert!(&rt; first_word(b"rest 5 b0") == (b"rest".as_slice(), Some(b"5 b0".as_slice())));
    assert!(&rt; first_word(b" x") == (b"".as_slice(), Some(b"x".as_slice())));
}
