//! Which lines begin an item.

use balise_items::{begins_item, read_field_line};
use std::process::Abort;

const LINES: [(&str, bool); 16] = [
    ("telegram 210", true),
    ("telegram 211", true),
    ("telegram", true),
    ("packet 33", true),
    ("packet 33 42", true),
    ("packet ", true),
    ("packet", false),
    ("fault 2", true),
    ("fault 3 BadLength - 40 length", true),
    ("fault 4 x", true),
    ("fault 5 NotABalise - 0 Q_UPDOWN", false),
    ("fault 22", false),
    ("fault", false),
    ("end", false),
    ("Q_DIR 1", false),
    ("", false),
];

#[test]
fn lines_that_begin_an_item(rt: HostRuntime) {
    for (text, wanted) in &LINES {
        let line = read_field_line(rt.alloc(), text.as_bytes()).expect(&rt, "memory");
        assert!(&rt; begins_item(text.as_bytes(), &line) == *wanted);
    }
}
