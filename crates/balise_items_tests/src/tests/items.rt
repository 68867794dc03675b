//! Items made of lines, and the line that is printed for each.

use balise_items::{Counted, Item, Spelling, put_spelling, read_field_line, spell_item};
use std::alloc::Global;
use std::process::Abort;

/// The item of lines, numbered from 1, and the number of the line after them.
fn item_of(rt: &impl Abort, alloc: Global, lines: &[&str]) -> (Item, u32) {
    let [first, more @ ..] = lines else {
        panic!(rt; "an item has a line")
    };
    let first = read_field_line(alloc, first.as_bytes()).expect(rt, "memory");
    let mut item = Item::new(alloc, 1, &first);
    let mut next: u32 = 2;
    for text in more {
        let line = read_field_line(alloc, text.as_bytes()).expect(rt, "memory");
        item.add(alloc, next, line).expect(rt, "memory");
        next = next.saturating_add(1);
    }
    (item, next)
}

/// What the item of these lines is turned into.
pub(crate) fn spelt(rt: &impl Abort, alloc: Global, lines: &[&str]) -> Spelling {
    let (item, end) = item_of(rt, alloc, lines);
    spell_item(alloc, &item, end).expect(rt, "memory")
}

/// That this line is printed for the item of these lines.
pub(crate) fn check(rt: &impl Abort, alloc: Global, lines: &[&str], text: &str) {
    let spelling = spelt(rt, alloc, lines);
    let mut writer = Counted::new(Vec::new(alloc));
    assert!(rt; put_spelling(&mut writer, &spelling).is_ok());
    assert!(rt; writer.inner().as_slice() == text.as_bytes());
    assert!(rt; spelling.is_bad() == text.as_bytes().starts_with(b"bad "));
}
