//! The longest packet that L_PACKET can say, and one bit more.

use balise_items::{Counted, Item, put_spelling, read_field_line, spell_item};
use std::alloc::Global;
use std::process::Abort;

/// What is printed for a packet whose `rest` has this many digits.
fn longest(rt: &impl Abort, alloc: Global, rest: &str, digits: usize) -> Counted<Vec<u8>> {
    let first = read_field_line(alloc, b"packet 33").expect(rt, "memory");
    let mut item = Item::new(alloc, 1, &first);
    for text in ["NID_PACKET 44", "Q_DIR 2"] {
        let line = read_field_line(alloc, text.as_bytes()).expect(rt, "memory");
        item.add(alloc, 2, line).expect(rt, "memory");
    }
    let mut line = Vec::new(alloc);
    line.extend_from_slice(rest.as_bytes()).expect(rt, "memory");
    for _ in 0..digits {
        line.push(b'0').expect(rt, "memory");
    }
    let line = read_field_line(alloc, &line).expect(rt, "memory");
    item.add(alloc, 4, line).expect(rt, "memory");
    let spelling = spell_item(alloc, &item, 5).expect(rt, "memory");
    let mut writer = Counted::new(Vec::new(alloc));
    assert!(rt; put_spelling(&mut writer, &spelling).is_ok());
    writer
}

#[test]
fn the_longest_packet(rt: HostRuntime) {
    let spelt = longest(&rt, rt.alloc(), "rest 8168 ", 2042);
    assert!(&rt; spelt.inner().as_slice().len() == 2059);
    assert!(&rt; spelt.inner().as_slice().starts_with(b"packet 33 2cbffe"));
    let long = longest(&rt, rt.alloc(), "rest 8169 ", 2043);
    assert!(&rt; long.inner().as_slice() == b"bad 1 TooLong\n".as_slice());
}
