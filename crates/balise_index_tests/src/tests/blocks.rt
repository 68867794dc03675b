//! Thousands of tags. A block has 512 of them at most, so these fill blocks, split them and empty them again. A plain
//! list with the same changes says what the map has to have.

use crate::tests::maps::{has, lacks, put, takes};
use balise_index::OrderedMap;
use balise_rules::Tag;
use std::alloc::Global;
use std::process::Abort;

/// A map, and the list of what it has to have.
#[derive(Drop)]
struct Both {
    map: OrderedMap<u32>,
    list: Vec<(Tag, u32)>,
}

impl Both {
    fn new(alloc: Global) -> Both {
        Both {
            map: OrderedMap::new(alloc),
            list: Vec::new(alloc),
        }
    }

    fn are_same(&self) -> bool {
        has(&self.map, self.list.as_slice())
    }
}

/// Puts a value into the map and into the list.
fn put_both(rt: &impl Abort, both: &mut Both, i: usize, tag: Tag) {
    let value = u32::try_from(both.list.len()).unwrap_or(0);
    assert!(rt; (i <= both.list.len()) & put(&mut both.map, i, tag, value));
    both.list.insert(i, (tag, value)).expect(rt, "memory");
}

/// Takes the value at a place out of the map and out of the list.
fn take_both(rt: &impl Abort, both: &mut Both, i: usize) {
    if i >= both.list.len() {
        return;
    }
    let (tag, value) = both.list.remove(i);
    assert!(rt; takes(&mut both.map, tag, i, value) & lacks(&both.map, tag));
}

fn put_last(rt: &impl Abort, both: &mut Both, from: u32, to: u32) {
    for n in from..to {
        let end = both.list.len();
        put_both(rt, both, end, Tag::Base(n));
    }
}

fn put_first(rt: &impl Abort, both: &mut Both, to: u32) {
    for n in 0..to {
        put_both(rt, both, 0, Tag::Fresh(n));
    }
}

fn put_within(rt: &impl Abort, both: &mut Both, from: u32, to: u32) {
    for n in from..to {
        let middle = both.list.len() / 2;
        put_both(rt, both, middle, Tag::Fresh(n));
    }
}

#[test]
fn a_block_fills_and_another_begins(rt: HostRuntime) {
    let mut both = Both::new(rt.alloc());
    put_last(&rt, &mut both, 0, 512);
    assert!(&rt; both.are_same());
    put_last(&rt, &mut both, 512, 513);
    assert!(&rt; both.are_same());
}

/// A full block that is split by a tag put in at a place.
fn check_split(rt: &impl Abort, both: &mut Both, i: usize) {
    put_last(rt, both, 0, 512);
    put_both(rt, both, i, Tag::Fresh(0));
    assert!(rt; both.are_same());
}

#[test]
fn a_full_block_is_split(rt: HostRuntime) {
    for i in &[0, 1, 255, 256, 257, 511, 512] {
        check_split(&rt, &mut Both::new(rt.alloc()), *i);
    }
}

/// Takes out two thirds of the values, and then all.
fn take_all(rt: &impl Abort, both: &mut Both) {
    for n in 0..both.list.len() / 3 {
        take_both(rt, both, n);
        take_both(rt, both, n);
    }
    assert!(rt; both.are_same());
    for _ in 0..both.list.len() {
        let last = both.list.len().saturating_sub(1);
        take_both(rt, both, last);
    }
}

/// Puts 2,000 values in last, 1,000 first and 1,000 in the middle, takes them out, and puts some in again.
fn check_thousands(rt: &impl Abort, both: &mut Both) {
    put_last(rt, both, 0, 2000);
    put_first(rt, both, 1000);
    put_within(rt, both, 1000, 2000);
    assert!(rt; (both.map.len() == 4000) & both.are_same());
    take_all(rt, both);
    assert!(rt; (both.map.len() == 0) & has(&both.map, &[]));
    put_within(rt, both, 0, 600);
    assert!(rt; both.are_same());
}

#[test]
fn thousands_of_values_stand_in_order(rt: HostRuntime) {
    check_thousands(&rt, &mut Both::new(rt.alloc()));
}

/// Takes `count` values out all over, and puts none in.
fn take_all_over(rt: &impl Abort, both: &mut Both, count: usize) {
    let mut i: usize = 7;
    for _ in 0..count {
        let len = both.list.len();
        if len == 0 {
            return;
        }
        i = i.wrapping_mul(31).wrapping_add(17) % len;
        take_both(rt, both, i);
    }
}

#[test]
fn values_are_taken_out_and_none_put_in(rt: HostRuntime) {
    let mut both = Both::new(rt.alloc());
    put_last(&rt, &mut both, 0, 2500);
    take_all_over(&rt, &mut both, 1500);
    assert!(&rt; both.are_same());
    take_all_over(&rt, &mut both, 1000);
    assert!(&rt; (both.map.len() == 0) & both.are_same());
}

/// Takes the value at a place out, and puts another one back under its tag.
fn put_back(rt: &impl Abort, both: &mut Both, i: usize) {
    if i >= both.list.len() {
        return;
    }
    let (tag, _) = both.list[i];
    take_both(rt, both, i);
    put_both(rt, both, i, tag);
}

#[test]
fn values_are_put_back_where_they_stood(rt: HostRuntime) {
    let mut both = Both::new(rt.alloc());
    put_last(&rt, &mut both, 0, 1500);
    for n in 0..300 {
        put_back(&rt, &mut both, n * 331 % 1500);
    }
    assert!(&rt; (both.map.len() == 1500) & both.are_same());
}

/// Puts one value in among many, and then takes many out. Memory is taken for the one, and none after it.
fn put_one_and_take(rt: &impl Abort, both: &mut Both, serial: u32, i: usize) {
    put_both(rt, both, i, Tag::Fresh(serial));
    take_all_over(rt, both, 400);
    assert!(rt; both.are_same());
}

#[test]
fn one_is_put_among_many_and_many_are_taken_out(rt: HostRuntime) {
    let mut both = Both::new(rt.alloc());
    put_last(&rt, &mut both, 0, 2000);
    for i in &[1000, 799, 3, 256] {
        let serial = u32::try_from(*i).unwrap_or(0);
        put_one_and_take(&rt, &mut both, serial, *i);
    }
    put_within(&rt, &mut both, 2000, 2600);
    take_all_over(&rt, &mut both, 400);
    assert!(&rt; both.are_same());
}

/// The last tags that have a code of their own, and the first and the last that have none.
fn edges() -> [Tag; 8] {
    [
        Tag::Base(0),
        Tag::Base(292999998),
        Tag::Base(292999999),
        Tag::Base(4294967295),
        Tag::Fresh(0),
        Tag::Fresh(4001000000),
        Tag::Fresh(4001000001),
        Tag::Fresh(4294967295),
    ]
}

/// The place of a tag in the list, or the end.
fn place_of(both: &Both, tag: Tag) -> usize {
    for i in 0..both.list.len() {
        if both.list[i].0 == tag {
            return i;
        }
    }
    both.list.len()
}

/// Puts each of these tags in among the others, and takes them out again.
fn check_edges(rt: &impl Abort, both: &mut Both) {
    for tag in &edges() {
        let middle = both.list.len() / 2;
        put_both(rt, both, middle, *tag);
        assert!(rt; both.are_same());
    }
    for tag in &edges() {
        let i = place_of(both, *tag);
        take_both(rt, both, i);
        assert!(rt; both.are_same());
    }
}

#[test]
fn tags_without_a_code_of_their_own(rt: HostRuntime) {
    let mut both = Both::new(rt.alloc());
    put_last(&rt, &mut both, 1, 400);
    for _ in 0..3 {
        check_edges(&rt, &mut both);
        assert!(&rt; both.map.len() == 399);
    }
}
