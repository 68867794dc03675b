//! A map that keeps an order: each call, with what it returns.

use balise_index::OrderedMap;
use balise_rules::Tag;
use std::alloc::Global;
use std::process::Abort;

/// Puts a value in, if the place is within the map, the tag is new and there is memory. Returns whether it did.
pub(crate) fn put(map: &mut OrderedMap<u32>, i: usize, tag: Tag, value: u32) -> bool {
    if i > map.len() {
        return false;
    }
    let None = map.get(tag) else {
        return false;
    };
    let Ok(()) = map.reserve(1) else {
        return false;
    };
    map.insert(i, tag, value);
    true
}

/// Whether a value stands under a tag at a place, by each call that reads.
fn has_at(map: &OrderedMap<u32>, i: usize, tag: Tag, value: u32) -> bool {
    let Some((there, found)) = map.at(i) else {
        return false;
    };
    let Some(under) = map.get(tag) else {
        return false;
    };
    (there == tag) & (*found == value) & (*under == value) & (map.place_of(tag) == Some(i))
}

/// Whether a map has exactly these values, in this order.
pub(crate) fn has(map: &OrderedMap<u32>, entries: &[(Tag, u32)]) -> bool {
    let mut same = (map.len() == entries.len()) & map.at(entries.len()).is_none();
    for i in 0..entries.len() {
        let (tag, value) = entries[i];
        same &= has_at(map, i, tag, value);
    }
    same
}

/// Whether a map has nothing under a tag.
pub(crate) fn lacks(map: &OrderedMap<u32>, tag: Tag) -> bool {
    map.get(tag).is_none() & map.place_of(tag).is_none()
}

const A: Tag = Tag::Base(0);

const B: Tag = Tag::Base(7);

const C: Tag = Tag::Fresh(0);

/// Puts a first value in, one after it and one between them.
fn put_three(rt: &impl Abort, map: &mut OrderedMap<u32>) {
    assert!(rt; put(map, 0, A, 10) & put(map, 1, C, 30) & put(map, 1, B, 20));
    assert!(rt; has(map, &[(A, 10), (B, 20), (C, 30)]));
}

fn check_put(rt: &impl Abort, alloc: Global) {
    let mut map = OrderedMap::new(alloc);
    assert!(rt; has(&map, &[]) & lacks(&map, A));
    put_three(rt, &mut map);
    assert!(rt; lacks(&map, Tag::Base(1)) & lacks(&map, Tag::Fresh(7)));
}

#[test]
fn values_are_put_in(rt: HostRuntime) {
    check_put(&rt, rt.alloc());
}

/// Writes over the value under a tag, if there is one.
fn write(map: &mut OrderedMap<u32>, tag: Tag, value: u32) -> bool {
    let Some(held) = map.get_mut(tag) else {
        return false;
    };
    *held = value;
    true
}

fn check_written(rt: &impl Abort, alloc: Global) {
    let mut map = OrderedMap::new(alloc);
    put_three(rt, &mut map);
    assert!(rt; write(&mut map, A, 11) & write(&mut map, C, 31));
    assert!(rt; !write(&mut map, Tag::Base(1), 5) & !write(&mut map, Tag::Fresh(7), 5));
    assert!(rt; has(&map, &[(A, 11), (B, 20), (C, 31)]));
}

#[test]
fn values_are_written(rt: HostRuntime) {
    check_written(&rt, rt.alloc());
}

/// Whether a value is taken out from a place.
pub(crate) fn takes(map: &mut OrderedMap<u32>, tag: Tag, place: usize, value: u32) -> bool {
    match map.remove(tag) {
        Some((i, taken)) => (i == place) & (taken == value),
        None => false,
    }
}

fn take_three(rt: &impl Abort, map: &mut OrderedMap<u32>) {
    assert!(rt; map.remove(Tag::Base(1)).is_none() & takes(map, B, 1, 20));
    assert!(rt; has(map, &[(A, 10), (C, 30)]) & lacks(map, B));
    assert!(rt; takes(map, A, 0, 10) & has(map, &[(C, 30)]) & lacks(map, A));
    assert!(rt; takes(map, C, 0, 30) & has(map, &[]) & map.remove(C).is_none());
}

fn check_taken(rt: &impl Abort, alloc: Global) {
    let mut map = OrderedMap::new(alloc);
    put_three(rt, &mut map);
    take_three(rt, &mut map);
    put_three(rt, &mut map);
}

#[test]
fn values_are_taken_out(rt: HostRuntime) {
    check_taken(&rt, rt.alloc());
}

/// That values are put in without memory where there was memory for them before.
fn check_reserved(rt: &impl Abort, alloc: Global) {
    let mut map: OrderedMap<u32> = OrderedMap::new(alloc);
    map.reserve(3).expect(rt, "memory");
    assert!(rt; has(&map, &[]));
    put_three(rt, &mut map);
    map.reserve(0).expect(rt, "memory");
    let list: Vec<u32> = Vec::new(map.allocator());
    assert!(rt; list.is_empty() & has(&map, &[(A, 10), (B, 20), (C, 30)]));
}

#[test]
fn memory_is_taken_before(rt: HostRuntime) {
    check_reserved(&rt, rt.alloc());
}
