//! Sets of link places: each call, their order, and one that grows from nothing over a list to a tree, and back.

use balise_index::{LinkPlace, Links};
use balise_rules::Tag;
use std::alloc::Global;
use std::process::Abort;

pub(crate) fn place(group: Tag, telegram: u32, packet: Tag, element: u32) -> LinkPlace {
    LinkPlace {
        group,
        telegram,
        packet,
        element,
    }
}

/// Serials of packets: from the first on three places stand by themselves, from the second on two, from the third on
/// one.
pub(crate) const LOWEST: [u32; 3] = [0, 64, 4194304];

/// The place of a serial, in one of two packets. They are in order of their serials.
pub(crate) fn nth(n: u32, lowest: u32) -> LinkPlace {
    let packet = lowest.wrapping_add(n / 4 % 2);
    place(Tag::Base(n / 64), n / 8 % 8, Tag::Fresh(packet), n % 4)
}

/// Whether the places come one by one as a list has them.
fn comes(links: &Links, list: &[LinkPlace]) -> bool {
    let mut same = true;
    let mut i: usize = 0;
    for place in links.iter() {
        same &= list.get(i) == Some(&place);
        i = i.saturating_add(1);
    }
    same & (i == list.len())
}

/// Whether a set has exactly the places of a list, which is in order, by each call that reads.
pub(crate) fn has(links: &Links, list: &[LinkPlace]) -> bool {
    let mut same = (links.len() == list.len()) & (links.is_empty() == list.is_empty());
    for place in list {
        same &= links.contains(place);
    }
    same & comes(links, list)
}

/// Puts each place of a list in.
fn put_each(rt: &impl Abort, alloc: Global, links: &mut Links, list: &[LinkPlace]) {
    for place in list {
        links.insert(alloc, *place).expect(rt, "memory");
    }
}

/// Places in order. Each but the last differs from the next one in one field alone.
fn ranked() -> [LinkPlace; 6] {
    [
        place(Tag::Base(1), 2, Tag::Base(3), 4),
        place(Tag::Base(1), 2, Tag::Base(3), 5),
        place(Tag::Base(1), 2, Tag::Fresh(0), 5),
        place(Tag::Base(1), 3, Tag::Fresh(0), 5),
        place(Tag::Base(2), 3, Tag::Fresh(0), 5),
        place(Tag::Fresh(0), 0, Tag::Base(0), 0),
    ]
}

fn check_order(rt: &impl Abort, alloc: Global) {
    let list = ranked();
    let mut links = Links::new();
    for k in &[3, 0, 5, 2, 4, 1] {
        links.insert(alloc, list[*k]).expect(rt, "memory");
    }
    assert!(rt; has(&links, &list));
    put_each(rt, alloc, &mut links, &list);
    assert!(rt; has(&links, &list));
}

#[test]
fn places_stand_in_order(rt: HostRuntime) {
    check_order(&rt, rt.alloc());
}

/// The first places, in order.
pub(crate) fn first(rt: &impl Abort, alloc: Global, count: u32, lowest: u32) -> Vec<LinkPlace> {
    let mut list = Vec::new(alloc);
    for n in 0..count {
        list.push(nth(n, lowest)).expect(rt, "memory");
    }
    list
}

/// Puts in the first places of these, the odd ones before the even ones.
fn put_first(rt: &impl Abort, alloc: Global, links: &mut Links, count: u32, lowest: u32) {
    for n in 0..count {
        if n % 2 == 1 {
            links.insert(alloc, nth(n, lowest)).expect(rt, "memory");
        }
    }
    for n in 0..count {
        links.insert(alloc, nth(n, lowest)).expect(rt, "memory");
    }
}

/// That a set of `count` places has them, and no other one.
fn check_size(rt: &impl Abort, alloc: Global, count: u32, lowest: u32) {
    let mut links = Links::new();
    put_first(rt, alloc, &mut links, count, lowest);
    let list = first(rt, alloc, count, lowest);
    let next = nth(count, lowest);
    assert!(rt; has(&links, list.as_slice()) & !links.contains(&next));
    links.remove(&next);
    assert!(rt; has(&links, list.as_slice()));
}

#[test]
fn sets_of_each_kind(rt: HostRuntime) {
    for count in &[0, 1, 2, 3, 4, 63, 64, 65, 66, 300] {
        for lowest in &LOWEST {
            check_size(&rt, rt.alloc(), *count, *lowest);
        }
    }
}

fn grow(rt: &impl Abort, alloc: Global, links: &mut Links, list: &[LinkPlace]) {
    for n in 0..list.len() {
        links.insert(alloc, list[n]).expect(rt, "memory");
        assert!(rt; has(links, &list[..n + 1]));
    }
}

/// Takes the places out again, the last ones first.
fn shrink(rt: &impl Abort, links: &mut Links, list: &[LinkPlace]) {
    for k in 0..list.len() {
        let left = list.len() - 1 - k;
        links.remove(&list[left]);
        assert!(rt; has(links, &list[..left]) & !links.contains(&list[left]));
    }
}

fn check_growth(rt: &impl Abort, alloc: Global, lowest: u32) {
    let mut links = Links::new();
    let list = first(rt, alloc, 100, lowest);
    grow(rt, alloc, &mut links, list.as_slice());
    shrink(rt, &mut links, list.as_slice());
    grow(rt, alloc, &mut links, list.as_slice());
}

#[test]
fn grows_from_one_to_a_tree_and_back(rt: HostRuntime) {
    for lowest in &LOWEST {
        check_growth(&rt, rt.alloc(), *lowest);
    }
}

#[test]
fn a_set_takes_24_bytes(rt: HostRuntime) {
    assert_eq!(&rt; size_of::<Links>(), 24);
}
