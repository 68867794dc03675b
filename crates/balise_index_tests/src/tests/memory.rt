//! Growth that may be refused, and then leaves all as before.
//!
//! Each test comes twice: as it is, for a run in which one growth is refused, and with ample memory, where nothing may
//! be refused. `scripts/check/test_growths.py` refuses each growth of the first in turn.

use crate::tests::identities::{id, put as put_under, value};
use crate::tests::links::{LOWEST, nth};
use crate::tests::maps::{has, put};
use crate::tests::names::{name, named_from};
use balise_index::{IdentityMap, LinkPlace, Links, NameIndex, OrderedMap};
use balise_rules::{Id, Tag};
use std::alloc::Global;
use std::process::Abort;

/// Whether a growth may be refused in this run.
#[derive(Clone, Copy, PartialEq, Eq)]
enum Memory {
    Ample,
    OneRefused,
}

/// That all were put in, or that a growth may be refused.
fn check_held(rt: &impl Abort, memory: Memory, held: u32, count: u32) {
    assert!(rt; held == count || memory == Memory::OneRefused);
}

/// The value that stands at each place is twice the place.
fn is_doubled(map: &OrderedMap<u32>, count: u32) -> bool {
    let mut same = map.len() == count as usize;
    for n in 0..count {
        same &= match map.at(n as usize) {
            Some((tag, value)) => (tag == Tag::Base(n)) & (*value == n.wrapping_mul(2)),
            None => false,
        };
    }
    same
}

/// Puts at most `count` values in, one by one, and returns how many there was memory for.
fn put_up_to(map: &mut OrderedMap<u32>, count: u32) -> u32 {
    for n in 0..count {
        if !put(map, n as usize, Tag::Base(n), n.wrapping_mul(2)) {
            return n;
        }
    }
    count
}

/// Puts at most `count` values in, each before all others, and returns how many there was memory for.
fn put_first_up_to(map: &mut OrderedMap<u32>, count: u32) -> u32 {
    for n in 0..count {
        if !put(map, 0, Tag::Base(n), n.wrapping_mul(2)) {
            return n;
        }
    }
    count
}

/// The value that stands under each tag is twice its number, and the last one stands first.
fn is_turned(map: &OrderedMap<u32>, count: u32) -> bool {
    let mut same = map.len() == count as usize;
    for n in 0..count {
        let tag = Tag::Base(count - 1 - n);
        same &= map.place_of(tag) == Some(n as usize);
        same &= match map.get(tag) {
            Some(value) => *value == (count - 1 - n).wrapping_mul(2),
            None => false,
        };
    }
    same
}

/// Fills two blocks one by one, in order and turned. A value is put in, or all stays.
fn fill_map(rt: &impl Abort, alloc: Global, memory: Memory) {
    let mut map = OrderedMap::new(alloc);
    let held = put_up_to(&mut map, 1025);
    check_held(rt, memory, held, 1025);
    assert!(rt; is_doubled(&map, held));
    let mut turned = OrderedMap::new(alloc);
    let held = put_first_up_to(&mut turned, 700);
    check_held(rt, memory, held, 700);
    assert!(rt; is_turned(&turned, held));
}

#[test]
fn a_map_takes_a_value_or_stays(rt: HostRuntime) {
    fill_map(&rt, rt.alloc(), Memory::OneRefused);
}

#[test]
fn a_map_takes_values_with_ample_memory(rt: HostRuntime) {
    fill_map(&rt, rt.alloc(), Memory::Ample);
    let map: OrderedMap<u32> = OrderedMap::new(rt.alloc());
    assert!(&rt; has(&map, &[]));
}

/// Whether exactly the first of some identities have their places as values.
fn has_first(map: &IdentityMap<u32>, ids: &[Id], count: u32) -> bool {
    let mut same = true;
    let mut n: u32 = 0;
    for id in ids {
        let held = if n < count { Some(n) } else { None };
        same &= value(map, *id) == held;
        n = n.saturating_add(1);
    }
    same
}

/// Puts values under identities. Each of them needs a longer row, or one more row.
fn fill_identities(rt: &impl Abort, alloc: Global, memory: Memory) {
    let ids = [
        id(0, 0),
        id(0, 16382),
        id(3, 1),
        id(3, 5000),
        id(1023, 16382),
        id(0, 20),
    ];
    let mut map = IdentityMap::new(alloc);
    let mut n: u32 = 0;
    for id in &ids {
        if !put_under(&mut map, *id, n) {
            check_held(rt, memory, n, 6);
            assert!(rt; has_first(&map, &ids, n));
            return;
        }
        n = n.saturating_add(1);
    }
    assert!(rt; has_first(&map, &ids, 6));
}

#[test]
fn identities_take_a_value_or_stay(rt: HostRuntime) {
    fill_identities(&rt, rt.alloc(), Memory::OneRefused);
}

#[test]
fn identities_take_values_with_ample_memory(rt: HostRuntime) {
    fill_identities(&rt, rt.alloc(), Memory::Ample);
}

/// The largest number of a country.
fn nth_far(n: u32) -> Id {
    id(n, 16382)
}

/// Whether exactly the first `held` identities have twice their serials as values.
fn has_far(map: &IdentityMap<u32>, held: u32, count: u32) -> bool {
    let mut same = true;
    for n in 0..count {
        let expected = if n < held {
            Some(n.wrapping_mul(2))
        } else {
            None
        };
        same &= value(map, nth_far(n)) == expected;
    }
    same
}

/// Puts values in one by one, and returns how many there was memory for.
fn put_far_up_to(map: &mut IdentityMap<u32>, count: u32) -> u32 {
    for n in 0..count {
        if !put_under(map, nth_far(n), n.wrapping_mul(2)) {
            return n;
        }
    }
    count
}

/// Puts values in under identities. All but the first have far cells. A value is put in, or all stays.
fn fill_far(rt: &impl Abort, alloc: Global, memory: Memory) {
    let mut map = IdentityMap::new(alloc);
    let held = put_far_up_to(&mut map, 60);
    check_held(rt, memory, held, 60);
    assert!(rt; has_far(&map, held, 60));
}

#[test]
fn far_identities_take_a_value_or_stay(rt: HostRuntime) {
    fill_far(&rt, rt.alloc(), Memory::OneRefused);
}

#[test]
fn far_identities_take_values_with_ample_memory(rt: HostRuntime) {
    fill_far(&rt, rt.alloc(), Memory::Ample);
}

/// Whether a set has exactly the first places.
fn is_first(links: &Links, count: u32, lowest: u32) -> bool {
    let mut same = links.len() == count as usize;
    let mut n: u32 = 0;
    for place in links.iter() {
        let expected: LinkPlace = nth(n, lowest);
        same &= place == expected;
        n = n.saturating_add(1);
    }
    same & (n == count)
}

/// Puts places in one by one, and returns how many there was memory for.
fn insert_up_to(alloc: Global, links: &mut Links, count: u32, lowest: u32) -> u32 {
    for n in 0..count {
        if links.insert(alloc, nth(n, lowest)).is_err() {
            return n;
        }
    }
    count
}

/// Grows a set from one place over a list to a tree. A place is put in, or all stays.
fn grow_links(rt: &impl Abort, alloc: Global, memory: Memory, lowest: u32) {
    let mut links = Links::new();
    let held = insert_up_to(alloc, &mut links, 100, lowest);
    check_held(rt, memory, held, 100);
    assert!(rt; is_first(&links, held, lowest));
}

/// Grows sets that begin a list with their fourth place, with their third one, and with their second one.
fn fill_links(rt: &impl Abort, alloc: Global, memory: Memory) {
    for lowest in &LOWEST {
        grow_links(rt, alloc, memory, *lowest);
    }
}

#[test]
fn a_set_takes_a_place_or_stays(rt: HostRuntime) {
    fill_links(&rt, rt.alloc(), Memory::OneRefused);
}

#[test]
fn a_set_takes_places_with_ample_memory(rt: HostRuntime) {
    fill_links(&rt, rt.alloc(), Memory::Ample);
}

/// Gives at most `count` groups an identity each, and returns how many there was memory for.
fn tags_up_to(index: &mut NameIndex, count: u32) -> u32 {
    for n in 0..count {
        if index.set_tag(id(7, n), Tag::Base(n)).is_err() {
            return n;
        }
    }
    count
}

/// Whether these groups have their identities, and the next one has none.
fn are_tagged(index: &NameIndex, count: u32) -> bool {
    let mut same = index.tag(id(7, count)).is_none();
    for n in 0..count {
        same &= index.tag(id(7, n)) == Some(Tag::Base(n));
    }
    same
}

/// Names one identity by many places, and tags others. Each is noted, or all stays.
fn fill_index(rt: &impl Abort, alloc: Global, memory: Memory) {
    let mut index = NameIndex::new(alloc);
    let named = name(&mut index, alloc, id(7, 3), 0, 70);
    check_held(rt, memory, named, 70);
    assert!(rt; named_from(&index, id(7, 3), 0, named) & index.tag(id(7, 3)).is_none());
    let tagged = tags_up_to(&mut index, 40);
    check_held(rt, memory, tagged, 40);
    assert!(rt; are_tagged(&index, tagged) & named_from(&index, id(7, 3), 0, named));
}

#[test]
fn an_index_takes_a_name_or_a_tag_or_stays(rt: HostRuntime) {
    fill_index(&rt, rt.alloc(), Memory::OneRefused);
}

#[test]
fn an_index_takes_names_and_tags_with_ample_memory(rt: HostRuntime) {
    fill_index(&rt, rt.alloc(), Memory::Ample);
}
