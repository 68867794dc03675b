//! A map from identities: each call, the first and the last identity, and a slot that another one takes.

use balise_index::IdentityMap;
use balise_rules::Id;
use std::alloc::Global;
use std::process::Abort;

pub(crate) fn id(country: u32, number: u32) -> Id {
    Id { country, number }
}

/// Puts a value in, if there is none under the identity and there is memory. Returns whether it did.
pub(crate) fn put(map: &mut IdentityMap<u32>, id: Id, value: u32) -> bool {
    let None = map.get(id) else {
        return false;
    };
    map.insert(id, value).is_ok()
}

/// What stands under an identity.
pub(crate) fn value(map: &IdentityMap<u32>, id: Id) -> Option<u32> {
    match map.get(id) {
        Some(value) => Some(*value),
        None => None,
    }
}

/// Writes over the value under an identity, if there is one.
pub(crate) fn write(map: &mut IdentityMap<u32>, id: Id, value: u32) -> bool {
    let Some(held) = map.get_mut(id) else {
        return false;
    };
    *held = value;
    true
}

/// Whether nothing stands under neighbours of 0.0 and of 1023.16382, by country or by number.
fn lacks_neighbours(map: &IdentityMap<u32>) -> bool {
    value(map, id(0, 1)).is_none()
        & value(map, id(1, 0)).is_none()
        & value(map, id(1023, 16381)).is_none()
        & value(map, id(1022, 16382)).is_none()
        & value(map, id(0, 16382)).is_none()
}

fn check_ends(rt: &impl Abort, alloc: Global) {
    let (first, last) = (id(0, 0), id(1023, 16382));
    let mut map = IdentityMap::new(alloc);
    assert!(rt; value(&map, first).is_none() & map.remove(first).is_none());
    assert!(rt; put(&mut map, last, 9) & put(&mut map, first, 1) & !put(&mut map, last, 5));
    assert!(rt; (value(&map, last) == Some(9)) & (value(&map, first) == Some(1)));
    assert!(rt; lacks_neighbours(&map));
    assert!(rt; (map.remove(last) == Some(9)) & value(&map, last).is_none());
    assert!(rt; (value(&map, first) == Some(1)) & (map.remove(first) == Some(1)));
}

#[test]
fn the_first_and_the_last_identity(rt: HostRuntime) {
    check_ends(&rt, rt.alloc());
}

/// The largest identities of a telegram are held. Above them each is refused, and all stays.
fn check_largest(rt: &impl Abort, alloc: Global) {
    let (last, held) = (id(1023, 16383), id(1023, 255));
    let too_large = [
        id(1024, 0),
        id(0, 16384),
        id(66559, 81919),
        id(131071, 65535),
    ];
    let mut map = IdentityMap::new(alloc);
    assert!(rt; put(&mut map, last, 1) & put(&mut map, held, 2));
    for above in &too_large {
        assert!(rt; !put(&mut map, *above, 3) & value(&map, *above).is_none());
    }
    assert!(rt; value(&map, id(0, 0)).is_none());
    assert!(rt; (map.remove(last) == Some(1)) & (map.remove(held) == Some(2)));
}

#[test]
fn the_largest_identities(rt: HostRuntime) {
    check_largest(&rt, rt.alloc());
}

fn check_written(rt: &impl Abort, alloc: Global) {
    let mut map = IdentityMap::new(alloc);
    assert!(rt; put(&mut map, id(5, 100), 1) & put(&mut map, id(5, 101), 2));
    assert!(rt; write(&mut map, id(5, 100), 7) & !write(&mut map, id(5, 102), 7));
    assert!(rt; !write(&mut map, id(6, 100), 7));
    assert!(rt; (value(&map, id(5, 100)) == Some(7)) & (value(&map, id(5, 101)) == Some(2)));
}

#[test]
fn values_are_written(rt: HostRuntime) {
    check_written(&rt, rt.alloc());
}

/// The first of three values is taken out: the last one takes its slot.
fn check_swapped(rt: &impl Abort, alloc: Global) {
    let mut map = IdentityMap::new(alloc);
    assert!(rt;
        put(&mut map, id(5, 1), 1) & put(&mut map, id(5, 2), 2) & put(&mut map, id(5, 3), 3)
    );
    assert!(rt; (map.remove(id(5, 1)) == Some(1)) & value(&map, id(5, 1)).is_none());
    assert!(rt; (value(&map, id(5, 3)) == Some(3)) & (value(&map, id(5, 2)) == Some(2)));
    assert!(rt; map.remove(id(5, 1)).is_none() & write(&mut map, id(5, 3), 33));
    assert!(rt; (map.remove(id(5, 3)) == Some(33)) & (map.remove(id(5, 2)) == Some(2)));
}

#[test]
fn the_last_slot_takes_the_place_of_another(rt: HostRuntime) {
    check_swapped(&rt, rt.alloc());
}

/// The identity of a serial, of one of seven countries.
fn nth(n: u32) -> Id {
    id(n % 7, n.wrapping_mul(13) % 2000)
}

fn put_many(rt: &impl Abort, map: &mut IdentityMap<u32>) {
    for n in 0..2000 {
        assert!(rt; put(map, nth(n), n));
    }
}

/// Takes out each third value, and then asks for all.
fn take_many(rt: &impl Abort, map: &mut IdentityMap<u32>) {
    for n in 0..2000 {
        if n % 3 == 0 {
            assert!(rt; map.remove(nth(n)) == Some(n));
        }
    }
    for n in 0..2000 {
        let left = if n % 3 == 0 { None } else { Some(n) };
        assert!(rt; value(map, nth(n)) == left);
    }
}

fn check_many(rt: &impl Abort, alloc: Global) {
    let mut map = IdentityMap::new(alloc);
    put_many(rt, &mut map);
    take_many(rt, &mut map);
}

#[test]
fn thousands_of_identities(rt: HostRuntime) {
    check_many(&rt, rt.alloc());
}
