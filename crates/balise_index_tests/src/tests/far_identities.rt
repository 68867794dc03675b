//! Identities whose cells are far from the rows, since a row that has them would be too long for what stands there.

use crate::tests::identities::{id, put, value, write};
use balise_index::IdentityMap;
use balise_rules::Id;
use std::alloc::Global;
use std::process::Abort;

/// A map whose rows have all cells that they may have for one identity. What comes next is far, unless its number is
/// small.
fn map_of_full_rows(rt: &impl Abort, alloc: Global) -> IdentityMap<u32> {
    let mut map = IdentityMap::new(alloc);
    assert!(rt; put(&mut map, id(1022, 16382), 99));
    map
}

/// Puts a value in, finds it, writes over it, takes it out, and puts it in again.
fn check_kept(rt: &impl Abort, map: &mut IdentityMap<u32>, id: Id, first: u32) {
    assert!(rt; value(map, id).is_none() & put(map, id, first) & !put(map, id, 0));
    assert!(rt; (value(map, id) == Some(first)) & write(map, id, 77));
    assert!(rt; (map.remove(id) == Some(77)) & map.remove(id).is_none() & !write(map, id, 0));
    assert!(rt; value(map, id).is_none() & put(map, id, first));
    assert!(rt; value(map, id) == Some(first));
}

fn check_far_and_near(rt: &impl Abort, alloc: Global) {
    let ids = [
        id(7, 0),
        id(7, 16382),
        id(7, 16381),
        id(7, 15),
        id(1023, 16382),
        id(7, 16),
        id(1023, 0),
        id(6, 16382),
    ];
    let mut map = map_of_full_rows(rt, alloc);
    let mut n: u32 = 0;
    for id in &ids {
        check_kept(rt, &mut map, *id, n);
        n = n.saturating_add(1);
    }
    n = 0;
    for id in &ids {
        assert!(rt; map.remove(*id) == Some(n));
        n = n.saturating_add(1);
    }
}

#[test]
fn far_and_near_identities(rt: HostRuntime) {
    check_far_and_near(&rt, rt.alloc());
}

/// Identities one after another.
#[derive(Clone, Copy)]
enum Series {
    /// Of one country, from the largest number down.
    Down,
    /// A large number of each country.
    EachCountry,
}

impl Series {
    fn nth(self, n: u32) -> Id {
        match self {
            Series::Down => id(3, 16382u32.saturating_sub(n)),
            Series::EachCountry => id(n, 16382u32.saturating_sub(n % 5)),
        }
    }
}

/// Puts `count` values in, and finds each.
fn put_all(rt: &impl Abort, map: &mut IdentityMap<u32>, series: Series, count: u32) {
    for n in 0..count {
        assert!(rt; put(map, series.nth(n), n));
    }
    for n in 0..count {
        assert!(rt; value(map, series.nth(n)) == Some(n));
    }
}

/// Takes out each second value, finds the others, and puts it in again.
fn take_and_put(rt: &impl Abort, map: &mut IdentityMap<u32>, series: Series, count: u32) {
    for n in 0..count {
        if n % 2 == 0 {
            assert!(rt; map.remove(series.nth(n)) == Some(n));
        }
    }
    for n in 0..count {
        let left = if n % 2 == 0 { None } else { Some(n) };
        assert!(rt; value(map, series.nth(n)) == left);
    }
    for n in 0..count {
        assert!(rt; n % 2 == 1 || put(map, series.nth(n), n));
    }
    for n in 0..count {
        assert!(rt; value(map, series.nth(n)) == Some(n));
    }
}

fn check_series(rt: &impl Abort, alloc: Global, series: Series, count: u32) {
    let mut map = map_of_full_rows(rt, alloc);
    put_all(rt, &mut map, series, count);
    take_and_put(rt, &mut map, series, count);
}

#[test]
fn all_numbers_of_a_country_from_the_largest_down(rt: HostRuntime) {
    check_series(&rt, rt.alloc(), Series::Down, 16383);
}

#[test]
fn a_large_number_of_each_country(rt: HostRuntime) {
    check_series(&rt, rt.alloc(), Series::EachCountry, 1024);
}

/// Takes out the first of three, so that the last one takes its slot, and then the others.
fn check_moved(rt: &impl Abort, alloc: Global, first: Id, second: Id, last: Id) {
    let mut map = map_of_full_rows(rt, alloc);
    assert!(rt; put(&mut map, first, 1) & put(&mut map, second, 2) & put(&mut map, last, 3));
    assert!(rt; (map.remove(first) == Some(1)) & value(&map, first).is_none());
    assert!(rt; (value(&map, last) == Some(3)) & (value(&map, second) == Some(2)));
    assert!(rt; write(&mut map, last, 33) & (value(&map, last) == Some(33)));
    assert!(rt; put(&mut map, first, 11) & (map.remove(second) == Some(2)));
    assert!(rt; (value(&map, first) == Some(11)) & (value(&map, last) == Some(33)));
    assert!(rt; (map.remove(last) == Some(33)) & (map.remove(first) == Some(11)));
    assert!(rt; value(&map, last).is_none() & value(&map, first).is_none());
}

#[test]
fn the_last_slot_is_of_a_far_identity(rt: HostRuntime) {
    let (near, far) = (id(5, 1), id(5, 16382));
    check_moved(&rt, rt.alloc(), near, id(5, 2), far);
    check_moved(&rt, rt.alloc(), far, near, id(6, 16382));
    check_moved(&rt, rt.alloc(), far, near, id(5, 2));
}

/// How many identities are put in before the row of country 3 has a cell for its number 4,000.
const BEFORE: u32 = 1000;

/// A far identity of a country whose row grows over its number later.
fn check_grown(rt: &impl Abort, alloc: Global) {
    let (early, late) = (id(3, 4000), id(3, 4001));
    let mut map = map_of_full_rows(rt, alloc);
    assert!(rt; put(&mut map, early, 9));
    for n in 0..BEFORE {
        assert!(rt; put(&mut map, id(4, n), n));
    }
    assert!(rt; put(&mut map, late, 8) & (value(&map, early) == Some(9)));
    assert!(rt; (map.remove(id(4, 0)) == Some(0)) & (value(&map, late) == Some(8)));
    assert!(rt; (map.remove(early) == Some(9)) & value(&map, early).is_none());
    assert!(rt; put(&mut map, early, 7) & (map.remove(late) == Some(8)));
    assert!(rt; (value(&map, early) == Some(7)) & (map.remove(early) == Some(7)));
}

#[test]
fn a_row_grows_over_a_far_identity(rt: HostRuntime) {
    check_grown(&rt, rt.alloc());
}
