//! Sets of link places beside a plain list: their places put in and taken out in several orders, and those that no set
//! takes.

use crate::tests::links::{first, has, place};
use balise_index::{LinkPlace, Links};
use balise_rules::Tag;
use std::alloc::Global;
use std::process::Abort;

/// A set, and the list of what it has to have, in order.
#[derive(Drop)]
struct Both {
    links: Links,
    list: Vec<LinkPlace>,
}

impl Both {
    fn new(alloc: Global) -> Both {
        Both {
            links: Links::new(),
            list: Vec::new(alloc),
        }
    }

    fn are_same(&self) -> bool {
        has(&self.links, self.list.as_slice())
    }

    /// How many places of the list come before one.
    fn rank(&self, place: LinkPlace) -> usize {
        let mut rank: usize = 0;
        for other in &self.list {
            if *other < place {
                rank = rank.saturating_add(1);
            }
        }
        rank
    }
}

/// Puts a place that isn't there into the set and into the list.
fn put_both(rt: &impl Abort, alloc: Global, both: &mut Both, place: LinkPlace) {
    let i = both.rank(place);
    assert!(rt; (i <= both.list.len()) & !both.links.contains(&place));
    both.list.insert(i, place).expect(rt, "memory");
    both.links.insert(alloc, place).expect(rt, "memory");
    assert!(rt; both.are_same());
    both.links.insert(alloc, place).expect(rt, "memory");
    assert!(rt; both.are_same());
}

/// Takes a place that is there out of the set and of the list.
fn take_both(rt: &impl Abort, both: &mut Both, place: LinkPlace) {
    let i = both.rank(place);
    assert!(rt; (i < both.list.len()) & both.links.contains(&place));
    let _ = both.list.remove(i);
    both.links.remove(&place);
    assert!(rt; both.are_same());
    both.links.remove(&place);
    assert!(rt; both.are_same());
}

/// The place of a serial. The first is of telegram 7 and element 31, and 160 of them all differ.
fn scattered(serial: u32) -> LinkPlace {
    let n = serial.wrapping_add(7);
    let group = if n % 2 == 1 {
        Tag::Base(n % 5)
    } else {
        Tag::Fresh(n % 5)
    };
    let packet = if n % 3 == 0 {
        Tag::Base(n % 4)
    } else {
        Tag::Fresh(n % 4)
    };
    place(
        group,
        n % 8,
        packet,
        n.wrapping_mul(13).wrapping_add(4) % 32,
    )
}

/// The serial at a place of an order: from 0 on in steps, round the end again.
fn serial(k: u32, step: u32, count: u32) -> u32 {
    if count == 0 {
        return 0;
    }
    k.wrapping_mul(step) % count
}

/// Puts `count` places in, in one order, and takes them out in another one.
fn check_orders(rt: &impl Abort, alloc: Global, count: u32, into: u32, out: u32) {
    let mut both = Both::new(alloc);
    for k in 0..count {
        put_both(rt, alloc, &mut both, scattered(serial(k, into, count)));
    }
    assert!(rt; both.links.len() == count as usize);
    for k in 0..count {
        take_both(rt, &mut both, scattered(serial(k, out, count)));
    }
    assert!(rt; both.links.is_empty());
}

/// Steps that meet each serial: forwards, backwards, and two others.
fn check_each_order(rt: &impl Abort, alloc: Global, count: u32) {
    let steps = [1, count.saturating_sub(1), 7, 11];
    for into in &steps {
        for out in &steps {
            check_orders(rt, alloc, count, *into, *out);
        }
    }
}

#[test]
fn places_go_in_and_out_in_each_order(rt: HostRuntime) {
    for count in &[1, 2, 3, 4, 64, 65] {
        check_each_order(&rt, rt.alloc(), *count);
    }
}

/// The largest telegram and element are held. Above them each place is refused, and all stays.
fn check_refused(rt: &impl Abort, alloc: Global, count: u32) {
    let (zero, last) = (Tag::Base(0), Tag::Fresh(4294967295));
    let mut both = Both::new(alloc);
    for place in &first(rt, alloc, count, 0) {
        put_both(rt, alloc, &mut both, *place);
    }
    for above in &[
        place(zero, 256, zero, 0),
        place(zero, 0, zero, 256),
        place(last, 4294967295, last, 255),
        place(last, 255, last, 511),
    ] {
        assert!(rt; both.links.insert(alloc, *above).is_err() & both.are_same());
        both.links.remove(above);
        assert!(rt; !both.links.contains(above) & both.are_same());
    }
    put_both(rt, alloc, &mut both, place(last, 255, last, 255));
}

#[test]
fn a_place_above_255_is_refused(rt: HostRuntime) {
    for count in &[0, 1, 2, 3, 4, 64, 65] {
        check_refused(&rt, rt.alloc(), *count);
    }
}

/// A packet's place with the largest telegram and element that two or three places by themselves may have.
fn largest(group: Tag, packet: Tag) -> LinkPlace {
    place(group, 7, packet, 31)
}

/// Places with the largest packet that three places by themselves may have, and two places, and places just past them.
fn edges() -> [LinkPlace; 12] {
    let (base, fresh) = (Tag::Base(4294967295), Tag::Fresh(4294967295));
    [
        largest(base, Tag::Base(63)),
        largest(base, Tag::Fresh(63)),
        largest(fresh, Tag::Base(63)),
        largest(fresh, Tag::Fresh(63)),
        place(base, 0, Tag::Base(64), 0),
        place(fresh, 0, Tag::Fresh(64), 0),
        largest(base, Tag::Base(4194303)),
        largest(fresh, Tag::Fresh(4194303)),
        place(base, 8, Tag::Base(0), 0),
        place(base, 0, Tag::Base(4194304), 0),
        place(fresh, 0, Tag::Fresh(4194304), 0),
        place(fresh, 0, Tag::Base(0), 32),
    ]
}

/// Puts four places in, and takes them out again in that order.
fn check_four(rt: &impl Abort, alloc: Global, list: &[LinkPlace; 4]) {
    let mut both = Both::new(alloc);
    for place in list {
        put_both(rt, alloc, &mut both, *place);
    }
    for place in list {
        take_both(rt, &mut both, *place);
    }
}

#[test]
fn three_places_at_the_edges(rt: HostRuntime) {
    let edges = edges();
    let (low, high) = (
        place(Tag::Base(0), 0, Tag::Base(0), 0),
        place(Tag::Fresh(9), 0, Tag::Base(0), 0),
    );
    for i in 0..12 {
        for j in 0..12 {
            if i != j {
                check_four(&rt, rt.alloc(), &[low, edges[i], edges[j], high]);
                check_four(&rt, rt.alloc(), &[edges[i], high, edges[j], low]);
            }
        }
    }
}
