//! The index of identities and names: each call, identities that only a group has or that are only named, tags at the
//! bounds, and names that move.

use crate::tests::identities::id;
use crate::tests::links::{LOWEST, has, nth};
use balise_index::NameIndex;
use balise_rules::{Id, Refusal, Tag};
use std::alloc::Global;
use std::process::Abort;

/// Whether these places of a kind name an identity, and no other: those from a first one up to a last one.
pub(crate) fn named_from(index: &NameIndex, id: Id, first: u32, last: u32) -> bool {
    let Some(places) = index.names(id) else {
        return first >= last;
    };
    let mut same = places.len() == last.saturating_sub(first) as usize;
    for n in first..last {
        same &= places.contains(&nth(n, LOWEST[0]));
    }
    same & (first < last)
}

/// Notes the places from a first one up to a last one. Returns how many there was memory for.
pub(crate) fn name(index: &mut NameIndex, alloc: Global, id: Id, first: u32, last: u32) -> u32 {
    for n in first..last {
        if index.add_name(alloc, id, nth(n, LOWEST[0])).is_err() {
            return n.saturating_sub(first);
        }
    }
    last.saturating_sub(first)
}

fn check_calls(rt: &impl Abort, alloc: Global) {
    let (group, other) = (id(3, 7), id(3, 8));
    let mut index = NameIndex::new(alloc);
    assert!(rt; index.tag(group).is_none() & index.names(group).is_none());
    assert!(rt; index.set_tag(group, Tag::Base(5)).is_ok());
    assert!(rt; (index.tag(group) == Some(Tag::Base(5))) & index.names(group).is_none());
    assert!(rt;
        (name(&mut index, alloc, group, 0, 2) == 2) & (name(&mut index, alloc, other, 4, 5) == 1)
    );
    assert!(rt; named_from(&index, group, 0, 2) & named_from(&index, other, 4, 5));
    assert!(rt; (index.tag(group) == Some(Tag::Base(5))) & index.tag(other).is_none());
    index.forget_tag(group);
    index.forget_tag(id(4, 7));
    assert!(rt; index.tag(group).is_none() & named_from(&index, group, 0, 2));
    index.forget_name(group, nth(0, LOWEST[0]));
    index.forget_name(other, nth(3, LOWEST[0]));
    assert!(rt; named_from(&index, group, 1, 2) & named_from(&index, other, 4, 5));
    index.forget_name(group, nth(1, LOWEST[0]));
    assert!(rt; index.names(group).is_none() & named_from(&index, other, 4, 5));
}

#[test]
fn a_group_has_an_identity_and_places_name_it(rt: HostRuntime) {
    check_calls(&rt, rt.alloc());
}

fn check_tags(rt: &impl Abort, alloc: Global) {
    let tags = [
        Tag::Base(0),
        Tag::Fresh(0),
        Tag::Fresh(4_001_000_000),
        Tag::Base(292_999_998),
    ];
    let mut index = NameIndex::new(alloc);
    for tag in &tags {
        assert!(rt; index.set_tag(id(1, 1), *tag).is_ok());
        assert!(rt; index.tag(id(1, 1)) == Some(*tag));
    }
    assert!(rt; index.set_tag(id(1, 1), Tag::Base(292_999_999)).is_err());
    assert!(rt; index.set_tag(id(1, 1), Tag::Fresh(4_001_000_001)).is_err());
    assert!(rt; index.set_tag(id(1024, 1), Tag::Base(0)).is_err());
    assert!(rt; index.tag(id(1, 1)) == Some(Tag::Base(292_999_998)));
}

#[test]
fn the_first_and_the_last_tags(rt: HostRuntime) {
    check_tags(&rt, rt.alloc());
}

fn check_claims(rt: &impl Abort, alloc: Global) {
    let mut index = NameIndex::new(alloc);
    assert!(rt; index.claim(id(1, 1), Tag::Base(7)) == Ok(()));
    assert!(rt; index.claim(id(1, 1), Tag::Base(8)) == Err(Refusal::GroupTwice));
    assert!(rt; index.claim(id(1, 1), Tag::Base(292_999_999)) == Err(Refusal::GroupTwice));
    assert!(rt; index.tag(id(1, 1)) == Some(Tag::Base(7)));
    assert!(rt; index.claim(id(1, 2), Tag::Base(292_999_999)) == Err(Refusal::OutOfMemory));
    assert!(rt; index.tag(id(1, 2)).is_none());
    // One that is named, and that no group has.
    assert!(rt; name(&mut index, alloc, id(1, 3), 0, 2) == 2);
    assert!(rt; index.claim(id(1, 3), Tag::Base(292_999_999)) == Err(Refusal::OutOfMemory));
    assert!(rt; index.claim(id(1, 3), Tag::Base(9)) == Ok(()));
    assert!(rt; index.tag(id(1, 3)) == Some(Tag::Base(9)));
    assert!(rt; index.names(id(1, 3)).is_some());
}

#[test]
fn an_identity_is_claimed_once(rt: HostRuntime) {
    check_claims(&rt, rt.alloc());
}

/// Moves `count` names from one identity to another that a group has.
fn check_moved(rt: &impl Abort, alloc: Global, count: u32) {
    let (from, to) = (id(9, 1), id(9, 2));
    if from == to {
        return;
    }
    let mut index = NameIndex::new(alloc);
    assert!(rt; name(&mut index, alloc, from, 0, count) == count);
    assert!(rt; index.set_tag(to, Tag::Fresh(1)).is_ok());
    if let None = index.names(to) {
        if index.tag(to).is_some() {
            index.move_names(from, to);
        }
    }
    assert!(rt; index.names(from).is_none() & named_from(&index, to, 0, count));
    assert!(rt; index.tag(from).is_none() & (index.tag(to) == Some(Tag::Fresh(1))));
}

#[test]
fn names_move_to_another_identity(rt: HostRuntime) {
    check_moved(&rt, rt.alloc(), 0);
    check_moved(&rt, rt.alloc(), 1);
    check_moved(&rt, rt.alloc(), 3);
    check_moved(&rt, rt.alloc(), 70);
}

/// Whether the places of an identity come in their order.
fn check_order(rt: &impl Abort, alloc: Global) {
    let mut index = NameIndex::new(alloc);
    assert!(rt; name(&mut index, alloc, id(2, 2), 2, 3) == 1);
    assert!(rt; name(&mut index, alloc, id(2, 2), 0, 2) == 2);
    let list = [nth(0, LOWEST[0]), nth(1, LOWEST[0]), nth(2, LOWEST[0])];
    let Some(places) = index.names(id(2, 2)) else {
        assert!(rt; false);
        return;
    };
    assert!(rt; has(places, &list));
}

#[test]
fn names_come_in_order(rt: HostRuntime) {
    check_order(&rt, rt.alloc());
}
