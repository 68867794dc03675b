//! Places in a list, each once and in order.

ghost use Rattle.std.specs.Prelude.{◌≡◌, ◌<◌, ◌≤◌, length, position, slice_get, IsTrue, OnErr, OnOk, true, false};
ghost use Rattle.std.specs.List.Sorted.{IsStrictlySortedBy};
ghost use Rattle.std.specs.Ordering.{is_le};
ghost use Rattle.balise_index.specs.LinkSet.{rank, stands, PutsIn};
ghost use Rattle.balise_index.specs.NarrowPlace.{wide_place, wide_places};
ghost use Rattle.balise_index.specs.Places.{among, compare_place};

use crate::link_place::LinkPlace;
use crate::links::narrow::NarrowPlace;
use std::alloc::AllocError;

/// Whether a place is among them.
pub(crate) fn contains(list: &Vec<NarrowPlace>, place: &LinkPlace) -> bool
    requires { IsStrictlySortedBy compare_place (wide_places list.now.items) }
    ensures { result ≡ among place.now (wide_places list.now.items) }
{
    is_at(list, place_for(list, *place), *place)
}

/// Puts a place in. Leaves all as before if an allocation fails.
pub(crate) fn insert(list: &mut Vec<NarrowPlace>, place: NarrowPlace) -> Result<(), AllocError>
    requires { IsStrictlySortedBy compare_place (wide_places list.old.items) }
    ensures ordered { IsStrictlySortedBy compare_place (wide_places list.new.items) }
    ensures put { OnOk result (PutsIn (wide_places list.old.items) (wide_places list.new.items) (wide_place place) true) }
    ensures some { OnOk result (0 < length (wide_places list.new.items)) }
    ensures unchanged { OnErr result (list.new.items ≡ list.old.items) }
{
    let wide = place.wide();
    let i = place_for(list, wide);
    if is_at(list, i, wide) {
        return Ok(());
    }
    make_room(list)?;
    list.insert(i, place)?;
    Ok(())
}

/// Takes a place out. Takes no memory.
pub(crate) fn remove(list: &mut Vec<NarrowPlace>, place: &LinkPlace)
    requires { IsStrictlySortedBy compare_place (wide_places list.old.items) }
    ensures ordered { IsStrictlySortedBy compare_place (wide_places list.new.items) }
    ensures put { PutsIn (wide_places list.old.items) (wide_places list.new.items) place.now false }
{
    let i = place_for(list, *place);
    if is_at(list, i, *place) {
        // The place that is taken out is `place`.
        let _ = list.remove(i);
    }
}

// How many of the places come before this one. The last of them is looked at first, as places mostly come in order.
fn place_for(list: &Vec<NarrowPlace>, place: LinkPlace) -> usize
    requires { IsStrictlySortedBy compare_place (wide_places list.now.items) }
    ensures rank { result ≡ rank place (wide_places list.now.items) }
    ensures within { result ≤ length list.now.items }
{
    if comes_last(list, place) {
        return list.len();
    }
    match first_from(list, place) {
        Some(i) => i,
        None => list.len(),
    }
}

// Whether a place comes after all of these.
fn comes_last(list: &Vec<NarrowPlace>, place: LinkPlace) -> bool
    requires { IsStrictlySortedBy compare_place (wide_places list.now.items) }
    ensures { IsTrue result → length list.now.items ≡ rank place (wide_places list.now.items) }
{
    let len = list.len();
    if len == 0 {
        return true;
    }
    place.cmp(&list[len - 1].wide()).is_gt()
}

fn first_from(list: &Vec<NarrowPlace>, place: LinkPlace) -> Option<usize>
    ensures { result ≡ position (λ n. is_le (compare_place place (wide_place n))) list.now.items }
{
    list.iter()
        .position(|other| place.cmp(&other.wide()).is_le())
}

fn is_at(list: &Vec<NarrowPlace>, i: usize, place: LinkPlace) -> bool
    ensures { result ≡ stands place (slice_get (wide_places list.now.items) i) }
{
    match list.get(i) {
        Some(other) => place.cmp(&other.wide()).is_eq(),
        None => false,
    }
}

// Makes a full list half as long again.
fn make_room(list: &mut Vec<NarrowPlace>) -> Result<(), AllocError>
    ensures { list.new.items ≡ list.old.items }
{
    let len = list.len();
    if len == list.capacity() {
        list.reserve_exact(len / 2 + 1)?;
    }
    Ok(())
}
