//! Sets of link places.

mod iter;
mod list;
mod narrow;
mod small;
mod three;

ghost use Rattle.std.specs.Prelude.{◌≡◌, ◌<◌, [], ◌∷◌, length, IfOk, IfSome, OnErr, OnOk, IsTrue, ◌↔◌, true, false};
ghost use Rattle.std.specs.List.Sorted.{IsStrictlySortedBy};
ghost use Rattle.std.specs.BTreeSet.{btree_set_len, contains, IsEmpty, IsOrdered};
ghost use Rattle.balise_index.specs.LinkSet.{places_held, Puts, PutsIn};
ghost use Rattle.balise_index.specs.NarrowPlace.{wide_place, wide_places};
ghost use Rattle.balise_index.specs.Places.{compare_place};
ghost use Rattle.balise_index.specs.SmallPlace.{wide_small};
ghost use Rattle.balise_index.specs.ThreePlaces.{first_of, second_of, third_of};

use crate::link_place::LinkPlace;
pub use iter::Places;
use narrow::NarrowPlace;
use small::SmallPlace;
use std::alloc::{AllocError, Global};
use std::cmp::Ordering;
use std::collections::BTreeSet;
use std::marker::Model;
use three::ThreePlaces;

/// Link places, each once and in order.
#[derive(Drop)]
pub struct Links {
    held: Held,
}

/// Up to three places by themselves, as most identities are named so often: the more they are, the smaller each has to be.
/// A few in a list, which takes little more memory than they need; more in a tree, where a change moves few of them. List
/// and tree have a place of their own, so that no set is larger for them.
#[derive(Drop)]
pub(crate) enum Held {
    Empty,
    One(NarrowPlace),
    Two(SmallPlace, SmallPlace),
    Three(ThreePlaces),
    Few(Box<Vec<NarrowPlace>>),
    Many(Box<BTreeSet<LinkPlace>>),
}

/// How many places a list has at most.
const FEW: usize = 64;

const _: () = prove!(size_of::<Links>() == 24);

impl Model for Links {
    ghost use Rattle.balise_index.specs.LinkSet.{places_held};
    ghost use Rattle.balise_index.specs.Places as specs;
    ghost use Rattle.std.specs.BTreeSet.{IsOrdered};

    ghost Value = { specs.Links };

    ghost view = { λ l. places_held l.held };

    ghost invariant = { λ l. IsOrdered specs.compare_place (places_held l.held) };
}

impl Links {
    /// How many they are.
    pub fn len(&self) -> usize
        ensures { result ≡ btree_set_len self.now }
    {
        match &self.held {
            Held::Empty => 0,
            Held::One(_) => 1,
            Held::Two(_, _) => 2,
            Held::Three(_) => 3,
            Held::Few(list) => list.len(),
            Held::Many(tree) => tree.len(),
        }
    }

    /// Whether there is none.
    pub fn is_empty(&self) -> bool
        ensures { IsTrue result ↔ (btree_set_len self.now ≡ 0) }
    {
        self.len() == 0
    }

    /// Whether a place is among them.
    pub fn contains(&self, place: &LinkPlace) -> bool
        ensures { result ≡ contains compare_place self.now place.now }
    {
        match &self.held {
            Held::Empty => false,
            Held::One(held) => place.cmp(&held.wide()).is_eq(),
            Held::Two(first, second) => {
                place.cmp(&first.wide()).is_eq() || place.cmp(&second.wide()).is_eq()
            }
            Held::Three(three) => {
                place.cmp(&three.first().wide()).is_eq()
                    || place.cmp(&three.second().wide()).is_eq()
                    || place.cmp(&three.third().wide()).is_eq()
            }
            Held::Few(list) => list::contains(list, place),
            Held::Many(tree) => tree.contains(place),
        }
    }

    /// The places in order.
    pub fn iter(&self) -> Places<'_>
        ensures places { result ≡ self.now.keys }
        ensures ordered { IsOrdered compare_place self.now }
    {
        Places::new(&self.held)
    }

    /// No place.
    pub fn new() -> Links
        ensures { IsEmpty result }
    {
        Links { held: Held::Empty }
    }

    /// Puts a place in. Leaves all as before if an allocation fails, and if the telegram or the element is above 255. No
    /// plan has such a place: the standard has at most 8 telegrams in a group and 32 elements in a packet.
    #[inline(always)]
    pub fn insert(&mut self, alloc: Global, place: LinkPlace) -> Result<(), AllocError>
        ensures put { OnOk result (Puts self.old self.new place true) }
        ensures some { OnOk result (0 < btree_set_len self.new) }
        ensures unchanged { OnErr result (self.new ≡ self.old) }
    {
        let Some(narrow) = NarrowPlace::of(place) else {
            return Err(AllocError);
        };
        if let Held::Empty = &self.held {
            self.held = Held::One(narrow);
            return Ok(());
        }
        insert_next(&mut self.held, alloc, narrow)
    }

    /// Takes a place out. Takes no memory.
    pub fn remove(&mut self, place: &LinkPlace)
        ensures { Puts self.old self.new place.now false }
    {
        match &mut self.held {
            Held::Empty => {}
            Held::One(held) => {
                if place.cmp(&held.wide()).is_eq() {
                    self.held = Held::Empty;
                }
            }
            Held::Two(first, second) => {
                self.held = two_without(*first, *second, place);
            }
            Held::Three(three) => {
                self.held = three_without(*three, place);
            }
            Held::Few(list) => list::remove(list, place),
            Held::Many(tree) => {
                // Whether it stood there makes no difference.
                let _ = tree.remove(place);
            }
        }
    }
}

// Puts a place in where others are. A function of its own, as most places are the first.
#[inline(never)]
fn insert_next(held: &mut Held, alloc: Global, place: NarrowPlace) -> Result<(), AllocError>
    requires { IsOrdered compare_place (places_held held.old) }
    ensures ordered { IsOrdered compare_place (places_held held.new) }
    ensures put { OnOk result (Puts (places_held held.old) (places_held held.new) (wide_place place) true) }
    ensures some { OnOk result (0 < btree_set_len (places_held held.new)) }
    ensures unchanged { OnErr result (places_held held.new ≡ places_held held.old) }
{
    if let Held::One(one) = held {
        if let Some(two) = one_with(*one, place) {
            *held = two;
            return Ok(());
        }
    }
    insert_far(held, alloc, place)
}

// Puts a place in where it may take memory: a function of its own, as most are put in without any.
#[inline(never)]
fn insert_far(held: &mut Held, alloc: Global, place: NarrowPlace) -> Result<(), AllocError>
    requires { IsOrdered compare_place (places_held held.old) }
    ensures ordered { IsOrdered compare_place (places_held held.new) }
    ensures put { OnOk result (Puts (places_held held.old) (places_held held.new) (wide_place place) true) }
    ensures some { OnOk result (0 < btree_set_len (places_held held.new)) }
    ensures unchanged { OnErr result (places_held held.new ≡ places_held held.old) }
{
    match held {
        Held::Empty => {
            *held = Held::One(place);
        }
        Held::One(one) => {
            let few = few_with(alloc, &[*one], place)?;
            *held = few;
        }
        Held::Two(first, second) => {
            if let Some(three) = two_with(*first, *second, place) {
                *held = three;
                return Ok(());
            }
            let few = few_with(alloc, &[first.narrow(), second.narrow()], place)?;
            *held = few;
        }
        Held::Three(three) => {
            let three = [
                three.first().narrow(),
                three.second().narrow(),
                three.third().narrow(),
            ];
            let few = few_with(alloc, &three, place)?;
            *held = few;
        }
        Held::Few(list) => {
            if list.len() < FEW {
                return list::insert(list, place);
            }
            let tree = tree_with(alloc, list, place.wide())?;
            *held = Held::Many(Box::new(alloc, tree)?);
        }
        Held::Many(tree) => {
            tree.insert(place.wide())?;
        }
    }
    Ok(())
}

// One place and another, by themselves if they can be.
fn one_with(held: NarrowPlace, place: NarrowPlace) -> Option<Held>
    ensures ordered { IfSome result (λ h. IsOrdered compare_place (places_held h)) }
    ensures put { IfSome result (λ h. PutsIn (wide_place held ∷ []) (places_held h).keys (wide_place place) true) }
    ensures some { IfSome result (λ h. 0 < btree_set_len (places_held h)) }
{
    match place.wide().cmp(&held.wide()) {
        Ordering::Less => both(place, held),
        Ordering::Equal => Some(Held::One(held)),
        Ordering::Greater => both(held, place),
    }
}

// Two places by themselves, if each has a small form.
fn both(first: NarrowPlace, second: NarrowPlace) -> Option<Held>
    ensures { IfSome result (λ held. places_held held ≡ record { keys = wide_place first ∷ wide_place second ∷ [] }) }
{
    let a = SmallPlace::of(first)?;
    let b = SmallPlace::of(second)?;
    Some(Held::Two(a, b))
}

// What is left of two places without one.
fn two_without(first: SmallPlace, second: SmallPlace, place: &LinkPlace) -> Held
    requires { IsStrictlySortedBy compare_place (wide_small first ∷ wide_small second ∷ []) }
    ensures ordered { IsOrdered compare_place (places_held result) }
    ensures put { PutsIn (wide_small first ∷ wide_small second ∷ []) (places_held result).keys place.now false }
{
    if place.cmp(&first.wide()).is_eq() {
        return Held::One(second.narrow());
    }
    if place.cmp(&second.wide()).is_eq() {
        return Held::One(first.narrow());
    }
    Held::Two(first, second)
}

// Two places and another, by themselves if they can be.
fn two_with(first: SmallPlace, second: SmallPlace, place: NarrowPlace) -> Option<Held>
    requires { IsStrictlySortedBy compare_place (wide_small first ∷ wide_small second ∷ []) }
    ensures ordered { IfSome result (λ held. IsOrdered compare_place (places_held held)) }
    ensures put { IfSome result (λ held. PutsIn (wide_small first ∷ wide_small second ∷ []) (places_held held).keys (wide_place place) true) }
    ensures some { IfSome result (λ held. 0 < btree_set_len (places_held held)) }
{
    let small = SmallPlace::of(place)?;
    match small.wide().cmp(&first.wide()) {
        Ordering::Less => all_three(small, first, second),
        Ordering::Equal => Some(Held::Two(first, second)),
        Ordering::Greater => match small.wide().cmp(&second.wide()) {
            Ordering::Less => all_three(first, small, second),
            Ordering::Equal => Some(Held::Two(first, second)),
            Ordering::Greater => all_three(first, second, small),
        },
    }
}

// Three places by themselves, if the rest of each fits 16 bits.
fn all_three(first: SmallPlace, second: SmallPlace, third: SmallPlace) -> Option<Held>
    ensures { IfSome result (λ held. places_held held ≡ record { keys = wide_small first ∷ wide_small second ∷ wide_small third ∷ [] }) }
{
    let three = ThreePlaces::of(first, second, third)?;
    Some(Held::Three(three))
}

// What is left of three places without one.
fn three_without(three: ThreePlaces, place: &LinkPlace) -> Held
    requires { IsStrictlySortedBy compare_place (wide_small (first_of three) ∷ wide_small (second_of three) ∷ wide_small (third_of three) ∷ []) }
    ensures ordered { IsOrdered compare_place (places_held result) }
    ensures put { PutsIn (wide_small (first_of three) ∷ wide_small (second_of three) ∷ wide_small (third_of three) ∷ []) (places_held result).keys place.now false }
{
    let first = three.first();
    let second = three.second();
    let third = three.third();
    if place.cmp(&first.wide()).is_eq() {
        return Held::Two(second, third);
    }
    if place.cmp(&second.wide()).is_eq() {
        return Held::Two(first, third);
    }
    if place.cmp(&third.wide()).is_eq() {
        return Held::Two(first, second);
    }
    Held::Three(three)
}

// A few places and another as a list.
fn few_with(alloc: Global, held: &[NarrowPlace], place: NarrowPlace) -> Result<Held, AllocError>
    requires few { length held.now < 64 }
    requires sorted { IsStrictlySortedBy compare_place (wide_places held.now) }
    ensures ordered { IfOk result (λ h. IsOrdered compare_place (places_held h)) }
    ensures put { IfOk result (λ h. PutsIn (wide_places held.now) (places_held h).keys (wide_place place) true) }
    ensures some { IfOk result (λ h. 0 < btree_set_len (places_held h)) }
{
    let mut list = Vec::with_capacity(alloc, held.len() + 1)?;
    list.extend_from_slice(held)?;
    list::insert(&mut list, place)?;
    Ok(Held::Few(Box::new(alloc, list)?))
}

// The places of a list and one more as a tree.
fn tree_with(
    alloc: Global,
    list: &Vec<NarrowPlace>,
    place: LinkPlace,
) -> Result<BTreeSet<LinkPlace>, AllocError>
    ensures put { IfOk result (λ s. PutsIn (wide_places list.now.items) s.keys place true) }
    ensures some { IfOk result (λ s. 0 < btree_set_len s) }
{
    let mut tree = BTreeSet::new(alloc);
    for i in 0..list.len() {
        tree.insert(list[i].wide())?;
    }
    tree.insert(place)?;
    Ok(tree)
}
