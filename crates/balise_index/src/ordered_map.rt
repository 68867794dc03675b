//! Values under tags, in an order of the tags.

ghost use Rattle.std.specs.Prelude.{◌≡◌, ◌≤◌, insert, length, option_map, position, slice_get, eqb, IfSome, List, [], None, OnOk};
ghost use Rattle.std.specs.Borrow.{sem};
ghost use Rattle.std.specs.Map.{keys_of, remove_entry};
ghost use Rattle.std.specs.Option.{option_copied, option_copied_mut};
ghost use Rattle.balise_rules.specs.Tagged.{find};
ghost use Rattle.balise_rules.specs.Tags.{same_tag};
ghost use Rattle.balise_index.specs.InOrder.{HasRoom};
ghost use Rattle.balise_index.specs.LentEntry.{lends_entry};

use crate::homes::Homes;
use crate::tag_code::own_index;
use crate::tag_hasher::TagMap;
use crate::tag_list::TagList;
use crate::tag_search::{odd_with, place_in_rising, place_near, stands_at};
use balise_rules::Tag;
use indexmap::IndexMap;
use std::alloc::{AllocError, Global};
use std::hash::BuildHasherDefault;
use std::marker::Model;

/// Values under tags, in an order that insertions choose: the tags in order, and what stands under each. A value that is
/// put in or taken out so moves tags alone, and few of them.
#[derive(Drop)]
pub struct OrderedMap<V> {
    order: TagList,
    // Under the codes that the order has.
    held: TagMap<V>,
    // Where a value was put in or taken out last.
    near: usize,
    // The first tag that was put in before a lower one or after a higher one. The others rise, until memory is taken again.
    odd: Option<Tag>,
    homes: Homes,
}

impl<V> Model for OrderedMap<V> {
    ghost use Rattle.balise_index.specs.InOrder as specs;
    ghost use Rattle.indexmap.specs.IndexMap.{spare};

    ghost Value = { specs.OrderedMap V };

    ghost view = { λ m. record { entries = specs.in_order (specs.tagged m.order.rare m.held.entries) m.order.items; room = m.order.room; spare = spare m.held } };

    ghost invariant = { λ m. specs.IsOrder (specs.tagged m.order.rare m.held.entries) m.order.items × specs.HoldsKnown m.order.rare m.held.entries };
}

impl<V> OrderedMap<V> {
    /// No value. Takes no memory.
    pub fn new(alloc: Global) -> OrderedMap<V>
        ensures { result.entries ≡ [] }
    {
        OrderedMap {
            order: TagList::new(alloc),
            held: IndexMap::with_hasher(alloc, BuildHasherDefault::new()),
            near: 0,
            odd: None,
            homes: Homes::new(alloc),
        }
    }

    /// The allocator that its lists take memory from.
    pub fn allocator(&self) -> Global {
        *self.held.allocator()
    }

    /// How many values there are.
    pub fn len(&self) -> usize
        ensures { result ≡ length self.now.entries }
    {
        self.order.len()
    }

    /// The value under this tag.
    pub fn get(&self, tag: Tag) -> Option<&V>
        ensures value { option_copied result ≡ find same_tag tag self.now.entries }
    {
        match self.order.code_of(tag) {
            Some(code) => found(&self.held, code),
            None => None,
        }
    }

    /// The value under this tag, to change.
    pub fn get_mut(&mut self, tag: Tag) -> Option<&mut V>
        ensures* writes_back { sem 𝓛 (lends_entry V.row self.entry tag result) }
        ensures value { option_copied_mut result ≡ find same_tag tag self.old.entries }
    {
        let Some(code) = self.order.code_of(tag) else {
            return None;
        };
        if let Some(i) = own_place(&self.held, code) {
            return self.held.get_index_mut(i);
        }
        self.held.get_mut(&code)
    }

    /// The value at a place, with its tag.
    pub fn at(&self, i: usize) -> Option<(Tag, &V)>
        ensures { option_map (λ p. (p.0, p.1.now)) result ≡ slice_get self.now.entries i }
    {
        let Some(code) = self.order.code(i) else {
            return None;
        };
        match found(&self.held, code) {
            Some(value) => Some((self.order.tag(code), value)),
            None => None,
        }
    }

    /// The place of the value under this tag, from 0.
    pub fn place_of(&self, tag: Tag) -> Option<usize>
        ensures { result ≡ position (same_tag tag) (keys_of self.now.entries) }
    {
        place_near(&self.order, tag, self.expected(tag))
    }

    /// Takes memory for more values, such that one of them may be put in without any.
    pub fn reserve(&mut self, more: usize) -> Result<(), AllocError>
        ensures entries { self.new.entries ≡ self.old.entries }
        ensures room { OnOk result (1 ≤ more → HasRoom self.new) }
    {
        self.order.reserve()?;
        if self.odd.is_some() {
            self.homes.reserve(&self.order, &self.held, more)?;
        }
        self.held.reserve(more)
    }

    /// Takes a value out, and returns it and its place. Takes no memory.
    pub fn remove(&mut self, tag: Tag) -> Option<(usize, V)>
        ensures place { option_map (λ p. p.0) result ≡ position (same_tag tag) (keys_of self.old.entries) }
        ensures value { option_map (λ p. p.1) result ≡ find same_tag tag self.old.entries }
        ensures entries { self.new.entries ≡ remove_entry (same_tag tag) self.old.entries }
    {
        let Some(code) = self.order.code_of(tag) else {
            return None;
        };
        let Some(i) = self.place_of(tag) else {
            return None;
        };
        let k = held_at(&self.held, code);
        let Some(value) = self.held.swap_remove(&code) else {
            return None;
        };
        self.order.remove(i);
        self.near = i;
        self.homes.swap_remove(k);
        Some((i, value))
    }

    // Where to look for a tag first: where the last value was put in or taken out, where the tag would stand if the first
    // values were put in by number, or in the block in which it was seen last. Where no blocks are noted, tags rise but for
    // an odd one.
    fn expected(&self, tag: Tag) -> usize {
        if stands_at(&self.order, tag, self.near) {
            return self.near;
        }
        if let Tag::Base(n) = tag {
            if stands_at(&self.order, tag, n as usize) {
                return n as usize;
            }
        }
        if !self.homes.are_noted() {
            return place_in_rising(&self.order, self.odd, tag);
        }
        match self.order.code_of(tag) {
            Some(code) => self
                .homes
                .place_of(&self.order, held_at(&self.held, code), code),
            None => 0,
        }
    }
}

impl<V: Drop> OrderedMap<V> {
    /// Puts a value in at a place, under a tag that is new. Takes no memory.
    pub fn insert(&mut self, i: usize, tag: Tag, value: V)
        requires within { i ≤ length self.old.entries }
        requires new { find same_tag tag self.old.entries ≡ None }
        requires room { HasRoom self.old }
        ensures { self.new.entries ≡ insert self.old.entries i (tag, value) }
    {
        let blocks = self.order.count_blocks();
        self.odd = odd_with(&self.order, self.odd, tag, i);
        let code = self.order.insert(i, tag);
        // There is room and the code is new, so this doesn't fail and no old value is lost.
        let _ = self.held.insert(code, value);
        self.near = i;
        self.homes.put(&self.order, &self.held, i, blocks);
    }
}

// The place of the code of a tag `Base(n)` in the map, if that is n: so it is where such tags were put in first and in
// order, until one was taken out. This spares a look-up.
fn own_place<V>(held: &TagMap<V>, code: u32) -> Option<usize>
    ensures { IfSome result (λ i. slice_get (keys_of held.now.entries) i ≡ Some code) }
{
    let i = own_index(code);
    match held.get_index(i) {
        Some((there, _)) if *there == code => Some(i),
        _ => None,
    }
}

// What is held under a code.
fn found<V>(held: &TagMap<V>, code: u32) -> Option<&V>
    ensures { option_copied result ≡ find eqb code held.now.entries }
{
    if let Some((there, value)) = held.get_index(own_index(code)) {
        if *there == code {
            return Some(value);
        }
    }
    held.get(&code)
}

// The place of a code in the map, or the end where it is not there.
fn held_at<V>(held: &TagMap<V>, code: u32) -> usize {
    if let Some(i) = own_place(held, code) {
        return i;
    }
    held.get_index_of(&code).unwrap_or(held.len())
}
