//! A list of items under tags. A tag is the place where its item was put in, and takes no room. An only item takes no
//! memory of its own.

ghost use Rattle.std.specs.Prelude.{◌≡◌, ◌<◌, ◌≤◌, ◌^◌, ◌++◌, [], ◌∷◌, eqb, length, option_map, position, reverse, slice_get, slice_index_or, OnErr, OnOk};
ghost use Rattle.std.specs.Borrow.{sem};
ghost use Rattle.std.specs.Mem.{FitsInMemory};
ghost use Rattle.balise_plan.specs.OneOrMore.{by_tag, is_turned, tag_at, tagged, turned, AreInOrder};

use std::alloc::{AllocError, Global};
use std::marker::Model;
use std::ops::{Index, IndexMut};
use std::{mem, slice};

/// Items in order, each under a tag: the place where it was put in. In reverse order they keep their tags.
#[derive(Drop)]
pub(crate) struct OneOrMore<T> {
    held: Held<T>,
    alloc: Global,
}

/// One item by itself; none, and more than one, in a list in the order of their tags, with whether they stand in reverse
/// order.
#[derive(Drop)]
enum Held<T> {
    One(T),
    Listed(Vec<T>, bool),
}

impl<T> Model for OneOrMore<T> {
    ghost use Rattle.std.specs.Prelude.{ℕ, List};
    ghost use Rattle.balise_plan.specs.OneOrMore.{items_held};

    ghost Value = { List (ℕ × T) };

    ghost view = { λ l. items_held l.held };
}

impl<T> OneOrMore<T> {
    /// No item. Takes no memory.
    pub(crate) fn new(alloc: Global) -> OneOrMore<T>
        ensures { result ≡ [] }
    {
        OneOrMore {
            held: Held::Listed(Vec::new(alloc), false),
            alloc,
        }
    }

    /// The allocator that a list of it takes memory from.
    pub(crate) fn allocator(&self) -> Global {
        self.alloc
    }

    /// How many items there are.
    pub(crate) fn len(&self) -> usize
        ensures { result ≡ length self.now }
    {
        self.held.len()
    }

    /// The items in the order of their tags, and whether they stand in reverse order.
    pub(crate) fn by_tag(&self) -> (&[T], bool)
        requires { FitsInMemory T.row }
        ensures { self.now ≡ tagged result.0.now result.1 }
    {
        match &self.held {
            Held::One(item) => (slice::from_ref(item), false),
            Held::Listed(list, turned) => (list.as_slice(), *turned),
        }
    }

    /// The item at a place, with its tag.
    pub(crate) fn get(&self, i: usize) -> Option<(u32, &T)>
        requires { length self.now ≤ 2 ^ 32 }
        ensures { option_map (λ p. (p.0, p.1.now)) result ≡ slice_get self.now i }
    {
        if i >= self.held.len() {
            return None;
        }
        let tag = self.held.turned(i);
        Some((tag as u32, self.held.at(tag)))
    }

    /// The place of the item with this tag.
    pub(crate) fn place_of(&self, tag: u32) -> Option<usize>
        ensures { result ≡ position (λ q. eqb tag q.0) self.now }
    {
        let tag = tag as usize;
        if tag >= self.held.len() {
            return None;
        }
        Some(self.held.turned(tag))
    }

    /// The items in reverse order. Takes no memory.
    pub(crate) fn reverse(&mut self)
        ensures { self.new ≡ reverse self.old }
    {
        if let Held::Listed(_, turned) = &mut self.held {
            *turned = !*turned;
        }
    }
}

impl<T: Drop> OneOrMore<T> {
    /// Puts an item in at the end, under its place as tag. The first takes no memory. Out of memory, all stays.
    #[inline(always)]
    pub(crate) fn push(&mut self, item: T) -> Result<(), AllocError>
        requires { AreInOrder self.old }
        ensures ok { OnOk result (self.new ≡ self.old ++ (length self.old, item) ∷ []) }
        ensures err { OnErr result (self.new ≡ self.old) }
    {
        if self.len() == 0 {
            // No item is ever taken out, so an empty list is that of `new`, which has no memory to free.
            mem::forget(mem::replace(&mut self.held, Held::One(item)));
            return Ok(());
        }
        self.push_next(item)
    }

    // Puts an item in at the end of a list, which is made where there was one item.
    #[inline(never)]
    fn push_next(&mut self, item: T) -> Result<(), AllocError>
        requires { AreInOrder self.old }
        ensures ok { OnOk result (self.new ≡ self.old ++ (length self.old, item) ∷ []) }
        ensures err { OnErr result (self.new ≡ self.old) }
    {
        if let Held::Listed(list, turned) = &mut self.held {
            list.reserve_exact(1)?;
            // There is room for it now, so this doesn't fail.
            let _ = list.push(item);
            *turned = false;
            return Ok(());
        }
        // There is room for two, so neither push below fails.
        let mut list = Vec::with_capacity(self.alloc, 2)?;
        let held = mem::replace(&mut self.held, Held::Listed(Vec::new(self.alloc), false));
        if let Held::One(first) = held {
            let _ = list.push(first);
        }
        let _ = list.push(item);
        self.held = Held::Listed(list, false);
        Ok(())
    }
}

impl<T> Held<T> {
    ghost use Rattle.balise_plan.specs.LentItem.{lends_held};

    fn len(&self) -> usize
        ensures { result ≡ length (by_tag self.now) }
    {
        match self {
            Held::One(_) => 1,
            Held::Listed(list, _) => list.len(),
        }
    }

    // The tag of the item at a place, and the place of that with a tag.
    fn turned(&self, place: usize) -> usize
        requires { place < length (by_tag self.now) }
        ensures is { result ≡ turned (length (by_tag self.now)) (is_turned self.now) place }
        ensures within { result < length (by_tag self.now) }
    {
        match self {
            Held::Listed(list, true) => list.len() - 1 - place,
            _ => place,
        }
    }

    // The item with a tag.
    fn at(&self, tag: usize) -> &T
        requires { tag < length (by_tag self.now) }
        ensures { result.now ≡ slice_index_or (by_tag self.now) tag result.now }
    {
        match self {
            Held::One(item) => item,
            Held::Listed(list, _) => &list[tag],
        }
    }

    // The item with a tag, to change.
    fn at_mut(&mut self, tag: usize) -> &mut T
        requires { tag < length (by_tag self.old) }
        ensures* writes_back { sem 𝓛 (lends_held T.row self.entry tag result) }
        ensures value { result.now ≡ slice_index_or (by_tag self.old) tag result.now }
    {
        match self {
            Held::One(item) => item,
            Held::Listed(list, _) => &mut list[tag],
        }
    }
}

impl<T> Index<usize> for OneOrMore<T> {
    type Output = T;

    ghost can_index = { λ l i. i < length l };

    ghost index_gives = { λ l i x. (tag_at l i, x) ≡ slice_index_or l i (tag_at l i, x) };

    fn index(&self, i: usize) -> &T {
        self.held.at(self.held.turned(i))
    }
}

impl<T> IndexMut<usize> for OneOrMore<T> {
    ghost use Rattle.balise_plan.specs.LentItem.{lends_item};

    fn index_mut(&mut self, i: usize) -> &mut T
        requires { i < length self.old }
        ensures* writes_back { sem 𝓛 (lends_item T.row self.entry i result) }
        ensures value { (tag_at self.old i, result.now) ≡ slice_index_or self.old i (tag_at self.old i, result.now) }
    {
        let tag = self.held.turned(i);
        self.held.at_mut(tag)
    }
}
