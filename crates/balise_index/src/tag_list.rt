//! Tags in order, each as a code of four bytes.

ghost use Rattle.std.specs.Prelude.{◌≡◌, ◌≤◌, ◌<◌, ◌+◌, ◌^◌, length, insert, remove, slice_get, [], IfNone, IfSome, OnOk};
ghost use Rattle.std.specs.Option.{option_map};
ghost use Rattle.balise_index.specs.TagCode.{tag_of, HasNone, KeepsTags, OneCode};

use crate::code_list::CodeList;
use crate::tag_code::{RARE, code_of, make_code, tag_of};
use balise_rules::Tag;
use std::alloc::{AllocError, Global};
use std::marker::Model;

/// Tags in order.
#[derive(Drop)]
pub(crate) struct TagList {
    codes: CodeList,
    // The tags that have no code of their own, in the order in which they came.
    rare: Vec<Tag>,
}

impl Model for TagList {
    ghost use Rattle.std.specs.Prelude.{◌≤◌, length, vec_len, vec_capacity, ◌-◌, min};
    ghost use Rattle.balise_index.specs.TagCode as specs;

    ghost Value = { specs.TagList };

    ghost view = { λ t. record { items = specs.tags_of t.rare.items t.codes.items; rare = t.rare.items; room = min t.codes.room (min (vec_capacity t.rare - vec_len t.rare) (967296 - vec_len t.rare)) } };

    ghost invariant = { λ t. specs.AreKnown t.rare.items t.codes.items × (length t.rare.items ≤ 967296) × specs.OneCode t.rare.items };
}

impl TagList {
    /// No tag. Takes no memory.
    pub(crate) fn new(alloc: Global) -> TagList
        ensures { result.items ≡ [] }
    {
        TagList {
            codes: CodeList::new(alloc),
            rare: Vec::new(alloc),
        }
    }

    /// How many there are.
    pub(crate) fn len(&self) -> usize
        ensures len { result ≡ length self.now.items }
        ensures few { result ≤ 2 ^ 62 }
    {
        self.codes.len()
    }

    /// The tag at a place.
    pub(crate) fn get(&self, i: usize) -> Option<Tag>
        ensures { result ≡ slice_get self.now.items i }
    {
        match self.codes.get(i) {
            Some(code) => Some(tag_of(&self.rare, code)),
            None => None,
        }
    }

    /// The code of the tag at a place.
    pub(crate) fn code(&self, i: usize) -> Option<u32>
        ensures tag { option_map (tag_of self.now.rare) result ≡ slice_get self.now.items i }
        ensures known { IfSome result (λ code. code < 4294000000 + length self.now.rare) }
        ensures one { OneCode self.now.rare }
    {
        self.codes.get(i)
    }

    /// The code of a tag, if it has one.
    pub(crate) fn code_of(&self, tag: Tag) -> Option<u32>
        ensures tag { IfSome result (λ code. tag_of self.now.rare code ≡ tag) }
        ensures known { IfSome result (λ code. code < 4294000000 + length self.now.rare) }
        ensures none { IfNone result (HasNone self.now.rare tag) }
        ensures one { OneCode self.now.rare }
    {
        code_of(&self.rare, tag)
    }

    /// The tag of a code.
    pub(crate) fn tag(&self, code: u32) -> Tag
        ensures { result ≡ tag_of self.now.rare code }
    {
        tag_of(&self.rare, code)
    }

    /// Takes memory for one more. It fails and asks for none at 2^62 tags, and once 967,296 tags were put in that no plan
    /// has.
    pub(crate) fn reserve(&mut self) -> Result<(), AllocError>
        ensures items { self.new.items ≡ self.old.items }
        ensures rare { self.new.rare ≡ self.old.rare }
        ensures room { OnOk result (1 ≤ self.new.room) }
    {
        if self.rare.len() >= RARE {
            return Err(AllocError);
        }
        self.rare.reserve(1)?;
        self.codes.reserve()
    }

    /// Puts a tag in at a place, and returns its code. Takes no memory.
    pub(crate) fn insert(&mut self, i: usize, tag: Tag) -> u32
        requires within { i ≤ length self.old.items }
        requires room { 1 ≤ self.old.room }
        ensures items { self.new.items ≡ insert self.old.items i tag }
        ensures tag { tag_of self.new.rare result ≡ tag }
        ensures known { result < 4294000000 + length self.new.rare }
        ensures more { length self.old.rare ≤ length self.new.rare }
        ensures kept { KeepsTags self.old.rare self.new.rare }
        ensures one { OneCode self.new.rare }
    {
        let code = make_code(&mut self.rare, tag);
        self.codes.insert(i, code);
        code
    }

    /// How many blocks they stand in.
    pub(crate) fn count_blocks(&self) -> usize {
        self.codes.count_blocks()
    }

    /// The name of the block that a place is in.
    pub(crate) fn block_at(&self, i: usize) -> u32 {
        self.codes.block_at(i)
    }

    /// The place of the block that was begun last.
    pub(crate) fn begun_last(&self) -> usize {
        self.codes.begun_last()
    }

    /// The name and the codes of the block at a place among the blocks.
    pub(crate) fn block(&self, b: usize) -> (u32, &[u32]) {
        self.codes.block(b)
    }

    /// Where the tag of a code stands, if the block with a name has it: a guess.
    pub(crate) fn place_in(&self, name: u32, code: u32) -> usize {
        self.codes.place_in(name, code)
    }

    /// Takes out the tag at a place. Takes no memory.
    pub(crate) fn remove(&mut self, i: usize)
        requires { i < length self.old.items }
        ensures items { self.new.items ≡ remove self.old.items i }
        ensures rare { self.new.rare ≡ self.old.rare }
    {
        self.codes.remove(i);
    }
}
