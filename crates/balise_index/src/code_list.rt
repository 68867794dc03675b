//! Codes in order, in blocks, so that one put in or taken out moves few others.

mod block_names;
mod blocks;

ghost use Rattle.std.specs.Prelude.{◌≡◌, ◌≤◌, ◌<◌, ◌+◌, ◌^◌, length, insert, remove, slice_get, [], OnOk};

use block_names::BlockNames;
use blocks::{block_of, put_in, split, take_out};
use std::alloc::{AllocError, Global};
use std::marker::Model;
use std::mem;

/// How many codes a block has at most.
const MOST: usize = 512;

/// How many codes there are at most.
const ALL: usize = 4611686018427387904;

/// Codes one after another, and how many stand before them.
#[derive(Drop)]
struct Block {
    start: usize,
    codes: Vec<u32>,
}

/// Codes in order.
#[derive(Drop)]
pub(crate) struct CodeList {
    blocks: Vec<Block>,
    // Room for the codes of one more block.
    spare: Vec<u32>,
    len: usize,
    names: BlockNames,
}

impl Model for CodeList {
    ghost use Rattle.std.specs.Prelude.{◌≡◌, ◌≤◌, [], length, vec_len, vec_capacity, ◌-◌, ◌/◌, min};
    ghost use Rattle.balise_index.specs.Blocks as specs;

    ghost Value = { specs.CodeList };

    ghost view = { λ t. record { items = specs.flat t.blocks.items; room = min (min (vec_capacity t.blocks - vec_len t.blocks) (vec_capacity t.spare / 512)) (4611686018427387904 - t.len) } };

    ghost invariant = { λ t. specs.Laid 0 t.blocks.items × (t.len ≡ length (specs.flat t.blocks.items)) × (t.spare.items ≡ []) × (t.len ≤ 4611686018427387904) };
}

impl CodeList {
    /// No code. Takes no memory.
    pub(crate) fn new(alloc: Global) -> CodeList
        ensures { result.items ≡ [] }
    {
        CodeList {
            blocks: Vec::new(alloc),
            spare: Vec::new(alloc),
            len: 0,
            names: BlockNames::new(alloc),
        }
    }

    /// How many there are.
    pub(crate) fn len(&self) -> usize
        ensures len { result ≡ length self.now.items }
        ensures few { result ≤ 2 ^ 62 }
    {
        self.len
    }

    /// The code at a place.
    pub(crate) fn get(&self, i: usize) -> Option<u32>
        ensures { result ≡ slice_get self.now.items i }
    {
        if i >= self.len {
            return None;
        }
        let block = &self.blocks[block_of(&self.blocks, i)];
        Some(block.codes[i - block.start])
    }

    /// Takes memory for one more. At 2^62 codes it fails and asks for none.
    pub(crate) fn reserve(&mut self) -> Result<(), AllocError>
        ensures items { self.new.items ≡ self.old.items }
        ensures room { OnOk result (1 ≤ self.new.room) }
    {
        if self.len >= ALL {
            return Err(AllocError);
        }
        self.blocks.reserve(1)?;
        self.names.reserve()?;
        if self.spare.capacity() < MOST {
            self.spare = Vec::with_capacity(*self.blocks.allocator(), MOST)?;
        }
        Ok(())
    }

    /// Puts a code in at a place. Takes no memory.
    pub(crate) fn insert(&mut self, i: usize, code: u32)
        requires within { i ≤ length self.old.items }
        requires room { 1 ≤ self.old.room }
        ensures { self.new.items ≡ insert self.old.items i code }
    {
        if self.blocks.len() == 0 {
            let mut codes = mem::replace(&mut self.spare, Vec::new(*self.blocks.allocator()));
            // `reserve` made room for both, so neither fails.
            let _ = codes.push(code);
            let _ = self.blocks.push(Block { start: 0, codes });
            self.names.begin_after(0);
            self.len = 1;
            return;
        }
        let mut b = block_of(&self.blocks, i);
        if self.blocks[b].codes.len() >= MOST {
            let codes = mem::replace(&mut self.spare, Vec::new(*self.blocks.allocator()));
            self.names.begin_after(b);
            b = split(&mut self.blocks, codes, b, i);
        }
        put_in(&mut self.blocks, b, i, code);
        self.len += 1;
    }

    /// How many blocks they stand in.
    pub(crate) fn count_blocks(&self) -> usize {
        self.blocks.len()
    }

    /// The name of the block that a place is in.
    pub(crate) fn block_at(&self, i: usize) -> u32 {
        if self.blocks.is_empty() {
            return 0;
        }
        self.names.name_of(block_of(&self.blocks, i))
    }

    /// The place of the block that was begun last.
    pub(crate) fn begun_last(&self) -> usize {
        self.names.place_of(self.names.last())
    }

    /// The name and the codes of the block at a place among the blocks.
    pub(crate) fn block(&self, b: usize) -> (u32, &[u32]) {
        match self.blocks.get(b) {
            Some(block) => (self.names.name_of(b), block.codes.as_slice()),
            None => (0, &[]),
        }
    }

    /// Where a code stands, if the block with a name has it: a guess.
    pub(crate) fn place_in(&self, name: u32, code: u32) -> usize {
        let Some(block) = self.blocks.get(self.names.place_of(name)) else {
            return 0;
        };
        let within = block.codes.iter().position(|other| *other == code);
        block.start.saturating_add(within.unwrap_or(0))
    }

    /// Takes out the code at a place. Takes no memory.
    pub(crate) fn remove(&mut self, i: usize)
        requires { i < length self.old.items }
        ensures { self.new.items ≡ remove self.old.items i }
    {
        let b = block_of(&self.blocks, i);
        take_out(&mut self.blocks, b, i);
        self.len -= 1;
    }
}
