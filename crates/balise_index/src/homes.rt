//! In which block each tag was seen last.

use crate::tag_hasher::TagMap;
use crate::tag_list::TagList;
use std::alloc::{AllocError, Global};

/// The name of the block in which each tag was seen last, in the order of a map. These are guesses, which are looked at
/// before they are believed: no contract says that they are right. So two bytes are enough for each: blocks have larger
/// names only once some 16.7 million tags were put in. Nothing is noted before `reserve` is called.
#[derive(Drop)]
pub(crate) struct Homes {
    blocks: Vec<u16>,
    are_noted: bool,
}

impl Homes {
    /// No tag. Takes no memory.
    pub(crate) fn new(alloc: Global) -> Homes {
        Homes {
            blocks: Vec::new(alloc),
            are_noted: false,
        }
    }

    /// Whether they are noted.
    pub(crate) fn are_noted(&self) -> bool {
        self.are_noted
    }

    /// Takes memory for more. The first time it notes the block of each tag, and from then on `put` and `swap_remove` keep
    /// them so.
    pub(crate) fn reserve<V>(
        &mut self,
        order: &TagList,
        held: &TagMap<V>,
        more: usize,
    ) -> Result<(), AllocError> {
        if self.are_noted {
            return self.blocks.reserve(more);
        }
        self.blocks.reserve(held.len().saturating_add(more))?;
        for _ in 0..held.len() {
            // The line above made room for it, so this doesn't fail.
            let _ = self.blocks.push(0);
        }
        for b in 0..order.count_blocks() {
            self.note_block(order, held, b);
        }
        self.are_noted = true;
        Ok(())
    }

    // Notes a block for all tags in it.
    fn note_block<V>(&mut self, order: &TagList, held: &TagMap<V>, b: usize) {
        let (name, codes) = order.block(b);
        for code in codes {
            if let Some(k) = held.get_index_of(code) {
                if let Some(block) = self.blocks.get_mut(k) {
                    *block = noted(name);
                }
            }
        }
    }

    /// Notes the block of the map's last tag, which was put in at a place. `blocks` is how many blocks there were before.
    pub(crate) fn put<V>(&mut self, order: &TagList, held: &TagMap<V>, i: usize, blocks: usize) {
        if !self.are_noted {
            return;
        }
        // `reserve` made room for it. A missing block would only make guesses fail.
        let _ = self.blocks.push(noted(order.block_at(i)));
        if order.count_blocks() > blocks {
            self.note_block(order, held, order.begun_last());
        }
    }

    /// Forgets the tag at a place of the map. The last one takes its place.
    pub(crate) fn swap_remove(&mut self, k: usize) {
        if k < self.blocks.len() {
            // The guess that is taken out has no further use.
            let _ = self.blocks.swap_remove(k);
        }
    }

    /// Where a code stands that is at a place of the map: a guess.
    pub(crate) fn place_of(&self, order: &TagList, k: usize, code: u32) -> usize {
        match self.blocks.get(k) {
            Some(name) => order.place_in(*name as u32, code),
            None => 0,
        }
    }
}

// A name as it is noted. One that is too large is noted as the largest: blocks that were begun after that one mostly
// stand after it too.
fn noted(name: u32) -> u16 {
    u16::try_from(name).unwrap_or(u16::MAX)
}
