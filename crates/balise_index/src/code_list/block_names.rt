//! Names of blocks, which stay when other blocks are begun among them.

use std::alloc::{AllocError, Global};

/// The names of blocks, and where each stands. These are guesses, which are looked at before they are believed: no contract
/// says that they are right.
#[derive(Drop)]
pub(super) struct BlockNames {
    // The name of the block at each place.
    names: Vec<u32>,
    // The place of the block of each name.
    places: Vec<usize>,
}

impl BlockNames {
    /// No block. Takes no memory.
    pub(super) fn new(alloc: Global) -> BlockNames {
        BlockNames {
            names: Vec::new(alloc),
            places: Vec::new(alloc),
        }
    }

    /// Takes memory for one more.
    pub(super) fn reserve(&mut self) -> Result<(), AllocError> {
        self.names.reserve(1)?;
        self.places.reserve(1)
    }

    /// Names a block that was begun after another, or the first one.
    pub(super) fn begin_after(&mut self, b: usize) {
        let count = self.names.len();
        let Ok(name) = u32::try_from(count) else {
            return;
        };
        let at = b.saturating_add(1).min(count);
        if self.names.insert(at, name).is_err() {
            return;
        }
        // `reserve` made room for both lists. A missing name would only make guesses fail.
        let _ = self.places.push(at);
        for place in at..self.names.len() {
            let name = self.names[place] as usize;
            if let Some(held) = self.places.get_mut(name) {
                *held = place;
            }
        }
    }

    /// The name of the block at a place.
    pub(super) fn name_of(&self, b: usize) -> u32 {
        match self.names.get(b) {
            Some(name) => *name,
            None => 0,
        }
    }

    /// The place of the block with a name.
    pub(super) fn place_of(&self, name: u32) -> usize {
        match self.places.get(name as usize) {
            Some(place) => *place,
            None => 0,
        }
    }

    /// The name that was given last.
    pub(super) fn last(&self) -> u32 {
        u32::try_from(self.names.len().saturating_sub(1)).unwrap_or(0)
    }
}
