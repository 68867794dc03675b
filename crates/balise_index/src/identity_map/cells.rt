//! In which slot each identity stands.

ghost use Rattle.std.specs.Prelude.{◌≡◌, ◌≤◌, None, Some, OnOk, IsSome};
ghost use Rattle.balise_rules.specs.declared.identity.Id.{Id};
ghost use Rattle.balise_index.specs.Cells.{cell_of, far_cell, KeepsOthers};
ghost use Rattle.balise_index.specs.Rows.{near_cell};

use crate::identity_map::rows::{make_cell, missing, near_cell, set_cell};
use balise_rules::Id;
use std::alloc::{AllocError, Global};
use std::collections::BTreeMap;

/// The slot of each identity, in a cell of its country's row. The rows have at most 16,384 cells, enough for a plan of
/// one country, and 16 more for each identity that was held at once. An identity beyond that has a cell in a tree,
/// until it is taken out. The cell of an identity that isn't held may hold any number.
#[derive(Drop)]
pub(crate) struct Cells {
    rows: Vec<Vec<u32>>,
    // How many cells the rows have.
    len: usize,
    far: BTreeMap<Id, u32>,
}

/// How many cells rows may have before any identity is held: enough for all numbers of one country.
const CELLS_AT_FIRST: usize = 16384;

/// How many more they may have for each identity.
const CELLS_EACH: usize = 16;

impl Cells {
    /// No cell. Takes no memory.
    pub(super) fn new(alloc: Global) -> Cells
        ensures { (q : Id) → cell_of result q ≡ None }
    {
        Cells {
            rows: Vec::new(alloc),
            len: 0,
            far: BTreeMap::new(alloc),
        }
    }

    /// What the cell of an identity in its row says, if there is one.
    pub(super) fn near(&self, id: Id) -> Option<u32>
        ensures { result ≡ near_cell self.now.rows.items id }
    {
        near_cell(&self.rows, id)
    }

    /// What the far cell of an identity says, if it has one. Then it is the one that counts.
    pub(super) fn far(&self, id: Id) -> Option<u32>
        ensures { result ≡ far_cell self.now.far id }
    {
        if self.far.is_empty() {
            return None;
        }
        match self.far.get(&id) {
            Some(i) => Some(*i),
            None => None,
        }
    }

    /// Notes slot `i` of an identity that is put in after `i` others. If an allocation fails, the other cells stay.
    pub(super) fn note(&mut self, id: Id, i: u32) -> Result<(), AllocError>
        ensures kept { KeepsOthers (cell_of self.old) (cell_of self.new) id }
        ensures noted { OnOk result (cell_of self.new id ≡ Some i) }
    {
        let more = missing(&self.rows, id);
        let all = CELLS_AT_FIRST + (i as usize + 1) * CELLS_EACH;
        if more > all.saturating_sub(self.len) {
            self.far.insert(id, i)?;
            return Ok(());
        }
        make_cell(&mut self.rows, id)?;
        self.len += more;
        self.set(id, i);
        Ok(())
    }

    /// Notes another slot of an identity that has a cell. Takes no memory.
    pub(super) fn set(&mut self, id: Id, i: u32)
        requires { IsSome (cell_of self.old id) }
        ensures kept { KeepsOthers (cell_of self.old) (cell_of self.new) id }
        ensures noted { cell_of self.new id ≡ Some i }
    {
        if self.far(id).is_some() {
            // It takes the place of the old slot, which takes no memory and doesn't fail.
            let _ = self.far.insert(id, i);
            return;
        }
        set_cell(&mut self.rows, id, i);
    }

    /// Takes out the far cell of an identity, if it has one. Takes no memory.
    pub(super) fn forget(&mut self, id: Id)
        ensures kept { KeepsOthers (cell_of self.old) (cell_of self.new) id }
        ensures gone { far_cell self.new.far id ≡ None }
    {
        if self.far.is_empty() {
            return;
        }
        // The slot that is taken out has no further use.
        let _ = self.far.remove(&id);
    }
}
