//! Values under identities.

mod cells;
mod narrow;
mod rows;

ghost use Rattle.std.specs.Prelude.{◌≡◌, ◌≤◌, [], length, option_map, slice_get, IfOk, None, OnErr, OnOk, Some};
ghost use Rattle.std.specs.Borrow.{sem};
ghost use Rattle.std.specs.List.{AllZip};
ghost use Rattle.std.specs.Option.{option_copied, option_copied_mut};
ghost use Rattle.balise_rules.specs.declared.identity.Id.{Id};
ghost use Rattle.balise_index.specs.Identities.{indexed, Updates};
ghost use Rattle.balise_index.specs.IdentityMap.{IsPlaced};
ghost use Rattle.balise_index.specs.LentValue.{lends_value};

use balise_rules::Id;
use cells::Cells;
use narrow::{Narrow, right_cell};
use std::alloc::{AllocError, Global};
use std::marker::Model;

/// Values under identities, each found at once. A value stands in a slot, and the cell of its identity holds the slot's
/// number. The cell of an identity that isn't held may hold any number.
#[derive(Drop)]
pub struct IdentityMap<V> {
    // The identity of each slot, and its value. As two lists they need no padding.
    ids: Vec<Narrow>,
    values: Vec<V>,
    cells: Cells,
}

impl<V> Model for IdentityMap<V> {
    ghost use Rattle.std.specs.Prelude.{◌≡◌, length};
    ghost use Rattle.balise_index.specs.Cells.{cell_of};
    ghost use Rattle.balise_index.specs.IdentityMap.{IsPlaced};
    ghost use Rattle.balise_index.specs.Identities.{IndexOf};
    ghost use Rattle.balise_index.specs.Narrow.{slots_of};

    ghost Value = { IndexOf V };

    ghost view = { λ m. slots_of m.ids.items m.values.items };

    ghost invariant = { λ m. (length m.ids.items ≡ length m.values.items) × IsPlaced (slots_of m.ids.items m.values.items) (cell_of m.cells) };
}

impl<V> IdentityMap<V> {
    /// No value. Takes no memory.
    pub fn new(alloc: Global) -> IdentityMap<V>
        ensures { result ≡ [] }
    {
        IdentityMap {
            ids: Vec::new(alloc),
            values: Vec::new(alloc),
            cells: Cells::new(alloc),
        }
    }

    /// The value under an identity.
    pub fn get(&self, id: Id) -> Option<&V>
        ensures value { option_copied result ≡ indexed self.now id }
    {
        self.values.get(self.place(id))
    }

    /// The value under an identity, to change.
    pub fn get_mut(&mut self, id: Id) -> Option<&mut V>
        ensures* writes_back { sem 𝓛 (lends_value V.row self.entry id result) }
        ensures value { option_copied_mut result ≡ indexed self.old id }
    {
        let i = self.place(id);
        self.values.get_mut(i)
    }

    // The place of an identity's slot, or the end.
    fn place(&self, id: Id) -> usize
        ensures { slice_get self.now result ≡ option_map (λ v. (id, v)) (indexed self.now id) }
    {
        if let Some(i) = right_cell(&self.ids, self.cells.near(id), id) {
            return i as usize;
        }
        match right_cell(&self.ids, self.cells.far(id), id) {
            Some(i) => i as usize,
            None => self.ids.len(),
        }
    }
}

impl<V: Drop> IdentityMap<V> {
    /// Puts a value in under an identity that has none. Leaves all as before if an allocation fails, if the country is
    /// above 1,023 or the number above 16,383, and at 4,294,967,295 identities. No plan comes to this: the standard has
    /// 10 bits for a country and 14 for a number.
    #[inline(always)]
    pub fn insert(&mut self, id: Id, value: V) -> Result<(), AllocError>
        requires { indexed self.old id ≡ None }
        ensures updates { OnOk result (Updates self.old self.new id (Some value)) }
        ensures err { OnErr result (self.new ≡ self.old) }
    {
        let Some(narrow) = Narrow::of(id) else {
            return Err(AllocError);
        };
        let i = self.ids.len();
        if i >= 4294967295 {
            return Err(AllocError);
        }
        self.ids.reserve(1)?;
        self.values.reserve(1)?;
        self.cells.note(id, i as u32)?;
        // There is room in both lists, so neither fails.
        let _ = self.ids.push(narrow);
        let _ = self.values.push(value);
        Ok(())
    }

    /// Takes out the value under an identity. Takes no memory.
    pub fn remove(&mut self, id: Id) -> Option<V>
        ensures value { result ≡ indexed self.old id }
        ensures updates { Updates self.old self.new id None }
    {
        let i = self.place(id);
        if i >= self.ids.len() {
            return None;
        }
        self.cells.forget(id);
        // The identity that is taken out is `id`.
        let _ = self.ids.swap_remove(i);
        let value = self.values.swap_remove(i);
        if i < self.ids.len() {
            self.cells.set(self.ids[i].wide(), i as u32);
        }
        Some(value)
    }
}
