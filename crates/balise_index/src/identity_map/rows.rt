//! Where identities stand: a row for each country, with a cell for each number.

ghost use Rattle.std.specs.Prelude.{◌≡◌, ◌<◌, ◌-◌, ◌^◌, ℕ, Some, OnOk, cond, length, slice_get};
ghost use Rattle.std.specs.Option.{IsSome};
ghost use Rattle.balise_rules.specs.declared.identity.Id.{Id};
ghost use Rattle.balise_rules.specs.Tags.{same_id};
ghost use Rattle.balise_index.specs.Rows.{len_for, near_cell, row_len, Grows};

use balise_rules::Id;
use std::alloc::AllocError;

/// What the cell of an identity says, if there is one.
pub(super) fn near_cell(rows: &Vec<Vec<u32>>, id: Id) -> Option<u32>
    ensures { result ≡ near_cell rows.now.items id }
{
    match rows.get(id.country as usize) {
        Some(row) => match row.get(id.number as usize) {
            Some(cell) => Some(*cell),
            None => None,
        },
        None => None,
    }
}

/// How many cells a row grows by at least. It isn't made longer for each of the numbers that follow one another.
const CELLS: usize = 16;

// How long a row is made for a number.
fn len_for(number: usize) -> usize
    requires { number < 2 ^ 32 }
    ensures { result ≡ len_for number }
{
    number / CELLS * CELLS + CELLS
}

/// How many cells are made where one is made for an identity.
pub(super) fn missing(rows: &Vec<Vec<u32>>, id: Id) -> usize
    ensures { result ≡ len_for id.number - row_len (slice_get rows.now.items id.country) }
{
    let held = match rows.get(id.country as usize) {
        Some(row) => row.len(),
        None => 0,
    };
    len_for(id.number as usize).saturating_sub(held)
}

/// Makes a cell for an identity. The others stay.
pub(super) fn make_cell(rows: &mut Vec<Vec<u32>>, id: Id) -> Result<(), AllocError>
    ensures kept { Grows rows.old.items rows.new.items }
    ensures made { OnOk result (IsSome (near_cell rows.new.items id)) }
{
    let alloc = *rows.allocator();
    let country = id.country as usize;
    for _ in rows.len()..country + 1 {
        rows.push(Vec::new(alloc))?;
    }
    grow(&mut rows[country], id.number as usize)
}

// Makes a row so long that it has a cell for a number.
fn grow(row: &mut Vec<u32>, number: usize) -> Result<(), AllocError>
    requires { number < 2 ^ 32 }
    ensures kept { (k i : ℕ) → slice_get row.old.items k ≡ Some i → slice_get row.new.items k ≡ Some i }
    ensures made { OnOk result (number < length row.new.items) }
{
    let len = len_for(number);
    if len <= row.len() {
        return Ok(());
    }
    row.resize(len, 0)
}

/// Writes what the cell of an identity says.
pub(super) fn set_cell(rows: &mut Vec<Vec<u32>>, id: Id, i: u32)
    requires { IsSome (near_cell rows.old.items id) }
    ensures { (q : Id) → near_cell rows.new.items q ≡ cond (same_id id q) (Some i) (near_cell rows.old.items q) }
{
    rows[id.country as usize][id.number as usize] = i;
}
