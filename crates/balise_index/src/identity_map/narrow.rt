//! An identity in three bytes.

ghost use Rattle.std.specs.Prelude.{◌≡◌, ◌≤◌, ◌^◌, ◌⊎◌, IfNone, IfSome};
ghost use Rattle.balise_index.specs.Narrow.{right_cell, wide};

use balise_rules::Id;

/// An identity whose country fits 10 bits and whose number fits 14, as in the standard (SUBSET-026, 7.5.1). So
/// each identity of a telegram does.
#[derive(Clone, Copy, Debug, PartialEq, Eq)]
pub(super) struct Narrow {
    // From the highest bit: the country, and the number.
    high: u8,
    middle: u8,
    low: u8,
}

impl Narrow {
    /// The narrow form of an identity; `None` where its country is above 1,023 or its number above 16,383.
    pub(super) fn of(id: Id) -> Option<Narrow>
        ensures some { IfSome result (λ n. wide n ≡ id) }
        ensures none { IfNone result ((2 ^ 10 ≤ id.country) ⊎ (2 ^ 14 ≤ id.number)) }
    {
        if id.country >= 1024 || id.number >= 16384 {
            return None;
        }
        Some(Narrow {
            high: (id.country / 4) as u8,
            middle: (id.country % 4 * 64 + id.number / 256) as u8,
            low: (id.number % 256) as u8,
        })
    }

    /// The identity.
    pub(super) fn wide(self) -> Id
        ensures { result ≡ wide self }
    {
        Id {
            country: self.high as u32 * 4 + self.middle as u32 / 64,
            number: self.middle as u32 % 64 * 256 + self.low as u32,
        }
    }
}

/// The slot that a cell names, if that slot has the identity.
pub(super) fn right_cell(ids: &Vec<Narrow>, cell: Option<u32>, id: Id) -> Option<u32>
    ensures { result ≡ right_cell ids.now.items cell id }
{
    let i = cell?;
    match ids.get(i as usize) {
        Some(held) if held.wide() == id => Some(i),
        _ => None,
    }
}
