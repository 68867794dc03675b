//! One link that names another identity, in the index of names.

ghost use Rattle.std.specs.Prelude.{◌≡◌, OnOk, OnErr};
ghost use Rattle.balise_index.specs.NameIndex.{names_of, tags_of, Keeps};
ghost use Rattle.balise_plan.specs.Relinking.{AddsReal, ForgetsOther};

use balise_index::{LinkPlace, NameIndex};
use balise_rules::{Id, NO_GROUP};
use std::alloc::{AllocError, Global};

/// Notes that a place names an identity, if its number isn't 16383. If an allocation fails, all stays.
pub(crate) fn add_real(
    alloc: Global,
    index: &mut NameIndex,
    id: Id,
    place: LinkPlace,
) -> Result<(), AllocError>
    ensures added { OnOk result (AddsReal (names_of index.old) (names_of index.new) id place) }
    ensures tags { tags_of index.new ≡ tags_of index.old }
    ensures unchanged { OnErr result (Keeps (names_of index.old) (names_of index.new)) }
{
    if id.number == NO_GROUP {
        return Ok(());
    }
    index.add_name(alloc, id, place)
}

/// Forgets that a place names the one identity, unless that is the other. Takes no memory.
pub(crate) fn forget_other(index: &mut NameIndex, kept: Id, gone: Id, place: LinkPlace)
    ensures forgotten { ForgetsOther (names_of index.old) (names_of index.new) kept gone place }
    ensures tags { tags_of index.new ≡ tags_of index.old }
{
    if kept == gone {
        return;
    }
    index.forget_name(gone, place);
}
