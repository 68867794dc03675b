//! The places of an entry as lists. What compares entries takes them one by one and makes no list.

ghost use Rattle.std.specs.Prelude.{◌≡◌, map, option_map, IfOk, IsOkUnless};
ghost use Rattle.balise_rules.specs.Paths.{changes, needs};
ghost use Rattle.balise_edits.specs.Places.{path_of};
ghost use Rattle.balise_edits.specs.Needs.{listed};

use crate::entry::Entry;
use crate::path::Path;
use balise_rules::Refusal;
use std::alloc::Global;

/// The places that an entry changes, at most four.
pub fn changed_places(entry: &Entry) -> Result<Vec<Path>, Refusal>
    ensures ok { IfOk result (λ places. map path_of places.items ≡ changes entry.now) }
    ensures fault { IsOkUnless result Refusal.OutOfMemory }
{
    let mut places = Vec::new(entry.allocator());
    for i in 0..4 {
        let Some(place) = entry.changed(i) else {
            return Ok(places);
        };
        places.push(place)?;
    }
    Ok(places)
}

/// The places that an entry needs as they are, beside those that it changes.
#[tactic(auto, using(crate::proofs::Meets::needs_split))]
pub fn needed_places(entry: &Entry) -> Result<Vec<Path>, Refusal>
    ensures ok { IfOk result (λ places. map path_of places.items ≡ needs entry.now) }
    ensures fault { IsOkUnless result Refusal.OutOfMemory }
{
    let mut places = listed(entry.allocator(), entry.needed())?;
    for name in entry.named() {
        places.push(Path::Identity(*name))?;
    }
    Ok(places)
}

// A place, if there is one, as a list.
fn listed(alloc: Global, place: Option<Path>) -> Result<Vec<Path>, Refusal>
    ensures ok { IfOk result (λ places. map path_of places.items ≡ listed (option_map path_of place)) }
    ensures fault { IsOkUnless result Refusal.OutOfMemory }
{
    let mut places = Vec::new(alloc);
    let Some(place) = place else {
        return Ok(places);
    };
    places.push(place)?;
    Ok(places)
}
