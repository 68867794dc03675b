//! Whether the places of two entries meet, one by one and without memory.

ghost use Rattle.std.specs.Prelude.{◌≡◌, ◌++◌, ◌&&◌, not, [], ◌∷◌, option_map};
ghost use Rattle.balise_rules.specs.Paths.{any_meets, changes, ids, meet, meets_any, needs, room_apart, Whose};
ghost use Rattle.balise_edits.specs.Edits.{edit_of};
ghost use Rattle.balise_edits.specs.Places.{path_of};
ghost use Rattle.balise_edits.specs.Needs.{but, clear, left_out, listed, needed_names, needed_place};

use crate::edit::Edit;
use crate::entry::Entry;
use crate::path::Path;
use balise_rules::Id;

// Whether a place is the one that is left out.
#[tactic(auto, using(crate::proofs::Equal::path_one))]
fn is_left_out(out: &Option<Path>, place: &Path) -> bool
    ensures { result ≡ left_out (option_map path_of out.now) (path_of place.now) }
{
    match out {
        Some(path) => *place == *path,
        None => false,
    }
}

// Whether an identity is among others.
fn is_among(name: Id, others: &[Id]) -> bool
    ensures { result ≡ meets_any (Whose name ∷ []) (ids others.now) }
{
    for other in others {
        if name == *other {
            return true;
        }
    }
    false
}

// Whether a place meets another that isn't left out.
fn meets_other(place: &Path, other: &Path, out: &Option<Path>) -> bool
    ensures { result ≡ (not (left_out (option_map path_of out.now) (path_of other.now)) && meet (path_of place.now) (path_of other.now)) }
{
    !is_left_out(out, other) && place.meets(other)
}

// Whether a place meets one that an entry changes, but for one that is left out.
#[tactic(auto, using(crate::proofs::Meets::but_none))]
fn meets_changed(place: &Path, entry: &Entry, out: &Option<Path>) -> bool
    ensures { result ≡ meets_any (path_of place.now) (but (option_map path_of out.now) (changes entry.now)) }
{
    if out.is_none() {
        return entry.touches(place);
    }
    for i in 0..4 {
        let found = entry.changed(i);
        let Some(other) = &found else {
            return false;
        };
        if meets_other(place, other, out) {
            return true;
        }
    }
    false
}

// Whether a place meets the one that an entry needs, if it needs one.
fn meets_needed_place(place: &Path, entry: &Entry) -> bool
    ensures { result ≡ meets_any (path_of place.now) (listed (needed_place entry.now)) }
{
    match &entry.needed() {
        Some(other) => place.meets(other),
        None => false,
    }
}

// Whether a place meets an identity that an entry needs.
fn meets_needed_name(place: &Path, entry: &Entry) -> bool
    ensures { result ≡ meets_any (path_of place.now) (ids (needed_names entry.now)) }
{
    match place {
        Path::Identity(id) => is_among(*id, entry.named()),
        Path::Group(_, _) => false,
        Path::First => false,
        Path::Last => false,
    }
}

// Whether a place meets one that an entry changes, but for one that is left out, or needs.
#[tactic(auto, using(crate::proofs::Meets::touched))]
fn meets_touched(place: &Path, entry: &Entry, out: &Option<Path>) -> bool
    ensures { result ≡ meets_any (path_of place.now) (but (option_map path_of out.now) (changes entry.now) ++ needs entry.now) }
{
    meets_changed(place, entry, out)
        || meets_needed_place(place, entry)
        || meets_needed_name(place, entry)
}

// Whether a place that one entry changes meets one that the other changes, but for one, or needs.
fn any_changed_meets(entry: &Entry, later: &Entry, out: &Option<Path>) -> bool
    ensures { result ≡ any_meets (changes entry.now) (but (option_map path_of out.now) (changes later.now) ++ needs later.now) }
{
    for i in 0..4 {
        let found = entry.changed(i);
        let Some(place) = &found else {
            return false;
        };
        if meets_touched(place, later, out) {
            return true;
        }
    }
    false
}

// Whether a place that one entry needs meets one that the other changes, but for one.
fn any_needed_meets(entry: &Entry, later: &Entry, out: &Option<Path>) -> bool
    ensures { result ≡ any_meets (needs entry.now) (but (option_map path_of out.now) (changes later.now)) }
{
    if let Some(place) = &entry.needed() {
        if meets_changed(place, later, out) {
            return true;
        }
    }
    for name in entry.named() {
        if meets_changed(&Path::Identity(*name), later, out) {
            return true;
        }
    }
    false
}

// Whether no edit of the two inserts into a telegram while the other deletes from it.
fn room_apart(edit: &Edit, other: &Edit) -> bool
    ensures { result ≡ room_apart (edit_of edit.now) (edit_of other.now) }
{
    match (edit, other) {
        (Edit::InsertPacket { g, t, .. }, Edit::DeletePacket { g: h, t: u, .. }) => {
            !(*g == *h && *t == *u)
        }
        (Edit::DeletePacket { g: h, t: u, .. }, Edit::InsertPacket { g, t, .. }) => {
            !(*g == *h && *t == *u)
        }
        _ => true,
    }
}

/// Whether no place that one entry changes meets a place that the other changes, but for one that is left out, or needs,
/// and neither inserts where the other deletes. Takes no memory.
pub(crate) fn clear(entry: &Entry, later: &Entry, out: &Option<Path>) -> bool
    ensures { result ≡ clear (option_map path_of out.now) entry.now later.now }
{
    !any_changed_meets(entry, later, out)
        && !any_needed_meets(entry, later, out)
        && room_apart(entry.edit(), later.edit())
}
