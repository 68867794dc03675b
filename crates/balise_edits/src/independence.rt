//! When a later entry is independent of an earlier one, and when it stands after it.

ghost use Rattle.std.specs.Prelude.{◌≡◌, option_map};
ghost use Rattle.balise_rules.specs.Paths.{apart};
ghost use Rattle.balise_rules.specs.Behind.{independent, stands_behind};
ghost use Rattle.balise_edits.specs.Anchors.{hung_on, new_anchor};

use crate::entry::Entry;
use crate::overlaps::clear;
use balise_rules::Tag;

/// Whether two entries are apart. No place that one changes is, lies in, or lies around a place that the other changes
/// or needs. If one inserts into a telegram, the other deletes nothing from it. Takes no memory.
#[tactic(auto, using(crate::proofs::Elsewhere::apart_elsewhere, crate::proofs::Meets::clear_of_none))]
#[inline(always)]
pub fn apart(entry: &Entry, later: &Entry) -> bool
    ensures { result ≡ apart entry.now later.now }
{
    if entry.home().is_elsewhere(later.home()) {
        return true;
    }
    clear(entry, later, &None)
}

/// Whether a later entry stands after an earlier one: it is anchored on what that one put in, and is apart from it but
/// for the side after that. Takes no memory.
#[tactic(auto, using(crate::proofs::Equal::path_one))]
pub fn stands_behind(entry: &Entry, later: &Entry) -> bool
    ensures { result ≡ stands_behind entry.now later.now }
{
    let Some(place) = entry.put_in() else {
        return false;
    };
    let Some(anchor) = later.anchored_on() else {
        return false;
    };
    if !(place == anchor) {
        return false;
    }
    clear(entry, later, &entry.behind_it())
}

/// Whether a later entry is independent of an earlier one: it is apart from it, or stands after it. Takes no memory.
pub fn independent(entry: &Entry, later: &Entry) -> bool
    ensures { result ≡ independent entry.now later.now }
{
    apart(entry, later) || stands_behind(entry, later)
}

/// Anchors a later entry on what an earlier one put in, or with `on` false on what that one is anchored on, where the
/// later entry has an anchor. All else of it stays. Takes no memory.
pub fn re_anchor(later: &mut Entry, entry: &Entry, on: bool)
    ensures { later.new ≡ hung_on (new_anchor on entry.now.0) later.old }
{
    let anchor = if on {
        Some(Tag::Fresh(entry.serial()))
    } else {
        entry.edit().anchor()
    };
    later.set_anchor(anchor);
}
