//! A group put into a plan's groups and indexes.

ghost use Rattle.std.specs.Prelude.{◌≡◌, ◌≤◌, is_some, insert, length, option_map, IfErr, IfSome, None, OnOk};
ghost use Rattle.balise_rules.specs.Plan.{group_named, identity_of, Group as GroupValue, IsSoundGroup};
ghost use Rattle.balise_rules.specs.Tagged.{find};
ghost use Rattle.balise_rules.specs.Tags.{same_tag};
ghost use Rattle.balise_plan.specs.GroupNames.{AreLinks};
ghost use Rattle.balise_plan.specs.Held.{IsHeld};
ghost use Rattle.balise_index.specs.NameIndex.{indexed, names_of, tags_of, IsUnclaimed};
ghost use Rattle.balise_index.specs.AtSpot.{put_in, spot_stands};

use crate::group::Group;
use crate::group_names::GroupNames;
use crate::links::group::{forget_group, note_group};
use balise_index::{NameIndex, OrderedMap, Spot};
use balise_rules::{Id, Refusal, Tag};
use std::alloc::Global;

/// The place that a spot names.
pub(crate) fn place_of(groups: &OrderedMap<Group>, spot: Spot<Tag>) -> Option<usize>
    ensures there { is_some result ≡ spot_stands spot groups.now.entries }
    ensures within { IfSome result (λ i. i ≤ length groups.now.entries) }
    ensures put { IfSome result (λ i. (z : Tag × GroupValue) → insert groups.now.entries i z ≡ put_in spot z groups.now.entries) }
{
    let len = groups.len();
    match spot {
        Spot::After(None) => Some(0),
        Spot::After(Some(tag)) => match groups.place_of(tag) {
            Some(i) => Some(i + 1),
            None => None,
        },
        Spot::Before(None) => Some(len),
        Spot::Before(Some(tag)) => groups.place_of(tag),
    }
}

/// Whether a group has an identity.
pub(crate) fn is_taken(index: &NameIndex, id: Id) -> bool
    ensures { result ≡ is_some (indexed (tags_of index.now) id) }
{
    index.tag(id).is_some()
}

/// Puts a group of this identity, which names these, in at a place, under a tag that is new, and notes its identity and its
/// links. Refused as `GroupTwice` where a group has its identity, otherwise only as `OutOfMemory`. Then all stays and the
/// group is returned.
pub(crate) fn put_at(
    groups: &mut OrderedMap<Group>,
    index: &mut NameIndex,
    i: usize,
    g: Tag,
    own: Id,
    group: Group,
    names: &GroupNames,
) -> Result<(), (Refusal, Group)>
    requires own { own ≡ identity_of group }
    requires names { AreLinks names.now group }
    requires sound { IsSoundGroup group }
    requires held { IsHeld (tags_of index.old) (names_of index.old) groups.old.entries }
    requires within { i ≤ length groups.old.entries }
    requires new { find same_tag g groups.old.entries ≡ None }
    ensures free { OnOk result (group_named (identity_of group) groups.old.entries ≡ None) }
    ensures put { OnOk result (groups.new.entries ≡ insert groups.old.entries i (g, group)) }
    ensures fault { IfErr result (λ b. IsUnclaimed b.0 (option_map (λ y. y.0) (group_named (identity_of group) groups.old.entries))) }
    ensures back { IfErr result (λ b. b.1 ≡ group) }
    ensures unchanged { IfErr result (λ b. groups.new.entries ≡ groups.old.entries) }
    ensures held { IsHeld (tags_of index.new) (names_of index.new) groups.new.entries }
{
    let alloc = groups.allocator();
    if let Err(refusal) = index.claim(own, g) {
        return Err((refusal, group));
    }
    if groups.reserve(1).is_err() {
        index.forget_tag(own);
        return Err((Refusal::OutOfMemory, group));
    }
    if note_group(alloc, index, g, &group, names).is_err() {
        forget_group(alloc, index, g, &group);
        index.forget_tag(own);
        return Err((Refusal::OutOfMemory, group));
    }
    groups.insert(i, g, group);
    Ok(())
}
