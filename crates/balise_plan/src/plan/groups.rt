//! Groups of a plan put in and taken out.

ghost use Rattle.std.specs.Prelude.{◌≡◌, IfOk, Some, None, option_map, slice_get};
ghost use Rattle.balise_rules.specs.declared.tagged_edit.TaggedEdit.TheVariants.{DropGroup};
ghost use Rattle.balise_rules.specs.Notes.{noted};
ghost use Rattle.balise_rules.specs.Plan.{IsSoundGroup};
ghost use Rattle.balise_rules.specs.Tagged.{find};
ghost use Rattle.balise_rules.specs.Tags.{same_tag};
ghost use Rattle.balise_plan.specs.Held.{DoesAlways, MayChange};
ghost use Rattle.balise_plan.specs.Spots.{PutsGroup};

use crate::group::Group;
use crate::group_names::GroupNames;
use crate::group_places::{place_of, put_at};
use crate::links::group::forget_group;
use crate::plan::Plan;
use balise_index::{OrderedMap, Spot};
use balise_rules::{Refusal, Tag};

impl Plan {
    /// Puts a group in under a tag that is new.
    ///
    /// Refused in this order, and then all stays and the group is returned: `NoSuchGroup` where the neighbour doesn't
    /// stand, `GroupTwice` where a group has its identity. `OutOfMemory` may stand in place of any answer. It is also
    /// the answer for a tag that no plan has: `Base` from 292,999,999 on, or `Fresh` above 4,001,000,000.
    pub fn put_group(
        &mut self,
        spot: Spot<Tag>,
        g: Tag,
        group: Group,
    ) -> Result<(), (Refusal, Group)>
        requires count { MayChange self.old }
        requires new { find same_tag g self.old.groups ≡ None }
        ensures { PutsGroup spot g group self.old result self.new }
    {
        let Some(i) = place_of(&self.groups, spot) else {
            return Err((Refusal::NoSuchGroup, group));
        };
        let own = group.sound_identity();
        match put_at(
            &mut self.groups,
            &mut self.index,
            i,
            g,
            own,
            group,
            &GroupNames::Many,
        ) {
            Ok(()) => {
                self.changes += 1;
                Ok(())
            }
            Err(back) => Err(back),
        }
    }

    /// Takes a group out, and answers it and the tag of its next neighbour. What names the group stays.
    ///
    /// Refused, and then all stays: `NoSuchGroup`. Takes no memory.
    pub fn take_group(&mut self, g: Tag) -> Result<(Group, Option<Tag>), Refusal>
        requires count { MayChange self.old }
        ensures does { DoesAlways (DropGroup g) self.old result self.new }
        ensures taken { IfOk result (λ r. ((noted (DropGroup g) self.old.groups).group ≡ Some r.0) × ((noted (DropGroup g) self.old.groups).before ≡ r.1)) }
        ensures sound { IfOk result (λ r. IsSoundGroup r.0) }
    {
        let alloc = self.groups.allocator();
        let Some(group) = self.groups.get(g) else {
            return Err(Refusal::NoSuchGroup);
        };
        let own = group.sound_identity();
        forget_group(alloc, &mut self.index, g, group);
        self.index.forget_tag(own);
        let (i, group) = self.groups.remove(g).unwrap();
        let before = tag_at(&self.groups, i);
        self.changes += 1;
        Ok((group, before))
    }
}

// The tag of the group at a place.
fn tag_at(groups: &OrderedMap<Group>, i: usize) -> Option<Tag>
    ensures { result ≡ option_map (λ p. p.0) (slice_get groups.now.entries i) }
{
    match groups.at(i) {
        Some((tag, _)) => Some(tag),
        None => None,
    }
}
