//! A plan read group by group.

ghost use Rattle.std.specs.Prelude.{◌≡◌, ◌≢◌, Bool, IfErr, IfOk, OnOk, Ok, Err, List, map, []};
ghost use Rattle.balise_plan.specs.GroupNames.{AreLinks};
ghost use Rattle.balise_plan.specs.GroupReading.{PushesGroup, PushesRead};
ghost use Rattle.balise_rules.specs.Plan.{identity_of, pushed, read_plan, IsSoundGroup};
ghost use Rattle.balise_plan.specs.Spots.{Pushes};
ghost use Rattle.balise_index.specs.NameIndex.{indexed, tags_of, IsUnclaimed};

use crate::group::Group;
use crate::group_names::GroupNames;
use crate::group_places::{is_taken, put_at};
use crate::group_reader::GroupReader;
use crate::plan::Plan;
use balise_index::{NameIndex, OrderedMap};
use balise_rules::{Id, Refusal, Tag};
use balise_telegram::Bits;
use std::alloc::Global;

impl Plan {
    /// A plan with no group and no change. Takes no memory.
    pub fn empty(alloc: Global) -> Plan
        ensures groups { result.groups ≡ [] }
        ensures changes { result.changes ≡ 0 }
    {
        Plan {
            groups: OrderedMap::new(alloc),
            index: NameIndex::new(alloc),
            changes: 0,
        }
    }

    /// Puts the group of these telegrams in at the end, under the tag of its place, which counts as no change.
    ///
    /// Refused, and then all stays: as `Group::read` refuses, then `GroupTwice` where a group has its identity.
    /// `OutOfMemory` may stand in place of any answer, and is the answer at 4,294,967,296 groups: no tag counts more. A
    /// plan has at most 16,776,192, one for each identity.
    pub fn push(&mut self, telegrams: Vec<Bits>) -> Result<(), Refusal>
        requires { self.old.changes ≡ 0 }
        ensures { Pushes telegrams.items self.old result self.new }
    {
        let alloc = self.groups.allocator();
        let group = match Group::read(alloc, telegrams) {
            Ok(group) => group,
            Err(fault) => return Err(fault),
        };
        let own = group.sound_identity();
        self.push_read(own, group, &GroupNames::Many)
    }

    /// Puts the group of telegrams that were read in at the end, under the tag of its place, which counts as no change.
    ///
    /// Refused, and then all stays: as `GroupReader::done` refuses, then `GroupTwice` where a group has its identity,
    /// then `OutOfMemory`.
    pub fn push_group(&mut self, group: GroupReader) -> Result<(), Refusal>
        requires { self.old.changes ≡ 0 }
        ensures pushes { PushesRead group self.old result self.new }
        ensures read { OnOk result ((bs : List (List Bool)) × (pushed self.old.groups bs ≡ Ok self.new.groups)) }
    {
        let (telegrams, names) = group.into_parts();
        match Group::of_read(telegrams) {
            Ok((own, group)) => self.push_read(own, group, &names),
            Err(fault) => Err(fault),
        }
    }

    // Puts a group of this identity, which names these, in at the end, under the tag of its place.
    fn push_read(&mut self, own: Id, group: Group, names: &GroupNames) -> Result<(), Refusal>
        requires count { self.old.changes ≡ 0 }
        requires own { own ≡ identity_of group }
        requires names { AreLinks names.now group }
        requires sound { IsSoundGroup group }
        ensures { PushesGroup group self.old result self.new }
    {
        let place = self.groups.len();
        if place >= 4294967296 {
            return Err(no_tag_for(&self.index, own));
        }
        let tag = Tag::Base(place as u32);
        let index = &mut self.index;
        if let Err((refusal, _)) = put_at(&mut self.groups, index, place, tag, own, group, names) {
            return Err(refusal);
        }
        Ok(())
    }

    /// The plan of these groups, each as its telegrams.
    ///
    /// Refused with the first refusal of `push`. `OutOfMemory` may stand in place of any answer.
    pub fn read(alloc: Global, groups: Vec<Vec<Bits>>) -> Result<Plan, Refusal>
        ensures ok { IfOk result (λ p. (read_plan (map (λ g. g.items) groups.items) ≡ Ok p.groups) × (p.changes ≡ 0)) }
        ensures fault { IfErr result (λ e. e ≢ Refusal.OutOfMemory → read_plan (map (λ g. g.items) groups.items) ≡ Err e) }
    {
        let mut plan = Plan::empty(alloc);
        for telegrams in groups {
            if let Err(fault) = plan.push(telegrams) {
                return Err(fault);
            }
        }
        Ok(plan)
    }
}

// Why a group of an identity isn't put in where no tag counts its place.
fn no_tag_for(index: &NameIndex, own: Id) -> Refusal
    ensures { IsUnclaimed result (indexed (tags_of index.now) own) }
{
    if is_taken(index, own) {
        Refusal::GroupTwice
    } else {
        Refusal::OutOfMemory
    }
}
