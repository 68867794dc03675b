//! Copies of a plan.

ghost use Rattle.std.specs.Prelude.{◌≡◌, IfOk, IsOkUnless};

use crate::group::Group;
use crate::group_names::GroupNames;
use crate::group_places::put_at;
use crate::plan::Plan;
use balise_index::{NameIndex, OrderedMap};
use balise_rules::Refusal;

impl Plan {
    /// A copy, with the same tags and the same count of changes.
    pub fn copy(&self) -> Result<Plan, Refusal>
        ensures ok { IfOk result (λ plan. plan ≡ self.now) }
        ensures fault { IsOkUnless result Refusal.OutOfMemory }
    {
        let alloc = self.groups.allocator();
        let mut groups = OrderedMap::new(alloc);
        let mut index = NameIndex::new(alloc);
        for i in 0..self.groups.len() {
            let Some((tag, group)) = self.groups.at(i) else {
                break;
            };
            let group = group.copy()?;
            let own = group.sound_identity();
            if put_at(
                &mut groups,
                &mut index,
                i,
                tag,
                own,
                group,
                &GroupNames::Many,
            )
            .is_err()
            {
                return Err(Refusal::OutOfMemory);
            }
        }
        Ok(Plan {
            groups,
            index,
            changes: self.changes,
        })
    }
}
