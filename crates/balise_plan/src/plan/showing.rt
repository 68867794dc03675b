//! What a plan shows.

ghost use Rattle.std.specs.Prelude.{◌≡◌, IfOk, IsOkUnless, map};
ghost use Rattle.balise_rules.specs.Plan.{shown_plan};
ghost use Rattle.balise_rules.specs.Telegram.{shown};

use crate::group::Group;
use crate::plan::Plan;
use balise_rules::Refusal;
use balise_telegram::Bits;
use std::alloc::Global;

impl Plan {
    /// The bits of each telegram of each group, in order. To print a plan without a copy of all of it, go over the
    /// groups by `at`, over their telegrams by `Group::at`, and take the digits of each.
    pub fn shown(&self) -> Result<Vec<Vec<Bits>>, Refusal>
        ensures ok { IfOk result (λ groups. map (λ g. g.items) groups.items ≡ shown_plan self.now.groups) }
        ensures fault { IsOkUnless result Refusal.OutOfMemory }
    {
        let alloc = self.groups.allocator();
        let mut groups = Vec::with_capacity(alloc, self.groups.len())?;
        for i in 0..self.groups.len() {
            let Some((_, group)) = self.groups.at(i) else {
                return Ok(groups);
            };
            let telegrams = shown_group(alloc, group)?;
            groups.push(telegrams)?;
        }
        Ok(groups)
    }
}

// The bits of each telegram of a group.
fn shown_group(alloc: Global, group: &Group) -> Result<Vec<Bits>, Refusal>
    ensures ok { IfOk result (λ telegrams. telegrams.items ≡ map (λ t. shown t.1) group.now) }
    ensures fault { IsOkUnless result Refusal.OutOfMemory }
{
    let mut telegrams = Vec::with_capacity(alloc, group.count())?;
    for i in 0..group.count() {
        let Some((_, telegram)) = group.at(i) else {
            return Ok(telegrams);
        };
        let bits = telegram.shown()?;
        telegrams.push(bits)?;
    }
    Ok(telegrams)
}
