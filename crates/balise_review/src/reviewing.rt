//! Finds what is to be looked at by hand after a group is turned.

ghost use Rattle.std.specs.Prelude.{◌≡◌, ◌⊎◌, IfErr, IfOk, None};
ghost use Rattle.balise_rules.specs.declared.refusal.Refusal.TheVariants.{NoSuchGroup, OutOfMemory};
ghost use Rattle.balise_rules.specs.Doing.{no_group};
ghost use Rattle.balise_rules.specs.Review.{review};

use crate::distances::add_distances;
use crate::links::add_links;
use balise_plan::Plan;
use balise_rules::{Refusal, ReviewLine, Tag};

/// The lines of a review of a group, before it is turned, of the plan as it will be after that. A group of one telegram
/// has no line. Refused as `NoSuchGroup` or `OutOfMemory`.
///
/// First each distance and each unknown packet of the group. Then, of each element that names the group, its D_LINK and
/// that of the next element of its packet.
pub fn review(plan: &Plan, g: Tag) -> Result<Vec<ReviewLine>, Refusal>
    ensures ok { IfOk result (λ lines. lines.items ≡ review g plan.now.groups) }
    ensures group { IfOk result (λ _. no_group g plan.now.groups ≡ None) }
    ensures fault { IfErr result (λ e. ((e ≡ NoSuchGroup) × (no_group g plan.now.groups ≡ Some NoSuchGroup)) ⊎ ((e ≡ OutOfMemory) × (no_group g plan.now.groups ≡ None))) }
{
    let Some(group) = plan.group(g) else {
        return Err(Refusal::NoSuchGroup);
    };
    let mut found = Vec::new(plan.allocator());
    // The contract of `count` states that the plan is sound, which `add_links` requires.
    let _count = plan.count();
    if group.count() <= 1 {
        return Ok(found);
    }
    add_distances(&mut found, group)?;
    add_links(&mut found, plan, g, group.identity())?;
    Ok(found)
}
