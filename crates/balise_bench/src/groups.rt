//! Groups of a plan taken out and put back, and the processor time that one takes.

ghost use Rattle.std.specs.Prelude.{◌≡◌};

use crate::packets::now;
use crate::plans::read;
use anyhow::{Result, bail};
use balise_lines::Counted;
use balise_plan::{GroupTag, Plan, Spot};
use std::io::Read;
use std::time::CpuClock;

/// How many groups are taken out and put back.
const COUNT: u32 = 20_000;

fn put_back(plan: &mut Plan, g: GroupTag) -> Result<()> {
    if plan.changes() > 1_000_000 {
        bail!("too many changes");
    }
    let (group, next) = plan.take_group(g)?;
    if plan.changes() > 1_000_000 || plan.group(g).is_some() {
        bail!("the group is still there");
    }
    match plan.put_group(Spot::Before(next), g, group) {
        Ok(()) => Ok(()),
        Err((refusal, _)) => Err(refusal.into()),
    }
}

fn put_all_back<R: Read>(
    rt: &(impl Print + CpuClock),
    plan: &mut Plan,
    reader: &mut Counted<R>,
) -> Result<()>
    requires { plan.old.changes ≡ 0 }
{
    read(plan, reader)?;
    let Ok(count) = u32::try_from(plan.count()) else {
        bail!("too many groups");
    };
    if count == 0 {
        bail!("no group");
    }
    let begin = now(rt)?;
    let mut seed: u32 = 1;
    for _ in 0..COUNT {
        seed = seed.wrapping_mul(1_103_515_245).wrapping_add(12_345);
        put_back(plan, GroupTag::Base((seed >> 8) % count))?;
    }
    let took = now(rt)?.saturating_sub(begin).saturating_mul(1000) / u128::from(COUNT);
    println!(rt; "{took} ns to take one of {count} groups out and put it back")?;
    Ok(())
}

/// Reads a plan, and takes groups out and puts them back all over it. Prints the nanoseconds that one takes.
pub fn run(rt: &(impl Input + Print + AllocGlobal + CpuClock)) -> Result<()> {
    let mut reader = Counted::new(rt.reader());
    let mut plan = Plan::empty(rt.alloc());
    put_all_back(rt, &mut plan, &mut reader)
}
