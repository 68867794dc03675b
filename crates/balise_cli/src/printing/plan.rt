//! Writes the plan.

ghost use Rattle.balise_text.specs.Printing.{Prints};
ghost use Rattle.balise_cli.specs.PlanTexts.{group_lines, plan_text, telegram_line};

use balise_history::{Group, Plan, Tag, Telegram};
use balise_lines::{Counted, put};
use balise_text::RunFault;
use std::alloc::Global;
use std::io::Write;

// Writes a telegram's line, by way of a buffer that is used again.
fn put_telegram<W: Write>(
    writer: &mut Counted<W>,
    digits: &mut Vec<u8>,
    tag: u32,
    telegram: &Telegram,
) -> Result<(), RunFault>
    ensures { Prints W.contents writer.old writer.new result (telegram_line (tag, telegram.now)) }
{
    if telegram.hex_into(digits).is_err() {
        return Err(RunFault::OutOfMemory);
    }
    if digits.push(b'\n').is_err() {
        return Err(RunFault::OutOfMemory);
    }
    match put(writer, digits) {
        Ok(()) => Ok(()),
        Err(fault) => Err(RunFault::from(fault)),
    }
}

// Writes the lines of a group.
fn put_group<W: Write>(
    writer: &mut Counted<W>,
    digits: &mut Vec<u8>,
    tag: Tag,
    group: &Group,
) -> Result<(), RunFault>
    ensures { Prints W.contents writer.old writer.new result (group_lines (tag, group.now)) }
{
    if let Err(fault) = put(writer, b"group\n") {
        return Err(RunFault::from(fault));
    }
    for pig in 0..group.count() {
        let Some((tag, telegram)) = group.at(pig) else {
            break;
        };
        if let Err(fault) = put_telegram(writer, digits, tag, telegram) {
            return Err(fault);
        }
    }
    Ok(())
}

/// Writes the plan.
pub(crate) fn put_plan<W: Write>(
    alloc: Global,
    writer: &mut Counted<W>,
    plan: &Plan,
) -> Result<(), RunFault>
    ensures { Prints W.contents writer.old writer.new result (plan_text plan.now.groups) }
{
    if let Err(fault) = put(writer, b"plan 1\n") {
        return Err(RunFault::from(fault));
    }
    let mut digits = Vec::new(alloc);
    for place in 0..plan.count() {
        let Some((tag, group)) = plan.at(place) else {
            break;
        };
        if let Err(fault) = put_group(writer, &mut digits, tag, group) {
            return Err(fault);
        }
    }
    Ok(())
}
