//! Writes the view.

ghost use Rattle.balise_text.specs.Printing.{Prints};
ghost use Rattle.balise_cli.specs.PlanTexts.{view_text, with_end};
ghost use Rattle.balise_view.specs.View.{group_text};

use balise_history::{Group, Plan};
use balise_lines::{Counted, put};
use balise_text::RunFault;
use balise_view::group_line;
use std::alloc::Global;
use std::io::Write;

// Writes the line of a group.
fn put_group<W: Write>(
    alloc: Global,
    writer: &mut Counted<W>,
    group: &Group,
) -> Result<(), RunFault>
    ensures { Prints W.contents writer.old writer.new result (with_end (group_text group.now)) }
{
    let Ok(line) = group_line(alloc, group) else {
        return Err(RunFault::OutOfMemory);
    };
    if let Err(fault) = put(writer, line.as_bytes()) {
        return Err(RunFault::from(fault));
    }
    match put(writer, b"\n") {
        Ok(()) => Ok(()),
        Err(fault) => Err(RunFault::from(fault)),
    }
}

/// Writes a line of JSON for each group.
pub(crate) fn put_view<W: Write>(
    alloc: Global,
    writer: &mut Counted<W>,
    plan: &Plan,
) -> Result<(), RunFault>
    ensures { Prints W.contents writer.old writer.new result (view_text plan.now.groups) }
{
    for place in 0..plan.count() {
        let Some((_, group)) = plan.at(place) else {
            break;
        };
        if let Err(fault) = put_group(alloc, writer, group) {
            return Err(fault);
        }
    }
    Ok(())
}
