//! One line of an input of items.

ghost use Rattle.std.specs.Prelude.{◌≡◌, ◌++◌, Some, IfErr, IfOk, OnOk};
ghost use Rattle.balise_lines.specs.Writing.{Writes};
ghost use Rattle.balise_fields.specs.FieldLines.{field_line_of};
ghost use Rattle.balise_fields_run.specs.ItemLines.{begun_after, closed_bad, closed_text, ends_item, grown, is_plan, line_bad, line_text, open_after, plan_text};
ghost use Rattle.balise_fields_run.specs.ItemSteps.{TextDone, TextFails};

use balise_fields::FieldsFault;
use balise_items::{FieldLine, Item, begins_item, put_spelling, read_field_line, spell_item};
use balise_lines::{Counted, WriteFault, put};
use balise_text::RunFault;
use std::alloc::Global;
use std::io::Write;

/// Writes what the item, if one is open, is turned into. It ends before the line of this number. Answers whether it is
/// refused.
pub(crate) fn close<W: Write>(
    alloc: Global,
    current: &Option<Item>,
    number: u32,
    writer: &mut Counted<W>,
) -> Result<bool, RunFault>
    ensures ok { IfOk result (TextDone W.contents writer.old writer.new (closed_text number current.now) (closed_bad number current.now)) }
    ensures fault { IfErr result (TextFails W.contents writer.old writer.new (closed_text number current.now)) }
{
    let Some(item) = current else {
        return Ok(false);
    };
    let spelling = match spell_item(alloc, item, number) {
        Ok(spelling) => spelling,
        Err(fault) => return Err(RunFault::from(fault)),
    };
    match put_spelling(writer, &spelling) {
        Ok(()) => Ok(spelling.is_bad()),
        Err(fault) => Err(RunFault::from(fault)),
    }
}

// Whether it is a line of a plan.
fn is_plan(line: &FieldLine) -> bool
    ensures { result ≡ is_plan line.now }
{
    match line {
        FieldLine::Plan | FieldLine::Group => true,
        _ => false,
    }
}

// Whether it ends the item before it.
fn ends_item(text: &[u8], line: &FieldLine) -> bool
    ensures { result ≡ ends_item text.now line.now }
{
    is_plan(line) || begins_item(text, line)
}

// Writes a line of a plan as it is, and nothing for another.
fn put_plan<W: Write>(writer: &mut Counted<W>, line: &FieldLine) -> Result<(), WriteFault>
    ensures { Writes W.contents writer.old writer.new result (plan_text line.now) }
{
    match line {
        FieldLine::Plan => put(writer, b"plan 1\n"),
        FieldLine::Group => put(writer, b"group\n"),
        _ => Ok(()),
    }
}

// The item that a line begins which ends another: none, where it is a line of a plan.
fn begun_after(alloc: Global, number: u32, line: &FieldLine) -> Option<Item>
    ensures { result ≡ begun_after number line.now }
{
    if is_plan(line) {
        return None;
    }
    Some(Item::new(alloc, number, line))
}

// The item that a line begins, or is one more of.
fn grow(
    alloc: Global,
    current: &mut Option<Item>,
    number: u32,
    line: FieldLine,
) -> Result<(), FieldsFault>
    ensures { OnOk result (current.new ≡ Some (grown number line current.old)) }
{
    match current {
        Some(item) => item.add(alloc, number, line),
        None => {
            *current = Some(Item::new(alloc, number, &line));
            Ok(())
        }
    }
}

// Writes what the open item is turned into, and then the line that ends it, if that is one of a plan.
fn end_item<W: Write>(
    alloc: Global,
    current: &Option<Item>,
    number: u32,
    line: &FieldLine,
    writer: &mut Counted<W>,
) -> Result<bool, RunFault>
    ensures ok { IfOk result (TextDone W.contents writer.old writer.new (closed_text number current.now ++ plan_text line.now) (closed_bad number current.now)) }
    ensures fault { IfErr result (TextFails W.contents writer.old writer.new (closed_text number current.now ++ plan_text line.now)) }
{
    let refused = match close(alloc, current, number, writer) {
        Ok(refused) => refused,
        Err(fault) => return Err(fault),
    };
    match put_plan(writer, line) {
        Ok(()) => Ok(refused),
        Err(fault) => Err(RunFault::from(fault)),
    }
}

/// Takes the line of this number, writes what it ends, and answers whether that is refused.
pub(crate) fn spell_line<W: Write>(
    alloc: Global,
    current: &mut Option<Item>,
    number: u32,
    text: &[u8],
    writer: &mut Counted<W>,
) -> Result<bool, RunFault>
    ensures ok { IfOk result (TextDone W.contents writer.old writer.new (line_text number text.now current.old) (line_bad number text.now current.old)) }
    ensures item { OnOk result (current.new ≡ open_after number text.now current.old) }
    ensures fault { IfErr result (TextFails W.contents writer.old writer.new (line_text number text.now current.old)) }
{
    let line = match read_field_line(alloc, text) {
        Ok(line) => line,
        Err(fault) => return Err(RunFault::from(fault)),
    };
    if !ends_item(text, &line) {
        return match grow(alloc, current, number, line) {
            Ok(()) => Ok(false),
            Err(fault) => Err(RunFault::from(fault)),
        };
    }
    let refused = match end_item(alloc, current, number, &line, writer) {
        Ok(refused) => refused,
        Err(fault) => return Err(fault),
    };
    *current = begun_after(alloc, number, &line);
    Ok(refused)
}
