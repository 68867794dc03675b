//! A whole plan held in groups with its indexes, and then printed again.

ghost use Rattle.std.specs.Prelude.{◌≡◌};

use crate::digits::bits_in;
use anyhow::Result;
use balise_lines::{Counted, Lines, Next, put};
use balise_plan::Plan;
use balise_telegram::Bits;
use std::io::{BufWriter, Read, Write};
use std::{io, mem};

/// Reads the groups of all lines into a plan. A line 'group' begins one, and the lines after it with a telegram's
/// number of digits belong to it.
pub(crate) fn read<R: Read>(plan: &mut Plan, reader: &mut Counted<R>) -> Result<()>
    requires { plan.old.changes ≡ 0 }
{
    let alloc = plan.allocator();
    let mut lines = Lines::new();
    let mut telegrams = Vec::new(alloc);
    'lines: for _ in 0..u64::MAX {
        if lines.next(reader)? == Next::End {
            break;
        }
        let line = lines.line();
        if line == b"group".as_slice() {
            if !telegrams.is_empty() {
                plan.push(mem::replace(&mut telegrams, Vec::new(alloc)))?;
            }
        } else if let Some(len) = bits_in(line.len()) {
            telegrams.push(Bits::from_hex_bytes(alloc, line, len)?)?;
        }
    }
    if !telegrams.is_empty() {
        plan.push(telegrams)?;
    }
    Ok(())
}

fn print<W: Write>(plan: &Plan, writer: &mut Counted<W>) -> Result<()> {
    let mut text = Vec::new(plan.allocator());
    put(writer, b"plan 1\n")?;
    for i in 0..plan.count() {
        let Some((_, group)) = plan.at(i) else {
            break;
        };
        put(writer, b"group\n")?;
        for j in 0..group.count() {
            let Some((_, telegram)) = group.at(j) else {
                break;
            };
            telegram.hex_into(&mut text)?;
            text.push(b'\n')?;
            put(writer, &text)?;
        }
    }
    writer.flush()?;
    Ok(())
}

fn copy<R: Read, W: Write>(
    plan: &mut Plan,
    reader: &mut Counted<R>,
    writer: &mut Counted<W>,
) -> Result<()>
    requires { plan.old.changes ≡ 0 }
{
    read(plan, reader)?;
    print(plan, writer)
}

/// Reads a plan and prints it again.
pub fn run(rt: &(impl Input + Print + AllocGlobal)) -> Result<()> {
    let alloc = rt.alloc();
    let mut reader = Counted::new(rt.reader());
    let mut writer = Counted::new(BufWriter::new(alloc, io::writer(rt))?);
    let mut plan = Plan::empty(alloc);
    copy(&mut plan, &mut reader, &mut writer)
}
