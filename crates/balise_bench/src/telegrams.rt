//! All telegrams of a plan held at once, each as its bits, and then printed again.

use crate::digits::bits_in;
use anyhow::Result;
use balise_lines::{Counted, Lines, Next, put};
use balise_telegram::{Bits, Telegram};
use std::alloc::Global;
use std::io;
use std::io::{BufWriter, Read, Write};

/// The telegrams of all lines that have a telegram's number of digits. Other lines are written as they are.
fn hold<R: Read, W: Write>(
    alloc: Global,
    reader: &mut Counted<R>,
    writer: &mut Counted<W>,
) -> Result<Vec<Telegram>> {
    let mut lines = Lines::new();
    let mut held = Vec::new(alloc);
    'lines: for _ in 0..u64::MAX {
        if lines.next(reader)? == Next::End {
            break;
        }
        let line = lines.line();
        match bits_in(line.len()) {
            Some(len) => held.push(Telegram::of_bits(Bits::from_hex_bytes(alloc, line, len)?)?)?,
            None => {
                put(writer, line)?;
                put(writer, b"\n")?;
            }
        }
    }
    Ok(held)
}

/// Prints a plan's lines again: first those that are no telegrams, then the telegrams. All telegrams are held until
/// then.
pub fn run(rt: &(impl Input + Print + AllocGlobal)) -> Result<()> {
    let alloc = rt.alloc();
    let mut reader = Counted::new(rt.reader());
    let mut writer = Counted::new(BufWriter::new(alloc, io::writer(rt))?);
    let held = hold(alloc, &mut reader, &mut writer)?;
    let mut text = Vec::new(alloc);
    for telegram in &held {
        telegram.hex_into(&mut text)?;
        text.push(b'\n')?;
        put(&mut writer, &text)?;
    }
    writer.flush()?;
    Ok(())
}
