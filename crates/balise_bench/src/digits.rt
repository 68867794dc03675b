//! Telegrams in digits, one on each line, read as bits and printed again.

use anyhow::{Result, bail};
use balise_telegram::Bits;
use std::alloc::Global;
use std::io;
use std::io::{BufRead, BufReader, BufWriter, Write};

/// The number of bits of a telegram that is written in n digits.
pub fn bits_in(digits: usize) -> Option<usize> {
    match digits {
        54 => Some(210),
        208 => Some(830),
        _ => None,
    }
}

fn copy<W: Write>(alloc: Global, text: &str, writer: &mut W) -> Result<()> {
    let Some(len) = bits_in(text.len()) else {
        bail!("a telegram has 54 or 208 digits");
    };
    let bits = Bits::from_hex(alloc, text, len)?;
    let text = bits.to_hex()?;
    writer.write_all(text.as_bytes())?;
    writer.write_all(b"\n")?;
    Ok(())
}

/// Prints each telegram of the standard input again, from its bits.
pub fn run(rt: &(impl Input + Print + AllocGlobal)) -> Result<()> {
    let mut reader = BufReader::new(rt.alloc(), rt.reader())?;
    let mut writer = BufWriter::new(rt.alloc(), io::writer(rt))?;
    let mut line = String::new(rt.alloc());
    for _ in 0..u64::MAX {
        line.clear();
        if reader.read_line(&mut line)? == 0 {
            break;
        }
        let text = line.as_str();
        copy(
            rt.alloc(),
            text.strip_suffix("\n").unwrap_or(text),
            &mut writer,
        )?;
    }
    writer.flush()?;
    Ok(())
}
