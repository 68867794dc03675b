//! Prints what an item is turned into. No memory is taken.

ghost use Rattle.std.specs.Prelude.{◌∷◌, [], codes, decimal};
ghost use Rattle.balise_rules.specs.Digits.{hex_of};
ghost use Rattle.balise_lines.specs.Writing.{Writes};
ghost use Rattle.balise_text.specs.Texts.{text_of, whole_line};
ghost use Rattle.balise_items.specs.Reasons.{bad_text, name_of};
ghost use Rattle.balise_items.specs.Spellings.{spelling_text};

use crate::reason::{Bad, Reason};
use crate::spelling::Spelling;
use balise_bits::Bits;
use balise_lines::{Counted, WriteFault, put};
use balise_text::{put_digits, put_texts};
use itoa::Buffer;
use std::io::Write;

/// Writes the line of what an item is turned into.
pub fn put_spelling<W: Write>(
    writer: &mut Counted<W>,
    spelling: &Spelling,
) -> Result<(), WriteFault>
    ensures { Writes W.contents writer.old writer.new result (spelling_text spelling.now) }
{
    match spelling {
        Spelling::Telegram(bits) => put_hex_line(writer, bits),
        Spelling::Packet(version, bits) => put_packet(writer, *version, bits),
        Spelling::Bad(bad) => put_bad(writer, *bad),
    }
}

// Writes the line of digits.
fn put_hex_line<W: Write>(writer: &mut Counted<W>, bits: &Bits) -> Result<(), WriteFault>
    ensures { Writes W.contents writer.old writer.new result (whole_line (hex_of bits.now ∷ [])) }
{
    if let Err(fault) = put_digits(writer, bits) {
        return Err(fault);
    }
    put(writer, b"\n")
}

// Writes what stands before the digits of a packet by itself.
fn put_version<W: Write>(writer: &mut Counted<W>, version: u32) -> Result<(), WriteFault>
    ensures { Writes W.contents writer.old writer.new result (text_of (codes "packet " ∷ decimal version ∷ codes " " ∷ [])) }
{
    let mut number = Buffer::new();
    put_texts(
        writer,
        &[b"packet ", number.format(version).as_bytes(), b" "],
    )
}

// Writes the line of a packet by itself.
fn put_packet<W: Write>(
    writer: &mut Counted<W>,
    version: u32,
    bits: &Bits,
) -> Result<(), WriteFault>
    ensures { Writes W.contents writer.old writer.new result (whole_line (codes "packet" ∷ decimal version ∷ hex_of bits.now ∷ [])) }
{
    if let Err(fault) = put_version(writer, version) {
        return Err(fault);
    }
    put_hex_line(writer, bits)
}

// Writes the line of an item that is refused.
fn put_bad<W: Write>(writer: &mut Counted<W>, bad: Bad) -> Result<(), WriteFault>
    ensures { Writes W.contents writer.old writer.new result (bad_text bad) }
{
    let mut number = Buffer::new();
    match bad.reason {
        Reason::NotDue(var) | Reason::Missing(var) => {
            put_due(writer, bad, var.name().as_bytes())
        }
        Reason::NoEnd => put_due(writer, bad, b"end"),
        Reason::OtherLength(bits) | Reason::BadLength(bits) => {
            put_due(writer, bad, number.format(bits).as_bytes())
        }
        _ => put_plain(writer, bad),
    }
}

// Writes the line and the name of the reason.
fn put_reason<W: Write>(writer: &mut Counted<W>, bad: Bad) -> Result<(), WriteFault>
    ensures { Writes W.contents writer.old writer.new result (text_of (codes "bad " ∷ decimal bad.line ∷ codes " " ∷ name_of bad.reason ∷ [])) }
{
    let mut line = Buffer::new();
    put_texts(
        writer,
        &[
            b"bad ",
            line.format(bad.line).as_bytes(),
            b" ",
            bad.reason.name().as_bytes(),
        ],
    )
}

// Writes the line with the word for what was due.
fn put_due<W: Write>(writer: &mut Counted<W>, bad: Bad, due: &[u8]) -> Result<(), WriteFault>
    ensures { Writes W.contents writer.old writer.new result (whole_line (codes "bad" ∷ decimal bad.line ∷ name_of bad.reason ∷ due.now ∷ [])) }
{
    if let Err(fault) = put_reason(writer, bad) {
        return Err(fault);
    }
    put_texts(writer, &[b" ", due, b"\n"])
}

// Writes the line where nothing was due.
fn put_plain<W: Write>(writer: &mut Counted<W>, bad: Bad) -> Result<(), WriteFault>
    ensures { Writes W.contents writer.old writer.new result (whole_line (codes "bad" ∷ decimal bad.line ∷ name_of bad.reason ∷ [])) }
{
    if let Err(fault) = put_reason(writer, bad) {
        return Err(fault);
    }
    put(writer, b"\n")
}
