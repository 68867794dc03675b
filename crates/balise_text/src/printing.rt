//! Prints words and lines. No memory is taken.

ghost use Rattle.std.specs.Prelude.{◌∷◌, map};
ghost use Rattle.balise_lines.specs.Writing.{Writes};
ghost use Rattle.balise_text.specs.Printing.{word_text};
ghost use Rattle.balise_text.specs.Texts.{behind_marks, text_of, whole_line};

use crate::digits::put_digits;
use crate::line_end::LineEnd;
use balise_commands::Bits;
use balise_lines::{Counted, WriteFault, put};
use balise_rules::{Id, Tag};
use std::io::Write;

/// A word of a line.
#[derive(Clone, Copy)]
pub(crate) enum Word<'a> {
    Name(&'a [u8]),
    Number(u32),
    LineNumber(u64),
    Identity(Id),
    GroupTag(Tag),
    Anchor(Option<Tag>),
    Neighbour(Option<Tag>),
    TelegramPath(Tag, u32),
    PacketPath(Tag, u32, Tag),
    Digits(&'a Bits),
}

/// Writes texts one after another.
pub fn put_texts<W: Write>(writer: &mut Counted<W>, texts: &[&[u8]]) -> Result<(), WriteFault>
    ensures { Writes W.contents writer.old writer.new result (text_of (map (λ t. t.now) texts.now)) }
{
    for text in texts {
        if let Err(fault) = put(writer, text) {
            return Err(fault);
        }
    }
    Ok(())
}

/// Writes a word.
pub(crate) fn put_word<W: Write>(writer: &mut Counted<W>, word: &Word) -> Result<(), WriteFault>
    ensures { Writes W.contents writer.old writer.new result (word_text word.now) }
{
    let mut end = LineEnd::new();
    if end.put_word(word) {
        return put(writer, end.text());
    }
    match *word {
        Word::Name(name) => put(writer, name),
        Word::Digits(bits) => put_digits(writer, bits),
        // There is room for any other.
        _ => Ok(()),
    }
}

/// Writes words, a space before each: in one call, if none of them is long.
pub(crate) fn put_words<W: Write>(writer: &mut Counted<W>, words: &[Word]) -> Result<(), WriteFault>
    ensures { Writes W.contents writer.old writer.new result (behind_marks 32 (map word_text words.now)) }
{
    let mut end = LineEnd::new();
    if end.put_words(words) {
        return put(writer, end.text());
    }
    put_each(writer, words)
}

// Writes words, a space before each, with two calls for each word.
#[inline(never)]
fn put_each<W: Write>(writer: &mut Counted<W>, words: &[Word]) -> Result<(), WriteFault>
    ensures { Writes W.contents writer.old writer.new result (behind_marks 32 (map word_text words.now)) }
{
    for word in words {
        if let Err(fault) = put(writer, b" ") {
            return Err(fault);
        }
        if let Err(fault) = put_word(writer, word) {
            return Err(fault);
        }
    }
    Ok(())
}

/// Writes a line of a name and of words after it, with its end.
pub(crate) fn put_line<W: Write>(
    writer: &mut Counted<W>,
    name: &[u8],
    words: &[Word],
) -> Result<(), WriteFault>
    ensures { Writes W.contents writer.old writer.new result (whole_line (name.now ∷ map word_text words.now)) }
{
    let mut end = LineEnd::new();
    if end.put_byte(b'\n') && end.put_words(words) && end.put_name(name) {
        return put(writer, end.text());
    }
    put_long_line(writer, name, words)
}

// Writes a line of a name and of words after it, in several calls.
#[inline(never)]
fn put_long_line<W: Write>(
    writer: &mut Counted<W>,
    name: &[u8],
    words: &[Word],
) -> Result<(), WriteFault>
    ensures { Writes W.contents writer.old writer.new result (whole_line (name.now ∷ map word_text words.now)) }
{
    if let Err(fault) = put(writer, name) {
        return Err(fault);
    }
    if let Err(fault) = put_words(writer, words) {
        return Err(fault);
    }
    if let Err(fault) = put(writer, b"\n") {
        return Err(fault);
    }
    Ok(())
}
