//! Prints the lines of a journal. No memory is taken.

ghost use Rattle.std.specs.Prelude.{◌≡◌, ◌++◌, codes, decimal, map};
ghost use Rattle.balise_lines.specs.Writing.{Writes};
ghost use Rattle.balise_commands.specs.Lines.{line_edit_of, line_in, noted_in};
ghost use Rattle.balise_rules.specs.Digits.{hex_of};
ghost use Rattle.balise_text.specs.Entries.{edit_words, entry_text, head_text, noted_words, undone_text};
ghost use Rattle.balise_text.specs.Printing.{word_or_none, word_text};
ghost use Rattle.balise_text.specs.Texts.{behind_marks};

use crate::line_end::LineEnd;
use crate::printing::Word::{
    Anchor, Digits, GroupTag, Name, Neighbour, Number, PacketPath, TelegramPath,
};
use crate::printing::{Word, put_line, put_word, put_words};
use balise_commands::{Bits, Line, LineEdit, Noted, Tag};
use balise_lines::{Counted, WriteFault, put};
use std::io::Write;

// The digits of telegrams, a space before each.
fn put_telegrams<W: Write>(writer: &mut Counted<W>, telegrams: &[Bits]) -> Result<(), WriteFault>
    ensures { Writes W.contents writer.old writer.new result (behind_marks 32 (map hex_of telegrams.now)) }
{
    for bits in telegrams {
        if let Err(fault) = put_words(writer, &[Digits(bits)]) {
            return Err(fault);
        }
    }
    Ok(())
}

// The word of what is noted.
#[inline(always)]
fn noted_word(noted: Noted) -> Option<Word<'static>>
    ensures { word_or_none result ≡ noted_words (noted_in noted) }
{
    match noted {
        Noted::Nothing => None,
        Noted::Value(value) => Some(Number(value)),
        Noted::Number(number) => Some(Number(number)),
        Noted::BeforePacket(before) => Some(Neighbour(before)),
        Noted::BeforeGroup(before) => Some(Neighbour(before)),
    }
}

/// Writes the line of an entry, with its end: in one call, if it has no digits of bits.
pub fn put_entry<W: Write>(writer: &mut Counted<W>, line: &Line) -> Result<(), WriteFault>
    ensures { Writes W.contents writer.old writer.new result (entry_text (line_in line.now) ++ codes "\n") }
{
    match &line.edit {
        LineEdit::SetVar {
            g,
            t,
            p,
            var,
            k,
            value,
        } => {
            let (packet, var) = (PacketPath(*g, *t, *p), Name(var.name().as_bytes()));
            let words = [Name(b"set"), packet, var, Number(*k), Number(*value)];
            put_edit(writer, line, &words)
        }
        LineEdit::SetHead { g, t, var, value } => {
            let (telegram, var) = (TelegramPath(*g, *t), Name(var.name().as_bytes()));
            let words = [Name(b"seth"), telegram, var, Number(*value)];
            put_edit(writer, line, &words)
        }
        LineEdit::InsertPacket {
            g,
            t,
            after,
            packet,
        } => {
            let telegram = TelegramPath(*g, *t);
            let words = [Name(b"insert"), telegram, Anchor(*after), Digits(packet)];
            put_edit(writer, line, &words)
        }
        LineEdit::DeletePacket { g, t, p } => {
            put_edit(writer, line, &[Name(b"delete"), PacketPath(*g, *t, *p)])
        }
        LineEdit::MovePacket { g, t, p, after } => {
            let words = [Name(b"move"), PacketPath(*g, *t, *p), Anchor(*after)];
            put_edit(writer, line, &words)
        }
        LineEdit::AddGroup { after, telegrams } => {
            put_entry_line(writer, line, &[Name(b"add"), Anchor(*after)], telegrams)
        }
        LineEdit::DropGroup { g } => put_edit(writer, line, &[Name(b"drop"), GroupTag(*g)]),
        LineEdit::Renumber { g, number } => {
            let words = [Name(b"renumber"), GroupTag(*g), Number(*number)];
            put_edit(writer, line, &words)
        }
        LineEdit::TurnGroup { g } => put_edit(writer, line, &[Name(b"turn"), GroupTag(*g)]),
    }
}

// Writes it by the words of its edit, which has no telegrams.
#[inline(always)]
fn put_edit<W: Write>(
    writer: &mut Counted<W>,
    line: &Line,
    words: &[Word],
) -> Result<(), WriteFault>
    requires { edit_words (line_edit_of line.now.edit) ≡ map word_text words.now }
    ensures { Writes W.contents writer.old writer.new result (entry_text (line_in line.now) ++ codes "\n") }
{
    put_entry_line(writer, line, words, &[])
}

// Writes it by the words of its edit: some words, and the digits of telegrams.
fn put_entry_line<W: Write>(
    writer: &mut Counted<W>,
    line: &Line,
    words: &[Word],
    telegrams: &[Bits],
) -> Result<(), WriteFault>
    requires { edit_words (line_edit_of line.now.edit) ≡ map word_text words.now ++ map hex_of telegrams.now }
    ensures { Writes W.contents writer.old writer.new result (entry_text (line_in line.now) ++ codes "\n") }
{
    let noted = noted_word(line.noted);
    let mut end = LineEnd::new();
    if telegrams.is_empty()
        && end.put_byte(b'\n')
        && end.put_word_or_none(&noted)
        && end.put_words(words)
        && end.put_number(u64::from(line.serial))
    {
        return put(writer, end.text());
    }
    put_parts(writer, line.serial, words, telegrams, &noted)
}

// Writes the line of an entry in several calls, part by part.
#[inline(never)]
fn put_parts<W: Write>(
    writer: &mut Counted<W>,
    serial: u32,
    words: &[Word],
    telegrams: &[Bits],
    noted: &Option<Word>,
) -> Result<(), WriteFault>
    ensures { Writes W.contents writer.old writer.new result (decimal serial ++ (behind_marks 32 (map word_text words.now) ++ (behind_marks 32 (map hex_of telegrams.now) ++ (behind_marks 32 (word_or_none noted.now) ++ codes "\n")))) }
{
    if let Err(fault) = put_word(writer, &Number(serial)) {
        return Err(fault);
    }
    if let Err(fault) = put_words(writer, words) {
        return Err(fault);
    }
    if let Err(fault) = put_telegrams(writer, telegrams) {
        return Err(fault);
    }
    if let Err(fault) = put_word_or_none(writer, noted) {
        return Err(fault);
    }
    if let Err(fault) = put(writer, b"\n") {
        return Err(fault);
    }
    Ok(())
}

// Writes a word with a space before it, if there is one.
fn put_word_or_none<W: Write>(
    writer: &mut Counted<W>,
    word: &Option<Word>,
) -> Result<(), WriteFault>
    ensures { Writes W.contents writer.old writer.new result (behind_marks 32 (word_or_none word.now)) }
{
    match word {
        Some(word) => put_words(writer, &[*word]),
        None => Ok(()),
    }
}

/// Writes the first line of a journal, with its end: version 2, and the serial of the next edit.
pub fn put_head<W: Write>(writer: &mut Counted<W>, next: u32) -> Result<(), WriteFault>
    ensures { Writes W.contents writer.old writer.new result (head_text next ++ codes "\n") }
{
    put_line(writer, b"journal", &[Name(b"2"), Number(next)])
}

/// Writes the line of an edit that was undone, with its end, by the edit's serial.
pub fn put_undone<W: Write>(writer: &mut Counted<W>, serial: u32) -> Result<(), WriteFault>
    ensures { Writes W.contents writer.old writer.new result (undone_text serial ++ codes "\n") }
{
    put_line(writer, b"undone", &[Number(serial)])
}
