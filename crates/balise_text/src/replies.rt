//! Prints replies, and why a plan, a journal or a run is refused. No memory is taken.

ghost use Rattle.std.specs.Prelude.{◌≡◌, ◌≤◌, ◌∷◌, [], decimal, drop, length};
ghost use Rattle.balise_lines.specs.Writing.{Writes};
ghost use Rattle.balise_text.specs.Answers.{reply_of};
ghost use Rattle.balise_text.specs.Replies.{bad_line, fault_line, refused_line, reply_line};
ghost use Rattle.balise_text.specs.Texts.{whole_line};

use crate::line_end::LineEnd;
use crate::printing::{Word, put_line};
use crate::refused::refused_text;
use crate::reply::Reply;
use balise_lines::{Counted, WriteFault, put};
use balise_rules::Refusal;
use std::io::Write;

// Writes the line of a name and a number, in one call.
fn put_number_line<W: Write>(
    writer: &mut Counted<W>,
    name: &[u8],
    number: u32,
) -> Result<(), WriteFault>
    ensures { Writes W.contents writer.old writer.new result (whole_line (name.now ∷ decimal number ∷ [])) }
{
    let mut end = LineEnd::new();
    if end.put_byte(b'\n')
        && end.put_number(u64::from(number))
        && end.put_byte(b' ')
        && end.put_name(name)
    {
        return put(writer, end.text());
    }
    put_line(writer, name, &[Word::Number(number)])
}

// The line of a command that is refused.
fn put_refused<W: Write>(writer: &mut Counted<W>, refusal: Refusal) -> Result<(), WriteFault>
    ensures { Writes W.contents writer.old writer.new result (refused_line refusal) }
{
    if let Refusal::DependsOn(serial) = refusal {
        let number = Word::Number(refusal.number());
        let name = Word::Name(refusal.name().as_bytes());
        return put_line(writer, b"refused", &[number, name, Word::Number(serial)]);
    }
    put(writer, refused_text(refusal).as_bytes())
}

/// Writes the line that answers a command, with its end.
pub fn put_reply<W: Write>(writer: &mut Counted<W>, reply: Reply) -> Result<(), WriteFault>
    ensures { Writes W.contents writer.old writer.new result (reply_line (reply_of reply)) }
{
    match reply {
        Reply::Done(serial) => put_number_line(writer, b"ok", serial),
        Reply::Undone(serial) => put_number_line(writer, b"undone", serial),
        Reply::Redone(serial) => put_number_line(writer, b"redone", serial),
        Reply::Struck(serial) => put_number_line(writer, b"struck", serial),
        Reply::Refused(refusal) => put_refused(writer, refusal),
    }
}

/// Writes the line for a plan or a journal that is refused, with its end, by the number of the refused line from 1.
pub fn put_bad<W: Write>(
    writer: &mut Counted<W>,
    number: u64,
    refusal: Refusal,
) -> Result<(), WriteFault>
    ensures { Writes W.contents writer.old writer.new result (bad_line number refusal) }
{
    put_line(
        writer,
        b"bad",
        &[
            Word::LineNumber(number),
            Word::Number(refusal.number()),
            Word::Name(refusal.name().as_bytes()),
        ],
    )
}

/// Writes the line for a run that ends with a fault, with its end.
pub fn put_fault<W: Write>(writer: &mut Counted<W>, refusal: Refusal) -> Result<(), WriteFault>
    ensures { Writes W.contents writer.old writer.new result (fault_line refusal) }
{
    put_line(
        writer,
        b"fault",
        &[
            Word::Number(refusal.number()),
            Word::Name(refusal.name().as_bytes()),
        ],
    )
}
