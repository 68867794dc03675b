//! Prints what is to be looked at after a turn. No memory is taken.

ghost use Rattle.balise_lines.specs.Writing.{Writes};
ghost use Rattle.balise_text.specs.Reviews.{review_line};

use crate::printing::{Word, put_line};
use balise_lines::{Counted, WriteFault};
use balise_rules::{ReviewLine, Reviewed};
use std::io::Write;

/// Writes the line of a review, with its end.
pub fn put_review<W: Write>(writer: &mut Counted<W>, line: ReviewLine) -> Result<(), WriteFault>
    ensures { Writes W.contents writer.old writer.new result (review_line line) }
{
    let id = Word::Identity(line.id);
    let pig = Word::Number(line.pig);
    let pkt = Word::Number(line.pkt);
    match line.what {
        Reviewed::Field(var, k, value) => put_line(
            writer,
            b"review",
            &[
                id,
                pig,
                pkt,
                Word::Name(var.name().as_bytes()),
                Word::Number(k),
                Word::Number(value),
            ],
        ),
        Reviewed::Opaque(number) => put_line(
            writer,
            b"review",
            &[id, pig, pkt, Word::Name(b"opaque"), Word::Number(number)],
        ),
    }
}
