//! The trait of a program: what its words ask for, and how that is done.

ghost use Rattle.std.specs.Prelude.{Option, map};
ghost use Rattle.balise_text.specs.Texts.{Text};
ghost use Rattle.balise_program.specs.Starting.{Asking, Doing};

use crate::exit::Exit;
use balise_arguments::ArgsFault;
use balise_lines::Counted;
use std::alloc::Global;
use std::io::{BufWriter, Read, Write};

/// A program: what its words ask for, and how that is done over a reader and a writer.
pub trait Program {
    /// What its words ask for.
    type Asked;

    /// What words ask for, or why they are refused.
    ghost asks: { Asking Self.Asked };

    /// How it is done, by what the reader has left and what the writer holds.
    ghost works: { {R W A : Type 0} → (R → Option Text) → (W → Option Text) → Doing Self.Asked R W A };

    /// What the words ask for. The first is the program's name.
    fn ask<'a>(alloc: Global, words: &'a [&'a str]) -> Result<Self::Asked, ArgsFault>
        ensures { asks (map (λ w. w.now) words.now) result };

    /// Does it, flushes, and says how the program ends after both.
    fn work<R: Read, W: Write + Drop>(
        alloc: Global,
        asked: Self::Asked,
        reader: &mut Counted<R>,
        writer: &mut Counted<BufWriter<W>>,
    ) -> Exit
        ensures { works R.remaining W.contents asked reader.old reader.new writer.old writer.new result };
}
