//! The program `balisefields`, and its start over its words and streams.

ghost use Rattle.balise_fields_cli.specs.Arguments.{Asks};
ghost use Rattle.balise_fields_cli.specs.Program.{Works};

use crate::arguments::check_words;
use crate::exit::exit_of;
use balise_fields_run::{Way, run};
use balise_program::{ArgsFault, Counted, Exit, Program};
use std::alloc::Global;
use std::io::{BufWriter, Read, Write};

/// The program: it explains digits or, with `--spell`, encodes fields. The run ends with a flush, also where a fault
/// ended it.
pub struct Balisefields;

impl Program for Balisefields {
    type Asked = Way;

    ghost asks = { Asks };

    ghost works = { Works };

    fn ask<'a>(alloc: Global, words: &'a [&'a str]) -> Result<Way, ArgsFault> {
        check_words(alloc, words)
    }

    fn work<R: Read, W: Write + Drop>(
        alloc: Global,
        way: Way,
        reader: &mut Counted<R>,
        writer: &mut Counted<BufWriter<W>>,
    ) -> Exit {
        let ended = run(alloc, way, reader, writer);
        let flushed = writer.flush_buffer();
        exit_of(ended, flushed.is_ok())
    }
}
