//! The program `balisefacts`, and its start over its words and streams.

ghost use Rattle.balise_facts_cli.specs.Arguments.{Asks};
ghost use Rattle.balise_facts_cli.specs.Program.{FactsWork};

use crate::arguments::check_words;
use balise_cli::{facts_asked, work};
use balise_facts::Facts;
use balise_program::{ArgsFault, Counted, Exit, Program};
use std::alloc::Global;
use std::io::{BufWriter, Read, Write};

/// The program: a run of `balise_cli` that prints facts at its end.
pub struct Balisefacts;

impl Program for Balisefacts {
    type Asked = Facts;

    ghost asks = { Asks };

    ghost works = { FactsWork };

    fn ask<'a>(alloc: Global, words: &'a [&'a str]) -> Result<Facts, ArgsFault> {
        check_words(alloc, words)
    }

    fn work<R: Read, W: Write + Drop>(
        alloc: Global,
        facts: Facts,
        reader: &mut Counted<R>,
        writer: &mut Counted<BufWriter<W>>,
    ) -> Exit {
        work(alloc, facts_asked(facts), reader, writer)
    }
}
