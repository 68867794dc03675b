//! Starts any program over words that are texts, an input and two outputs.

ghost use Rattle.std.specs.Prelude.{map};
ghost use Rattle.balise_program.specs.Starting.{Starts};

use crate::exit::{Exit, exit_after_arguments};
use crate::program::Program;
use crate::reporting::{report_end, show};
use balise_lines::Counted;
use std::alloc::Global;
use std::io::{BufWriter, Read, Write};

/// Does what the words of the command line ask the program for. The first word is its name.
///
/// Help goes to the writer, and what is wrong with the words and the fault of a run to `errors`.
pub fn start<P: Program, R: Read, W: Write + Drop, E: Write>(
    alloc: Global,
    words: &[&str],
    reader: &mut Counted<R>,
    writer: &mut Counted<BufWriter<W>>,
    errors: &mut Counted<E>,
) -> Exit
    ensures { Starts P.asks (P.works R.remaining W.contents) E.contents (map (λ w. w.now) words.now) reader.old reader.new writer.old writer.new errors.old errors.new result }
{
    match P::ask(alloc, words) {
        Ok(asked) => {
            let exit = P::work(alloc, asked, reader, writer);
            report_end(errors, exit)
        }
        Err(fault) => {
            show(&fault, writer, errors);
            report_end(errors, exit_after_arguments(&fault))
        }
    }
}
