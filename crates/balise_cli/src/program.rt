//! The program `baliseplan`, and its start over its words and streams.

ghost use Rattle.std.specs.Prelude.{◌≡◌, ◌≢◌, IfErr, IfOk, OnErr, map, string_bytes};
ghost use Rattle.std.specs.Vec.Iter.{into_iter_items};
ghost use Rattle.std.specs.IoError.{error_kind};
ghost use Rattle.balise_program.specs.Reporting.{StopsAtBadText, StopsWithoutMemory};
ghost use Rattle.balise_program.specs.Starting.{MayStart, Starts};
ghost use Rattle.balise_cli.specs.Program.{Asks, PlanWork, Works};

use crate::asked::{Asked, asked_by};
use crate::exit::exit_of;
use crate::running::{AtEnd, run_lines};
use balise_arguments::{ArgsFault, Flags, flags};
use balise_program::{Counted, Exit, Program};
use std::alloc::Global;
use std::env::Args;
use std::io;
use std::io::{BufWriter, ErrorKind, Read, Write};

/// Runs, and then flushes, also where a fault ended the run. Returns how the program ends after both. It leaves the
/// session's memory to the system, which frees it when the program ends; `run` frees it itself.
pub fn work<R: Read, W: Write + Drop>(
    alloc: Global,
    asked: Asked,
    reader: &mut Counted<R>,
    writer: &mut Counted<BufWriter<W>>,
) -> Exit
    ensures { Works R.remaining W.contents asked reader.old reader.new writer.old writer.new result }
{
    let ended = run_lines(alloc, asked, AtEnd::Leave, reader, writer);
    let flushed = writer.flush_buffer();
    exit_of(ended, flushed.is_ok())
}

/// The program: it edits a plan.
pub struct Baliseplan;

impl Program for Baliseplan {
    type Asked = Flags;

    ghost asks = { Asks };

    ghost works = { PlanWork };

    fn ask<'a>(alloc: Global, words: &'a [&'a str]) -> Result<Flags, ArgsFault> {
        flags(alloc, words)
    }

    fn work<R: Read, W: Write + Drop>(
        alloc: Global,
        flags: Flags,
        reader: &mut Counted<R>,
        writer: &mut Counted<BufWriter<W>>,
    ) -> Exit {
        work(alloc, asked_by(flags), reader, writer)
    }
}

/// Does what the words of the command line ask for. The first word is the program's name.
///
/// Help goes to the writer, and what is wrong with the words and the fault of a run to `errors`.
pub fn start<R: Read, W: Write + Drop, E: Write>(
    alloc: Global,
    words: &[&str],
    reader: &mut Counted<R>,
    writer: &mut Counted<BufWriter<W>>,
    errors: &mut Counted<E>,
) -> Exit
    ensures { Starts Asks (PlanWork R.remaining W.contents) E.contents (map (λ w. w.now) words.now) reader.old reader.new writer.old writer.new errors.old errors.new result }
{
    balise_program::start::<Baliseplan, R, W, E>(alloc, words, reader, writer, errors)
}

/// Does what the command line asks for, as the system hands it over. A word that is no text is reported, with status 64.
pub fn launch<R: Read, W: Write + Drop, E: Write>(
    alloc: Global,
    arguments: io::Result<Args>,
    reader: &mut Counted<R>,
    writer: &mut Counted<BufWriter<W>>,
    errors: &mut Counted<E>,
) -> Exit
    ensures ok { IfOk arguments (λ args. MayStart Asks (PlanWork R.remaining W.contents) E.contents (map string_bytes (into_iter_items args)) reader.old reader.new writer.old writer.new errors.old errors.new result) }
    ensures memory { IfErr arguments (λ e. error_kind e ≡ ErrorKind.OutOfMemory → StopsWithoutMemory E.contents errors.old errors.new result) }
    ensures text { IfErr arguments (λ e. error_kind e ≢ ErrorKind.OutOfMemory → StopsAtBadText E.contents errors.old errors.new result) }
    ensures idle { OnErr arguments ((reader.new ≡ reader.old) × (writer.new ≡ writer.old)) }
{
    balise_program::launch::<Baliseplan, R, W, E>(alloc, arguments, reader, writer, errors)
}
