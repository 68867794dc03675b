//! A program over the command line as the system hands it over.

ghost use Rattle.std.specs.Prelude.{◌≡◌, ◌≢◌, IfErr, IfOk, OnErr, map, string_bytes};
ghost use Rattle.std.specs.Vec.Iter.{into_iter_items};
ghost use Rattle.std.specs.IoError.{error_kind};
ghost use Rattle.balise_program.specs.Reporting.{StopsAtBadText, StopsWithoutMemory};
ghost use Rattle.balise_program.specs.Starting.{MayStart};

use crate::exit::Exit;
use crate::program::Program;
use crate::starting::start;
use crate::stopping::{stop_at_bad_text, stop_without_memory};
use crate::words::{lend, own};
use balise_lines::Counted;
use std::alloc::Global;
use std::env::Args;
use std::io;
use std::io::{BufWriter, ErrorKind, Read, Write};

// Does what owned words ask for.
fn start_owned<P: Program, R: Read, W: Write + Drop, E: Write>(
    alloc: Global,
    words: &[String],
    reader: &mut Counted<R>,
    writer: &mut Counted<BufWriter<W>>,
    errors: &mut Counted<E>,
) -> Exit
    ensures { MayStart P.asks (P.works R.remaining W.contents) E.contents (map string_bytes words.now) reader.old reader.new writer.old writer.new errors.old errors.new result }
{
    match lend(alloc, words) {
        Ok(words) => start::<P, R, W, E>(alloc, &words, reader, writer, errors),
        Err(_) => stop_without_memory(errors),
    }
}

/// Does what the command line asks the program for, as the system hands it over. A word that is no text is reported, with
/// status 64.
pub fn launch<P: Program, R: Read, W: Write + Drop, E: Write>(
    alloc: Global,
    arguments: io::Result<Args>,
    reader: &mut Counted<R>,
    writer: &mut Counted<BufWriter<W>>,
    errors: &mut Counted<E>,
) -> Exit
    ensures ok { IfOk arguments (λ args. MayStart P.asks (P.works R.remaining W.contents) E.contents (map string_bytes (into_iter_items args)) reader.old reader.new writer.old writer.new errors.old errors.new result) }
    ensures memory { IfErr arguments (λ e. error_kind e ≡ ErrorKind.OutOfMemory → StopsWithoutMemory E.contents errors.old errors.new result) }
    ensures text { IfErr arguments (λ e. error_kind e ≢ ErrorKind.OutOfMemory → StopsAtBadText E.contents errors.old errors.new result) }
    ensures idle { OnErr arguments ((reader.new ≡ reader.old) × (writer.new ≡ writer.old)) }
{
    match arguments {
        Ok(arguments) => match own(alloc, arguments) {
            Ok(words) => start_owned::<P, R, W, E>(alloc, &words, reader, writer, errors),
            Err(_) => stop_without_memory(errors),
        },
        Err(error) if error.kind() == ErrorKind::OutOfMemory => stop_without_memory(errors),
        Err(_) => stop_at_bad_text(errors),
    }
}
