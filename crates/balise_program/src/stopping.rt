//! Where a program stops before its words are looked at.

ghost use Rattle.balise_program.specs.Reporting.{StopsAtBadText, StopsWithoutMemory};

use crate::exit::{Exit, exit_after_arguments};
use crate::reporting::report_end;
use balise_arguments::ArgsFault;
use balise_lines::{Counted, put};
use std::io::Write;

/// The exit status for arguments that aren't the program's.
const USAGE: u8 = 64;

/// What is written where a word is no text.
const NOT_UTF_8: &[u8] = b"error: an argument is not UTF-8\n";

/// Reports that memory ran out before the words were looked at.
pub fn stop_without_memory<E: Write>(errors: &mut Counted<E>) -> Exit
    ensures { StopsWithoutMemory E.contents errors.old errors.new result }
{
    report_end(errors, exit_after_arguments(&ArgsFault::Memory))
}

/// Reports a word that is no text.
pub fn stop_at_bad_text<E: Write>(errors: &mut Counted<E>) -> Exit
    ensures { StopsAtBadText E.contents errors.old errors.new result }
{
    // There is no other stream to report a failure on.
    let _ = put(errors, NOT_UTF_8);
    Exit {
        code: USAGE,
        fault: None,
    }
}
