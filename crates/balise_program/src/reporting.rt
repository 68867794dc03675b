//! What a program reports of its end and of its arguments.

ghost use Rattle.std.specs.Prelude.{◌≡◌};
ghost use Rattle.balise_lines.specs.Writing.{Writes};
ghost use Rattle.balise_program.specs.Reporting.{Reports, Shows, reported};

use crate::exit::Exit;
use balise_arguments::ArgsFault;
use balise_lines::{Counted, WriteFault};
use balise_text::put_fault;
use std::fmt::Display;
use std::io::Write;

/// Writes the line for the fault that a program ends with. Where there is none, it writes nothing.
pub fn report<E: Write>(errors: &mut Counted<E>, exit: Exit) -> Result<(), WriteFault>
    ensures { Writes E.contents errors.old errors.new result (reported exit.fault) }
{
    match exit.fault {
        Some(refusal) => put_fault(errors, refusal),
        None => Ok(()),
    }
}

/// Reports the fault that a program ends with. It ends so also where the report fails.
pub(crate) fn report_end<E: Write>(errors: &mut Counted<E>, exit: Exit) -> Exit
    ensures same { result ≡ exit }
    ensures reports { Reports E.contents errors.old errors.new result }
{
    // There is no other stream to report a failure on.
    let _ = report(errors, exit);
    exit
}

// Writes a text for the user. It isn't reported where that fails, since there is no other place for it.
fn print<W: Write>(writer: &mut W, text: impl Display + Drop) {
    let _ = writer.write_fmt(text);
    let _ = writer.flush();
}

/// Prints help on the one stream, or what is wrong with the arguments on the other.
pub fn show<W: Write, E: Write>(fault: &ArgsFault, writer: &mut W, errors: &mut E)
    ensures { Shows fault.now writer.old writer.new errors.old errors.new }
{
    match fault {
        ArgsFault::Help(text) => print(writer, text),
        ArgsFault::Memory => {}
        ArgsFault::Other(text) => print(errors, text),
    }
}
