//! A run over bytes in memory.

ghost use Rattle.std.specs.Prelude.{◌≡◌, []};
ghost use Rattle.balise_c.specs.HandedOver.{LeavesOutput};
ghost use Rattle.balise_c.specs.Outcome.{HasSize, IsPrinted, Ran};

use crate::handing_over::hand_over;
use crate::output_text::OutputText;
use balise_cli::{Asked, AtEnd, Counted, RunFault, Status, run_lines};
use std::alloc::Global;

// Runs over all of the input, into a text that is empty.
fn run_into(
    alloc: Global,
    input: &[u8],
    asked: Asked,
    writer: &mut Counted<OutputText>,
) -> Result<Status, RunFault>
    requires { writer.old.inner.bytes.items ≡ [] }
    ensures { Ran asked input.now writer.new.inner.bytes.items result }
{
    let mut reader = Counted::new(input);
    run_lines(alloc, asked, AtEnd::GiveBack, &mut reader, writer)
}

/// Runs, and copies what was printed to the front of the output. What doesn't fit is the fault of the writer.
pub(crate) fn fill(
    alloc: Global,
    input: &[u8],
    asked: Asked,
    output: &mut [u8],
    written: &mut usize,
) -> Result<Status, RunFault>
    ensures { LeavesOutput (IsPrinted asked input.now) output.old output.new written.new result }
{
    *written = 0;
    // A text that fills the one byte more is longer than the output.
    let Ok(text) = OutputText::with_room(alloc, output.len() + 1) else {
        return Err(RunFault::OutOfMemory);
    };
    let mut writer = Counted::new(text);
    let ended = run_into(alloc, input, asked, &mut writer);
    hand_over(ended, writer.inner().bytes(), output, written)
}

/// Runs, and counts what was printed. Here a write fails only where memory runs out.
pub(crate) fn measure(
    alloc: Global,
    input: &[u8],
    asked: Asked,
    size: &mut usize,
) -> Result<Status, RunFault>
    ensures { HasSize asked input.now size.new result }
{
    let mut writer = Counted::new(OutputText::growing(alloc));
    let ended = run_into(alloc, input, asked, &mut writer);
    *size = writer.inner().bytes().len();
    match ended {
        Err(RunFault::WriteFault) => Err(RunFault::OutOfMemory),
        // It never comes: reading bytes doesn't fail.
        Err(RunFault::ReadFault) => {
            *size = 0;
            Err(RunFault::OutOfMemory)
        }
        ended => ended,
    }
}
