//! A run from digits to fields or from fields to digits, over bytes in memory.

ghost use Rattle.balise_c.specs.FieldsOutcome.{IsPrintedBy};
ghost use Rattle.balise_c.specs.HandedOver.{LeavesOutput};

use crate::handing_over::hand_over;
use crate::output_text::OutputText;
use balise_cli::{Counted, RunFault};
use balise_fields_run::{Status, Way, run};
use std::alloc::Global;

/// Runs this way, and copies what was printed to the front of the output. What doesn't fit is the fault of the writer.
pub(crate) fn fill_with_fields(
    alloc: Global,
    way: Way,
    input: &[u8],
    output: &mut [u8],
    written: &mut usize,
) -> Result<Status, RunFault>
    ensures { LeavesOutput (IsPrintedBy way input.now) output.old output.new written.new result }
{
    let mut reader = Counted::new(input);
    *written = 0;
    // A text that fills the one byte more is longer than the output.
    let Ok(text) = OutputText::with_room(alloc, output.len() + 1) else {
        return Err(RunFault::OutOfMemory);
    };
    let mut writer = Counted::new(text);
    let ended = run(alloc, way, &mut reader, &mut writer);
    hand_over(ended, writer.inner().bytes(), output, written)
}
