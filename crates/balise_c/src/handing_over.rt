//! What a run wrote, handed over to the caller.

ghost use Rattle.std.specs.Prelude.{◌≡◌};
ghost use Rattle.balise_c.specs.HandedOver.{HandsOver};

use crate::copying::copy_front;
use balise_cli::RunFault;

/// Copies what a run wrote to the front of the output, and says how the call ends. What doesn't fit is the fault of the
/// writer.
pub(crate) fn hand_over<S: Copy>(
    ended: Result<S, RunFault>,
    text: &[u8],
    output: &mut [u8],
    written: &mut usize,
) -> Result<S, RunFault>
    ensures { HandsOver ended text.now output.old output.new written.new result }
{
    if text.len() > output.len() {
        *written = copy_front(text, output);
        return Err(RunFault::WriteFault);
    }
    match ended {
        // Neither comes: there was room left, and reading bytes doesn't fail. But the contract of a run is of any reader
        // and writer. Nothing is written then.
        Err(RunFault::ReadFault | RunFault::WriteFault) => {
            *written = 0;
            Err(RunFault::OutOfMemory)
        }
        ended => {
            *written = copy_front(text, output);
            ended
        }
    }
}
