//! Why a run over text doesn't come to its end.

ghost use Rattle.std.specs.Prelude.{◌≡◌};
ghost use Rattle.balise_text.specs.RunFaults.{refusal_of};

use balise_lines::WriteFault;
use balise_rules::Refusal;
use thiserror::Error;

/// Why a run over text doesn't come to its end.
#[derive(Clone, Copy, Debug, Error, PartialEq, Eq)]
pub enum RunFault {
    #[error("a line has more than 4,096 bytes, or the input more than 67,108,864")]
    InputTooLong,
    #[error("out of memory")]
    OutOfMemory,
    #[error("the reader failed")]
    ReadFault,
    #[error("the writer failed")]
    WriteFault,
}

impl RunFault {
    /// The refusal that is printed for it, with its number and its name.
    pub fn refusal(self) -> Refusal
        ensures { result ≡ refusal_of self }
    {
        match self {
            RunFault::InputTooLong => Refusal::InputTooLong,
            RunFault::OutOfMemory => Refusal::OutOfMemory,
            RunFault::ReadFault => Refusal::ReadFault,
            RunFault::WriteFault => Refusal::WriteFault,
        }
    }
}

impl From<WriteFault> for RunFault {
    ghost use Rattle.balise_text.specs.declared.run_fault.RunFault.TheVariants.{WriteFault};

    ghost from_gives = { λ _ e. e ≡ WriteFault };

    fn from(_e: WriteFault) -> RunFault {
        RunFault::WriteFault
    }
}
