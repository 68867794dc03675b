//! Why a line or an item has no answer.

use balise_bits::BitsFault;
use balise_codec::LayoutFault;
use balise_text::RunFault;
use std::alloc::{AllocError, AllocFailed};
use thiserror::Error;

/// Why a line or an item has no answer.
#[derive(Clone, Copy, Debug, Error, PartialEq, Eq)]
pub enum FieldsFault {
    #[error("out of memory")]
    OutOfMemory,
}

impl From<AllocError> for FieldsFault {
    fn from(_e: AllocError) -> FieldsFault {
        FieldsFault::OutOfMemory
    }
}

impl<T: Drop> From<AllocFailed<T>> for FieldsFault {
    fn from(_e: AllocFailed<T>) -> FieldsFault {
        FieldsFault::OutOfMemory
    }
}

/// The calls of bits that are made here fail only where memory runs out.
impl From<BitsFault> for FieldsFault {
    fn from(_e: BitsFault) -> FieldsFault {
        FieldsFault::OutOfMemory
    }
}

/// So do those of packets.
impl From<LayoutFault> for FieldsFault {
    fn from(_e: LayoutFault) -> FieldsFault {
        FieldsFault::OutOfMemory
    }
}

impl From<FieldsFault> for RunFault {
    ghost use Rattle.std.specs.Prelude.{◌≡◌};
    ghost use Rattle.balise_text.specs.declared.run_fault.RunFault.TheVariants.{OutOfMemory};

    ghost from_gives = { λ _ e. e ≡ OutOfMemory };

    fn from(_e: FieldsFault) -> RunFault {
        RunFault::OutOfMemory
    }
}
