//! Why a packet isn't read, shown or changed.

ghost use Rattle.std.specs.Prelude.{◌≡◌};
ghost use Rattle.balise_layout.specs.Faults.{refusal_of};

use balise_bits::BitsFault;
use balise_rules::Refusal;
use std::alloc::{AllocError, AllocFailed};
use thiserror::Error;

/// Why a packet isn't read, shown or changed, as the text of each says.
#[derive(Clone, Copy, Debug, Error, PartialEq, Eq)]
pub enum LayoutFault {
    #[error("the packet is shorter than its first three fields, or runs past the end")]
    PacketCut,
    #[error("the fields don't end with the packet, or have a spare value that isn't read")]
    LayoutMismatch,
    #[error("packet 0 has no length")]
    PacketZero,
    #[error("the packet hasn't this variable, or not so often")]
    NoSuchVariable,
    #[error("the variable isn't set in place")]
    Steering,
    #[error("the value doesn't fit the width of the variable")]
    ValueTooWide,
    #[error("out of memory")]
    OutOfMemory,
}

impl LayoutFault {
    /// The refusal that is printed for it, with its number and its name.
    pub fn refusal(self) -> Refusal
        ensures { result ≡ refusal_of self }
    {
        match self {
            LayoutFault::PacketCut => Refusal::PacketCut,
            LayoutFault::LayoutMismatch => Refusal::LayoutMismatch,
            LayoutFault::PacketZero => Refusal::PacketZero,
            LayoutFault::NoSuchVariable => Refusal::NoSuchVariable,
            LayoutFault::Steering => Refusal::Steering,
            LayoutFault::ValueTooWide => Refusal::ValueTooWide,
            LayoutFault::OutOfMemory => Refusal::OutOfMemory,
        }
    }
}

impl From<AllocError> for LayoutFault {
    ghost use Rattle.balise_layout.specs.declared.fault.LayoutFault.TheVariants.{OutOfMemory};

    ghost from_gives = { λ _ e. e ≡ OutOfMemory };

    fn from(_e: AllocError) -> LayoutFault {
        LayoutFault::OutOfMemory
    }
}

impl<T: Drop> From<AllocFailed<T>> for LayoutFault {
    ghost use Rattle.balise_layout.specs.declared.fault.LayoutFault.TheVariants.{OutOfMemory};

    ghost from_gives = { λ _ e. e ≡ OutOfMemory };

    fn from(_e: AllocFailed<T>) -> LayoutFault {
        LayoutFault::OutOfMemory
    }
}

/// The calls of bits that packets make fail only where memory runs out.
impl From<BitsFault> for LayoutFault {
    ghost use Rattle.balise_layout.specs.declared.fault.LayoutFault.TheVariants.{OutOfMemory};

    ghost from_gives = { λ _ e. e ≡ OutOfMemory };

    fn from(_e: BitsFault) -> LayoutFault {
        LayoutFault::OutOfMemory
    }
}
