//! Why bits can't be read or made.

ghost use Rattle.std.specs.Prelude.{◌≡◌};
ghost use Rattle.balise_bits.specs.Faults.{refusal_of};

use balise_rules::Refusal;
use hex::FromHexError;
use std::alloc::AllocError;
use thiserror::Error;

/// Why bits can't be read or made.
#[derive(Clone, Copy, Debug, Error, PartialEq, Eq)]
pub enum BitsFault {
    #[error("a digit isn't hexadecimal, or their number is odd")]
    BadHex,
    #[error("the number of digits isn't the one due")]
    BadLength,
    #[error("a bit after the last one isn't zero")]
    SpareBits,
    #[error("out of memory")]
    OutOfMemory,
}

impl BitsFault {
    /// The refusal that is printed for it, with its number and its name.
    pub fn refusal(self) -> Refusal
        ensures { result ≡ refusal_of self }
    {
        match self {
            BitsFault::BadHex => Refusal::BadHex,
            BitsFault::BadLength => Refusal::BadLength,
            BitsFault::SpareBits => Refusal::SpareBits,
            BitsFault::OutOfMemory => Refusal::OutOfMemory,
        }
    }
}

impl From<BitsFault> for Refusal {
    ghost from_gives = { λ fault e. e ≡ refusal_of fault };

    fn from(fault: BitsFault) -> Refusal {
        fault.refusal()
    }
}

impl From<AllocError> for BitsFault {
    ghost use Rattle.balise_bits.specs.declared.fault.BitsFault.TheVariants.{OutOfMemory};

    ghost from_gives = { λ _ e. e ≡ OutOfMemory };

    fn from(_e: AllocError) -> BitsFault {
        BitsFault::OutOfMemory
    }
}

impl From<FromHexError> for BitsFault {
    ghost use Rattle.balise_bits.specs.Faults.{fault_of};

    ghost from_gives = { λ error fault. fault ≡ fault_of error };

    fn from(error: FromHexError) -> BitsFault {
        match error {
            FromHexError::OutOfMemory => BitsFault::OutOfMemory,
            _ => BitsFault::BadHex,
        }
    }
}
