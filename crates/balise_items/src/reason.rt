//! Why an item is refused.

ghost use Rattle.std.specs.Prelude.{◌≡◌};
ghost use Rattle.balise_items.specs.Reasons.{reason_of};

use balise_bits::BitsFault;
use balise_codec::{LayoutFault, Misfit, Var};

/// Why an item is refused, and what was due.
#[derive(Clone, Copy, Debug, PartialEq, Eq)]
pub enum Reason {
    /// The line has no form that is allowed there.
    BadLine,
    /// The digits aren't those of BITS.
    BadHex,
    /// No variable has the name.
    UnknownName,
    /// Another variable is due.
    NotDue(Var),
    /// The value doesn't fit the width.
    TooWide,
    /// The value is spare.
    Spare,
    /// NID_PACKET is 0 or 255.
    NoFields,
    /// The packet or the header ends before.
    TooMany,
    /// The fields end, and this variable is due.
    Missing(Var),
    /// The telegram ends, and `end` is due.
    NoEnd,
    /// The packet is longer than L_PACKET can say.
    TooLong,
    /// Bits stand after the fields of a known packet.
    BitsLeft,
    /// L_PACKET isn't the packet's length, which this is.
    OtherLength(usize),
    /// The telegram would have this number of bits.
    BadLength(usize),
    /// Q_UPDOWN is 0 or Q_MEDIA is 1.
    NotABalise,
}

/// A line of the input, by its number, and the reason why the item is refused there.
#[derive(Clone, Copy, Debug, PartialEq, Eq)]
pub struct Bad {
    /// The number of the line, from 1.
    pub line: u64,
    /// The reason.
    pub reason: Reason,
}

/// Why an item has no digits: it is refused, or memory ran out.
#[derive(Clone, Copy, Debug, PartialEq, Eq)]
pub(crate) enum Stop {
    Bad(Bad),
    OutOfMemory,
}

/// The calls of bits that are made here fail only where memory runs out.
impl From<BitsFault> for Stop {
    ghost use Rattle.balise_items.specs.declared.reason.Stop.TheVariants.{OutOfMemory};

    ghost from_gives = { λ _ e. e ≡ OutOfMemory };

    fn from(_e: BitsFault) -> Stop {
        Stop::OutOfMemory
    }
}

/// So do those of packets.
impl From<LayoutFault> for Stop {
    ghost use Rattle.balise_items.specs.declared.reason.Stop.TheVariants.{OutOfMemory};

    ghost from_gives = { λ _ e. e ≡ OutOfMemory };

    fn from(_e: LayoutFault) -> Stop {
        Stop::OutOfMemory
    }
}

impl Reason {
    ghost use Rattle.balise_items.specs.Reasons.{name_of};

    /// Its name, as it is printed.
    pub fn name(self) -> &'static str
        ensures { result.now ≡ name_of self }
    {
        match self {
            Reason::BadLine => "BadLine",
            Reason::BadHex => "BadHex",
            Reason::UnknownName => "UnknownName",
            Reason::NotDue(_) => "NotDue",
            Reason::TooWide => "TooWide",
            Reason::Spare => "Spare",
            Reason::NoFields => "NoFields",
            Reason::TooMany => "TooMany",
            Reason::Missing(_) | Reason::NoEnd => "Missing",
            Reason::TooLong => "TooLong",
            Reason::BitsLeft => "BitsLeft",
            Reason::OtherLength(_) => "OtherLength",
            Reason::BadLength(_) => "BadLength",
            Reason::NotABalise => "NotABalise",
        }
    }
}

/// The reason that a misfit is.
pub(crate) fn reason_of(misfit: Misfit) -> Reason
    ensures { result ≡ reason_of misfit }
{
    match misfit {
        Misfit::NotDue(var) => Reason::NotDue(var),
        Misfit::TooWide => Reason::TooWide,
        Misfit::Missing(var) => Reason::Missing(var),
        Misfit::TooMany => Reason::TooMany,
        Misfit::Spare => Reason::Spare,
        Misfit::NoFields => Reason::NoFields,
    }
}
