//! Why something is refused.

ghost use Rattle.std.specs.Prelude.{◌≡◌};
ghost use Rattle.balise_rules.specs.Refusals.{name_of, number_of};

use std::alloc::{AllocError, AllocFailed};
use std::fmt;
use thiserror::Error;

/// Why something is refused. It is shown as its name, as in `DependsOn`.
#[derive(Clone, Copy, Error, PartialEq, Eq)]
#[error("{}", self.name())]
pub enum Refusal {
    /// 1: a line isn't of its grammar, or the input ends too early.
    BadLine,
    /// 2: a digit isn't hexadecimal, or their number is odd.
    BadHex,
    /// 3: the number of digits or bits isn't the one due.
    BadLength,
    /// 4: a bit after the last of the text isn't zero.
    SpareBits,
    /// 5: the telegram isn't from track to train, or isn't a balise's.
    NotABalise,
    /// 6: the telegram ends before its packet 255.
    NoEnd,
    /// 7: a packet is shorter than its first three fields, or runs past the end.
    PacketCut,
    /// 8: a known packet's fields don't end with the packet, or have a spare value that isn't read.
    LayoutMismatch,
    /// 9: packet 0 has no length.
    PacketZero,
    /// 10: a group has no telegram, or more than eight.
    GroupSize,
    /// 11: a header disagrees with its place in the group, or with the first header.
    HeaderDisagrees,
    /// 12: 16383 is no group's number.
    NumberReserved,
    /// 13: a group with this identity stands.
    GroupTwice,
    /// 14: no such group.
    NoSuchGroup,
    /// 15: no such telegram in the group.
    NoSuchTelegram,
    /// 16: no such packet in the telegram.
    NoSuchPacket,
    /// 17: no such variable, or not this occurrence.
    NoSuchVariable,
    /// 18: the variable isn't set in place.
    Steering,
    /// 19: the value doesn't fit its width.
    ValueTooWide,
    /// 20: the packet is longer than the room.
    NoRoom,
    /// 21: a group or a link has the number.
    NumberTaken,
    /// 22: the packet stands there.
    SamePlace,
    /// 23: no edit stands.
    NothingToUndo,
    /// 24: nothing was undone or struck.
    NothingToRedo,
    /// 25: no standing edit has this serial.
    NoSuchEdit,
    /// 26: a later edit isn't independent; this is the first such edit's serial.
    DependsOn(u32),
    /// 27: the journal doesn't fit the plan.
    JournalMismatch,
    /// 28: the session took its 1,000,000 commands.
    Worn,
    /// 29: a line or the input is too long.
    InputTooLong,
    /// 30: out of memory.
    OutOfMemory,
    /// 31: the input can't be read.
    ReadFault,
    /// 32: the output can't be written.
    WriteFault,
}

impl Refusal {
    /// The number, 1 to 32.
    #[tactic(auto, unfolding(crate::specs::Refusals::number_of))]
    pub fn number(self) -> u32
        ensures { result ≡ number_of self }
    {
        match self {
            Refusal::BadLine => 1,
            Refusal::BadHex => 2,
            Refusal::BadLength => 3,
            Refusal::SpareBits => 4,
            Refusal::NotABalise => 5,
            Refusal::NoEnd => 6,
            Refusal::PacketCut => 7,
            Refusal::LayoutMismatch => 8,
            Refusal::PacketZero => 9,
            Refusal::GroupSize => 10,
            Refusal::HeaderDisagrees => 11,
            Refusal::NumberReserved => 12,
            Refusal::GroupTwice => 13,
            Refusal::NoSuchGroup => 14,
            Refusal::NoSuchTelegram => 15,
            Refusal::NoSuchPacket => 16,
            Refusal::NoSuchVariable => 17,
            Refusal::Steering => 18,
            Refusal::ValueTooWide => 19,
            Refusal::NoRoom => 20,
            Refusal::NumberTaken => 21,
            Refusal::SamePlace => 22,
            Refusal::NothingToUndo => 23,
            Refusal::NothingToRedo => 24,
            Refusal::NoSuchEdit => 25,
            Refusal::DependsOn(_) => 26,
            Refusal::JournalMismatch => 27,
            Refusal::Worn => 28,
            Refusal::InputTooLong => 29,
            Refusal::OutOfMemory => 30,
            Refusal::ReadFault => 31,
            Refusal::WriteFault => 32,
        }
    }

    /// The name.
    #[tactic(auto, unfolding(crate::specs::Refusals::name_of))]
    pub fn name(self) -> &'static str
        ensures { result.now ≡ name_of self }
    {
        match self {
            Refusal::BadLine => "BadLine",
            Refusal::BadHex => "BadHex",
            Refusal::BadLength => "BadLength",
            Refusal::SpareBits => "SpareBits",
            Refusal::NotABalise => "NotABalise",
            Refusal::NoEnd => "NoEnd",
            Refusal::PacketCut => "PacketCut",
            Refusal::LayoutMismatch => "LayoutMismatch",
            Refusal::PacketZero => "PacketZero",
            Refusal::GroupSize => "GroupSize",
            Refusal::HeaderDisagrees => "HeaderDisagrees",
            Refusal::NumberReserved => "NumberReserved",
            Refusal::GroupTwice => "GroupTwice",
            Refusal::NoSuchGroup => "NoSuchGroup",
            Refusal::NoSuchTelegram => "NoSuchTelegram",
            Refusal::NoSuchPacket => "NoSuchPacket",
            Refusal::NoSuchVariable => "NoSuchVariable",
            Refusal::Steering => "Steering",
            Refusal::ValueTooWide => "ValueTooWide",
            Refusal::NoRoom => "NoRoom",
            Refusal::NumberTaken => "NumberTaken",
            Refusal::SamePlace => "SamePlace",
            Refusal::NothingToUndo => "NothingToUndo",
            Refusal::NothingToRedo => "NothingToRedo",
            Refusal::NoSuchEdit => "NoSuchEdit",
            Refusal::DependsOn(_) => "DependsOn",
            Refusal::JournalMismatch => "JournalMismatch",
            Refusal::Worn => "Worn",
            Refusal::InputTooLong => "InputTooLong",
            Refusal::OutOfMemory => "OutOfMemory",
            Refusal::ReadFault => "ReadFault",
            Refusal::WriteFault => "WriteFault",
        }
    }
}

impl fmt::Debug for Refusal {
    fn fmt<W: fmt::Write>(&self, f: &mut fmt::Formatter<W>) -> fmt::Result {
        f.write_str(self.name())
    }
}

impl From<AllocError> for Refusal {
    ghost use Rattle.balise_rules.specs.declared.refusal.Refusal.TheVariants.{OutOfMemory};

    ghost from_gives = { λ _ e. e ≡ OutOfMemory };

    fn from(_e: AllocError) -> Refusal {
        Refusal::OutOfMemory
    }
}

impl<T: Drop> From<AllocFailed<T>> for Refusal {
    ghost use Rattle.balise_rules.specs.declared.refusal.Refusal.TheVariants.{OutOfMemory};

    ghost from_gives = { λ _ e. e ≡ OutOfMemory };

    fn from(_e: AllocFailed<T>) -> Refusal {
        Refusal::OutOfMemory
    }
}
