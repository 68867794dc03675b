//! The types of what a line of digits is explained as: fields, or a fault with its place.

ghost use Rattle.std.specs.Prelude.{◌≡◌};

use balise_codec::{PacketFields, Placed, TelegramFields, Var};
use balise_rules::Refusal;

/// What was due where digits are refused.
#[derive(Clone, Copy, Debug, PartialEq, Eq)]
pub enum FaultDue {
    /// A hexadecimal digit.
    Digit,
    /// Another number of bits.
    Length,
    /// A zero bit.
    Zero,
    /// This variable.
    Field(Var),
    /// The packet's end.
    End,
    /// Another value of the field before.
    Another,
}

/// Why digits are refused, and where.
#[derive(Clone, Copy, PartialEq, Eq)]
pub struct DigitFault {
    /// The refusal.
    pub refusal: Refusal,
    /// The place of the packet, if it is in one.
    pub packet: Option<usize>,
    /// The bit where it stands.
    pub bit: usize,
    /// What was due there.
    pub due: FaultDue,
}

/// The fields of a telegram up to its fault.
#[derive(Drop)]
pub struct Begun {
    /// How many bits the telegram has.
    pub len: usize,
    /// The fields of its header before the fault.
    pub header: Vec<Placed>,
    /// The packets before the fault.
    pub packets: Vec<PacketFields>,
    /// The fields before the fault of the packet that it is in, if it is in one.
    pub last: Vec<Placed>,
    /// The fault.
    pub fault: DigitFault,
}

/// What a line of digits is explained as.
#[derive(Drop)]
pub enum Explained {
    /// `plan 1`.
    Plan,
    /// `group`.
    Group,
    /// A telegram, with the number of its bits.
    Telegram(usize, TelegramFields),
    /// A telegram that is refused.
    Begun(Begun),
    /// A packet by itself, with its M_VERSION.
    Packet(u32, PacketFields),
    /// A packet by itself that is refused: its M_VERSION, its fields before the fault, and the fault.
    PacketBegun(u32, Vec<Placed>, DigitFault),
    /// Digits that are refused as a whole.
    Digits(DigitFault),
}

impl Explained {
    ghost use Rattle.balise_fields.specs.Explaining.{is_refused};

    /// Whether the digits are refused.
    pub fn is_refused(&self) -> bool
        ensures { result ≡ is_refused self.now }
    {
        match self {
            Explained::Begun(_) | Explained::PacketBegun(_, _, _) | Explained::Digits(_) => true,
            _ => false,
        }
    }
}
