//! The flags of a call, one bit each.

ghost use Rattle.std.specs.Prelude.{◌≡◌};
ghost use Rattle.balise_c.specs.FlagBits.{flags_of, has_bit};

use balise_cli::Flags;

/// The lowest bit that is no flag.
pub(crate) const FIRST_UNKNOWN: u32 = 16;

// Whether this bit is set.
fn has_bit(bits: u32, bit: u32) -> bool
    ensures { result ≡ has_bit bits bit }
{
    bits & bit != 0
}

/// The flags whose bits are set.
pub(crate) fn flags_of(bits: u32) -> Flags
    ensures { result ≡ flags_of bits }
{
    Flags {
        quiet: has_bit(bits, 1),
        stop: has_bit(bits, 2),
        journal: has_bit(bits, 4),
        json: has_bit(bits, 8),
    }
}
