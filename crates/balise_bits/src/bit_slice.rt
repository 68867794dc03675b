//! Borrowed bits.

ghost use Rattle.std.specs.Prelude.{◌≡◌, ◌+◌, ◌≤◌, length, take};
ghost use Rattle.balise_rules.specs.Bits.{num, part};
ghost use Rattle.balise_bits.specs.Bytes.{flat, IsPacked};

use crate::places::number_at;
use std::marker::Model;

/// Borrowed bits. Where they are stored is looked up once, when they are borrowed, and not at each number that is read.
#[derive(Drop)]
pub struct BitSlice<'a> {
    bytes: &'a [u8],
    len: usize,
}

impl<'a> Model for BitSlice<'a> {
    ghost use Rattle.std.specs.Prelude.{List, Bool, take};
    ghost use Rattle.balise_bits.specs.Bytes.{flat, IsPacked};

    ghost Value = { List Bool };

    ghost view = { λ s. take s.len (flat s.bytes.now) };

    ghost invariant = { λ s. IsPacked s.len s.bytes.now };
}

impl<'a> BitSlice<'a> {
    // The first bits of packed bytes.
    pub(crate) fn new(bytes: &'a [u8], len: usize) -> BitSlice<'a>
        requires { IsPacked len bytes.now }
        ensures { result ≡ take len (flat bytes.now) }
    {
        BitSlice { bytes, len }
    }

    /// The number in the `width` bits from the place `at` on.
    #[inline(always)]
    pub fn number(&self, at: usize, width: u32) -> u32
        requires width { width ≤ 32 }
        requires within { at + width ≤ length self.now }
        ensures { result ≡ num (part at width self.now) }
    {
        number_at(self.bytes, at, width) as u32
    }
}
