//! A list of bits in packed bytes.

ghost use Rattle.std.specs.Prelude.{◌≡◌, ◌≤◌, ◌<◌, ◌^◌, ◌==◌, [], length, IfOk, IsOkUnless};
ghost use Rattle.balise_rules.specs.Bits.{bits, zeros};

mod digits;
mod equal;
mod numbers;
mod parts;

use crate::bit_slice::BitSlice;
use crate::fault::BitsFault;
use crate::store::{MOST, Store};
use std::alloc::Global;
use std::marker::Model;

/// A list of bits, eight in a byte, the most significant first. The bits after the last one are zero. A call that would
/// make more than 2,305,843,009,213,693,951 bytes answers `OutOfMemory` and allocates nothing: a `usize` couldn't count
/// their bits.
#[derive(Drop)]
pub struct Bits {
    bytes: Store,
}

impl Model for Bits {
    ghost use Rattle.std.specs.Prelude.{List, Bool, take};
    ghost use Rattle.balise_bits.specs.Bytes.{flat, IsPacked};

    ghost Value = { List Bool };

    ghost view = { λ a. take a.bytes.len (flat a.bytes.items) };

    ghost invariant = { λ a. IsPacked a.bytes.len a.bytes.items };
}

impl Bits {
    /// No bits. Takes no memory.
    pub fn new(alloc: Global) -> Bits
        ensures { result ≡ [] }
    {
        Bits {
            bytes: Store::new(alloc),
        }
    }

    /// No bits, with room for `len` of them.
    pub fn with_capacity(alloc: Global, len: usize) -> Result<Bits, BitsFault>
        ensures ok { IfOk result (λ b. b ≡ []) }
        ensures fault { IsOkUnless result BitsFault.OutOfMemory }
    {
        let bytes = Store::with_capacity(alloc, len.div_ceil(8))?;
        Ok(Bits { bytes })
    }

    // `len` zeros.
    fn zeros(alloc: Global, len: usize) -> Result<Bits, BitsFault>
        ensures ok { IfOk result (λ b. b ≡ zeros len) }
        ensures fault { IsOkUnless result BitsFault.OutOfMemory }
    {
        let count = len.div_ceil(8);
        if count > MOST {
            return Err(BitsFault::OutOfMemory);
        }
        let bytes = Store::zeros(alloc, count, (8 * count - len) as u8)?;
        Ok(Bits { bytes })
    }

    // The `len` bits of a number, at most 57. Takes no memory.
    #[inline(always)]
    fn of_number(alloc: Global, len: usize, number: u64) -> Bits
        requires few { len ≤ 57 }
        requires fits { number < 2 ^ len }
        ensures { result ≡ bits len number }
    {
        if len == 0 {
            return Bits::new(alloc);
        }
        Bits {
            bytes: Store::of_number(alloc, number << (64 - len), len),
        }
    }

    /// How many bits there are.
    pub fn len(&self) -> usize
        ensures { result ≡ length self.now }
    {
        self.bytes.len()
    }

    /// Whether there are none.
    pub fn is_empty(&self) -> bool
        ensures { result ≡ (length self.now == 0) }
    {
        self.len() == 0
    }

    /// All bits, borrowed. Takes no memory.
    #[inline]
    pub fn as_slice(&self) -> BitSlice<'_>
        ensures { result ≡ self.now }
    {
        BitSlice::new(self.bytes.as_slice(), self.len())
    }

    /// The allocator that its memory comes from.
    pub fn allocator(&self) -> Global {
        self.bytes.allocator()
    }

    /// A copy of the bits.
    pub fn copy(&self) -> Result<Bits, BitsFault>
        ensures ok { IfOk result (λ b. b ≡ self.now) }
        ensures fault { IsOkUnless result BitsFault.OutOfMemory }
    {
        let bytes = self.bytes.copy()?;
        Ok(Bits { bytes })
    }
}
