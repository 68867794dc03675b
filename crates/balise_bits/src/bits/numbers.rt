//! Numbers among the bits: read, put in place, added at the end.

ghost use Rattle.std.specs.Prelude.{◌≡◌, ◌+◌, ◌*◌, ◌%◌, ◌^◌, ◌<◌, ◌≤◌, ◌++◌, length, replicate, IsOkUnless, OnErr, OnOk};
ghost use Rattle.balise_rules.specs.Bits.{bits, num, ones, part, put_at, zeros};

use crate::bits::Bits;
use crate::fault::BitsFault;
use crate::places::{number_at, put_number_at};
use crate::store::MOST;

impl Bits {
    /// The number in the `width` bits from the place `at` on.
    #[inline(always)]
    pub fn number(&self, at: usize, width: u32) -> u32
        requires width { width ≤ 32 }
        requires within { at + width ≤ length self.now }
        ensures { result ≡ num (part at width self.now) }
    {
        self.wide_number(at, width) as u32
    }

    // The number in the `width` bits from the place `at` on, at most 57.
    #[inline(always)]
    pub(super) fn wide_number(&self, at: usize, width: u32) -> u64
        requires width { width ≤ 57 }
        requires within { at + width ≤ length self.now }
        ensures value { result ≡ num (part at width self.now) }
        ensures fits { result < 2 ^ width }
    {
        number_at(self.bytes.as_slice(), at, width)
    }

    /// Puts a number over the `width` bits from the place `at` on. All other bits stay.
    #[inline(always)]
    pub fn put(&mut self, at: usize, width: u32, value: u32)
        requires width { width ≤ 32 }
        requires within { at + width ≤ length self.old }
        requires fits { value < 2 ^ width }
        ensures { self.new ≡ put_at at (bits width value) self.old }
    {
        put_number_at(self.bytes.as_mut_slice(), at, width, u64::from(value));
    }

    /// Adds the `width` bits of a number at the end. If memory runs out, the bits stay.
    pub fn push(&mut self, width: u32, value: u32) -> Result<(), BitsFault>
        requires width { width ≤ 32 }
        requires fits { value < 2 ^ width }
        ensures ok { OnOk result (self.new ≡ self.old ++ bits width value) }
        ensures err { OnErr result (self.new ≡ self.old) }
        ensures fault { IsOkUnless result BitsFault.OutOfMemory }
    {
        let at = self.len();
        self.push_zeros(width as usize)?;
        self.put(at, width, value);
        Ok(())
    }

    /// Adds zeros at the end. If memory runs out, the bits stay.
    pub fn push_zeros(&mut self, count: usize) -> Result<(), BitsFault>
        ensures ok { OnOk result (self.new ≡ self.old ++ zeros count) }
        ensures err { OnErr result (self.new ≡ self.old) }
        ensures fault { IsOkUnless result BitsFault.OutOfMemory }
    {
        let Some(len) = self.bytes.len().checked_add(count) else {
            return Err(BitsFault::OutOfMemory);
        };
        let whole = len.div_ceil(8);
        if whole > MOST {
            return Err(BitsFault::OutOfMemory);
        }
        let more = whole - self.bytes.as_slice().len();
        self.bytes.add_zeros(more)?;
        self.bytes.set_spare((8 * whole - len) as u8);
        Ok(())
    }

    /// Puts ones over `count` bits from the place `at` on. All other bits stay.
    pub fn put_ones(&mut self, at: usize, count: usize)
        requires { at + count ≤ length self.old }
        ensures { self.new ≡ put_at at (ones count) self.old }
    {
        // The length is a number of 64 bits, so the places below are too.
        let _len = self.len();
        let head = ((8 - at % 8) % 8).min(count);
        self.put(at, head as u32, 255 >> (8 - head));
        let whole = (count - head) / 8;
        self.put_ones_in_bytes(at + head, whole);
        let done = head + 8 * whole;
        let tail = count - done;
        self.put(at + done, tail as u32, 255 >> (8 - tail));
    }

    // Puts ones over `count` whole bytes.
    fn put_ones_in_bytes(&mut self, at: usize, count: usize)
        requires aligned { 0 < count → at % 8 ≡ 0 }
        requires within { at + 8 * count ≤ length self.old }
        ensures { self.new ≡ put_at at (ones (8 * count)) self.old }
    {
        let first = at / 8;
        self.bytes.as_mut_slice()[first..first + count].fill(255);
    }
}
