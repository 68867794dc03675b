//! Parts of bits: cut out, joined, put over others, moved.

ghost use Rattle.std.specs.Prelude.{◌≡◌, ◌+◌, ◌≤◌, ◌++◌, length, IfOk, IsOkUnless, OnErr, OnOk};
ghost use Rattle.balise_rules.specs.Bits.{part, put_at};

use crate::bits::Bits;
use crate::fault::BitsFault;
use crate::moving::move_part_at;
use crate::places::{WIDEST, put_part_at};
use crate::store::MOST;

impl Bits {
    /// The `len` bits from the place `at` on.
    pub fn slice(&self, at: usize, len: usize) -> Result<Bits, BitsFault>
        requires { at + len ≤ length self.now }
        ensures ok { IfOk result (λ b. b ≡ part at len self.now) }
        ensures fault { IsOkUnless result BitsFault.OutOfMemory }
    {
        if len <= WIDEST {
            let number = self.wide_number(at, len as u32);
            return Ok(Bits::of_number(self.bytes.allocator(), len, number));
        }
        let mut slice = Bits::zeros(self.bytes.allocator(), len)?;
        slice.put_part(0, self, at, len);
        Ok(slice)
    }

    /// Adds all bits of another at the end. If memory runs out, the bits stay.
    pub fn append(&mut self, other: &Bits) -> Result<(), BitsFault>
        ensures ok { OnOk result (self.new ≡ self.old ++ other.now) }
        ensures err { OnErr result (self.new ≡ self.old) }
        ensures fault { IsOkUnless result BitsFault.OutOfMemory }
    {
        if self.bytes.spare() != 0 {
            return self.append_part(other, 0, other.len());
        }
        if self.bytes.as_slice().len() + other.bytes.as_slice().len() > MOST {
            return Err(BitsFault::OutOfMemory);
        }
        self.bytes.append(&other.bytes)?;
        Ok(())
    }

    // Adds the `len` bits of another from the place `at` on at the end. If memory runs out, the bits stay.
    fn append_part(&mut self, other: &Bits, at: usize, len: usize) -> Result<(), BitsFault>
        requires { at + len ≤ length other.now }
        ensures ok { OnOk result (self.new ≡ self.old ++ part at len other.now) }
        ensures err { OnErr result (self.new ≡ self.old) }
        ensures fault { IsOkUnless result BitsFault.OutOfMemory }
    {
        let to = self.len();
        self.push_zeros(len)?;
        self.put_part(to, other, at, len);
        Ok(())
    }

    /// Puts the `len` bits of another from the place `at` on over those from the place `to` on. All other bits stay.
    #[inline(always)]
    pub fn put_part(&mut self, to: usize, other: &Bits, at: usize, len: usize)
        requires within { at + len ≤ length other.now }
        requires room { to + len ≤ length self.old }
        ensures { self.new ≡ put_at to (part at len other.now) self.old }
    {
        // Lengths are numbers of 64 bits, so the places below are too.
        let _lengths = (self.len(), other.len());
        put_part_at(
            self.bytes.as_mut_slice(),
            to,
            other.bytes.as_slice(),
            at,
            len,
        );
    }

    /// Moves the `len` bits from the place `at` on to the place `to`. The two may overlap. All other bits stay.
    #[inline(always)]
    pub fn move_part(&mut self, to: usize, at: usize, len: usize)
        requires within { at + len ≤ length self.old }
        requires room { to + len ≤ length self.old }
        ensures { self.new ≡ put_at to (part at len self.old) self.old }
    {
        // The length is a number of 64 bits, so the places below are too.
        let _len = self.len();
        move_part_at(self.bytes.as_mut_slice(), to, at, len);
    }
}
