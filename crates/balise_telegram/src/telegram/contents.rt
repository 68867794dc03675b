//! What a telegram is held as: its bits as they were read, or in a box once its packets were edited.

ghost use Rattle.std.specs.Prelude.{◌≡◌, ◌≤◌, ◌<◌, ◌+◌, ◌^◌, length, IfOk, IsOkUnless, OnErr};
ghost use Rattle.balise_rules.specs.Bits.{bits, put_at};
ghost use Rattle.balise_rules.specs.Telegram.{Telegram};
ghost use Rattle.balise_telegram.specs.Shown.{kept_of, packed_of, IsOver, StandsFor};

use crate::fault::TelegramFault;
use crate::telegram::edited::{Edited, edited_read};
use balise_layout::Bits;
use std::mem;

/// The bits that a telegram shows: alone, as they were read, or beside what is kept of its edits.
#[derive(Drop)]
pub(crate) enum Contents {
    Read(Bits),
    Edited(Box<EditedBits>),
}

/// The bits that a telegram shows, and what it keeps besides them.
#[derive(Drop)]
pub(crate) struct EditedBits {
    pub(crate) packed: Bits,
    pub(crate) kept: Edited,
}

impl Contents {
    /// The bits.
    #[inline(always)]
    pub(crate) fn packed(&self) -> &Bits
        ensures { result.now ≡ packed_of self.now }
    {
        match self {
            Contents::Read(bits) => bits,
            Contents::Edited(edited) => &edited.packed,
        }
    }

    /// Puts a number into `width` of the bits. Takes no memory.
    #[inline]
    pub(crate) fn put(&mut self, at: usize, width: u32, value: u32)
        requires width { width ≤ 32 }
        requires within { at + width ≤ length (packed_of self.old) }
        requires fits { value < 2 ^ width }
        ensures packed { packed_of self.new ≡ put_at at (bits width value) (packed_of self.old) }
        ensures kept { kept_of self.new ≡ kept_of self.old }
    {
        match self {
            Contents::Read(packed) => packed.put(at, width, value),
            Contents::Edited(edited) => edited.packed.put(at, width, value),
        }
    }

    /// The bits with tags and ground, which are as they are read where none are kept, taken out until they are put
    /// back. Out of memory, all stays.
    pub(crate) fn take_edited(&mut self) -> Result<Box<EditedBits>, TelegramFault>
        requires { (y : Telegram) × StandsFor (packed_of self.old) (kept_of self.old) y }
        ensures packed { IfOk result (λ e. e.value.packed ≡ packed_of self.old) }
        ensures over { IfOk result (λ e. (y : Telegram) → StandsFor (packed_of self.old) (kept_of self.old) y → IsOver e.value.kept y) }
        ensures err { OnErr result (self.new ≡ self.old) }
        ensures fault { IsOkUnless result TelegramFault.OutOfMemory }
    {
        let alloc = self.packed().allocator();
        match mem::replace(self, Contents::Read(Bits::new(alloc))) {
            Contents::Edited(edited) => Ok(edited),
            Contents::Read(packed) => {
                let kept = match edited_read(&packed) {
                    Ok(kept) => kept,
                    Err(fault) => {
                        *self = Contents::Read(packed);
                        return Err(fault);
                    }
                };
                match Box::new(alloc, EditedBits { packed, kept }) {
                    Ok(edited) => Ok(edited),
                    Err(refused) => {
                        let back = refused.value;
                        *self = Contents::Read(back.packed);
                        Err(TelegramFault::OutOfMemory)
                    }
                }
            }
        }
    }

    /// A copy.
    pub(crate) fn copy(&self) -> Result<Contents, TelegramFault>
        ensures ok { IfOk result (λ c. (y : Telegram) → StandsFor (packed_of self.now) (kept_of self.now) y → StandsFor (packed_of c) (kept_of c) y) }
        ensures fault { IsOkUnless result TelegramFault.OutOfMemory }
    {
        match self {
            Contents::Read(packed) => Ok(Contents::Read(packed.copy()?)),
            Contents::Edited(edited) => {
                let packed = edited.packed.copy()?;
                let alloc = packed.allocator();
                let kept = edited.kept.copy(alloc)?;
                Ok(Contents::Edited(Box::new(alloc, EditedBits { packed, kept })?))
            }
        }
    }
}
