//! Parts of packed bytes moved to another place among the same bytes.

ghost use Rattle.std.specs.Prelude.{◌≡◌, ◌+◌, ◌*◌, ◌^◌, ◌<◌, ◌≤◌, length};
ghost use Rattle.balise_rules.specs.Bits.{part, put_at};
ghost use Rattle.balise_bits.specs.Bytes.{flat};

use crate::places::{WIDEST, number_at, put_number_at, put_part_at};

/// How many bits are moved at once. The bytes that they lie in fit a buffer of 128.
const AT_ONCE: usize = 1016;

/// Up to this number of bits, four numbers take fewer instructions to move than whole bytes.
const FEW: usize = 228;

// How many bits of a part are moved at once. As bytes they go faster only where none of them has to be shifted.
fn step_of(len: usize, is_whole: bool) -> usize
    ensures some { 0 < result }
    ensures few { result ≤ 1016 }
{
    if is_whole && len > FEW {
        AT_ONCE
    } else {
        WIDEST
    }
}

/// Moves the `len` bits from the place `at` on to the place `to`. The two may overlap. All other bits stay.
#[inline(always)]
pub(crate) fn move_part_at(bytes: &mut [u8], to: usize, at: usize, len: usize)
    requires within { at + len ≤ 8 * length bytes.old }
    requires room { to + len ≤ 8 * length bytes.old }
    requires near { at + len < 2 ^ 64 }
    requires far { to + len < 2 ^ 64 }
    ensures { flat bytes.new ≡ put_at to (part at len (flat bytes.old)) (flat bytes.old) }
{
    if len <= WIDEST {
        move_number_at(bytes, to, at, len);
        return;
    }
    move_long_part_at(bytes, to, at, len);
}

// Moves a part as one number.
#[inline(always)]
fn move_number_at(bytes: &mut [u8], to: usize, at: usize, len: usize)
    requires few { len ≤ 57 }
    requires within { at + len ≤ 8 * length bytes.old }
    requires room { to + len ≤ 8 * length bytes.old }
    ensures { flat bytes.new ≡ put_at to (part at len (flat bytes.old)) (flat bytes.old) }
{
    let value = number_at(bytes, at, len as u32);
    put_number_at(bytes, to, len as u32, value);
}

// Moves a part in several steps.
#[inline(never)]
fn move_long_part_at(bytes: &mut [u8], to: usize, at: usize, len: usize)
    requires within { at + len ≤ 8 * length bytes.old }
    requires room { to + len ≤ 8 * length bytes.old }
    requires near { at + len < 2 ^ 64 }
    requires far { to + len < 2 ^ 64 }
    ensures { flat bytes.new ≡ put_at to (part at len (flat bytes.old)) (flat bytes.old) }
{
    if to <= at {
        move_from_front(bytes, to, at, len);
    } else {
        move_from_back(bytes, to, at, len);
    }
}

// The first bits first, so that no bit is overwritten before it is moved.
fn move_from_front(bytes: &mut [u8], to: usize, at: usize, len: usize)
    requires order { to ≤ at }
    requires within { at + len ≤ 8 * length bytes.old }
    requires near { at + len < 2 ^ 64 }
    ensures { flat bytes.new ≡ put_at to (part at len (flat bytes.old)) (flat bytes.old) }
{
    let step = step_of(len, to % 8 == at % 8);
    let mut done = 0;
    'chunks: while done < len {
        let width = (len - done).min(step);
        move_at_once(bytes, to + done, at + done, width);
        done += width;
    }
}

// The last bits first, for the same reason.
fn move_from_back(bytes: &mut [u8], to: usize, at: usize, len: usize)
    requires order { at ≤ to }
    requires room { to + len ≤ 8 * length bytes.old }
    requires far { to + len < 2 ^ 64 }
    ensures { flat bytes.new ≡ put_at to (part at len (flat bytes.old)) (flat bytes.old) }
{
    let step = step_of(len, to % 8 == at % 8);
    let mut left = len;
    'chunks: while left > 0 {
        let width = left.min(step);
        left -= width;
        move_at_once(bytes, to + left, at + left, width);
    }
}

// All bits are read before any is written.
#[inline(always)]
fn move_at_once(bytes: &mut [u8], to: usize, at: usize, len: usize)
    requires few { len ≤ 1016 }
    requires within { at + len ≤ 8 * length bytes.old }
    requires room { to + len ≤ 8 * length bytes.old }
    requires near { at + len < 2 ^ 64 }
    requires far { to + len < 2 ^ 64 }
    ensures { flat bytes.new ≡ put_at to (part at len (flat bytes.old)) (flat bytes.old) }
{
    if len <= WIDEST {
        move_number_at(bytes, to, at, len);
        return;
    }
    move_long_at_once(bytes, to, at, len);
}

// The bits are read as whole bytes. So each is shifted once at most, and not at all where the distance is whole bytes.
#[inline(never)]
fn move_long_at_once(bytes: &mut [u8], to: usize, at: usize, len: usize)
    requires few { len ≤ 1016 }
    requires within { at + len ≤ 8 * length bytes.old }
    requires room { to + len ≤ 8 * length bytes.old }
    requires near { at + len < 2 ^ 64 }
    requires far { to + len < 2 ^ 64 }
    ensures { flat bytes.new ≡ put_at to (part at len (flat bytes.old)) (flat bytes.old) }
{
    let mut buffer = [0; 128];
    let first = at / 8;
    let count = (at + len).div_ceil(8) - first;
    buffer[..count].copy_from_slice(&bytes[first..first + count]);
    put_part_at(bytes, to, &buffer, at % 8, len);
}
