//! Numbers and parts at any place of packed bytes.

ghost use Rattle.std.specs.Prelude.{◌≡◌, ◌+◌, ◌*◌, ◌%◌, ◌^◌, ◌<◌, ◌≤◌, length};
ghost use Rattle.balise_rules.specs.Bits.{bits, num, part, put_at};
ghost use Rattle.balise_bits.specs.Bytes.{flat};

use crate::window::{WINDOW, fill_shifted, number_before, put_over};

/// The widest number that is read or put at once.
pub(crate) const WIDEST: usize = 57;

/// The longest part, in bits, that is put as numbers. By instructions, three numbers cost less than bytes, and four more.
const FEW: usize = 171;

/// The number in the `width` bits from the place `at` on.
#[inline(always)]
pub(crate) fn number_at(bytes: &[u8], at: usize, width: u32) -> u64
    requires width { width ≤ 57 }
    requires within { at + width ≤ 8 * length bytes.now }
    ensures value { result ≡ num (part at width (flat bytes.now)) }
    ensures fits { result < 2 ^ width }
{
    if width == 0 {
        return 0;
    }
    let count = bytes.len();
    if count >= WINDOW {
        let first = (at / 8).min(count - WINDOW);
        let after = 8 * WINDOW - (at - 8 * first) - width as usize;
        return number_before(&bytes[first..first + WINDOW], after, width);
    }
    number_before(bytes, 8 * count - at - width as usize, width)
}

/// Puts a number over the `width` bits from the place `at` on. All other bits stay.
#[inline(always)]
pub(crate) fn put_number_at(bytes: &mut [u8], at: usize, width: u32, value: u64)
    requires width { width ≤ 57 }
    requires within { at + width ≤ 8 * length bytes.old }
    requires fits { value < 2 ^ width }
    ensures { flat bytes.new ≡ put_at at (bits width value) (flat bytes.old) }
{
    if width == 0 {
        return;
    }
    let count = bytes.len();
    if count >= WINDOW {
        let first = (at / 8).min(count - WINDOW);
        let after = 8 * WINDOW - (at - 8 * first) - width as usize;
        put_over(&mut bytes[first..first + WINDOW], after, width, value);
        return;
    }
    put_over(bytes, 8 * count - at - width as usize, width, value);
}

/// Puts the `len` bits of other bytes from the place `at` on over those from the place `to` on. All other bits stay.
#[inline(always)]
pub(crate) fn put_part_at(bytes: &mut [u8], to: usize, from: &[u8], at: usize, len: usize)
    requires within { at + len ≤ 8 * length from.now }
    requires room { to + len ≤ 8 * length bytes.old }
    requires near { at + len < 2 ^ 64 }
    requires far { to + len < 2 ^ 64 }
    ensures { flat bytes.new ≡ put_at to (part at len (flat from.now)) (flat bytes.old) }
{
    if len <= WIDEST {
        put_number_at(bytes, to, len as u32, number_at(from, at, len as u32));
        return;
    }
    if len <= FEW {
        put_numbers_at(bytes, to, from, at, len);
        return;
    }
    put_long_part_at(bytes, to, from, at, len);
}

// `put_part_at`, as numbers of at most `WIDEST` bits, one after another.
#[inline(never)]
fn put_numbers_at(bytes: &mut [u8], to: usize, from: &[u8], at: usize, len: usize)
    requires within { at + len ≤ 8 * length from.now }
    requires room { to + len ≤ 8 * length bytes.old }
    requires near { at + len < 2 ^ 64 }
    requires far { to + len < 2 ^ 64 }
    ensures { flat bytes.new ≡ put_at to (part at len (flat from.now)) (flat bytes.old) }
{
    let mut done = 0;
    'numbers: while done < len {
        let width = (len - done).min(WIDEST) as u32;
        put_number_at(bytes, to + done, width, number_at(from, at + done, width));
        done += width as usize;
    }
}

// `put_part_at`, by whole bytes, with the bits before and after them as two numbers.
#[inline(never)]
fn put_long_part_at(bytes: &mut [u8], to: usize, from: &[u8], at: usize, len: usize)
    requires within { at + len ≤ 8 * length from.now }
    requires room { to + len ≤ 8 * length bytes.old }
    requires near { at + len < 2 ^ 64 }
    requires far { to + len < 2 ^ 64 }
    ensures { flat bytes.new ≡ put_at to (part at len (flat from.now)) (flat bytes.old) }
{
    let head = ((8 - to % 8) % 8).min(len);
    put_in_byte(bytes, to, head as u32, number_at(from, at, head as u32));
    let whole = (len - head) / 8;
    put_bytes_at(bytes, to + head, from, at + head, whole);
    let done = head + 8 * whole;
    let tail = (len - done) as u32;
    put_in_byte(bytes, to + done, tail, number_at(from, at + done, tail));
}

// Puts a number over the `width` bits from the place `at` on, which lie in one byte. All other bits stay.
#[inline(always)]
fn put_in_byte(bytes: &mut [u8], at: usize, width: u32, value: u64)
    requires byte { at % 8 + width ≤ 8 }
    requires within { at + width ≤ 8 * length bytes.old }
    requires fits { value < 2 ^ width }
    ensures { flat bytes.new ≡ put_at at (bits width value) (flat bytes.old) }
{
    if width == 0 {
        return;
    }
    let first = at / 8;
    let after = 8 - at % 8 - width as usize;
    put_over(&mut bytes[first..first + 1], after, width, value);
}

// Puts `count` times eight bits of other bytes over whole bytes of these.
fn put_bytes_at(bytes: &mut [u8], to: usize, from: &[u8], at: usize, count: usize)
    requires aligned { 0 < count → to % 8 ≡ 0 }
    requires within { at + 8 * count ≤ 8 * length from.now }
    requires room { to + 8 * count ≤ 8 * length bytes.old }
    ensures { flat bytes.new ≡ put_at to (part at (8 * count) (flat from.now)) (flat bytes.old) }
{
    let first = to / 8;
    fill_shifted(&mut bytes[first..first + count], &from[at / 8..], at % 8);
}
