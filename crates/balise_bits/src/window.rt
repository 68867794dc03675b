//! A few bytes as one number, and bytes that lie across others.

ghost use Rattle.std.specs.Prelude.{◌≡◌, ◌+◌, ◌-◌, ◌*◌, ◌^◌, ◌<◌, ◌≤◌, length};
ghost use Rattle.balise_rules.specs.Bits.{bits, num, part, put_at};
ghost use Rattle.balise_bits.specs.Bytes.{flat};

/// How many bytes hold any number of up to 57 bits, wherever in a byte it begins.
pub(crate) const WINDOW: usize = 8;

// The number of four bytes, the first one highest.
fn joined(a: u8, b: u8, c: u8, d: u8) -> u32
    ensures { result ≡ a * 16777216 + b * 65536 + c * 256 + d }
{
    (u32::from(a) << 24) + (u32::from(b) << 16) + (u32::from(c) << 8) + u32::from(d)
}

/// The number that at most eight bytes hold, the first byte highest.
#[inline(always)]
pub(crate) fn number_in(window: &[u8]) -> u64
    requires { length window.now ≤ 8 }
    ensures { result ≡ num (flat window.now) }
{
    if let [a, b, c, d, e, f, g, h] = window {
        return u64::from(joined(*a, *b, *c, *d)) * 4294967296 + u64::from(joined(*e, *f, *g, *h));
    }
    if let [a, b, c, d] = window {
        return u64::from(joined(*a, *b, *c, *d));
    }
    if let [a] = window {
        return u64::from(*a);
    }
    number_by_byte(window)
}

// `number_in`, in a loop over the bytes. It takes any number of bytes up to eight.
#[inline(never)]
fn number_by_byte(window: &[u8]) -> u64
    requires { length window.now ≤ 8 }
    ensures { result ≡ num (flat window.now) }
{
    let mut number: u64 = 0;
    for byte in window {
        number = number * 256 + u64::from(*byte);
    }
    number
}

/// Writes a number that fits over at most eight bytes, the first byte highest.
#[inline(always)]
pub(crate) fn put_in(window: &mut [u8], number: u64)
    requires few { length window.old ≤ 8 }
    requires fits { number < 2 ^ (8 * length window.old) }
    ensures { flat window.new ≡ bits (8 * length window.old) number }
{
    let count = window.len();
    if count == WINDOW {
        window[0] = ((number >> 56) % 256) as u8;
        window[1] = ((number >> 48) % 256) as u8;
        window[2] = ((number >> 40) % 256) as u8;
        window[3] = ((number >> 32) % 256) as u8;
        window[4] = ((number >> 24) % 256) as u8;
        window[5] = ((number >> 16) % 256) as u8;
        window[6] = ((number >> 8) % 256) as u8;
        window[7] = (number % 256) as u8;
        return;
    }
    // Packets of 32 bits are among the shortest, and the loop below is slow for them.
    if count == 4 {
        window[0] = ((number >> 24) % 256) as u8;
        window[1] = ((number >> 16) % 256) as u8;
        window[2] = ((number >> 8) % 256) as u8;
        window[3] = (number % 256) as u8;
        return;
    }
    if count == 1 {
        window[0] = (number % 256) as u8;
        return;
    }
    put_by_byte(window, number);
}

// `put_in`, in a loop over the bytes. It takes any number of bytes up to eight.
#[inline(never)]
fn put_by_byte(window: &mut [u8], number: u64)
    requires few { length window.old ≤ 8 }
    requires fits { number < 2 ^ (8 * length window.old) }
    ensures { flat window.new ≡ bits (8 * length window.old) number }
{
    let count = window.len();
    for i in 0..count {
        window[i] = ((number >> (8 * (count - 1 - i))) % 256) as u8;
    }
}

/// The number in the `width` bits that `after` more bits follow.
#[inline(always)]
pub(crate) fn number_before(window: &[u8], after: usize, width: u32) -> u64
    requires few { length window.now ≤ 8 }
    requires within { after + width ≤ 8 * length window.now }
    requires some { 0 < width }
    requires width { width ≤ 57 }
    ensures value { result ≡ num (part (8 * length window.now - (after + width)) width (flat window.now)) }
    ensures fits { result < 2 ^ width }
{
    (number_in(window) >> after) % (1 << width)
}

/// Puts a number over the `width` bits that `after` more bits follow. All other bits stay.
#[inline(always)]
pub(crate) fn put_over(window: &mut [u8], after: usize, width: u32, value: u64)
    requires few { length window.old ≤ 8 }
    requires within { after + width ≤ 8 * length window.old }
    requires some { 0 < width }
    requires width { width ≤ 57 }
    requires fits { value < 2 ^ width }
    ensures { flat window.new ≡ put_at (8 * length window.old - (after + width)) (bits width value) (flat window.old) }
{
    let old = number_in(window);
    let cut = (old >> after) % (1 << width);
    put_in(window, old - (cut << after) + (value << after));
}

/// Fills bytes with the bits of others from the place `shift` of their first byte on.
pub(crate) fn fill_shifted(out: &mut [u8], from: &[u8], shift: usize)
    requires shift { shift < 8 }
    requires enough { shift + 8 * length out.old ≤ 8 * length from.now }
    ensures { flat out.new ≡ part shift (8 * length out.old) (flat from.now) }
{
    if shift == 0 {
        out.copy_from_slice(&from[..out.len()]);
        return;
    }
    let mut i = 0;
    'words: while out.len() - i >= 8 {
        put_in(&mut out[i..i + 8], word_across(&from[i..i + 9], shift));
        i += 8;
    }
    'bytes: while i < out.len() {
        let pair = u16::from(from[i]) * 256 + u16::from(from[i + 1]);
        out[i] = ((pair >> (8 - shift)) % 256) as u8;
        i += 1;
    }
}

// The 64 bits of nine bytes from the place `shift` on.
#[inline(always)]
fn word_across(window: &[u8], shift: usize) -> u64
    requires nine { length window.now ≡ 9 }
    requires shift { shift < 8 }
    ensures value { result ≡ num (part shift 64 (flat window.now)) }
    ensures fits { result < 2 ^ 64 }
{
    let nine = u128::from(number_in(&window[..8])) * 256 + u128::from(window[8]);
    ((nine >> (8 - shift)) % 18446744073709551616) as u64
}
