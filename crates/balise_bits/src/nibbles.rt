//! Hexadecimal digits of bytes, read and written in place.

ghost use Rattle.std.specs.Prelude.{◌≡◌, ◌*◌, ◌<◌, ◌≤◌, true, false, length, Some, None};
ghost use Rattle.balise_rules.specs.Digits.{digit_bits, digit_of, digit_value, digits_in};
ghost use Rattle.balise_bits.specs.Bytes.{flat};

/// How many bytes are read at once. Loops of a fixed length become vector code.
const BLOCK: usize = 16;

/// The value of a hexadecimal digit of either case, from 0 to 15, and a number above 15 for any other byte.
#[inline(always)]
pub fn hex_value(byte: u8) -> u8
    ensures digit { result < 16 → digit_value byte ≡ Some result }
    ensures other { 16 ≤ result → digit_value byte ≡ None }
{
    if b'0' <= byte && byte <= b'9' {
        byte - b'0'
    } else if b'A' <= byte && byte <= b'F' {
        byte - b'A' + 10
    } else if b'a' <= byte && byte <= b'f' {
        byte - b'a' + 10
    } else {
        255
    }
}

/// Reads digits into bytes, and returns whether all of them are digits.
pub(crate) fn decoded(text: &[u8], out: &mut [u8]) -> bool
    requires { length text.now ≡ 2 * length out.old }
    ensures ok { result ≡ true → digit_bits text.now ≡ Some (flat out.new) }
    ensures bad { result ≡ false → digit_bits text.now ≡ None }
    ensures len { length out.new ≡ length out.old }
{
    let count = out.len();
    if count < BLOCK {
        return decoded_short(text, out);
    }
    for block in 0..count.div_ceil(BLOCK) {
        // The last block ends with the last byte. It may overlap the one before, and then writes some bytes again.
        let at = (BLOCK * block).min(count - BLOCK);
        if !decoded_block(&text[2 * at..2 * at + 2 * BLOCK], &mut out[at..at + BLOCK]) {
            return false;
        }
    }
    true
}

// Reads the digits of less than a block, which zeros fill.
#[inline(never)]
fn decoded_short(text: &[u8], out: &mut [u8]) -> bool
    requires text { length text.now ≡ 2 * length out.old }
    requires short { length out.old < 16 }
    ensures ok { result ≡ true → digit_bits text.now ≡ Some (flat out.new) }
    ensures bad { result ≡ false → digit_bits text.now ≡ None }
    ensures len { length out.new ≡ length out.old }
{
    let mut digits = [b'0'; 2 * BLOCK];
    digits[..text.len()].copy_from_slice(text);
    let mut bytes = [0u8; BLOCK];
    let good = decoded_block(&digits, &mut bytes);
    out.copy_from_slice(&bytes[..out.len()]);
    good
}

// Reads the digits of one block.
#[inline(always)]
fn decoded_block(text: &[u8], out: &mut [u8]) -> bool
    requires text { length text.now ≡ 32 }
    requires out { length out.old ≡ 16 }
    ensures ok { result ≡ true → digit_bits text.now ≡ Some (flat out.new) }
    ensures bad { result ≡ false → digit_bits text.now ≡ None }
    ensures len { length out.new ≡ length out.old }
{
    let mut values = [0u8; 2 * BLOCK];
    let mut good = true;
    for i in 0..2 * BLOCK {
        let value = chosen_value(text[i]);
        values[i] = value;
        good = good && value < 16;
    }
    for k in 0..BLOCK {
        let high = values[2 * k].wrapping_mul(16);
        out[k] = high.wrapping_add(values[2 * k + 1]);
    }
    good
}

// The value of a digit, as `hex_value` has it, for vector code. It takes more steps, but has no branches.
#[inline(always)]
fn chosen_value(byte: u8) -> u8
    ensures digit { result < 16 → digit_value byte ≡ Some result }
    ensures other { 16 ≤ result → digit_value byte ≡ None }
{
    let digit = byte.wrapping_sub(b'0');
    // A small letter is the capital one plus 32.
    let upper = byte - byte / 32 % 2 * 32;
    let letter = upper.wrapping_sub(b'A').saturating_add(10);
    if digit < 10 { digit } else { letter }
}

// The lower-case digit of a value. Both that it could be are worked out, so that there is no branch.
#[inline(always)]
fn chosen_digit(value: u8) -> u8
    requires { value < 16 }
    ensures { result ≡ digit_of value }
{
    let small = value + b'0';
    let large = value + (b'a' - 10);
    if value < 10 { small } else { large }
}

/// Writes the digits of bytes in lower case. The loop becomes vector code.
pub(crate) fn put_digits(bytes: &[u8], out: &mut [u8])
    requires { length out.old ≡ 2 * length bytes.now }
    ensures digits { out.new ≡ digits_in (flat bytes.now) }
    ensures len { length out.new ≡ length out.old }
{
    for k in 0..bytes.len() {
        let byte = bytes[k];
        out[2 * k] = chosen_digit(byte / 16);
        out[2 * k + 1] = chosen_digit(byte % 16);
    }
}
