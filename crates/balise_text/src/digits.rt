//! Prints the digits of bits. No memory is taken.

ghost use Rattle.std.specs.Prelude.{◌≡◌, ◌<◌, ◌≤◌, ◌^◌, length};
ghost use Rattle.balise_lines.specs.Writing.{Writes};
ghost use Rattle.balise_rules.specs.Digits.{digit_of, hex_of};
ghost use Rattle.balise_text.specs.Printing.{fours_of, value_at};

use balise_commands::Bits;
use balise_lines::{Counted, WriteFault, put};
use std::io::Write;

// The value of the `width` bits from a place on. Zeros stand after the last bit.
fn value_at(bits: &Bits, at: usize, width: u32) -> u8
    requires within { at < length bits.now }
    requires narrow { width ≤ 8 }
    ensures value { result ≡ value_at at width bits.now }
    ensures fits { result < 2 ^ width }
{
    let left = bits.len() - at;
    if left >= width as usize {
        return bits.number(at, width) as u8;
    }
    let left = left as u32;
    (bits.number(at, left) << (width - left)) as u8
}

// The lower-case digit of a value.
fn digit(value: u8) -> u8
    requires { value < 16 }
    ensures { result ≡ digit_of value }
{
    if value < 10 {
        b'0' + value
    } else {
        b'a' + (value - 10)
    }
}

/// Writes the digits of bits in lower case, two for each byte, the last byte filled with zeros.
pub fn put_digits<W: Write>(writer: &mut Counted<W>, bits: &Bits) -> Result<(), WriteFault>
    ensures { Writes W.contents writer.old writer.new result (hex_of bits.now) }
{
    for place in 0..bits.len().div_ceil(8) {
        let value = value_at(bits, 8 * place, 8);
        if let Err(fault) = put(writer, &[digit(value / 16), digit(value % 16)]) {
            return Err(fault);
        }
    }
    Ok(())
}

/// Writes the digits of bits in lower case, one for each four bits, the last one filled with zeros.
pub fn put_fours<W: Write>(writer: &mut Counted<W>, bits: &Bits) -> Result<(), WriteFault>
    ensures { Writes W.contents writer.old writer.new result (fours_of bits.now) }
{
    for place in 0..bits.len().div_ceil(4) {
        if let Err(fault) = put(writer, &[digit(value_at(bits, 4 * place, 4))]) {
            return Err(fault);
        }
    }
    Ok(())
}
