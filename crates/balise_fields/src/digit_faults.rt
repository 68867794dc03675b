//! Faults of digits as a whole.

ghost use Rattle.std.specs.Prelude.{◌≡◌, ◌≤◌, ◌+◌, ◌*◌, IfOk, drop, length};
ghost use Rattle.balise_fields.specs.Explaining.{digit_fault, digits_before, length_fault, spare_fault, zeros_before, IsDigits};

use crate::explained::{DigitFault, Explained, FaultDue};
use crate::fault::FieldsFault;
use balise_bits::{Bits, hex_value};
use balise_rules::Refusal;

// How many digits stand before the first byte that isn't one.
fn digits_before(text: &[u8]) -> usize
    ensures { result ≡ digits_before text.now }
{
    for place in 0..text.len() {
        if hex_value(text[place]) > 15 {
            return place;
        }
    }
    text.len()
}

// The first bit from a place on that isn't zero, or the end.
fn first_one(bits: &Bits, at: usize) -> usize
    requires { at ≤ length bits.now }
    ensures { result ≡ at + zeros_before (drop at bits.now) }
{
    let len = bits.len();
    for place in at..len {
        if bits.number(place, 1) != 0 {
            return place;
        }
    }
    len
}

// How many bits digits have. More than a `usize` can count are taken for out of memory.
fn bits_of(digits: usize) -> Result<usize, FieldsFault>
    ensures { IfOk result (λ n. n ≡ 4 * digits) }
{
    match digits.checked_mul(4) {
        Some(bits) => Ok(bits),
        None => Err(FieldsFault::OutOfMemory),
    }
}

/// A byte isn't a digit, or the last digit is missing.
pub(crate) fn bad_digit(text: &[u8]) -> Result<Explained, FieldsFault>
    ensures { IfOk result (IsDigits (digit_fault text.now)) }
{
    let bit = match bits_of(digits_before(text)) {
        Ok(bit) => bit,
        Err(fault) => return Err(fault),
    };
    Ok(Explained::Digits(DigitFault {
        refusal: Refusal::BadHex,
        packet: None,
        bit,
        due: FaultDue::Digit,
    }))
}

/// There are this many digits, and another number of bits is due.
pub(crate) fn bad_digits(digits: usize) -> Result<Explained, FieldsFault>
    ensures { IfOk result (IsDigits (length_fault (4 * digits))) }
{
    match bits_of(digits) {
        Ok(bits) => Ok(bad_length(bits)),
        Err(fault) => Err(fault),
    }
}

/// There are this many bits, and another number is due.
pub(crate) fn bad_length(bits: usize) -> Explained
    ensures { IsDigits (length_fault bits) result }
{
    Explained::Digits(DigitFault {
        refusal: Refusal::BadLength,
        packet: None,
        bit: bits,
        due: FaultDue::Length,
    })
}

/// A bit from this place on isn't zero.
pub(crate) fn spare_bit(bits: &Bits, at: usize) -> Explained
    requires { at ≤ length bits.now }
    ensures { IsDigits (spare_fault at bits.now) result }
{
    Explained::Digits(DigitFault {
        refusal: Refusal::SpareBits,
        packet: None,
        bit: first_one(bits, at),
        due: FaultDue::Zero,
    })
}
