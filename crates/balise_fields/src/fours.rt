//! Reads digits of four bits each, where zeros fill up the last digit alone.

ghost use Rattle.std.specs.Prelude.{◌≡◌, ◌*◌, length, IfOk, IfSome};
ghost use Rattle.balise_rules.specs.Digits.{digit_bits};
ghost use Rattle.balise_fields.specs.Fours.{bits_in};

use crate::fault::FieldsFault;
use balise_bits::{Bits, hex_value};
use std::alloc::Global;

// The bits of digits, four each, or none where one isn't hexadecimal.
fn digits(alloc: Global, text: &[u8]) -> Result<Option<Bits>, FieldsFault>
    ensures bits { IfOk result (λ b. b ≡ digit_bits text.now) }
    ensures len { IfOk result (λ o. IfSome o (λ b. length b ≡ 4 * length text.now)) }
{
    let mut bits = Bits::new(alloc);
    for byte in text {
        let value = hex_value(*byte);
        if value > 15 {
            return Ok(None);
        }
        bits.push(4, u32::from(value))?;
    }
    Ok(Some(bits))
}

/// The `len` bits of a text of digits. It has just the digits that they need, and zeros in the bits after the last.
pub fn read_fours(alloc: Global, len: u32, text: &[u8]) -> Result<Option<Bits>, FieldsFault>
    ensures { IfOk result (λ b. b ≡ bits_in len text.now) }
{
    let len = len as usize;
    if text.len() != len.div_ceil(4) {
        return Ok(None);
    }
    let Some(bits) = digits(alloc, text)? else {
        return Ok(None);
    };
    let spare = bits.len() - len;
    if bits.number(len, spare as u32) != 0 {
        return Ok(None);
    }
    Ok(Some(bits.slice(0, len)?))
}
