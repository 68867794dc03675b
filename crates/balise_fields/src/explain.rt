//! Reads a line of digits and explains it.

ghost use Rattle.std.specs.Prelude.{◌≡◌, Bool, List, Err, Some, IfOk};
ghost use Rattle.balise_rules.specs.declared.refusal.Refusal.{Refusal};
ghost use Rattle.balise_rules.specs.Digits.{digit_bits, read_hex};
ghost use Rattle.balise_text.specs.DigitWords.{bits_due};
ghost use Rattle.balise_fields.specs.Explaining.{spare_fault, IsDigits, IsExplained, IsPacket, IsTelegram};

use crate::digit_faults::{bad_digit, bad_digits, spare_bit};
use crate::digit_line::{DigitLine, read_digit_line};
use crate::explained::Explained;
use crate::fault::FieldsFault;
use crate::packet::explain_alone;
use crate::telegram::explain_bits;
use balise_bits::{Bits, BitsFault};
use std::alloc::Global;

/// What a line of digits, without its end, is explained as.
pub fn explain_line(alloc: Global, line: &[u8]) -> Result<Explained, FieldsFault>
    ensures { IfOk result (IsExplained line.now) }
{
    match read_digit_line(line) {
        DigitLine::Plan => Ok(Explained::Plan),
        DigitLine::Group => Ok(Explained::Group),
        DigitLine::Packet(version, digits) => explain_packet(alloc, version, digits),
        DigitLine::Telegram => explain_telegram(alloc, line),
    }
}

// The digits of a packet by itself.
fn explain_packet(alloc: Global, version: u32, text: &[u8]) -> Result<Explained, FieldsFault>
    ensures { IfOk result (IsPacket version text.now) }
{
    match Bits::digits_in_bytes(alloc, text) {
        Ok(bits) => explain_alone(alloc, version, &bits),
        Err(BitsFault::OutOfMemory) => Err(FieldsFault::OutOfMemory),
        Err(_) => bad_digit(text),
    }
}

// How many bits a telegram of this many digits has.
fn bits_due(digits: usize) -> usize
    ensures { result ≡ bits_due digits }
{
    if digits == 208 { 830 } else { 210 }
}

// The digits of a telegram.
fn explain_telegram(alloc: Global, text: &[u8]) -> Result<Explained, FieldsFault>
    ensures { IfOk result (IsTelegram text.now) }
{
    let due = bits_due(text.len());
    match Bits::from_hex_bytes(alloc, text, due) {
        Ok(bits) => explain_bits(alloc, &bits),
        Err(BitsFault::BadHex) => bad_digit(text),
        Err(BitsFault::BadLength) => bad_digits(text.len()),
        Err(BitsFault::SpareBits) => explain_spare(alloc, text, due),
        Err(BitsFault::OutOfMemory) => Err(FieldsFault::OutOfMemory),
    }
}

// The digits of a telegram where some bit after the last one isn't zero.
fn explain_spare(alloc: Global, text: &[u8], due: usize) -> Result<Explained, FieldsFault>
    requires { read_hex due text.now ≡ Err Refusal.SpareBits }
    ensures { IfOk result (λ x. (b : List Bool) × (digit_bits text.now ≡ Some b) × IsDigits (spare_fault due b) x) }
{
    match Bits::digits_in_bytes(alloc, text) {
        Ok(bits) => Ok(spare_bit(&bits, due)),
        Err(_) => Err(FieldsFault::OutOfMemory),
    }
}
