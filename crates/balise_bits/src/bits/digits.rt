//! Hexadecimal digits, four bits each.

ghost use Rattle.std.specs.Prelude.{◌≡◌, ◌≢◌, length, Ok, Err, IfErr, IfOk, OnErr, OnOk, IsOkUnless};
ghost use Rattle.std.specs.String.{string_bytes};
ghost use Rattle.balise_rules.specs.Digits.{digits_in, hex_of, read_digits, read_hex};
ghost use Rattle.balise_bits.specs.Bytes.{flat};
ghost use Rattle.balise_bits.specs.Faults.{refusal_of};

use crate::bits::Bits;
use crate::fault::BitsFault;
use crate::nibbles::{decoded, put_digits};
use crate::store::{MOST, Store};
use hex::encode;
use std::alloc::{AllocError, Global};

impl Bits {
    /// The `len` bits of a text of hexadecimal digits of either case. Zeros fill the last byte.
    pub fn from_hex(alloc: Global, text: &str, len: usize) -> Result<Bits, BitsFault>
        ensures ok { IfOk result (λ b. read_hex len text.now ≡ Ok b) }
        ensures len { IfOk result (λ b. length b ≡ len) }
        ensures fault { IfErr result (λ e. e ≢ BitsFault.OutOfMemory → read_hex len text.now ≡ Err (refusal_of e)) }
    {
        Bits::from_hex_bytes(alloc, text.as_bytes(), len)
    }

    /// The bits that `from_hex` reads, of the bytes of a text, which need not be characters.
    pub fn from_hex_bytes(alloc: Global, text: &[u8], len: usize) -> Result<Bits, BitsFault>
        ensures ok { IfOk result (λ b. read_hex len text.now ≡ Ok b) }
        ensures len { IfOk result (λ b. length b ≡ len) }
        ensures fault { IfErr result (λ e. e ≢ BitsFault.OutOfMemory → read_hex len text.now ≡ Err (refusal_of e)) }
    {
        let mut bits = Bits::digits_in_bytes(alloc, text)?;
        if bits.bytes.as_slice().len() != len.div_ceil(8) {
            return Err(BitsFault::BadLength);
        }
        let spare = bits.bytes.len() - len;
        if bits.number(len, spare as u32) != 0 {
            return Err(BitsFault::SpareBits);
        }
        bits.bytes.set_spare(spare as u8);
        Ok(bits)
    }

    /// The bits of hexadecimal digits of either case, four each, an even number of them.
    pub fn digits(alloc: Global, text: &str) -> Result<Bits, BitsFault>
        ensures ok { IfOk result (λ b. read_digits text.now ≡ Ok b) }
        ensures fault { IfErr result (λ e. e ≢ BitsFault.OutOfMemory → read_digits text.now ≡ Err (refusal_of e)) }
    {
        Bits::digits_in_bytes(alloc, text.as_bytes())
    }

    /// The bits that `digits` reads, of the bytes of a text, which need not be characters.
    pub fn digits_in_bytes(alloc: Global, text: &[u8]) -> Result<Bits, BitsFault>
        ensures ok { IfOk result (λ b. read_digits text.now ≡ Ok b) }
        ensures fault { IfErr result (λ e. e ≢ BitsFault.OutOfMemory → read_digits text.now ≡ Err (refusal_of e)) }
    {
        if text.len() % 2 != 0 {
            return Err(BitsFault::BadHex);
        }
        let count = text.len() / 2;
        if count > MOST {
            return Err(BitsFault::OutOfMemory);
        }
        let mut bytes = Store::zeros(alloc, count, 0)?;
        if !decoded(text, bytes.as_mut_slice()) {
            return Err(BitsFault::BadHex);
        }
        Ok(Bits { bytes })
    }

    /// Writes the digits in lower case into a buffer, over all that it holds. If memory runs out, the buffer stays.
    pub fn hex_into(&self, out: &mut Vec<u8>) -> Result<(), BitsFault>
        ensures ok { OnOk result (out.new.items ≡ hex_of self.now) }
        ensures err { OnErr result (out.new.items ≡ out.old.items) }
        ensures fault { IsOkUnless result BitsFault.OutOfMemory }
    {
        let bytes = self.bytes.as_slice();
        out.resize(2 * bytes.len(), 0)?;
        put_digits(bytes, out.as_mut_slice());
        Ok(())
    }

    /// The digits in lower case, two for each byte, the last byte filled with zeros.
    pub fn to_hex(&self) -> Result<String, BitsFault>
        ensures ok { IfOk result (λ text. string_bytes text ≡ hex_of self.now) }
        ensures fault { IsOkUnless result BitsFault.OutOfMemory }
    {
        Ok(hex_text(self.bytes.allocator(), self.bytes.as_slice())?)
    }
}

// The digits of bytes.
fn hex_text(alloc: Global, bytes: &[u8]) -> Result<String, AllocError>
    ensures { IfOk result (λ text. string_bytes text ≡ digits_in (flat bytes.now)) }
{
    encode(alloc, bytes)
}
