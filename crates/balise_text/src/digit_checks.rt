//! Judges the words of digits of a command. No memory is taken.

ghost use Rattle.std.specs.Prelude.{◌≡◌, ◌<◌, ◌≤◌, length, None, Some};
ghost use Rattle.balise_rules.specs.Digits.{digit_value, read_digits, read_hex};
ghost use Rattle.balise_text.specs.Checks.{checked, IsLastByte};
ghost use Rattle.balise_text.specs.DigitWords.{bits_due, telegrams_in};
ghost use Rattle.balise_text.specs.Left.{left};

use crate::words::Words;
use balise_commands::hex_value;
use balise_rules::Refusal;

/// Judges the digits of a packet: an even number of digits and no other byte.
pub(crate) fn check_digits(word: &[u8]) -> Result<(), Refusal>
    ensures { result ≡ checked (read_digits word.now) }
{
    if word.len() % 2 != 0 {
        return Err(Refusal::BadHex);
    }
    for byte in word {
        if hex_value(*byte) >= 16 {
            return Err(Refusal::BadHex);
        }
    }
    Ok(())
}

// The byte that the last two digits are.
fn last_byte(word: &[u8]) -> u8
    requires { 2 ≤ length word.now }
    ensures { IsLastByte word.now result }
{
    let high = hex_value(word[word.len() - 2]);
    let low = hex_value(word[word.len() - 1]);
    high % 16 * 16 + low % 16
}

// Judges the digits of a telegram: 210 bits have 6 spare bits in their last byte, 830 bits have 2.
fn check_telegram(word: &[u8]) -> Result<(), Refusal>
    ensures { result ≡ checked (read_hex (bits_due (length word.now)) word.now) }
{
    if let Err(refusal) = check_digits(word) {
        return Err(refusal);
    }
    if word.len() == 208 {
        if last_byte(word) % 4 != 0 {
            return Err(Refusal::SpareBits);
        }
        return Ok(());
    }
    if word.len() != 54 {
        return Err(Refusal::BadLength);
    }
    if last_byte(word) % 64 != 0 {
        return Err(Refusal::SpareBits);
    }
    Ok(())
}

/// Judges the digits of telegrams, word by word.
pub(crate) fn check_telegrams(words: Words) -> Result<(), Refusal>
    ensures { result ≡ checked (telegrams_in (left words.entry)) }
{
    let mut words = words;
    'words: loop {
        let Some((word, rest)) = words.next() else {
            return Ok(());
        };
        if let Err(refusal) = check_telegram(word) {
            return Err(refusal);
        }
        words = rest;
    }
}
