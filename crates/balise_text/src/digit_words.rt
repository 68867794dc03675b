//! Words of hexadecimal digits.

ghost use Rattle.std.specs.Prelude.{◌≡◌, ◌≢◌, Err, IfErr, IfOk, Ok, length};
ghost use Rattle.balise_rules.specs.Digits.{read_hex};
ghost use Rattle.balise_bits.specs.Faults.{refusal_of};
ghost use Rattle.balise_text.specs.DigitWords.{bits_due, telegrams_in};
ghost use Rattle.balise_text.specs.Left.{left};

use crate::words::Words;
use balise_commands::{Bits, BitsFault};
use std::alloc::Global;

impl<'a> Words<'a> {
    ghost use Rattle.std.specs.Prelude.{MatchOption, None, Some};
    ghost use Rattle.balise_text.specs.DigitWords.{have_digits, some_word};
    ghost use Rattle.balise_text.specs.Words.{taken};

    /// The word that comes next, which isn't empty.
    pub(crate) fn some_word(self) -> Option<(&'a [u8], Words<'a>)>
        ensures { MatchOption result (taken some_word (left self.entry) ≡ None) (λ p. taken some_word (left self.entry) ≡ Some (p.0.now, left p.1)) }
    {
        let (word, rest) = self.next()?;
        match word {
            [] => None,
            _ => Some((word, rest)),
        }
    }

    /// Whether words come, none of them empty.
    pub(crate) fn have_digits(self) -> bool
        ensures { result ≡ have_digits (left self.entry) }
    {
        let mut words = self;
        'words: loop {
            let Some((word, rest)) = words.next() else {
                return false;
            };
            if word.is_empty() {
                return false;
            }
            if rest.is_over() {
                return true;
            }
            words = rest;
        }
    }
}

// The bits of a telegram in digits.
fn read_telegram(alloc: Global, word: &[u8]) -> Result<Bits, BitsFault>
    ensures ok { IfOk result (λ b. read_hex (bits_due (length word.now)) word.now ≡ Ok b) }
    ensures fault { IfErr result (λ e. e ≢ BitsFault.OutOfMemory → read_hex (bits_due (length word.now)) word.now ≡ Err (refusal_of e)) }
{
    let due = if word.len() == 208 { 830 } else { 210 };
    Bits::from_hex_bytes(alloc, word, due)
}

/// The bits of telegrams in digits, word by word.
pub(crate) fn read_telegrams(alloc: Global, words: Words) -> Result<Vec<Bits>, BitsFault>
    ensures ok { IfOk result (λ bs. telegrams_in (left words.entry) ≡ Ok bs.items) }
    ensures fault { IfErr result (λ e. e ≢ BitsFault.OutOfMemory → telegrams_in (left words.entry) ≡ Err (refusal_of e)) }
{
    let mut telegrams = Vec::new(alloc);
    let mut words = words;
    'words: loop {
        let Some((word, rest)) = words.next() else {
            return Ok(telegrams);
        };
        let bits = match read_telegram(alloc, word) {
            Ok(bits) => bits,
            Err(fault) => return Err(fault),
        };
        // Most groups have one telegram, and an edit keeps the list.
        if let Err(_) = telegrams.reserve_exact(1) {
            return Err(BitsFault::OutOfMemory);
        }
        if let Err(_) = telegrams.push(bits) {
            return Err(BitsFault::OutOfMemory);
        }
        words = rest;
    }
}
