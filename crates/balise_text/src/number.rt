//! Decimal numbers.

ghost use Rattle.std.specs.Prelude.{◌≡◌, length, option_map};
ghost use Rattle.balise_text.specs.Left.{up_to};
ghost use Rattle.balise_text.specs.Words.{number_of, value_from};

// The value of the digits before a mark, at most 4294967295, and how many they are.
#[inline(always)]
fn read_value(text: &[u8], mark: u8) -> Option<(u32, usize)>
    ensures { result ≡ option_map (λ n. (n, length (up_to mark text.now))) (value_from 0 (up_to mark text.now)) }
{
    let mut value: u64 = 0;
    let mut len = 0;
    for byte in text {
        if *byte == mark {
            break;
        }
        if !byte.is_ascii_digit() {
            return None;
        }
        value = value * 10 + u64::from(*byte - b'0');
        if value > 4_294_967_295 {
            return None;
        }
        len += 1;
    }
    Some((value as u32, len))
}

/// The decimal number that the bytes before a mark are, and how many they are: digits alone, and no zero before others.
#[inline(always)]
pub(crate) fn number_up_to(text: &[u8], mark: u8) -> Option<(u32, usize)>
    ensures { result ≡ option_map (λ n. (n, length (up_to mark text.now))) (number_of (up_to mark text.now)) }
{
    let (number, len) = read_value(text, mark)?;
    if len == 0 || len > 1 && text[0] == b'0' {
        return None;
    }
    Some((number, len))
}

/// The decimal number that a word is, at most 4294967295: digits alone, and no zero before others. None for any other
/// word.
pub fn read_number(word: &[u8]) -> Option<u32>
    ensures { result ≡ number_of word.now }
{
    let Some((number, len)) = number_up_to(word, b' ') else {
        return None;
    };
    if len < word.len() {
        return None;
    }
    Some(number)
}
