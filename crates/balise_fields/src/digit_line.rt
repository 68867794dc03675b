//! What a line of digits is.

ghost use Rattle.std.specs.Prelude.{MatchOption, None, Some, ◌≡◌};
ghost use Rattle.balise_fields.specs.DigitLines.{packet_digits, IsDigitLine};

use crate::words::{Few, split_line};
use balise_text::read_number;

/// What a line of digits is, by its words.
#[derive(Clone, Copy, Debug, PartialEq, Eq)]
pub enum DigitLine<'a> {
    /// `plan 1`.
    Plan,
    /// `group`.
    Group,
    /// `packet VERSION HEX`: M_VERSION, and the digits.
    Packet(u32, &'a [u8]),
    /// Any other: a telegram's digits.
    Telegram,
}

/// What a line of digits, without its end, is.
pub fn read_digit_line<'a>(line: &'a [u8]) -> DigitLine<'a>
    ensures { IsDigitLine line.now result }
{
    if line == b"plan 1".as_slice() {
        return DigitLine::Plan;
    }
    if line == b"group".as_slice() {
        return DigitLine::Group;
    }
    match packet_digits(line) {
        Some((version, digits)) => DigitLine::Packet(version, digits),
        None => DigitLine::Telegram,
    }
}

// M_VERSION and the digits of a packet by itself.
fn packet_digits<'a>(line: &'a [u8]) -> Option<(u32, &'a [u8])>
    ensures { MatchOption result (packet_digits line.now ≡ None) (λ p. packet_digits line.now ≡ Some (p.0, p.1.now)) }
{
    let (name, Few::Two(version, digits)) = split_line(line) else {
        return None;
    };
    if name != b"packet".as_slice() || digits.is_empty() {
        return None;
    }
    let version = read_number(version)?;
    Some((version, digits))
}
