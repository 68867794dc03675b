//! What a line of fields is.

ghost use Rattle.std.specs.Prelude.{◌≡◌, List, IfOk, MatchOption, None, Some, bytes_eq, codes, false};
ghost use Rattle.balise_text.specs.Words.{Word};
ghost use Rattle.balise_fields.specs.declared.field_line.FieldLine.TheVariants.{Padding, Rest};
ghost use Rattle.balise_fields.specs.FewWords.{AreFew};
ghost use Rattle.balise_fields.specs.FieldLines.{bits_line, bits_words, field_line, field_line_of, if_alone, named, named_line, packet_line, plan_line, telegram_bits};

use crate::fault::FieldsFault;
use crate::fours::read_fours;
use crate::words::{Few, split_line};
use balise_bits::Bits;
use balise_codec::Var;
use balise_text::read_number;
use std::alloc::Global;

/// What a line of fields is, by its words.
#[derive(Drop)]
pub enum FieldLine {
    /// `plan 1`.
    Plan,
    /// `group`.
    Group,
    /// `telegram BITS`, the number if it is 210 or 830: a telegram begins.
    Telegram(Option<u32>),
    /// `packet VERSION`, the number if it is one: a packet by itself begins.
    Alone(Option<u32>),
    /// `packet`: the next packet of a telegram begins.
    Packet,
    /// A field: its variable, if one has the name, and its value.
    Field(Option<Var>, u32),
    /// `rest BITS HEX`, the bits if the digits are theirs.
    Rest(Option<Bits>),
    /// `end`.
    End,
    /// `padding BITS HEX`, the bits if the digits are theirs.
    Padding(Option<Bits>),
    /// None of these.
    Other,
}

/// What a line of fields, without its end, is.
pub fn read_field_line(alloc: Global, line: &[u8]) -> Result<FieldLine, FieldsFault>
    ensures { IfOk result (λ l. l ≡ field_line_of line.now) }
{
    let (name, words) = split_line(line);
    if name == b"rest".as_slice() {
        return rest_line(alloc, words);
    }
    if name == b"padding".as_slice() {
        return padding_line(alloc, words);
    }
    Ok(plain_line(name, words))
}

// The line of bits and their digits after the fields of a packet.
fn rest_line(alloc: Global, words: Few) -> Result<FieldLine, FieldsFault>
    ensures { IfOk result (λ l. (ws : List Word) → AreFew words.entry ws → l ≡ bits_line Rest (bits_words ws)) }
{
    let Some((len, digits)) = bits_words(words) else {
        return Ok(FieldLine::Other);
    };
    Ok(FieldLine::Rest(read_fours(alloc, len, digits)?))
}

// The line of the bits after packet 255 and their digits.
fn padding_line(alloc: Global, words: Few) -> Result<FieldLine, FieldsFault>
    ensures { IfOk result (λ l. (ws : List Word) → AreFew words.entry ws → l ≡ bits_line Padding (bits_words ws)) }
{
    let Some((len, digits)) = bits_words(words) else {
        return Ok(FieldLine::Other);
    };
    Ok(FieldLine::Padding(read_fours(alloc, len, digits)?))
}

// BITS HEX
fn bits_words<'a>(words: Few<'a>) -> Option<(u32, &'a [u8])>
    ensures { (ws : List Word) → AreFew words.entry ws → MatchOption result (bits_words ws ≡ None) (λ p. bits_words ws ≡ Some (p.0, p.1.now)) }
{
    let Few::Two(len, digits) = words else {
        return None;
    };
    if digits.is_empty() {
        return None;
    }
    let len = read_number(len)?;
    Some((len, digits))
}

// The line of a name and of words after it that need no memory.
fn plain_line(name: &[u8], words: Few) -> FieldLine
    requires rest { bytes_eq name.now (codes "rest") ≡ false }
    requires padding { bytes_eq name.now (codes "padding") ≡ false }
    ensures { (ws : List Word) → AreFew words.entry ws → result ≡ named_line name.now ws }
{
    if name == b"telegram".as_slice() {
        return FieldLine::Telegram(telegram_bits(words));
    }
    if name == b"packet".as_slice() {
        return packet_line(words);
    }
    if name == b"end".as_slice() {
        return alone(FieldLine::End, words);
    }
    if name == b"group".as_slice() {
        return alone(FieldLine::Group, words);
    }
    if name == b"plan".as_slice() {
        return plan_line(words);
    }
    if name == b"fault".as_slice() {
        return FieldLine::Other;
    }
    field_line(name, words)
}

// 210 or 830
fn telegram_bits(words: Few) -> Option<u32>
    ensures { (ws : List Word) → AreFew words.entry ws → result ≡ telegram_bits ws }
{
    let Few::One(word) = words else {
        return None;
    };
    match read_number(word) {
        Some(210) => Some(210),
        Some(830) => Some(830),
        _ => None,
    }
}

// A packet of a telegram, or VERSION and a packet by itself.
fn packet_line(words: Few) -> FieldLine
    ensures { (ws : List Word) → AreFew words.entry ws → result ≡ packet_line ws }
{
    match words {
        Few::Zero => FieldLine::Packet,
        Few::One(version) => FieldLine::Alone(read_number(version)),
        _ => FieldLine::Alone(None),
    }
}

// `1`
fn plan_line(words: Few) -> FieldLine
    ensures { (ws : List Word) → AreFew words.entry ws → result ≡ plan_line ws }
{
    match words {
        Few::One(version) if version == b"1".as_slice() => FieldLine::Plan,
        _ => FieldLine::Other,
    }
}

// This line, where no word comes after its name.
fn alone(line: FieldLine, words: Few) -> FieldLine
    ensures { (ws : List Word) → AreFew words.entry ws → result ≡ if_alone line ws }
{
    match words {
        Few::Zero => line,
        _ => FieldLine::Other,
    }
}

// NAME VALUE, NAME K VALUE, or AT WIDTH NAME K VALUE
fn field_line(first: &[u8], words: Few) -> FieldLine
    ensures { (ws : List Word) → AreFew words.entry ws → result ≡ field_line first.now ws }
{
    match words {
        Few::One(value) => named(first, value),
        Few::Two(k, value) if read_number(k).is_some() => named(first, value),
        Few::Four(width, name, k, value)
            if read_number(first).is_some()
                && read_number(width).is_some()
                && read_number(k).is_some() => { named(name, value) }
        _ => FieldLine::Other,
    }
}

// NAME and VALUE
fn named(name: &[u8], value: &[u8]) -> FieldLine
    ensures { result ≡ named name.now value.now }
{
    if name.is_empty() {
        return FieldLine::Other;
    }
    match read_number(value) {
        Some(value) => FieldLine::Field(Var::from_bytes(name), value),
        None => FieldLine::Other,
    }
}
