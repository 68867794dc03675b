//! Each public call once, on telegrams of 210 and 830 bits.

use balise_bits::{Bits, BitsFault, Refusal, hex_value};
use std::alloc::Global;
use std::process::Abort;

// A header, packet 255 and ones after it: 210 bits and six zeros.
const SHORT: &str = "a1007f80a0327fffffffffffffffffffffffffffffffffffffffc0";

// A header, packet 255 and ones after it: 830 bits and two zeros.
const LONG: &str =
    "a1007f80a0327ffffffffffffffffffffffffffffffffffffffffffffffffffffffffffffffffffffffffffffffffffffffffffffffffffffffffffffffffffffffffffffffffffffffffffffffffffffffffffffffffffffffffffffffffffffffffffffffffffc";

pub(crate) fn check_hex(rt: &impl Abort, bits: &Bits, hex: &str) {
    let text = bits.to_hex().expect(rt, "memory");
    assert!(rt; text.as_str() == hex);
}

pub(crate) fn check_digits(rt: &impl Abort, bits: &Bits, len: usize, hex: &str) {
    assert!(rt; bits.len() == len);
    check_hex(rt, bits, hex);
}

// The bits of these digits.
fn read(rt: &impl Abort, alloc: Global, hex: &str, len: usize) -> Bits {
    Bits::from_hex(alloc, hex, len).expect(rt, "digits")
}

#[test]
fn telegrams_are_read_and_printed(rt: HostRuntime) {
    check_digits(&rt, &read(&rt, rt.alloc(), SHORT, 210), 210, SHORT);
    check_digits(&rt, &read(&rt, rt.alloc(), LONG, 830), 830, LONG)
}

// That the bits of these digits are written in place of what was written.
fn check_written(rt: &impl Abort, alloc: Global, digits: &mut Vec<u8>, hex: &str, len: usize) {
    read(rt, alloc, hex, len)
        .hex_into(digits)
        .expect(rt, "memory");
    assert!(rt; digits.as_slice() == hex.as_bytes());
}

fn check_none_written(rt: &impl Abort, alloc: Global, digits: &mut Vec<u8>) {
    Bits::new(alloc).hex_into(digits).expect(rt, "memory");
    assert!(rt; digits.is_empty());
}

#[test]
fn digits_are_written_into_a_buffer(rt: HostRuntime) {
    let mut digits = Vec::new(rt.alloc());
    check_written(&rt, rt.alloc(), &mut digits, LONG, 830);
    check_written(&rt, rt.alloc(), &mut digits, SHORT, 210);
    check_none_written(&rt, rt.alloc(), &mut digits);
}

// That reading these digits answers this fault.
fn check_refused(rt: &impl Abort, answer: Result<Bits, BitsFault>, fault: BitsFault) {
    assert!(rt; answer.err() == Some(fault));
}

#[test]
fn wrong_texts_are_refused(rt: HostRuntime) {
    let alloc = rt.alloc();
    let spare = "a1007f80a0327fffffffffffffffffffffffffffffffffffffffc1";
    let cut = "a1007f80a0327fffffffffffffffffffffffffffffffffffffff";
    let bad = "a1007f80a0327fffffffffffffffffffffffffffffffffffffffcg";
    let odd = "a1007f80a0327fffffffffffffffffffffffffffffffffffffffc";
    check_refused(&rt, Bits::from_hex(alloc, spare, 210), BitsFault::SpareBits);
    check_refused(&rt, Bits::from_hex(alloc, cut, 210), BitsFault::BadLength);
    check_refused(&rt, Bits::from_hex(alloc, bad, 210), BitsFault::BadHex);
    check_refused(&rt, Bits::from_hex(alloc, odd, 210), BitsFault::BadHex);
    assert!(rt; BitsFault::SpareBits.refusal() == Refusal::SpareBits);
    assert!(rt; Refusal::from(BitsFault::BadHex) == Refusal::BadHex);
}

#[test]
fn digits_of_both_cases_are_read(rt: HostRuntime) {
    let bits = Bits::digits(rt.alloc(), "A1007F80a0327f");
    check_digits(&rt, &bits.expect(&rt, "memory"), 56, "a1007f80a0327f");
}

#[test]
fn bytes_are_read_as_digits(rt: HostRuntime) {
    let bits = Bits::from_hex_bytes(rt.alloc(), SHORT.as_bytes(), 210);
    check_digits(&rt, &bits.expect(&rt, "memory"), 210, SHORT);
    let bits = Bits::digits_in_bytes(rt.alloc(), b"A1007F80a0327f");
    check_digits(&rt, &bits.expect(&rt, "memory"), 56, "a1007f80a0327f");
}

#[test]
fn wrong_digits_are_refused(rt: HostRuntime) {
    let alloc = rt.alloc();
    check_refused(&rt, Bits::digits(alloc, "a10"), BitsFault::BadHex);
    check_refused(&rt, Bits::digits(alloc, "a1:0"), BitsFault::BadHex);
    let answer = Bits::from_hex_bytes(alloc, b"a1\xff0", 16);
    check_refused(&rt, answer, BitsFault::BadHex);
    let answer = Bits::digits_in_bytes(alloc, b"a1\xff0");
    check_refused(&rt, answer, BitsFault::BadHex);
}

// A place, a width, and the number there.
const NUMBERS: [(usize, u32, u32); 8] = [
    (1, 7, 33),
    (17, 8, 255),
    (25, 10, 5),
    (35, 14, 100),
    (17, 32, 4278272100),
    (3, 32, 134478853),
    (178, 32, 4294967295),
    (210, 0, 0),
];

fn check_number(rt: &impl Abort, bits: &Bits, at: usize, width: u32, number: u32) {
    let len = bits.len();
    assert!(rt; width <= 32 && at <= len && width as usize <= len - at);
    let lent = bits.as_slice().number(at, width);
    assert!(rt; bits.number(at, width) == number && lent == number);
}

#[test]
fn numbers_are_read(rt: HostRuntime) {
    let bits = read(&rt, rt.alloc(), SHORT, 210);
    for (at, width, number) in &NUMBERS {
        check_number(&rt, &bits, *at, *width, *number);
    }
}

// The second number is put over the first, and over bits on either side of it.
#[test]
fn numbers_are_put(rt: HostRuntime) {
    let mut bits = read(&rt, rt.alloc(), SHORT, 210);
    assert!(rt; bits.len() == 210);
    bits.put(17, 8, 254);
    let hex = "a1007f00a0327fffffffffffffffffffffffffffffffffffffffc0";
    check_hex(&rt, &bits, hex);
    assert!(rt; bits.len() == 210);
    bits.put(7, 32, 0x12345678);
    let hex = "a02468acf0327fffffffffffffffffffffffffffffffffffffffc0";
    check_hex(&rt, &bits, hex)
}

pub(crate) fn slice(rt: &impl Abort, bits: &Bits, at: usize, len: usize) -> Bits {
    let held = bits.len();
    assert!(rt; at <= held && len <= held - at);
    bits.slice(at, len).expect(rt, "memory")
}

// A place, a length, and the digits of the bits there.
const SLICES: [(usize, usize, &str); 6] = [
    (0, 50, "a1007f80a03240"),
    (25, 24, "014064"),
    (16, 33, "7f80a03200"),
    (3, 180, "0803fc050193fffffffffffffffffffffffffffffffff0"),
    (0, 210, SHORT),
    (50, 0, ""),
];

fn check_slice(rt: &impl Abort, bits: &Bits, at: usize, len: usize, hex: &str) {
    check_hex(rt, &slice(rt, bits, at, len), hex);
}

#[test]
fn slices_are_cut(rt: HostRuntime) {
    let bits = read(&rt, rt.alloc(), SHORT, 210);
    for (at, len, hex) in &SLICES {
        check_slice(&rt, &bits, *at, *len, hex);
    }
}

// That the first `len` bits of some, and then all of them, are these digits.
fn check_joined(rt: &impl Abort, len: usize, other: &Bits, hex: &str) {
    let mut joined = slice(rt, other, 0, len);
    joined.append(other).expect(rt, "memory");
    check_hex(rt, &joined, hex);
}

#[test]
fn bits_are_joined(rt: HostRuntime) {
    let bits = read(&rt, rt.alloc(), SHORT, 210);
    let hex = "a1007f80a03268401fe0280c9ffffffffffffffffffffffffffffffffffffffff0";
    check_joined(&rt, 50, &bits, hex);
    let hex = "a1007f80a032a1007f80a0327fffffffffffffffffffffffffffffffffffffffc0";
    check_joined(&rt, 48, &bits, hex);
}

fn push_numbers(rt: &impl Abort, bits: &mut Bits) {
    bits.push(2, 1).expect(rt, "memory");
    bits.push(8, 66).expect(rt, "memory");
    bits.push(8, 0xff).expect(rt, "memory");
    check_hex(rt, bits, "a1007f80a03250bfc0");
}

fn push_zeros(rt: &impl Abort, bits: &mut Bits) {
    bits.push_zeros(20).expect(rt, "memory");
    check_hex(rt, bits, "a1007f80a03250bfc00000");
}

fn check_pushed(rt: &impl Abort, alloc: Global) {
    let mut bits = Bits::new(alloc);
    bits.push(3, 5).expect(rt, "memory");
    check_hex(rt, &bits, "a0");
}

fn append(rt: &impl Abort, bits: &mut Bits) {
    let digits = Bits::digits(bits.allocator(), "a1007f80a032").expect(rt, "memory");
    bits.append(&digits).expect(rt, "memory");
}

#[test]
fn bits_grow(rt: HostRuntime) {
    let mut bits = Bits::with_capacity(rt.alloc(), 80).expect(&rt, "memory");
    assert!(rt; bits.is_empty());
    append(&rt, &mut bits);
    push_numbers(&rt, &mut bits);
    push_zeros(&rt, &mut bits);
    check_pushed(&rt, bits.allocator());
}

// That a part is put into a copy.
fn put_part(rt: &impl Abort, other: &Bits) {
    let mut bits = other.copy().expect(rt, "memory");
    assert!(rt; other.len() == 210 && bits.len() == 210);
    bits.put_part(60, other, 9, 100);
    let hex = "a1007f80a0327ff00ff014064fffffffffffffffffffffffffffc0";
    check_hex(rt, &bits, hex);
}

#[test]
fn a_part_is_put(rt: HostRuntime) {
    let other = read(&rt, rt.alloc(), SHORT, 210);
    put_part(&rt, &other);
    check_hex(&rt, &other, SHORT)
}

// That ones put over some of 80 bits make these digits.
fn put_ones(rt: &impl Abort, bits: &mut Bits, at: usize, count: usize, hex: &str) {
    assert!(rt; bits.len() == 80 && at <= 80 && count <= 80 - at);
    bits.put_ones(at, count);
    check_hex(rt, bits, hex);
}

#[test]
fn ones_are_put(rt: HostRuntime) {
    let mut bits = Bits::new(rt.alloc());
    bits.push_zeros(80).expect(&rt, "memory");
    put_ones(&rt, &mut bits, 3, 70, "1fffffffffffffffff80");
    put_ones(&rt, &mut bits, 74, 2, "1fffffffffffffffffb0");
    put_ones(&rt, &mut bits, 76, 0, "1fffffffffffffffffb0");
}

// That the first `len` bits are the same as all of them.
fn check_same(rt: &impl Abort, bits: &Bits, len: usize) {
    assert!(rt; *bits == slice(rt, bits, 0, len));
}

// That the first `len` bits aren't the same as all of them.
fn check_other(rt: &impl Abort, bits: &Bits, len: usize) {
    assert!(rt; *bits != slice(rt, bits, 0, len));
}

// That the digits with the bits that fill them are others.
fn check_filled(rt: &impl Abort, bits: &Bits) {
    let other = Bits::digits(bits.allocator(), SHORT);
    assert!(rt; *bits != other.expect(rt, "memory"));
}

#[test]
fn bits_are_compared(rt: HostRuntime) {
    let bits = read(&rt, rt.alloc(), SHORT, 210);
    check_same(&rt, &bits, 210);
    check_other(&rt, &bits, 209);
    check_filled(&rt, &bits);
}

#[test]
fn each_byte_has_the_value_of_a_digit_or_none(rt: HostRuntime) {
    let lower = b"0123456789abcdef";
    let upper = b"0123456789ABCDEF";
    for i in 0..16 {
        assert!(rt; hex_value(lower[i]) == i as u8);
        assert!(rt; hex_value(upper[i]) == i as u8);
    }
    for byte in b"/:@G`g \0\xff" {
        assert!(rt; hex_value(*byte) > 15);
    }
}
