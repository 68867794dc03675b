//! Bits far longer than a telegram's. No contract says that memory is there, so each call that takes it
//! is made with much.

use crate::tests::calls::{check_digits, check_hex, slice};
use balise_bits::Bits;
use std::alloc::Global;
use std::process::Abort;

/// 64 bits, which all texts here repeat.
const PART: &str = "0123456789abcdef";

/// The bits of that repetition from its fourth one on.
const FROM_FOURTH: &str = "091a2b3c4d5e6f78";

/// How often they are repeated: 4,096 and 65,536 digits.
const COUNTS: [usize; 2] = [256, 4096];

fn repeated(rt: &impl Abort, alloc: Global, part: &str, count: usize) -> String {
    let mut text = String::new(alloc);
    for _ in 0..count {
        text.push_str(part).expect(rt, "memory");
    }
    text
}

fn parts(rt: &impl Abort, alloc: Global, count: usize) -> Bits {
    let text = repeated(rt, alloc, PART, count);
    Bits::digits(alloc, text.as_str()).expect(rt, "memory")
}

/// That digits are read, from a text and from bytes, with a length.
fn check_long(rt: &impl Abort, alloc: Global, hex: &str, len: usize) {
    let bits = Bits::from_hex(alloc, hex, len);
    check_digits(rt, &bits.expect(rt, "digits"), len, hex);
    let bits = Bits::from_hex_bytes(alloc, hex.as_bytes(), len);
    check_digits(rt, &bits.expect(rt, "memory"), len, hex);
}

/// That they are read without a length.
fn check_whole(rt: &impl Abort, alloc: Global, hex: &str, len: usize) {
    let bits = Bits::digits(alloc, hex);
    check_digits(rt, &bits.expect(rt, "memory"), len, hex);
    let bits = Bits::digits_in_bytes(alloc, hex.as_bytes());
    check_digits(rt, &bits.expect(rt, "memory"), len, hex);
}

#[test]
fn many_digits_are_read(rt: HostRuntime) {
    for count in COUNTS {
        let text = repeated(&rt, rt.alloc(), PART, count);
        check_long(&rt, rt.alloc(), text.as_str(), 64 * count);
        check_whole(&rt, rt.alloc(), text.as_str(), 64 * count);
    }
}

/// That the bits are a part, `count` times.
fn check_repeated(rt: &impl Abort, bits: &Bits, part: &str, count: usize) {
    let text = repeated(rt, bits.allocator(), part, count);
    check_hex(rt, bits, text.as_str());
}

fn check_copy(rt: &impl Abort, bits: &Bits, count: usize) {
    let copy = bits.copy().expect(rt, "memory");
    check_repeated(rt, &copy, PART, count);
}

/// That the bits without the first three and the last 61 are a part repeated.
fn check_cut(rt: &impl Abort, bits: &Bits, count: usize) {
    assert!(rt; count > 0 && count < 65536);
    let rest = slice(rt, bits, 3, 64 * (count - 1));
    check_repeated(rt, &rest, FROM_FOURTH, count - 1);
}

#[test]
fn many_bits_are_copied_and_cut(rt: HostRuntime) {
    for count in COUNTS {
        let bits = parts(&rt, rt.alloc(), count);
        check_copy(&rt, &bits, count);
        check_cut(&rt, &bits, count);
    }
}

/// That bits are joined whole.
fn check_joined(rt: &impl Abort, bits: &Bits, rest: &Bits, twice: usize) {
    let mut joined = slice(rt, bits, 0, 3);
    joined.append(rest).expect(rt, "memory");
    joined.append(bits).expect(rt, "memory");
    check_repeated(rt, &joined, PART, twice);
}

#[test]
fn many_bits_are_joined(rt: HostRuntime) {
    for count in COUNTS {
        let bits = parts(&rt, rt.alloc(), count);
        let rest = slice(&rt, &bits, 3, 64 * count - 3);
        check_joined(&rt, &bits, &rest, 2 * count);
    }
}

/// Adds a part at the end, `count` times.
fn push_parts(rt: &impl Abort, bits: &mut Bits, count: usize) {
    for _ in 0..count {
        bits.push(32, 0x01234567).expect(rt, "memory");
        bits.push(32, 0x89abcdef).expect(rt, "memory");
    }
}

fn check_pushed(rt: &impl Abort, alloc: Global, count: usize, len: usize) {
    let mut bits = Bits::with_capacity(alloc, len).expect(rt, "memory");
    push_parts(rt, &mut bits, count);
    check_repeated(rt, &bits, PART, count);
}

fn check_zeros(rt: &impl Abort, alloc: Global, count: usize, len: usize) {
    let mut bits = Bits::new(alloc);
    bits.push_zeros(len).expect(rt, "memory");
    check_repeated(rt, &bits, "0000000000000000", count);
}

#[test]
fn many_bits_grow(rt: HostRuntime) {
    for count in COUNTS {
        check_pushed(&rt, rt.alloc(), count, 64 * count);
        check_zeros(&rt, rt.alloc(), count, 64 * count);
    }
}
