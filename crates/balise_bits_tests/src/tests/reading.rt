//! Digits of each length up to a long telegram's, compared with the same bits added digit by digit.

use balise_bits::{Bits, BitsFault, hex_value};
use std::alloc::Global;
use std::process::Abort;

const LOWER: &[u8] = b"0123456789abcdef";

const UPPER: &[u8] = b"0123456789ABCDEF";

/// Bytes that are no digits: those beside the digits, and some that differ from a digit in one bit.
const WRONG: &[u8] = b"/:@G`g!&\x10\x19\xb0\xc1\xe6\0\xff";

/// Digits of no pattern, and their bits.
fn mixed_digits(rt: &impl Abort, alloc: Global, digits: &[u8], len: usize) -> (Vec<u8>, Bits) {
    assert!(rt; digits.len() == 16);
    let mut text = Vec::new(alloc);
    let mut bits = Bits::new(alloc);
    let mut number: u32 = 1;
    for _ in 0..len {
        number = number % 65537 * 75 % 65537;
        text.push(digits[number as usize % 16]).expect(rt, "memory");
        bits.push(4, number % 16).expect(rt, "memory");
    }
    (text, bits)
}

fn check_read(rt: &impl Abort, alloc: Global, digits: &[u8], len: usize) {
    let (text, bits) = mixed_digits(rt, alloc, digits, len);
    let read = Bits::digits_in_bytes(alloc, text.as_slice());
    if len % 2 == 0 {
        assert!(rt; read.expect(rt, "digits") == bits);
    } else {
        assert!(rt; read.err() == Some(BitsFault::BadHex));
    }
}

#[test]
fn digits_of_each_length_are_read(rt: HostRuntime) {
    for len in 0..211 {
        check_read(&rt, rt.alloc(), LOWER, len);
        check_read(&rt, rt.alloc(), UPPER, len);
    }
}

// That the digits are refused with this byte at this place.
fn check_wrong(rt: &impl Abort, alloc: Global, text: &mut [u8], place: usize, wrong: u8) {
    assert!(rt; place < text.len());
    let right = text[place];
    text[place] = wrong;
    let read = Bits::digits_in_bytes(alloc, text);
    assert!(rt; read.err() == Some(BitsFault::BadHex));
    text[place] = right;
}

#[test]
fn a_wrong_digit_is_refused_at_each_place(rt: HostRuntime) {
    for half in 0..106 {
        let (mut text, bits) = mixed_digits(&rt, rt.alloc(), LOWER, 2 * half);
        for place in 0..2 * half {
            let wrong = WRONG[(half + place) % 15];
            check_wrong(&rt, rt.alloc(), text.as_mut_slice(), place, wrong);
        }
        let read = Bits::digits_in_bytes(rt.alloc(), text.as_slice());
        assert!(&rt; read.expect(&rt, "digits") == bits);
    }
}

// That a byte among 32 digits is read as it is alone.
fn check_byte(rt: &impl Abort, alloc: Global, byte: u8) {
    let mut text = [b'0'; 32];
    text[7] = byte;
    let read = Bits::digits_in_bytes(alloc, &text);
    if hex_value(byte) < 16 {
        let bits = read.expect(rt, "digits");
        assert!(rt; bits.len() == 128 && bits.number(28, 4) == u32::from(hex_value(byte)));
    } else {
        assert!(rt; read.err() == Some(BitsFault::BadHex));
    }
}

#[test]
fn each_byte_is_read_or_refused(rt: HostRuntime) {
    for high in 0u8..16 {
        for low in 0u8..16 {
            check_byte(&rt, rt.alloc(), 16 * high + low);
        }
    }
}
