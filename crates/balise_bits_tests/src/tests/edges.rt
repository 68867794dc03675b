//! Parts at the lengths where another way of reading and putting begins, at each shift, compared bit by bit.

use crate::tests::moves::{bit_at, check_each_bit, mixed};
use balise_bits::Bits;
use std::alloc::Global;
use std::process::Abort;

/// Lengths around a word of 32 bits, the widest number, eight bytes, two and four numbers.
const LENGTHS: [usize; 19] = [
    0, 1, 7, 8, 9, 31, 32, 33, 56, 57, 58, 63, 64, 65, 114, 115, 227, 228, 229,
];

fn check_cut(rt: &impl Abort, bits: &Bits, at: usize, len: usize) {
    assert!(rt; at <= bits.len() && len <= bits.len() - at);
    let cut = bits.slice(at, len).expect(rt, "memory");
    assert!(rt; cut.len() == len);
    for i in 0..len {
        assert!(rt; at < 65536 && i < 65536);
        assert!(rt; bit_at(rt, &cut, i) == bit_at(rt, bits, at + i));
    }
}

#[test]
fn slices_are_cut_at_the_edges(rt: HostRuntime) {
    let bits = mixed(&rt, rt.alloc(), 240);
    for len in &LENGTHS {
        assert!(rt; *len <= 229);
        for shift in 0..8 {
            check_cut(&rt, &bits, shift, *len);
            check_cut(&rt, &bits, 240 - *len - shift, *len);
        }
    }
}

// A slice of all bits of a store that has eight bytes or fewer.
#[test]
fn small_stores_are_cut(rt: HostRuntime) {
    for len in 0..70 {
        let bits = mixed(&rt, rt.alloc(), len);
        for at in 0..len {
            check_cut(&rt, &bits, at, len - at);
        }
    }
}

// The bit that is to stand at a place once a part is put.
fn bit_after(
    rt: &impl Abort,
    old: &Bits,
    other: &Bits,
    put: (usize, usize, usize),
    place: usize,
) -> u32 {
    let (to, at, len) = put;
    if place < to || place - to >= len {
        return bit_at(rt, old, place);
    }
    assert!(rt; at < 65536 && place < 65536);
    bit_at(rt, other, at + (place - to))
}

fn check_put(rt: &impl Abort, old: &Bits, other: &Bits, to: usize, at: usize, len: usize) {
    let mut bits = old.copy().expect(rt, "memory");
    assert!(rt; at <= other.len() && len <= other.len() - at);
    assert!(rt; to <= bits.len() && len <= bits.len() - to);
    bits.put_part(to, other, at, len);
    for place in 0..old.len() {
        assert!(rt; bit_at(rt, &bits, place) == bit_after(rt, old, other, (to, at, len), place));
    }
}

// All ones, so that a bit that is wrongly kept or lost shows.
fn ones(rt: &impl Abort, alloc: Global, len: usize) -> Bits {
    let mut bits = Bits::new(alloc);
    for _ in 0..len {
        bits.push(1, 1).expect(rt, "memory");
    }
    bits
}

#[test]
fn parts_are_put_at_the_edges(rt: HostRuntime) {
    let old = ones(&rt, rt.alloc(), 240);
    let other = mixed(&rt, rt.alloc(), 237);
    for len in &LENGTHS {
        assert!(rt; *len <= 229);
        for shift in 0..8 {
            check_put(&rt, &old, &other, shift, 3, *len);
            check_put(&rt, &old, &other, 5, 237 - *len - shift, *len);
            check_put(&rt, &old, &other, 240 - *len, shift, *len);
        }
    }
}

// Stores of eight bytes or fewer, on one side or on both.
#[test]
fn parts_of_small_stores_are_put(rt: HostRuntime) {
    let long = ones(&rt, rt.alloc(), 100);
    for len in 1..66 {
        let short = mixed(&rt, rt.alloc(), len);
        let filled = ones(&rt, rt.alloc(), len);
        check_put(&rt, &long, &short, 3, 0, len);
        check_put(&rt, &short, &long, 0, 5, len);
        check_put(&rt, &filled, &short, len / 2, 0, len - len / 2);
    }
}

#[test]
fn parts_are_moved_at_the_edges(rt: HostRuntime) {
    let bits = mixed(&rt, rt.alloc(), 240);
    for len in &LENGTHS {
        for shift in 0..8 {
            check_each_bit(&rt, &bits, 1, 1 + shift, *len);
            check_each_bit(&rt, &bits, 1 + shift, 1, *len);
        }
    }
}
