//! Parts moved over others, compared with the same bits put there from a copy, and bit by bit.

use balise_bits::Bits;
use std::alloc::Global;
use std::process::Abort;

// Bits of no pattern, so that a wrong shift shows.
pub(crate) fn mixed(rt: &impl Abort, alloc: Global, len: usize) -> Bits {
    let mut bits = Bits::new(alloc);
    let mut number: u32 = 1;
    for _ in 0..len {
        number = number % 65537 * 75 % 65537;
        bits.push(1, number % 2).expect(rt, "memory");
    }
    bits
}

fn moved(rt: &impl Abort, bits: &Bits, to: usize, at: usize, len: usize) -> Bits {
    let mut moved = bits.copy().expect(rt, "memory");
    let held = moved.len();
    assert!(rt; at <= held && len <= held - at);
    assert!(rt; to <= held && len <= held - to);
    moved.move_part(to, at, len);
    moved
}

// The bits with a part put where it is to be moved.
fn put(rt: &impl Abort, bits: &Bits, to: usize, at: usize, len: usize) -> Bits {
    let mut put = bits.copy().expect(rt, "memory");
    let (held, room) = (bits.len(), put.len());
    assert!(rt; at <= held && len <= held - at);
    assert!(rt; to <= room && len <= room - to);
    put.put_part(to, bits, at, len);
    put
}

// Every part of 71 bits, moved to every place.
#[test]
fn short_parts_are_moved(rt: HostRuntime) {
    let bits = mixed(&rt, rt.alloc(), 71);
    for len in 0..72 {
        for at in 0..72 - len {
            check_all_places(&rt, &bits, at, len);
        }
    }
}

fn check_all_places(rt: &impl Abort, bits: &Bits, at: usize, len: usize) {
    assert!(rt; len <= 71);
    for to in 0..72 - len {
        assert!(rt; moved(rt, bits, to, at, len) == put(rt, bits, to, at, len));
    }
}

pub(crate) fn bit_at(rt: &impl Abort, bits: &Bits, place: usize) -> u32 {
    assert!(rt; place < bits.len());
    bits.number(place, 1)
}

// Where the bit stood that now stands at a place.
fn place_before(rt: &impl Abort, place: usize, to: usize, at: usize, len: usize) -> usize {
    if place < to || place - to >= len {
        return place;
    }
    assert!(rt; at < 65536 && place < 65536);
    at + (place - to)
}

pub(crate) fn check_each_bit(rt: &impl Abort, bits: &Bits, to: usize, at: usize, len: usize) {
    let moved = moved(rt, bits, to, at, len);
    assert!(rt; moved.len() == bits.len());
    for place in 0..bits.len() {
        let before = place_before(rt, place, to, at, len);
        assert!(rt; bit_at(rt, &moved, place) == bit_at(rt, bits, before));
    }
}

// How many bits there are, two places, and the length of what is moved from each to the other: in a telegram of 830
// bits, and in 4,096 bits, where the bits are moved in several steps.
const MOVES: &[(usize, usize, usize, usize)] = &[
    (830, 58, 50, 772),
    (830, 146, 50, 684),
    (830, 79, 50, 751),
    (830, 51, 50, 779),
    (830, 0, 1, 829),
    (830, 400, 3, 401),
    (830, 0, 0, 830),
    (4096, 11, 3, 4000),
    (4096, 14, 3, 4001),
    (4096, 1019, 3, 3048),
    (4096, 0, 1016, 3049),
];

#[test]
fn long_parts_are_moved(rt: HostRuntime) {
    for (width, one, other, len) in MOVES {
        let bits = mixed(&rt, rt.alloc(), *width);
        check_each_bit(&rt, &bits, *one, *other, *len);
        check_each_bit(&rt, &bits, *other, *one, *len);
    }
}

// Lengths about which bits are put in another way: one number, several, bytes.
const AROUND: &[usize] = &[57, 58, 171, 172, 228, 229];

#[test]
fn parts_are_put_as_they_are_moved(rt: HostRuntime) {
    let bits = mixed(&rt, rt.alloc(), 830);
    for len in AROUND {
        for at in 0..9 {
            for to in 300..309 {
                assert!(rt; moved(&rt, &bits, to, at, *len) == put(&rt, &bits, to, at, *len));
                assert!(rt; moved(&rt, &bits, at, to, *len) == put(&rt, &bits, at, to, *len));
            }
        }
    }
}
