//! Edits whose allocations may fail: a refused one leaves the telegram, and returns the packet.
//!
//! Each test comes twice: as it is, for a run in which one growth is refused, and with ample memory, where nothing may
//! be refused. `scripts/check/test_growths.py` refuses each growth of the first in turn.

use crate::tests::packets::{EXCHANGED, ONE_PACKET, has_order, shift};
use crate::tests::put::put_beside;
use crate::tests::telegrams::TWO_PACKETS;
use balise_devices::Memory;
use balise_telegram::{Bits, Packet, PacketTag, Telegram, TelegramFault, Var};
use std::alloc::Global;
use std::process::Abort;

const FIRST: PacketTag = PacketTag::Base(0);

const SECOND: PacketTag = PacketTag::Base(1);

/// A telegram of these digits, where there is memory for it.
fn read(alloc: Global, text: &str) -> Option<Telegram> {
    let Ok(bits) = Bits::from_hex(alloc, text, 210) else {
        return None;
    };
    match Telegram::of_bits(bits) {
        Ok(telegram) => Some(telegram),
        Err(_) => None,
    }
}

/// One with the first packet alone, one with both, and one of these digits.
fn read_three(alloc: Global, text: &str) -> Option<(Telegram, Telegram, Telegram)> {
    let one = read(alloc, ONE_PACKET)?;
    let two = read(alloc, TWO_PACKETS)?;
    let telegram = read(alloc, text)?;
    Some((one, two, telegram))
}

/// Whether a telegram shows the bits of another one, and has these restrictions in order. Takes no memory.
fn is_like(telegram: &Telegram, other: &Telegram, restrictions: &[u32]) -> bool {
    (*telegram.bits() == *other.bits()) & has_order(telegram, restrictions)
}

/// Whether the packet takes back restriction 7.
fn is_second(packet: &Packet) -> bool {
    packet.field(Var::NidTsr, 0) == Some(7)
}

/// That a packet is put in last, or handed back.
fn check_put(
    rt: &impl Abort,
    telegram: &mut Telegram,
    packet: Packet,
    (one, two): (&Telegram, &Telegram),
    memory: Memory,
) {
    match put_beside(rt, telegram, true, None, SECOND, packet) {
        Ok(()) => assert!(rt; is_like(telegram, two, &[5, 7])),
        Err((fault, packet)) => {
            assert!(rt; memory == Memory::OneRefused);
            assert!(rt; fault == TelegramFault::OutOfMemory);
            assert!(rt; is_second(&packet) & is_like(telegram, one, &[5]));
        }
    }
}

/// That the second packet is taken out and put in again, or stays.
fn check_take(
    rt: &impl Abort,
    telegram: &mut Telegram,
    (one, two): (&Telegram, &Telegram),
    memory: Memory,
) {
    match telegram.take(SECOND) {
        Ok((packet, next)) => {
            assert!(rt; next.is_none() & is_like(telegram, one, &[5]));
            check_put(rt, telegram, packet, (one, two), memory);
        }
        Err(fault) => {
            assert!(rt; memory == Memory::OneRefused);
            assert!(rt; fault == TelegramFault::OutOfMemory);
            assert!(rt; is_like(telegram, two, &[5, 7]));
        }
    }
}

fn take_out(rt: &impl Abort, alloc: Global, memory: Memory) {
    let Some((one, two, mut telegram)) = read_three(alloc, TWO_PACKETS) else {
        assert!(rt; memory == Memory::OneRefused);
        return;
    };
    check_take(rt, &mut telegram, (&one, &two), memory);
}

#[test]
fn takes_a_packet_out_or_leaves_it(rt: HostRuntime) {
    take_out(&rt, rt.alloc(), Memory::OneRefused);
}

#[test]
fn takes_a_packet_out_with_ample_memory(rt: HostRuntime) {
    take_out(&rt, rt.alloc(), Memory::Ample);
}

/// The second packet, cut out.
fn second(two: &Telegram) -> Option<Packet> {
    let Some(packet) = two.packet(SECOND) else {
        return None;
    };
    match packet.to_packet() {
        Ok(packet) => Some(packet),
        Err(_) => None,
    }
}

/// Those three, with one packet in the last, and the packet that it lacks.
fn read_with_packet(alloc: Global) -> Option<(Telegram, Telegram, Telegram, Packet)> {
    let (one, two, telegram) = read_three(alloc, ONE_PACKET)?;
    let packet = second(&two)?;
    Some((one, two, telegram, packet))
}

fn put_in(rt: &impl Abort, alloc: Global, memory: Memory) {
    let Some((one, two, mut telegram, packet)) = read_with_packet(alloc) else {
        assert!(rt; memory == Memory::OneRefused);
        return;
    };
    check_put(rt, &mut telegram, packet, (&one, &two), memory);
}

#[test]
fn puts_a_packet_in_or_hands_it_back(rt: HostRuntime) {
    put_in(&rt, rt.alloc(), Memory::OneRefused);
}

#[test]
fn puts_a_packet_in_with_ample_memory(rt: HostRuntime) {
    put_in(&rt, rt.alloc(), Memory::Ample);
}

/// That the first packet is moved to the end, or stays.
fn check_shift(
    rt: &impl Abort,
    telegram: &mut Telegram,
    (two, exchanged): (&Telegram, &Telegram),
    ahead: bool,
    memory: Memory,
) {
    let beside = if ahead { None } else { Some(SECOND) };
    match shift(telegram, ahead, FIRST, beside) {
        Ok(next) => {
            assert!(rt; (next == Some(SECOND)) & is_like(telegram, exchanged, &[7, 5]));
        }
        Err(fault) => {
            assert!(rt; memory == Memory::OneRefused);
            assert!(rt; fault == TelegramFault::OutOfMemory);
            assert!(rt; is_like(telegram, two, &[5, 7]));
        }
    }
}

fn check_shifts(
    rt: &impl Abort,
    alloc: Global,
    (two, exchanged): (&Telegram, &Telegram),
    memory: Memory,
) {
    for ahead in &[false, true] {
        let Some(mut telegram) = read(alloc, TWO_PACKETS) else {
            assert!(rt; memory == Memory::OneRefused);
            return;
        };
        check_shift(rt, &mut telegram, (two, exchanged), *ahead, memory);
    }
}

fn move_on(rt: &impl Abort, alloc: Global, memory: Memory) {
    let (Some(two), Some(exchanged)) = (read(alloc, TWO_PACKETS), read(alloc, EXCHANGED)) else {
        assert!(rt; memory == Memory::OneRefused);
        return;
    };
    check_shifts(rt, alloc, (&two, &exchanged), memory);
}

#[test]
fn moves_a_packet_or_leaves_it(rt: HostRuntime) {
    move_on(&rt, rt.alloc(), Memory::OneRefused);
}

#[test]
fn moves_a_packet_with_ample_memory(rt: HostRuntime) {
    move_on(&rt, rt.alloc(), Memory::Ample);
}
