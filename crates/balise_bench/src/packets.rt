//! Packets of each kind read, set and written a million times, and the processor time that one takes.

use anyhow::Result;
use balise_telegram::{Bits, Packet, Var};
use std::time::CpuClock;

/// How often each call is made.
const COUNT: u32 = 1_000_000;

/// The number of packets that are written one after another before the bits are emptied.
const BATCH: u32 = 1_000;

/// A packet in digits, a variable that is set in it and the occurrence, and two values that it is given in turn.
struct Sample {
    name: &'static str,
    digits: &'static str,
    var: Var,
    occurrence: u32,
    values: (u32, u32),
}

const SAMPLES: [Sample; 8] = [
    Sample {
        name: "5, of 46 fields",
        digits: "0542748064802032230a01960100cb8c00cd00c06646006700cf8c00d101406846006980c034e300",
        var: Var::QLocacc,
        occurrence: 5,
        values: (12, 13),
    },
    Sample {
        name: "5",
        digits: "0540ec812c80c03223020640032630",
        var: Var::NidBg,
        occurrence: 1,
        values: (100, 150),
    },
    Sample {
        name: "21",
        digits: "15409c800082840963fc",
        var: Var::GA,
        occurrence: 1,
        values: (255, 7),
    },
    Sample {
        name: "27",
        digits: "1b40fa80002810659224107d062180f0",
        var: Var::VDiff,
        occurrence: 2,
        values: (30, 31),
    },
    Sample {
        name: "41",
        digits: "2940b2806421200c82000a00",
        var: Var::LAckleveltr,
        occurrence: 1,
        values: (20, 22),
    },
    Sample {
        name: "65",
        digits: "41408e8280c8025810",
        var: Var::VTsr,
        occurrence: 0,
        values: (8, 127),
    },
    Sample {
        name: "66",
        digits: "42403e0a",
        var: Var::NidTsr,
        occurrence: 0,
        values: (5, 9),
    },
    Sample {
        name: "44, which isn't known",
        digits: "2c0041a5",
        var: Var::QDir,
        occurrence: 0,
        values: (0, 1),
    },
];

/// The processor time so far, in microseconds.
pub(crate) fn now(rt: &impl CpuClock) -> Result<u128> {
    Ok(rt.process_cpu_time()?.as_micros())
}

fn read_all(rt: &impl CpuClock, bits: &Bits) -> Result<u128> {
    let begin = now(rt)?;
    for _ in 0..COUNT {
        let _read = Packet::read(bits, 0, 33)?;
    }
    Ok(now(rt)?.saturating_sub(begin))
}

fn set_all(rt: &impl CpuClock, packet: &mut Packet, sample: &Sample) -> Result<u128> {
    let begin = now(rt)?;
    for _ in 0..COUNT / 2 {
        packet.set_field(sample.var, sample.occurrence, sample.values.1)?;
        packet.set_field(sample.var, sample.occurrence, sample.values.0)?;
    }
    Ok(now(rt)?.saturating_sub(begin))
}

fn write_all(rt: &(impl CpuClock + AllocGlobal), packet: &Packet) -> Result<u128> {
    let begin = now(rt)?;
    for _ in 0..COUNT / BATCH {
        let mut bits = Bits::new(rt.alloc());
        for _ in 0..BATCH {
            packet.write(&mut bits)?;
        }
    }
    Ok(now(rt)?.saturating_sub(begin))
}

fn show_times(
    rt: &(impl Print + AllocGlobal + CpuClock),
    bits: &Bits,
    packet: &mut Packet,
    sample: &Sample,
) -> Result<()> {
    let read = read_all(rt, bits)? / 1000;
    let set = set_all(rt, packet, sample)? / 1000;
    let write = write_all(rt, packet)? / 1000;
    let name = sample.name;
    println!(rt; "{read} {set} {write} packet {name}")?;
    Ok(())
}

/// Prints the nanoseconds that one call takes, for each kind of packet.
pub fn run(rt: &(impl Print + AllocGlobal + CpuClock)) -> Result<()> {
    rt.println("nanoseconds for one packet: read, set, write")?;
    for sample in &SAMPLES {
        let bits = Bits::digits(rt.alloc(), sample.digits)?;
        let (mut packet, _) = Packet::read(&bits, 0, 33)?;
        show_times(rt, &bits, &mut packet, sample)?;
    }
    Ok(())
}
