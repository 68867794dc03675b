//! A packet from its fields, where L_PACKET may be given too.

ghost use Rattle.std.specs.Prelude.{◌≡◌, ◌≢◌, ◌+◌, ◌<◌, ◌^◌, ℕ, Some, IfErr, IfOk, IsSome};
ghost use Rattle.balise_codec.specs.declared.misfit.Misfit.{Misfit};
ghost use Rattle.balise_codec.specs.Given.{but_length, length_given, placed_fault, GivenFails, IsGivenBy};

use crate::fault::SpellFault;
use crate::spell::spell_packet;
use balise_bits::Bits;
use balise_layout::Packet;
use balise_rules::Var;
use std::alloc::{AllocError, Global};

/// The packet whose fields have these values, as `spell_packet` has it. They may name L_PACKET, in its place: then it has
/// to be the packet's length.
pub fn spell_given(
    alloc: Global,
    version: u32,
    values: &[(Var, u32)],
    rest: &Bits,
) -> Result<Packet, SpellFault>
    ensures ok { IfOk result (λ p. IsGivenBy version values.now rest.now p) }
    ensures fault { IfErr result (λ e. e ≢ SpellFault.OutOfMemory → GivenFails version values.now rest.now e) }
{
    let Some(said) = length_given(values) else {
        return spell_packet(alloc, version, values, rest);
    };
    let Ok(others) = but_length(alloc, values) else {
        return Err(SpellFault::OutOfMemory);
    };
    let packet = match spell_packet(alloc, version, &others, rest) {
        Ok(packet) => packet,
        Err(fault) => return Err(placed(fault)),
    };
    let width = packet.width();
    if width != said as usize {
        return Err(SpellFault::OtherLength(width));
    }
    Ok(packet)
}

// What L_PACKET is said to be.
fn length_given(values: &[(Var, u32)]) -> Option<u32>
    ensures { result ≡ length_given values.now }
{
    let [_, _, (var, said), ..] = values else {
        return None;
    };
    if *var == Var::LPacket {
        return Some(*said);
    }
    None
}

// The values without L_PACKET, which is the third.
fn but_length(alloc: Global, values: &[(Var, u32)]) -> Result<Vec<(Var, u32)>, AllocError>
    requires { IsSome (length_given values.now) }
    ensures { IfOk result (λ v. v.items ≡ but_length values.now) }
{
    let mut others = Vec::new(alloc);
    others.extend_from_slice(&values[..2])?;
    others.extend_from_slice(&values[3..])?;
    Ok(others)
}

// A fault with its place among the values as they are given.
fn placed(fault: SpellFault) -> SpellFault
    requires { (at : ℕ) (m : Misfit) → fault ≡ SpellFault.Misfit at m → at + 1 < 2 ^ 64 }
    ensures { (said : ℕ) → result ≡ placed_fault (Some said) fault }
{
    match fault {
        SpellFault::Misfit(at, misfit) if at >= 2 => SpellFault::Misfit(at + 1, misfit),
        fault => fault,
    }
}
