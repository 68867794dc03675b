//! A packet from its fields.

ghost use Rattle.std.specs.Prelude.{◌≡◌, ◌≢◌, ◌++◌, ◌+◌, ◌<◌, ◌≤◌, ◌^◌, ◌↔◌, ◌∷◌, [], None, IfErr, IfOk, IsOkUnless, OnOk, IsTrue, length, map};
ghost use Rattle.balise_rules.specs.Variables.{width_of};
ghost use Rattle.balise_rules.specs.Bits.{bits};
ghost use Rattle.balise_rules.specs.Packet.{Packet};
ghost use Rattle.balise_layout.specs.Collected.{all_keyed, keyed};
ghost use Rattle.balise_codec.specs.Faults.{fault_of};
ghost use Rattle.balise_codec.specs.Misfits.{first_misfit};
ghost use Rattle.balise_codec.specs.Spelling.{given, laid, said, size_of, written, AllFit, IsWritable, SpeltBy};

use crate::fault::SpellFault;
use crate::misfit::find_misfit;
use balise_bits::{Bits, BitsFault};
use balise_layout::Packet;
use balise_rules::Var;
use std::alloc::Global;

/// The packet whose fields have these values, in bit order and without L_PACKET. `rest` are the bits after its fields:
/// none where the packet is known. Otherwise the first value that isn't due there, by its place from 0, and why.
pub fn spell_packet(
    alloc: Global,
    version: u32,
    values: &[(Var, u32)],
    rest: &Bits,
) -> Result<Packet, SpellFault>
    ensures ok { IfOk result (λ p. SpeltBy version values.now rest.now p) }
    ensures none { IfErr result (λ e. e ≢ SpellFault.OutOfMemory → (p : Packet) → SpeltBy version values.now rest.now p → ⊥) }
    ensures fault { IfErr result (λ e. e ≢ SpellFault.OutOfMemory → e ≡ fault_of (first_misfit version values.now) (size_of values.now rest.now)) }
{
    if let Some((at, misfit)) = find_misfit(version, values) {
        return Err(SpellFault::Misfit(at, misfit));
    }
    spell_fitting(alloc, version, values, rest)
}

// The packet of values that fit. It writes them, reads the packet that was written, and compares its fields with them.
fn spell_fitting(
    alloc: Global,
    version: u32,
    values: &[(Var, u32)],
    rest: &Bits,
) -> Result<Packet, SpellFault>
    requires { first_misfit version values.now ≡ None }
    ensures ok { IfOk result (λ p. SpeltBy version values.now rest.now p) }
    ensures fault { IfErr result (λ e. e ≢ SpellFault.OutOfMemory → (p : Packet) → SpeltBy version values.now rest.now p → ⊥) }
    ensures kind { IfErr result (λ e. e ≢ SpellFault.OutOfMemory → e ≡ fault_of None (size_of values.now rest.now)) }
{
    let bits = match written(alloc, values, rest) {
        Ok(bits) => bits,
        Err(fault) => return Err(fault),
    };
    let packet = match Packet::read(&bits, 0, version) {
        Ok((packet, _)) => packet,
        Err(fault) => return Err(SpellFault::from(fault)),
    };
    let Ok(fields) = packet.fields() else {
        return Err(SpellFault::OutOfMemory);
    };
    if !are_given(&fields, values) {
        return Err(SpellFault::BitsLeft);
    }
    Ok(packet)
}

// The bits of values in their widths, with L_PACKET as the third and these bits last.
fn written(alloc: Global, values: &[(Var, u32)], rest: &Bits) -> Result<Bits, SpellFault>
    requires fit { AllFit values.now }
    requires two { 2 ≤ length values.now }
    ensures ok { IfOk result (λ b. IsWritable values.now rest.now × (b ≡ written values.now rest.now (size_of values.now rest.now))) }
    ensures fault { IfErr result (λ e. e ≢ SpellFault.OutOfMemory → (e ≡ SpellFault.TooLong) × (IsWritable values.now rest.now → ⊥)) }
{
    let mut bits = Bits::new(alloc);
    write_values(&mut bits, &values[..2])?;
    let at = bits.len();
    bits.push(13, 0)?;
    write_values(&mut bits, &values[2..])?;
    bits.append(rest)?;
    let size = bits.len();
    if size > 8191 {
        return Err(SpellFault::TooLong);
    }
    bits.put(at, 13, size as u32);
    Ok(bits)
}

/// Adds values at the end, each in its width. If memory runs out, the first of them may have been added.
pub fn write_values(bits: &mut Bits, values: &[(Var, u32)]) -> Result<(), BitsFault>
    requires { AllFit values.now }
    ensures ok { OnOk result (bits.new ≡ bits.old ++ laid values.now) }
    ensures fault { IsOkUnless result BitsFault.OutOfMemory }
{
    for i in 0..values.len() {
        let (var, value) = values[i];
        bits.push(var.width(), value)?;
    }
    Ok(())
}

// Whether fields have these values.
fn are_given(fields: &[(Var, u32, u32)], values: &[(Var, u32)]) -> bool
    requires { 3 ≤ length fields.now }
    ensures { IsTrue result ↔ (given (all_keyed fields.now) ≡ values.now) }
{
    let [number, direction, _, more @ ..] = fields else {
        return false;
    };
    let [first, second, others @ ..] = values else {
        return false;
    };
    is_said(*number, *first) && is_said(*direction, *second) && are_said(more, others)
}

// Whether fields have these values, with no field left out.
fn are_said(fields: &[(Var, u32, u32)], values: &[(Var, u32)]) -> bool
    ensures { IsTrue result ↔ (map said (all_keyed fields.now) ≡ values.now) }
{
    if fields.len() != values.len() {
        return false;
    }
    for i in 0..fields.len() {
        if !is_said(fields[i], values[i]) {
            return false;
        }
    }
    true
}

// Whether a field has this value.
fn is_said(field: (Var, u32, u32), value: (Var, u32)) -> bool
    ensures { IsTrue result ↔ (said (keyed field) ≡ value) }
{
    field.0 == value.0 && field.2 == value.1
}
