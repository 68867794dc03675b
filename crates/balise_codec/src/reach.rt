//! The fields of a packet up to its fault.

ghost use Rattle.std.specs.Prelude.{◌≡◌, ◌≤◌, ◌-◌, ◌+◌, length, take, IfOk, IsOkUnless};
ghost use Rattle.balise_rules.specs.Bits.{num, part};
ghost use Rattle.balise_layout.specs.Collected.{all_keyed};
ghost use Rattle.balise_codec.specs.Traces.{Reaches};

use crate::trace::{Due, Tracer};
use balise_bits::Bits;
use balise_layout::{LayoutFault, PacketKind};
use balise_rules::Var;
use std::alloc::Global;

/// The fields before a packet's fault.
#[derive(Drop)]
pub struct Reach {
    /// Variable, occurrence from 0, and value of each.
    pub fields: Vec<(Var, u32, u32)>,
    /// The bit where they can't go on.
    pub at: usize,
    /// What is due there.
    pub due: Due,
}

/// The fields of the bits from `at` up to `end`, up to where the packet's table can't go on. None exactly where the bits
/// are fields of a packet from the first to the last.
pub fn fields_to_fault(
    alloc: Global,
    bits: &Bits,
    at: usize,
    end: usize,
    version: u32,
) -> Result<Option<Reach>, LayoutFault>
    requires ordered { at ≤ end }
    requires within { end ≤ length bits.now }
    ensures reaches { IfOk result (λ r. Reaches version (part at (end - at) bits.now) end r) }
    ensures fault { IsOkUnless result LayoutFault.OutOfMemory }
{
    let number = number_of(bits, at, end);
    let kind = PacketKind::of(version, number);
    let mut tracer = Tracer::new(alloc, bits, at, end);
    match kind.walk(&mut tracer) {
        Ok(()) => Ok(None),
        Err(LayoutFault::LayoutMismatch) => Ok(Some(reached(tracer, end))),
        Err(_) => Err(LayoutFault::OutOfMemory),
    }
}

// The number that the bits begin with, where there are eight.
fn number_of(bits: &Bits, at: usize, end: usize) -> u32
    requires ordered { at ≤ end }
    requires within { end ≤ length bits.now }
    ensures { 8 ≤ end - at → result ≡ num (take 8 (part at (end - at) bits.now)) }
{
    if end - at < 8 {
        return 0;
    }
    bits.number(at, 8)
}

// What was found, where the bits end at this place.
pub(crate) fn reached(tracer: Tracer<'_>, end: usize) -> Reach
    requires { length tracer.left ≤ end }
    ensures at { result.at + length tracer.entry.left ≡ end }
    ensures due { result.due ≡ tracer.entry.due }
    ensures fields { all_keyed result.fields.items ≡ tracer.entry.fields }
{
    let at = end - tracer.left();
    let due = tracer.due();
    Reach {
        fields: tracer.into_fields(),
        at,
        due,
    }
}
