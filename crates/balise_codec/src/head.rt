//! The fault of a packet at a place of a telegram's bits.

ghost use Rattle.std.specs.Prelude.{◌≡◌, ◌≤◌, [], Some, None, drop, length, IfOk, IfSome, IfNone, IsOkUnless};
ghost use Rattle.balise_rules.specs.Packet.{length_said};
ghost use Rattle.balise_rules.specs.Bits.{num};
ghost use Rattle.balise_rules.specs.Forms.{read_form};
ghost use Rattle.balise_layout.specs.Reading.{Ends};
ghost use Rattle.balise_codec.specs.Heads.{head, HeadStops, Tells};

use crate::reach::{Reach, fields_to_fault, reached};
use crate::trace::Tracer;
use balise_bits::Bits;
use balise_layout::{LayoutFault, Walk};
use balise_rules::Var;
use std::alloc::Global;

/// The fields of the packet at a place, up to where it is refused, and what was due there. None exactly where a packet is
/// read. At the end of the bits NID_PACKET is due. Packets 0 and 255 stop after NID_PACKET, and a length below 23 or
/// past the end after L_PACKET.
pub fn packet_fault(
    alloc: Global,
    bits: &Bits,
    at: usize,
    version: u32,
) -> Result<Option<Reach>, LayoutFault>
    requires { at ≤ length bits.now }
    ensures tells { IfOk result (λ r. Tells version (drop at bits.now) at r) }
    ensures fault { IsOkUnless result LayoutFault.OutOfMemory }
{
    // The length is a number of 64 bits, so the places below are too.
    let _len = bits.len();
    if let Some(reach) = head_fault(alloc, bits, at)? {
        return Ok(Some(reach));
    }
    // L_PACKET
    let size = bits.number(at + 10, 13) as usize;
    fields_to_fault(alloc, bits, at, at + size, version)
}

// The fault in the first three fields, and how far they go up to it; none where they have none.
fn head_fault(alloc: Global, bits: &Bits, at: usize) -> Result<Option<Reach>, LayoutFault>
    requires { at ≤ length bits.now }
    ensures stops { IfOk result (λ r. IfSome r (λ x. HeadStops (drop at bits.now) at x)) }
    ensures none { IfOk result (λ r. IfNone r ((s : _) × (read_form (head (length (drop at bits.now))) [] (drop at bits.now) ≡ Some s))) }
    ensures fault { IsOkUnless result LayoutFault.OutOfMemory }
{
    let end = bits.len();
    let mut tracer = Tracer::new(alloc, bits, at, end);
    match walk_head(&mut tracer, end - at) {
        Ok(()) => Ok(None),
        Err(LayoutFault::LayoutMismatch) => Ok(Some(reached(tracer, end))),
        Err(_) => Err(LayoutFault::OutOfMemory),
    }
}

// Goes over the first three fields. `count` bits stand from the first one on.
#[tactic(auto, unfolding(crate::specs::Heads::head))]
fn walk_head<W: Walk>(walker: &mut W, count: usize) -> Result<(), LayoutFault>
    ensures { Ends W.allocates W.run (head count) walker.old result walker.new }
{
    let number = walker.take(Var::NidPacket)?;
    if number == 0 || number == 255 {
        return Err(walker.spare());
    }
    walker.take(Var::QDir)?;
    let size = walker.take(Var::LPacket)? as usize;
    if size < 23 || count < size {
        return Err(walker.spare());
    }
    walker.leave()
}
