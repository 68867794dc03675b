//! The number and the end of the packet at a place.

ghost use Rattle.std.specs.Prelude.{◌≡◌, ◌≢◌, ◌-◌, ◌≤◌, ◌<◌, ℕ, drop, length, Err, MatchResult};
ghost use Rattle.balise_rules.specs.Packet.{read_first};
ghost use Rattle.balise_layout.specs.declared.fault.LayoutFault.TheVariants.{OutOfMemory};
ghost use Rattle.balise_layout.specs.Faults.{refusal_of};
ghost use Rattle.balise_layout.specs.First.{Bounded};

use crate::fault::LayoutFault;
use balise_bits::Bits;

/// The packet's number and the place after it, or the first fault that its first 23 bits show.
#[inline(always)]
pub fn bounds(bits: &Bits, at: usize) -> Result<(u32, usize), LayoutFault>
    ensures { MatchResult result (λ r. (at ≤ r.1) × (r.1 ≤ length bits.now) × Bounded (drop at bits.now) r.0 (r.1 - at)) (λ e. (e ≢ OutOfMemory) × ((version : ℕ) → read_first version (drop at bits.now) ≡ Err (refusal_of e))) }
{
    let left = bits.len().saturating_sub(at);
    if left < 23 {
        return Err(cut(bits, at, left));
    }
    // NID_PACKET, Q_DIR and L_PACKET
    let head = bits.number(at, 23);
    let number = head >> 15;
    if number == 0 {
        return Err(LayoutFault::PacketZero);
    }
    if number == 255 {
        return Err(LayoutFault::LayoutMismatch);
    }
    let size = (head % 8192) as usize;
    if size < 23 || left < size {
        return Err(LayoutFault::PacketCut);
    }
    Ok((number, at + size))
}

// The first fault where fewer than 23 bits are left.
fn cut(bits: &Bits, at: usize, left: usize) -> LayoutFault
    requires left { left ≡ length bits.now - at }
    requires few { left < 23 }
    ensures memory { result ≢ LayoutFault.OutOfMemory }
    ensures fault { (version : ℕ) → read_first version (drop at bits.now) ≡ Err (refusal_of result) }
{
    if left < 8 {
        return LayoutFault::PacketCut;
    }
    let number = bits.number(at, 8);
    if number == 0 {
        return LayoutFault::PacketZero;
    }
    if number == 255 {
        return LayoutFault::LayoutMismatch;
    }
    LayoutFault::PacketCut
}
