//! A packet by itself, in the bits of digits.

ghost use Rattle.std.specs.Prelude.{◌≡◌, ◌≢◌, IfErr, IfOk, Ok, Err};
ghost use Rattle.balise_rules.specs.Addresses.{packet_in};

use balise_layout::{Bits, Packet};
use balise_rules::Refusal;

/// The packet in the bits of digits by themselves, for a telegram of this M_VERSION. The digits are just the bytes that
/// its L_PACKET needs, with zeros after it (SUBSET-026, 7.4.2 and 7.5.1).
///
/// Refused in this order: `PacketCut` where fewer than 8 bits are there, `PacketZero`, `LayoutMismatch` for packet 255,
/// `PacketCut`, `BadLength`, `SpareBits`, `LayoutMismatch`. `OutOfMemory` may stand in place of any answer.
pub fn packet_in(digits: &Bits, version: u32) -> Result<Packet, Refusal>
    ensures ok { IfOk result (λ x. packet_in version digits.now ≡ Ok x) }
    ensures fault { IfErr result (λ r. r ≢ Refusal.OutOfMemory → packet_in version digits.now ≡ Err r) }
{
    let len = digits.len();
    if len < 8 {
        return Err(Refusal::PacketCut);
    }
    let number = digits.number(0, 8);
    if number == 0 {
        return Err(Refusal::PacketZero);
    }
    if number == 255 {
        return Err(Refusal::LayoutMismatch);
    }
    if len < 23 {
        return Err(Refusal::PacketCut);
    }
    let said = digits.number(10, 13) as usize;
    if said < 23 || len < said {
        return Err(Refusal::PacketCut);
    }
    if len != said + (8 - said % 8) % 8 {
        return Err(Refusal::BadLength);
    }
    if digits.number(said, (len - said) as u32) != 0 {
        return Err(Refusal::SpareBits);
    }
    match Packet::read(digits, 0, version) {
        Ok((packet, _)) => Ok(packet),
        Err(fault) => Err(fault.refusal()),
    }
}
