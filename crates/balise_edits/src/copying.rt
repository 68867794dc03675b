//! Copies of values.

ghost use Rattle.std.specs.Prelude.{◌≡◌, IfOk, IsOkUnless};

use balise_plan::{Bits, Packet};
use balise_rules::{Id, Refusal};

/// A copy of a packet.
pub(crate) fn copy_packet(packet: &Packet) -> Result<Packet, Refusal>
    ensures ok { IfOk result (λ copied. copied ≡ packet.now) }
    ensures fault { IsOkUnless result Refusal.OutOfMemory }
{
    match packet.copy() {
        Ok(copied) => Ok(copied),
        Err(_) => Err(Refusal::OutOfMemory),
    }
}

/// A copy of a boxed packet.
pub(crate) fn copy_placed_packet(packet: &Box<Packet>) -> Result<Box<Packet>, Refusal>
    ensures ok { IfOk result (λ copied. copied.value ≡ packet.now.value) }
    ensures fault { IsOkUnless result Refusal.OutOfMemory }
{
    let copied = copy_packet(packet)?;
    Ok(Box::new(*Box::allocator(packet), copied)?)
}

/// A copy of the telegrams of a group.
pub(crate) fn copy_telegrams(telegrams: &Vec<Bits>) -> Result<Vec<Bits>, Refusal>
    ensures ok { IfOk result (λ copies. copies.items ≡ telegrams.now.items) }
    ensures fault { IsOkUnless result Refusal.OutOfMemory }
{
    let mut copies = Vec::with_capacity(*telegrams.allocator(), telegrams.len())?;
    for telegram in telegrams {
        copies.push(telegram.copy()?)?;
    }
    Ok(copies)
}

/// A copy of identities.
pub(crate) fn copy_names(names: &Vec<Id>) -> Result<Vec<Id>, Refusal>
    ensures ok { IfOk result (λ copies. copies.items ≡ names.now.items) }
    ensures fault { IsOkUnless result Refusal.OutOfMemory }
{
    Ok(Vec::from_slice(*names.allocator(), names)?)
}
