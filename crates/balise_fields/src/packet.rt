//! What the bits of a packet by itself are explained as.

ghost use Rattle.std.specs.Prelude.{◌≡◌, ◌≤◌, Bool, IfOk, List, Ok, length};
ghost use Rattle.balise_rules.specs.Addresses.{packet_in};
ghost use Rattle.balise_rules.specs.Packet.{Packet, length_said, read_first};
ghost use Rattle.balise_fields.specs.Explaining.{due_of, spare_fault, IsAlone, IsAloneBegun, IsAloneWhole, IsDigits};

use crate::digit_faults::{bad_length, spare_bit};
use crate::explained::{DigitFault, Explained, FaultDue};
use crate::fault::FieldsFault;
use balise_bits::Bits;
use balise_codec::{Due, Packet, PacketFields, packet_fault, packet_in, place_all};
use balise_rules::Refusal;
use std::alloc::Global;

/// What was due, as it is printed.
pub(crate) fn due_of(due: Due) -> FaultDue
    ensures { result ≡ due_of due }
{
    match due {
        Due::Field(var) => FaultDue::Field(var),
        Due::End => FaultDue::End,
        Due::Another => FaultDue::Another,
    }
}

/// What the bits of digits are explained as, a packet of this M_VERSION.
pub(crate) fn explain_alone(
    alloc: Global,
    version: u32,
    bits: &Bits,
) -> Result<Explained, FieldsFault>
    ensures { IfOk result (λ x. IsAlone version bits.now x) }
{
    match packet_in(bits, version) {
        Ok(packet) => explain_whole(alloc, version, bits, &packet),
        Err(Refusal::OutOfMemory) => Err(FieldsFault::OutOfMemory),
        Err(Refusal::BadLength) => Ok(bad_length(bits.len())),
        Err(Refusal::SpareBits) => Ok(explain_spare(bits)),
        Err(refusal) => explain_fault(alloc, version, bits, refusal),
    }
}

// A packet whose last digit has a bit that isn't zero after the packet's last.
fn explain_spare(bits: &Bits) -> Explained
    requires whole { 23 ≤ length bits.now }
    requires within { length_said bits.now ≤ length bits.now }
    ensures { IsDigits (spare_fault (length_said bits.now) bits.now) result }
{
    let size = bits.number(10, 13) as usize;
    spare_bit(bits, size)
}

// A packet that is refused.
fn explain_fault(
    alloc: Global,
    version: u32,
    bits: &Bits,
    refusal: Refusal,
) -> Result<Explained, FieldsFault>
    requires { (p : Packet) (after : List Bool) → read_first version bits.now ≡ Ok (p, after) → ⊥ }
    ensures { IfOk result (λ x. IsAloneBegun version bits.now refusal x) }
{
    // The length is a number of 64 bits, so the places of the fields are too.
    let _len = bits.len();
    let reach = packet_fault(alloc, bits, 0, version)?.unwrap();
    let (fields, _) = place_all(alloc, 0, &reach.fields)?;
    let fault = DigitFault {
        refusal,
        packet: Some(0),
        bit: reach.at,
        due: due_of(reach.due),
    };
    Ok(Explained::PacketBegun(version, fields, fault))
}

// A packet that is read.
fn explain_whole(
    alloc: Global,
    version: u32,
    bits: &Bits,
    packet: &Packet,
) -> Result<Explained, FieldsFault>
    requires { packet_in version bits.now ≡ Ok packet.now }
    ensures { IfOk result (IsAloneWhole version bits.now) }
{
    let mut all = Bits::new(alloc);
    packet.write(&mut all)?;
    let len = all.len();
    let fields = packet.fields()?;
    let (fields, next) = place_all(alloc, 0, &fields)?;
    let rest = all.slice(next, len - next)?;
    Ok(Explained::Packet(
        version,
        PacketFields {
            at: 0,
            fields,
            rest,
        },
    ))
}
