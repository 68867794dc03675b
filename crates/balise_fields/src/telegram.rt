//! What a telegram's bits are explained as.

ghost use Rattle.std.specs.Prelude.{◌≡◌, true, Err, IfOk, length};
ghost use Rattle.balise_rules.specs.declared.refusal.Refusal.{Refusal};
ghost use Rattle.balise_rules.specs.declared.variable.Var.TheVariants.{MVersion};
ghost use Rattle.balise_rules.specs.Packet.{value};
ghost use Rattle.balise_rules.specs.Telegram.{is_balise, read_header, read_telegram, IsLength};
ghost use Rattle.balise_fields.specs.Explaining.{IsBegun, IsBits, IsTelegramBegun, NotABalise, Stops};

use crate::explained::{Begun, DigitFault, Explained, FaultDue};
use crate::fault::FieldsFault;
use crate::packet::due_of;
use balise_bits::Bits;
use balise_codec::{
    Header, TelegramFault, Var, explain_header, explain_packets, explain_telegram, packet_fault,
    place_all,
};
use balise_rules::Refusal;
use std::alloc::Global;

/// What 210 or 830 bits are explained as.
pub(crate) fn explain_bits(alloc: Global, bits: &Bits) -> Result<Explained, FieldsFault>
    requires { IsLength (length bits.now) }
    ensures { IfOk result (IsBits bits.now) }
{
    match explain_telegram(alloc, bits) {
        Ok(telegram) => Ok(Explained::Telegram(bits.len(), telegram)),
        Err(TelegramFault::OutOfMemory) => Err(FieldsFault::OutOfMemory),
        Err(_) => explain_refused(alloc, bits),
    }
}

// Those that are no telegram's.
fn explain_refused(alloc: Global, bits: &Bits) -> Result<Explained, FieldsFault>
    requires long { IsLength (length bits.now) }
    requires refused { (e : Refusal) × (read_telegram bits.now ≡ Err e) }
    ensures { IfOk result (IsBegun (IsTelegramBegun bits.now)) }
{
    let numbers = Header::read(bits);
    if numbers.q_updown != 1 {
        return not_a_balise(alloc, bits, 0, 0, Var::QUpdown);
    }
    if numbers.q_media != 0 {
        return not_a_balise(alloc, bits, 2, 8, Var::QMedia);
    }
    explain_stop(alloc, bits, numbers.m_version)
}

// The header is another one's than a balise's, as the variable at a bit says.
fn not_a_balise(
    alloc: Global,
    bits: &Bits,
    count: usize,
    bit: usize,
    due: Var,
) -> Result<Explained, FieldsFault>
    requires { IsLength (length bits.now) }
    ensures { IfOk result (IsBegun (λ x. (x.len ≡ length bits.now) × NotABalise bits.now x count bit due)) }
{
    let mut header = explain_header(alloc, bits)?;
    header.truncate(count);
    Ok(Explained::Begun(Begun {
        len: bits.len(),
        header,
        packets: Vec::new(alloc),
        last: Vec::new(alloc),
        fault: DigitFault {
            refusal: Refusal::NotABalise,
            packet: None,
            bit,
            due: FaultDue::Field(due),
        },
    }))
}

// No packet 255 stands where the packets end.
fn explain_stop(alloc: Global, bits: &Bits, version: u32) -> Result<Explained, FieldsFault>
    requires long { IsLength (length bits.now) }
    requires balise { is_balise (read_header bits.now) ≡ true }
    requires version { version ≡ value MVersion 0 (read_header bits.now) }
    requires refused { (e : Refusal) × (read_telegram bits.now ≡ Err e) }
    ensures { IfOk result (IsBegun (λ x. (x.len ≡ length bits.now) × Stops bits.now version x)) }
{
    let len = bits.len();
    let header = explain_header(alloc, bits)?;
    let (packets, stop) = explain_packets(alloc, bits, version)?;
    let reason = stop.fault.unwrap();
    let reach = packet_fault(alloc, bits, stop.at, version)?.unwrap();
    let (last, _) = place_all(alloc, stop.at, &reach.fields)?;
    Ok(Explained::Begun(Begun {
        len,
        header,
        packets,
        last,
        fault: DigitFault {
            refusal: reason.refusal(),
            packet: Some(stop.count),
            bit: reach.at,
            due: due_of(reach.due),
        },
    }))
}
