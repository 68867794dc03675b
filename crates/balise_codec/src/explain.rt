//! The fields of a telegram with their places.

ghost use Rattle.std.specs.Prelude.{◌≡◌, ◌≢◌, ◌≤◌, ◌+◌, true, List, Bool, Ok, Err, drop, length, IfErr, IfOk, IsOkUnless};
ghost use Rattle.balise_rules.specs.declared.tag.Tag.{Tag};
ghost use Rattle.balise_rules.specs.Packet.{read_first, value, width, Packet};
ghost use Rattle.balise_rules.specs.Telegram.{is_balise, read_header, read_telegram, IsLength, Telegram};
ghost use Rattle.balise_rules.specs.declared.variable.Var.TheVariants.{MVersion};
ghost use Rattle.balise_telegram.specs.Faults.{refusal_of};
ghost use Rattle.balise_codec.specs.Places.{placed, ArePlaced, Explains, IsPlaced};
ghost use Rattle.balise_codec.specs.Stops.{IsLongest, IsStop};

use crate::header::{header_fields, is_balise};
use crate::placed::{Placed, place_all};
use crate::stop::{Stop, packets_end};
use balise_bits::Bits;
use balise_layout::{LayoutFault, PacketRef};
use balise_telegram::{Header, TelegramFault};
use std::alloc::Global;

/// The fields of a packet in a telegram.
#[derive(Drop)]
pub struct PacketFields {
    /// The place of its first bit.
    pub at: usize,
    /// Its fields.
    pub fields: Vec<Placed>,
    /// The bits after them: none where the packet is known.
    pub rest: Bits,
}

/// The fields of a telegram.
#[derive(Drop)]
pub struct TelegramFields {
    /// The fields of its header.
    pub header: Vec<Placed>,
    /// Its packets.
    pub packets: Vec<PacketFields>,
    /// The place of packet 255.
    pub end: usize,
    /// The bits after packet 255.
    pub padding: Bits,
}

/// The fields of a telegram with their places, or the first fault. Refused as `Telegram::read` refuses the bits.
pub fn explain_telegram(alloc: Global, bits: &Bits) -> Result<TelegramFields, TelegramFault>
    ensures ok { IfOk result (λ t. (y : Telegram) × (read_telegram bits.now ≡ Ok y) × Explains bits.now y t) }
    ensures fault { IfErr result (λ e. e ≢ TelegramFault.OutOfMemory → read_telegram bits.now ≡ Err (refusal_of e)) }
{
    if (bits.len() != 210) & (bits.len() != 830) {
        return Err(TelegramFault::BadLength);
    }
    let header = Header::read(bits);
    if !is_balise(&header) {
        return Err(TelegramFault::NotABalise);
    }
    explain_balise(alloc, bits, header.m_version)
}

// The fields of a telegram whose length and header are a balise's.
fn explain_balise(alloc: Global, bits: &Bits, version: u32) -> Result<TelegramFields, TelegramFault>
    requires long { IsLength (length bits.now) }
    requires balise { is_balise (read_header bits.now) ≡ true }
    requires version { version ≡ value MVersion 0 (read_header bits.now) }
    ensures ok { IfOk result (λ t. (y : Telegram) × (read_telegram bits.now ≡ Ok y) × Explains bits.now y t) }
    ensures fault { IfErr result (λ e. e ≢ TelegramFault.OutOfMemory → read_telegram bits.now ≡ Err (refusal_of e)) }
{
    let header = explain_header(alloc, bits)?;
    let (packets, stop) = explain_packets(alloc, bits, version)?;
    if let Some(fault) = stop.fault {
        return Err(fault);
    }
    let end = stop.at;
    let padding = bits.slice(end + 8, bits.len() - (end + 8))?;
    Ok(TelegramFields {
        header,
        packets,
        end,
        padding,
    })
}

/// The fields of the header in the first 50 bits, whatever its values are.
pub fn explain_header(alloc: Global, bits: &Bits) -> Result<Vec<Placed>, LayoutFault>
    requires { 50 ≤ length bits.now }
    ensures ok { IfOk result (λ fields. fields.items ≡ placed 0 (read_header bits.now)) }
    ensures fault { IsOkUnless result LayoutFault.OutOfMemory }
{
    let header = Header::read(bits);
    let fields = header_fields(&header);
    let (placed, _) = place_all(alloc, 0, &fields)?;
    Ok(placed)
}

/// The fields of the packets after the header, up to where the packets end, and where that is.
pub fn explain_packets(
    alloc: Global,
    bits: &Bits,
    version: u32,
) -> Result<(Vec<PacketFields>, Stop), LayoutFault>
    requires { 50 ≤ length bits.now }
    ensures ok { IfOk result (λ r. (read : List (Tag × Packet)) × IsStop version bits.now r.1 read × ArePlaced 50 read r.0.items) }
    ensures longest { IfOk result (λ r. IsLongest version bits.now r.1.count) }
    ensures fault { IsOkUnless result LayoutFault.OutOfMemory }
{
    let stop = packets_end(bits, version);
    let packets = packets_to(alloc, bits, version, stop)?;
    Ok((packets, stop))
}

// The fields of the packets that stand there, up to packet 255 or the first fault.
fn packets_to(
    alloc: Global,
    bits: &Bits,
    version: u32,
    stop: Stop,
) -> Result<Vec<PacketFields>, LayoutFault>
    requires { (read : List (Tag × Packet)) × IsStop version bits.now stop read }
    ensures ok { IfOk result (λ r. (read : List (Tag × Packet)) → IsStop version bits.now stop read → ArePlaced 50 read r.items) }
    ensures fault { IsOkUnless result LayoutFault.OutOfMemory }
{
    let mut packets = Vec::new(alloc);
    let mut at = 50;
    for _ in 0..stop.count {
        let (packet, end) = explain_packet(alloc, bits, at, version)?;
        packets.push(packet)?;
        at = end;
    }
    Ok(packets)
}

// The fields of the packet at a place, and the place after it.
fn explain_packet(
    alloc: Global,
    bits: &Bits,
    at: usize,
    version: u32,
) -> Result<(PacketFields, usize), LayoutFault>
    requires { (p : Packet) × (after : List Bool) × (read_first version (drop at bits.now) ≡ Ok (p, after)) }
    ensures ok { IfOk result (λ r. (p : Packet) (after : List Bool) → read_first version (drop at bits.now) ≡ Ok (p, after) → IsPlaced at p r.0 × (r.1 ≡ at + width p)) }
    ensures fault { IsOkUnless result LayoutFault.OutOfMemory }
{
    // The length is a number of 64 bits, so the places below are too.
    let _len = bits.len();
    let packet = PacketRef::new(bits, at, version);
    let end = at + packet.width();
    let fields = packet.fields()?;
    let (placed, next) = place_all(alloc, at, &fields)?;
    let rest = bits.slice(next, end - next)?;
    Ok((
        PacketFields {
            at,
            fields: placed,
            rest,
        },
        end,
    ))
}
