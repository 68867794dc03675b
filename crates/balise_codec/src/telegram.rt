//! A telegram from its fields.

ghost use Rattle.std.specs.Prelude.{◌≡◌, ◌≢◌, ◌++◌, ℕ, List, None, Some, IfErr, IfOk, OnOk};
ghost use Rattle.balise_rules.specs.declared.variable.Var.{Var};
ghost use Rattle.balise_rules.specs.declared.tag.Tag.{Tag};
ghost use Rattle.balise_rules.specs.Forms.{spelling};
ghost use Rattle.balise_rules.specs.Packet.{Packet};
ghost use Rattle.balise_rules.specs.Telegram.{packets_bits, TaggedFrom, Telegram};
ghost use Rattle.balise_layout.specs.Collected.{all_keyed};
ghost use Rattle.balise_telegram.specs.HeaderFields.{fields_in};
ghost use Rattle.balise_codec.specs.declared.fault.SpellFault.{SpellFault};
ghost use Rattle.balise_codec.specs.Telegrams.{too_wide, AreSpelt, FailsAt, IsOf, Refuses};

use crate::fault::SpellFault;
use crate::header::{header_fields, is_balise};
use crate::spell::spell_packet;
use balise_bits::{Bits, BitsFault};
use balise_layout::LayoutFault;
use balise_rules::Var;
use balise_telegram::Header;
use std::alloc::{AllocError, Global};
use thiserror::Error;

/// What a packet is made of.
#[derive(Drop)]
pub struct PacketValues {
    /// The values of its fields in bit order, without L_PACKET.
    pub values: Vec<(Var, u32)>,
    /// The bits after its fields: none where it is known.
    pub rest: Bits,
}

/// Why fields aren't a telegram's.
#[derive(Clone, Copy, Debug, Error, PartialEq, Eq)]
pub enum TelegramMisfit {
    #[error("a number of the header doesn't fit its width")]
    Header(Var),
    #[error("the fields of a packet aren't due, don't fit, or are too long")]
    Packet(usize, SpellFault),
    #[error("a telegram has 210 or 830 bits")]
    BadLength(usize),
    #[error("the header isn't from track to train, or isn't a balise's")]
    NotABalise,
    #[error("out of memory")]
    OutOfMemory,
}

/// The bits of a telegram with this header, packets of these values, packet 255 and these bits after it. Or the first
/// reason why there is none: a number of the header, then a packet by its place from 0, then the number of bits that the
/// telegram would have, then `NotABalise`.
pub fn spell_telegram(
    alloc: Global,
    header: &Header,
    packets: &[PacketValues],
    padding: &Bits,
) -> Result<Bits, TelegramMisfit>
    ensures ok { IfOk result (λ b. (y : Telegram) × IsOf (fields_in header.now) packets.now padding.now b y) }
    ensures fault { IfErr result (λ e. e ≢ TelegramMisfit.OutOfMemory → Refuses (fields_in header.now) packets.now padding.now e) }
{
    let mut bits = Bits::new(alloc);
    write_fields(&mut bits, &header_fields(header))?;
    add_packets(&mut bits, header.m_version, packets)?;
    bits.push(8, 255)?;
    bits.append(padding)?;
    let len = bits.len();
    if (len != 210) & (len != 830) {
        return Err(TelegramMisfit::BadLength(len));
    }
    if !is_balise(header) {
        return Err(TelegramMisfit::NotABalise);
    }
    Ok(bits)
}

// Adds fields at the end, or the first variable that a value is too wide for.
fn write_fields(bits: &mut Bits, fields: &[(Var, u32, u32)]) -> Result<(), TelegramMisfit>
    ensures ok { OnOk result ((bits.new ≡ bits.old ++ spelling (all_keyed fields.now)) × (too_wide (all_keyed fields.now) ≡ None)) }
    ensures fault { IfErr result (λ e. e ≢ TelegramMisfit.OutOfMemory → (v : Var) × (e ≡ TelegramMisfit.Header v) × (too_wide (all_keyed fields.now) ≡ Some v)) }
{
    for i in 0..fields.len() {
        let (var, _, value) = fields[i];
        if value >> var.width() != 0 {
            return Err(TelegramMisfit::Header(var));
        }
        bits.push(var.width(), value)?;
    }
    Ok(())
}

// Adds packets at the end, or the first that isn't one.
fn add_packets(
    bits: &mut Bits,
    version: u32,
    packets: &[PacketValues],
) -> Result<(), TelegramMisfit>
    ensures ok { OnOk result ((ps : List (Tag × Packet)) × AreSpelt version packets.now ps × TaggedFrom 0 ps × (bits.new ≡ bits.old ++ packets_bits ps)) }
    ensures fault { IfErr result (λ e. e ≢ TelegramMisfit.OutOfMemory → (i : ℕ) × (f : SpellFault) × (e ≡ TelegramMisfit.Packet i f) × FailsAt version packets.now i f) }
{
    let alloc = bits.allocator();
    for i in 0..packets.len() {
        let values = &packets[i];
        let packet = match spell_packet(alloc, version, &values.values, &values.rest) {
            Ok(packet) => packet,
            Err(fault) => return Err(at_packet(i, fault)),
        };
        packet.write(bits)?;
    }
    Ok(())
}

// The fault of the packet at a place.
fn at_packet(i: usize, fault: SpellFault) -> TelegramMisfit
    ensures { result ≢ TelegramMisfit.OutOfMemory → (fault ≢ SpellFault.OutOfMemory) × (result ≡ TelegramMisfit.Packet i fault) }
{
    match fault {
        SpellFault::OutOfMemory => TelegramMisfit::OutOfMemory,
        _ => TelegramMisfit::Packet(i, fault),
    }
}

impl From<AllocError> for TelegramMisfit {
    ghost use Rattle.balise_codec.specs.declared.telegram.TelegramMisfit.TheVariants.{OutOfMemory};

    ghost from_gives = { λ _ e. e ≡ OutOfMemory };

    fn from(_e: AllocError) -> TelegramMisfit {
        TelegramMisfit::OutOfMemory
    }
}

/// The calls of bits that are made here fail only where memory runs out.
impl From<BitsFault> for TelegramMisfit {
    ghost use Rattle.balise_codec.specs.declared.telegram.TelegramMisfit.TheVariants.{OutOfMemory};

    ghost from_gives = { λ _ e. e ≡ OutOfMemory };

    fn from(_e: BitsFault) -> TelegramMisfit {
        TelegramMisfit::OutOfMemory
    }
}

/// A packet is written unless memory runs out.
impl From<LayoutFault> for TelegramMisfit {
    ghost use Rattle.balise_codec.specs.declared.telegram.TelegramMisfit.TheVariants.{OutOfMemory};

    ghost from_gives = { λ _ e. e ≡ OutOfMemory };

    fn from(_e: LayoutFault) -> TelegramMisfit {
        TelegramMisfit::OutOfMemory
    }
}
