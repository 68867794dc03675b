//! Telegrams read from bits.

ghost use Rattle.std.specs.Prelude.{◌≡◌, ◌≢◌, ◌≤◌, IfErr, IfOk, length, drop, List, Bool, Ok, Err};
ghost use Rattle.balise_rules.specs.declared.tag.Tag.{Tag};
ghost use Rattle.balise_rules.specs.Packet.{Packet};
ghost use Rattle.balise_rules.specs.Plan.{country_of};
ghost use Rattle.balise_rules.specs.Telegram as rules;
ghost use Rattle.balise_rules.specs.Telegram.{read_packets, read_telegram};
ghost use Rattle.balise_telegram.specs.Faults.{refusal_of};
ghost use Rattle.balise_telegram.specs.Linking.{AreNamed};
ghost use Rattle.balise_telegram.specs.Packed.{IsTelegram};

use crate::fault::TelegramFault;
use crate::header::Header;
use crate::telegram::Telegram;
use crate::telegram::contents::Contents;
use crate::telegram::names::TelegramNames;
use balise_layout::{Bits, Packet};

impl Telegram {
    /// The telegram that these bits are, its packets tagged `Base` by their places, from 0. Takes no memory.
    ///
    /// Refused in this order: `BadLength`, `NotABalise`, then by the first packet that isn't one `NoEnd`, `PacketZero`,
    /// `PacketCut` or `LayoutMismatch`.
    #[inline(always)]
    pub fn of_bits(bits: Bits) -> Result<Telegram, TelegramFault>
        ensures ok { IfOk result (λ t. read_telegram bits ≡ Ok t) }
        ensures memory { IfErr result (λ e. e ≢ TelegramFault.OutOfMemory) }
        ensures fault { IfErr result (λ e. read_telegram bits ≡ Err (refusal_of e)) }
    {
        let (telegram, _names) = Telegram::named(bits)?;
        Ok(telegram)
    }

    /// The telegram that `of_bits` returns, and what its packets name: it was seen while they were checked. Takes no memory.
    /// Refused as there.
    #[inline(always)]
    pub fn named(bits: Bits) -> Result<(Telegram, TelegramNames), TelegramFault>
        ensures ok { IfOk result (λ r. read_telegram bits ≡ Ok r.0) }
        ensures names { IfOk result (λ r. AreNamed r.1 (country_of r.0) r.0.packets) }
        ensures memory { IfErr result (λ e. e ≢ TelegramFault.OutOfMemory) }
        ensures fault { IfErr result (λ e. read_telegram bits ≡ Err (refusal_of e)) }
    {
        let names = check(&bits)?;
        let telegram = Telegram {
            contents: Contents::Read(bits),
        };
        Ok((telegram, names))
    }

    /// The telegram that a copy of these bits is, as `of_bits` has it. Refused as there, and `OutOfMemory` where the
    /// copy isn't had.
    pub fn read(bits: &Bits) -> Result<Telegram, TelegramFault>
        ensures ok { IfOk result (λ t. read_telegram bits.now ≡ Ok t) }
        ensures fault { IfErr result (λ e. e ≢ TelegramFault.OutOfMemory → read_telegram bits.now ≡ Err (refusal_of e)) }
    {
        Telegram::of_bits(bits.copy()?)
    }
}

// Sees whether some bits are a telegram, and what its packets name, or the first fault. Out of line, so that the bits aren't
// moved on their way.
#[inline(never)]
fn check(bits: &Bits) -> Result<TelegramNames, TelegramFault>
    ensures ok { IfOk result (λ _. IsTelegram bits.now) }
    ensures names { IfOk result (λ names. (y : rules.Telegram) → read_telegram bits.now ≡ Ok y → AreNamed names (country_of y) y.packets) }
    ensures memory { IfErr result (λ e. e ≢ TelegramFault.OutOfMemory) }
    ensures fault { IfErr result (λ e. read_telegram bits.now ≡ Err (refusal_of e)) }
{
    if (bits.len() != 210) & (bits.len() != 830) {
        return Err(TelegramFault::BadLength);
    }
    if !Header::is_balise_in(bits) {
        return Err(TelegramFault::NotABalise);
    }
    let country = Header::identity_in(bits).country;
    let names = check_packets(bits, Header::version_in(bits), country)?;
    Ok(names)
}

// Sees whether packets stand in the bits of a telegram of this version and country, up to packet 255, and what they name, or
// the first fault.
fn check_packets(bits: &Bits, version: u32, country: u32) -> Result<TelegramNames, TelegramFault>
    requires header { 50 ≤ length bits.now }
    requires most { length bits.now ≤ 830 }
    ensures memory { IfErr result (λ e. e ≢ TelegramFault.OutOfMemory) }
    ensures ok { IfOk result (λ names. (r : List (Tag × Packet) × List Bool) × (read_packets (length bits.now) version 0 (drop 50 bits.now) ≡ Ok r) × AreNamed names country r.0) }
    ensures fault { IfErr result (λ e. read_packets (length bits.now) version 0 (drop 50 bits.now) ≡ Err (refusal_of e)) }
{
    let mut names = TelegramNames::Nothing;
    let mut count = 0;
    let mut at = 50;
    'packets: loop {
        // It reads the number too. So packet 255, which is none, is looked for only where it finds a fault.
        match Packet::check_named(bits, at, version, country) {
            Ok((end, named)) => {
                names.add(count, named);
                count += 1;
                at = end;
            }
            Err(fault) => {
                if bits.len() - at < 8 {
                    return Err(TelegramFault::NoEnd);
                }
                if bits.number(at, 8) == 255 {
                    return Ok(names);
                }
                return Err(TelegramFault::from(fault));
            }
        }
    }
}
