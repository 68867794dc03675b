//! The bits of a telegram as it is given.

ghost use Rattle.std.specs.Prelude.{◌≡◌, ◌∷◌, ◌++◌, IfErr, IfOk, IsOkUnless, OnOk};
ghost use Rattle.balise_items.specs.Reasons.{Adds, Stops};
ghost use Rattle.balise_items.specs.Telegrams.{front_of, has_end, head_of, header_of, is_balise_given, padded, telegram_of, version_given};

use crate::header::header_misfit;
use crate::item::Item;
use crate::packets::{add_packet, add_packets, line_of};
use crate::place::Place;
use crate::reason::{Bad, Reason, Stop, reason_of};
use crate::section::Section;
use balise_bits::Bits;
use balise_codec::{Var, write_values};
use std::alloc::Global;

// Adds the bits of a header.
fn add_header(bits: &mut Bits, section: &Section) -> Result<(), Stop>
    ensures ok { OnOk result (Adds bits.old bits.new (header_of section.now)) }
    ensures stop { IfErr result (Stops (header_of section.now)) }
{
    let values = section.values();
    if let Some((place, misfit)) = header_misfit(values) {
        return Err(Stop::Bad(Bad {
            line: line_of(section, place),
            reason: reason_of(misfit),
        }));
    }
    write_values(bits, values)?;
    Ok(())
}

// M_VERSION.
fn version_in(values: &[(Var, u32)]) -> u32
    ensures { result ≡ version_given values.now }
{
    match values {
        [_, (_, version), ..] => *version,
        _ => 0,
    }
}

// Whether Q_UPDOWN is 1 and Q_MEDIA is 0.
fn is_balise(values: &[(Var, u32)]) -> bool
    ensures { result ≡ is_balise_given values.now }
{
    match values {
        [(_, updown), _, (_, media), ..] => *updown == 1 && *media == 0,
        _ => false,
    }
}

// The header among the sections of a telegram.
fn head_of<'a>(before: &'a [Section], last: &'a Section) -> &'a Section
    ensures { result.now ≡ head_of before.now last.now }
{
    match before {
        [head, ..] => head,
        [] => last,
    }
}

// Adds the bits of a header, of packets and of the last packet.
fn add_all(bits: &mut Bits, head: &Section, packets: &[Section], last: &Section) -> Result<(), Stop>
    ensures ok { OnOk result (Adds bits.old bits.new (front_of (head.now ∷ packets.now) last.now)) }
    ensures stop { IfErr result (Stops (front_of (head.now ∷ packets.now) last.now)) }
{
    let version = version_in(head.values());
    if let Err(stop) = add_header(bits, head) {
        return Err(stop);
    }
    if let Err(stop) = add_packets(bits, version, packets) {
        return Err(stop);
    }
    if let Err(stop) = add_packet(bits, version, last) {
        return Err(stop);
    }
    Ok(())
}

// Adds the bits of a header and of the packets after it.
fn add_front(bits: &mut Bits, before: &[Section], last: &Section) -> Result<(), Stop>
    ensures ok { OnOk result (Adds bits.old bits.new (front_of before.now last.now)) }
    ensures stop { IfErr result (Stops (front_of before.now last.now)) }
{
    match before {
        [] => add_header(bits, last),
        [head, packets @ ..] => add_all(bits, head, packets, last),
    }
}

// Whether the lines have come to packet 255.
fn has_end(place: Place) -> bool
    ensures { result ≡ has_end place }
{
    match place {
        Place::End | Place::Padding => true,
        _ => false,
    }
}

// Adds the padding that is given. If none is given, adds ones up to this number of bits.
fn add_padding(bits: &mut Bits, padding: &Bits, due: usize) -> Result<(), Stop>
    ensures ok { OnOk result (bits.new ≡ padded due padding.now bits.old) }
    ensures fault { IsOkUnless result Stop.OutOfMemory }
{
    if !padding.is_empty() {
        bits.append(padding)?;
        return Ok(());
    }
    let at = bits.len();
    let count = due.saturating_sub(at);
    bits.push_zeros(count)?;
    bits.put_ones(at, count);
    Ok(())
}

/// The bits of a telegram whose lines end before the line of this number.
pub(crate) fn spell_telegram(alloc: Global, item: &Item, end: u32) -> Result<Bits, Stop>
    ensures ok { IfOk result (λ b. telegram_of end item.now ≡ Ok b) }
    ensures stop { IfErr result (Stops (telegram_of end item.now)) }
{
    let mut bits = Bits::new(alloc);
    let due = item.number as usize;
    let head = head_of(&item.before, &item.last);
    let line = u64::from(head.line());
    add_front(&mut bits, &item.before, &item.last)?;
    if !has_end(item.place) {
        return Err(Stop::Bad(Bad {
            line: u64::from(end),
            reason: Reason::NoEnd,
        }));
    }
    bits.push(8, 255)?;
    add_padding(&mut bits, &item.padding, due)?;
    let len = bits.len();
    if len != due {
        return Err(Stop::Bad(Bad {
            line,
            reason: Reason::BadLength(len),
        }));
    }
    if !is_balise(head.values()) {
        return Err(Stop::Bad(Bad {
            line,
            reason: Reason::NotABalise,
        }));
    }
    Ok(bits)
}
